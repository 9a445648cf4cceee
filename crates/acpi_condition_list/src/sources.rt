//! What the literals of conditions come from.

ghost use Rattle.std.specs.Prelude.{◌≡◌, ◌==◌, ◌++◌, ◌∷◌, [], ◌+◌, ◌<◌, Some, IfSome, OnOk, true, cond, drop, length, map, slice_get};
ghost use Rattle.std.specs.List.{find};
ghost use Rattle.std.specs.List.Sorted.{IsNonDecreasingBy};
ghost use Rattle.std.specs.Option.{option_and_then};
ghost use Rattle.acpi_conditions.specs.Entries.{Entry as EntryParts};
ghost use Rattle.acpi_conditions.specs.Turns.{turn_of};
ghost use Rattle.acpi_conditions.specs.declared.entry.Entry.{Entry as EntryForm};
ghost use Rattle.acpi_entries.specs.Condition.{asked_by, asked_within, entry_at, turn_literals};
ghost use Rattle.acpi_survey.specs.Predefined.{predefined_count};
ghost use Rattle.acpi_survey.specs.SurveyOrder.{IsInOrder};
ghost use Rattle.acpi_survey.specs.declared.remarks.OpenedScope.{OpenedScope as ScopeForm};
ghost use Rattle.acpi_ranges.specs.steps.PlacedItems.{if_there};
ghost use Rattle.acpi_condition_list.specs.ConditionLists.{entry_numbered, source_literal};
ghost use Rattle.acpi_condition_list.specs.declared.sources.LiteralSource.TheVariants as variants;
ghost use Rattle.acpi_condition_list.specs.steps.Growing.{needs_literal};

use acpi_conditions::{Entry, Turn};
use acpi_name::Name;
use acpi_ranges::entry_numbered;
use acpi_survey::{OpenedScope, PREDEFINED, Survey};
use std::alloc::AllocError;

/// What a literal of a condition comes from: a turn of control, or what a Scope or a term asks (ACPI 6.5, 5.3 and 19.6).
/// A place is a table's number times 2^64, and the number of bytes of the table's code before it.
#[derive(Debug, Clone, Copy, PartialEq, Eq, PartialOrd, Ord)]
pub enum LiteralSource {
    /// The first branch of the If there is taken.
    If(u128),
    /// It isn't.
    Not(u128),
    /// A round of the While there is begun.
    While(u128),
    /// The stop there isn't come to.
    Past(u128),
    /// The Scope of this number, among those that are entered, asks for its target.
    Target(usize),
    /// The term of the entry of this number asks for a scope at the parent of its path.
    Has(usize),
    /// The term of the entry of this number asks that nothing stand at its path.
    No(usize),
    /// The term of the entry of the first number asks for the name of the second number among those that it asks for.
    Needs(usize, usize),
}

/// Whether two are the same.
pub(crate) fn is_same(one: LiteralSource, other: LiteralSource) -> bool
    ensures { result ≡ true → one ≡ other }
{
    match (one, other) {
        (LiteralSource::If(p), LiteralSource::If(q)) => p == q,
        (LiteralSource::Not(p), LiteralSource::Not(q)) => p == q,
        (LiteralSource::While(p), LiteralSource::While(q)) => p == q,
        (LiteralSource::Past(p), LiteralSource::Past(q)) => p == q,
        (LiteralSource::Target(n), LiteralSource::Target(m)) => n == m,
        (LiteralSource::Has(n), LiteralSource::Has(m)) => n == m,
        (LiteralSource::No(n), LiteralSource::No(m)) => n == m,
        (LiteralSource::Needs(n, i), LiteralSource::Needs(m, j)) => n == m && i == j,
        _ => false,
    }
}

// Puts that the term of the entry of that number asks for these names behind others.
fn put_needs(
    survey: &Survey,
    sources: &mut Vec<LiteralSource>,
    number: usize,
    names: &[Name],
) -> Result<(), AllocError>
    ensures { (e : EntryParts) → entry_numbered survey.now number ≡ Some e
        → e.asks.needs ≡ names.now → OnOk result (map (source_literal survey.now) sources.new.items
        ≡ map (source_literal survey.now) sources.old.items
        ++ map (needs_literal e) names.now) }
{
    'each: for name in 0..names.len() {
        sources.push(LiteralSource::Needs(number, name))?;
    }
    Ok(())
}

fn put_if(
    sources: &mut Vec<LiteralSource>,
    is_put: bool,
    source: LiteralSource,
) -> Result<(), AllocError>
    ensures { OnOk result (sources.new.items
        ≡ sources.old.items ++ cond is_put (source ∷ []) []) }
{
    if is_put {
        sources.push(source)?;
    }
    Ok(())
}

/// Puts what the term of the entry of that number asks behind others.
pub(crate) fn put_asks(
    survey: &Survey,
    sources: &mut Vec<LiteralSource>,
    number: usize,
) -> Result<(), AllocError>
    ensures { OnOk result (map (source_literal survey.now) sources.new.items
        ≡ map (source_literal survey.now) sources.old.items
        ++ map (λ l. Some l) (asked_by (entry_numbered survey.now number))) }
{
    let Some(entry) = entry_numbered(survey.entries(), number) else {
        return Ok(());
    };
    put_if(sources, entry.asks.has, LiteralSource::Has(number))?;
    put_if(sources, entry.asks.no, LiteralSource::No(number))?;
    put_needs(survey, sources, number, &entry.asks.needs)?;
    Ok(())
}

// The number of a Scope, if it stands at the place.
fn scope_there(scopes: &[OpenedScope], number: usize, place: u128) -> Option<usize>
    ensures within { IfSome result (λ n. n < length scopes.now) }
    ensures there { option_and_then (λ n. slice_get scopes.now n) result
        ≡ option_and_then (if_there (λ (o : ScopeForm). o.place) place)
        (slice_get scopes.now number) }
{
    let scope = scopes.get(number)?;
    if scope.place == place {
        Some(number)
    } else {
        None
    }
}

// The number of the Scope that is entered at a place.
fn scope_at(scopes: &[OpenedScope], place: u128) -> Option<usize>
    ensures within { IfSome result (λ n. n < length scopes.now) }
    ensures first { IsNonDecreasingBy (λ (o : ScopeForm). o.place) scopes.now
        → option_and_then (λ n. slice_get scopes.now n) result
        ≡ find (λ (o : ScopeForm). o.place == place) scopes.now }
{
    let number = scopes.partition_point(|scope| scope.place < place);
    scope_there(scopes, number, place)
}

// The entries of tables.
fn table_entries(entries: &[Entry]) -> &[Entry]
    ensures { result.now ≡ drop predefined_count entries.now }
{
    &entries[PREDEFINED.min(entries.len())..]
}

// The number of an entry, if it stands at the place.
fn entry_there(entries: &[Entry], number: usize, place: u128) -> Option<usize>
    ensures within { IfSome result (λ n. n < length entries.now) }
    ensures there { option_and_then (λ n. slice_get entries.now n) result
        ≡ option_and_then (if_there (λ (e : EntryForm). e.term.place) place)
        (slice_get entries.now number) }
{
    let entry = entries.get(number)?;
    if entry.term.place == place {
        Some(number)
    } else {
        None
    }
}

// The number, among the entries of tables, of the first at a place.
fn entry_at(entries: &[Entry], place: u128) -> Option<usize>
    ensures within { IfSome result (λ n. n < length entries.now) }
    ensures first { IsNonDecreasingBy (λ (e : EntryForm). e.term.place) entries.now
        → option_and_then (λ n. slice_get entries.now n) result
        ≡ find (λ (e : EntryForm). e.term.place == place) entries.now }
{
    let number = entries.partition_point(|entry| entry.term.place < place);
    entry_there(entries, number, place)
}

// The number of an entry, by its number among those of tables.
fn number_in(entries: &[Entry], number: usize) -> usize
    requires { number < length (drop predefined_count entries.now) }
    ensures { result ≡ number + predefined_count }
{
    entries.len() - table_entries(entries).len() + number
}

// Puts what the term at a place asks behind others.
fn put_asked_at(
    survey: &Survey,
    sources: &mut Vec<LiteralSource>,
    place: u128,
) -> Result<(), AllocError>
    ensures { IsInOrder survey.now → OnOk result (map (source_literal survey.now) sources.new.items
        ≡ map (source_literal survey.now) sources.old.items
        ++ map (λ l. Some l) (asked_by (entry_at survey.now.reading.walk.entries place))) }
{
    let entries = survey.entries().paths.entries();
    match entry_at(table_entries(entries), place) {
        Some(number) => put_asks(survey, sources, number_in(entries, number)),
        None => Ok(()),
    }
}

// Puts what the Scope of that number asks behind others.
fn put_target(
    survey: &Survey,
    sources: &mut Vec<LiteralSource>,
    number: usize,
) -> Result<(), AllocError>
    ensures { OnOk result (map (source_literal survey.now) sources.new.items
        ≡ map (source_literal survey.now) sources.old.items
        ++ source_literal survey.now (variants.Target number) ∷ []) }
{
    sources.push(LiteralSource::Target(number))?;
    Ok(())
}

// Puts what the Scope or the term at a place asks behind others.
fn put_within(
    survey: &Survey,
    sources: &mut Vec<LiteralSource>,
    place: u128,
) -> Result<(), AllocError>
    ensures { IsInOrder survey.now → OnOk result (map (source_literal survey.now) sources.new.items
        ≡ map (source_literal survey.now) sources.old.items
        ++ map (λ l. Some l) (asked_within place
        (find (λ o. o.0 == place) survey.now.reading.opened)
        (entry_at survey.now.reading.walk.entries place))) }
{
    match scope_at(survey.opened(), place) {
        Some(number) => put_target(survey, sources, number),
        None => put_asked_at(survey, sources, place),
    }
}

/// Puts what a turn says behind others.
pub(crate) fn put_turn(
    survey: &Survey,
    sources: &mut Vec<LiteralSource>,
    turn: Turn,
) -> Result<(), AllocError>
    ensures { IsInOrder survey.now → OnOk result (map (source_literal survey.now) sources.new.items
        ≡ map (source_literal survey.now) sources.old.items
        ++ map (λ l. Some l) (turn_literals survey.now.tables.items survey.now.reading.opened
        survey.now.reading.walk.entries (turn_of turn))) }
{
    let source = match turn {
        Turn::Then(place) => LiteralSource::If(place),
        Turn::Else(place) => LiteralSource::Not(place),
        Turn::Round(place) => LiteralSource::While(place),
        Turn::Past(place) => LiteralSource::Past(place),
        Turn::Within(place) => return put_within(survey, sources, place),
    };
    sources.push(source)?;
    Ok(())
}
