//! The condition of an entry, as a list of literals.

ghost use Rattle.std.specs.Prelude.{◌≡◌, ◌==◌, ◌++◌, ◌∷◌, [], IfOk, OnOk, map, slice_get, unwrap_or};
ghost use Rattle.std.specs.Option.{option_and_then, option_map};
ghost use Rattle.std.specs.List.{find, flat_map};
ghost use Rattle.acpi_name.specs.Paths.{parent_of};
ghost use Rattle.acpi_tree.specs.TermView.{term_view};
ghost use Rattle.acpi_outline.specs.View.{node_view};
ghost use Rattle.acpi_conditions.specs.EntryForms.{entry_view};
ghost use Rattle.acpi_conditions.specs.Turns.{turn_of};
ghost use Rattle.acpi_ranges.specs.Lookup.{found_of};
ghost use Rattle.acpi_survey.specs.SurveyOrder.{AllTile};
ghost use Rattle.acpi_entries.specs.Condition.{asked, asked_if, asked_within, free, has, needs, condition, entry_at, literal_at, node_predicate, predicate_at, predicate_of, turn_literals};
ghost use Rattle.acpi_entries.specs.ConditionViews.{literal_view, placed_views};
ghost use Rattle.acpi_survey.specs.SurveyOrder.{IsInOrder};

use crate::placed::{entry_at, scope_at};
use acpi_conditions::{Entry, Turn};
use acpi_name::{Name, Path};
use acpi_outline::{Fixed, Node};
use acpi_ranges::{Site, Span, SpanContent, entry_numbered, part_at, site_of};
use acpi_survey::Survey;
use acpi_tree::Term;
use std::alloc::AllocError;

/// One thing that has to be so for a term to declare its object (ACPI 6.5, 5.3 and 19.6).
#[derive(Debug, Drop)]
pub enum Literal<'a> {
    /// An If took its first branch. The term is its predicate, which may be lost.
    If(Option<&'a Term>),
    /// An If didn't take its first branch. The term is its predicate, which may be lost; an Else behind no If has none.
    Not(Option<&'a Term>),
    /// A While went into its body. The term is its predicate.
    While(Option<&'a Term>),
    /// A Return, Break or Continue wasn't come to.
    Past,
    /// A scope stands at this path.
    Has(Path),
    /// Nothing stands at this path.
    No(&'a Path),
    /// This name is found.
    Needs(&'a Name),
}

/// A literal, and where it comes from.
#[derive(Debug, Drop)]
pub struct PlacedLiteral<'a> {
    /// What has to be so.
    pub literal: Literal<'a>,
    /// Where the If, the While, the stop or the term that asks stands. An Else behind no If stands for its If.
    pub site: Site,
}

fn test_of(node: &Node) -> Option<&Term>
    ensures { option_map (λ t. term_view t.now) result
        ≡ node_predicate (node_view node.now) }
{
    match node {
        Node::Holds(fixed, _) => match fixed {
            Fixed::If(test) => Some(test),
            Fixed::While(test) => Some(test),
            _ => None,
        },
        _ => None,
    }
}

// The predicate of a part that is an If or a While.
fn test_in<'a>(part: Option<Span<'a>>) -> Option<&'a Term>
    ensures { option_map (λ t. term_view t.now) result
        ≡ option_and_then (λ s. option_and_then predicate_of (found_of s)) part.entry }
{
    let found = part?;
    match found.what {
        SpanContent::Node(node) => test_of(node),
        SpanContent::Element(_, _, _) => None,
        SpanContent::Lost(_) => None,
    }
}

fn put<'a>(
    literals: &mut Vec<PlacedLiteral<'a>>,
    place: u128,
    literal: Literal<'a>,
) -> Result<(), AllocError>
    ensures { OnOk result (placed_views literals.new.items
        ≡ placed_views literals.old.items ++ literal_at place (literal_view literal.entry) ∷ []) }
{
    literals.push(PlacedLiteral {
        literal,
        site: site_of(place),
    })?;
    Ok(())
}

fn parent(path: &Path) -> Result<Path, AllocError>
    ensures { IfOk result (λ p. p ≡ parent_of path.now) }
{
    let mut parent = path.copy()?;
    let _ = parent.pop();
    Ok(parent)
}

fn put_has<'a>(literals: &mut Vec<PlacedLiteral<'a>>, entry: &'a Entry) -> Result<(), AllocError>
    ensures { OnOk result (placed_views literals.new.items ≡ placed_views literals.old.items
        ++ asked_if entry.now.asks.has entry.now.term.place (has (parent_of entry.now.path))) }
{
    if entry.asks.has {
        return put(
            literals,
            entry.term.place,
            Literal::Has(parent(&entry.path)?),
        );
    }
    Ok(())
}

fn put_free<'a>(literals: &mut Vec<PlacedLiteral<'a>>, entry: &'a Entry) -> Result<(), AllocError>
    ensures { OnOk result (placed_views literals.new.items ≡ placed_views literals.old.items
        ++ asked_if entry.now.asks.no entry.now.term.place (free entry.now.path)) }
{
    if entry.asks.no {
        return put(literals, entry.term.place, Literal::No(&entry.path));
    }
    Ok(())
}

fn put_needs<'a>(
    literals: &mut Vec<PlacedLiteral<'a>>,
    place: u128,
    names: &'a [Name],
) -> Result<(), AllocError>
    ensures { OnOk result (placed_views literals.new.items ≡ placed_views literals.old.items
        ++ map (λ n. literal_at place (needs n)) names.now) }
{
    'each: for name in names {
        put(literals, place, Literal::Needs(name))?;
    }
    Ok(())
}

// Puts what an entry asks behind others.
fn put_asks<'a>(literals: &mut Vec<PlacedLiteral<'a>>, entry: &'a Entry) -> Result<(), AllocError>
    ensures { OnOk result (placed_views literals.new.items
        ≡ placed_views literals.old.items ++ asked (entry_view [] entry.now)) }
{
    put_has(literals, entry)?;
    put_free(literals, entry)?;
    put_needs(literals, entry.term.place, &entry.asks.needs)
}

/// The predicate of the If or While at a place (ACPI 6.5, 20.2.5.3), if one stands there.
pub fn test_at(survey: &Survey, place: u128) -> Option<&Term>
    ensures { AllTile survey.now.tables.items → option_map (λ t. term_view t.now) result
        ≡ predicate_at survey.now.tables.items place }
{
    test_in(part_at(survey, place))
}

// Puts what the term or the Scope at a place asks behind others.
fn put_within<'a>(
    survey: &'a Survey,
    literals: &mut Vec<PlacedLiteral<'a>>,
    place: u128,
) -> Result<(), AllocError>
    ensures { IsInOrder survey.now → OnOk result (placed_views literals.new.items
        ≡ placed_views literals.old.items ++ asked_within place
        (find (λ o. o.0 == place) survey.now.reading.opened)
        (entry_at survey.now.reading.walk.entries place)) }
{
    if let Some(scope) = scope_at(survey.opened(), place) {
        return put(literals, place, Literal::Has(scope.path.copy()?));
    }
    match entry_at(survey.entries(), place) {
        Some(entry) => put_asks(literals, entry),
        None => Ok(()),
    }
}

// Puts the literals of a turn behind others.
fn put_turn<'a>(
    survey: &'a Survey,
    literals: &mut Vec<PlacedLiteral<'a>>,
    turn: Turn,
) -> Result<(), AllocError>
    ensures { IsInOrder survey.now → OnOk result (placed_views literals.new.items
        ≡ placed_views literals.old.items ++ turn_literals survey.now.tables.items
        survey.now.reading.opened survey.now.reading.walk.entries (turn_of turn)) }
{
    match turn {
        Turn::Then(place) => put(literals, place, Literal::If(test_at(survey, place))),
        Turn::Else(place) => put(literals, place, Literal::Not(test_at(survey, place))),
        Turn::Round(place) => put(literals, place, Literal::While(test_at(survey, place))),
        Turn::Within(place) => put_within(survey, literals, place),
        Turn::Past(place) => put(literals, place, Literal::Past),
    }
}

// The condition of an entry.
fn literals_of<'a>(
    survey: &'a Survey,
    entry: &'a Entry,
    turns: &[Turn],
) -> Result<Vec<PlacedLiteral<'a>>, AllocError>
    ensures { IsInOrder survey.now → IfOk result (λ v. placed_views v.items
        ≡ flat_map (turn_literals survey.now.tables.items survey.now.reading.opened
        survey.now.reading.walk.entries) (map turn_of turns.now)
        ++ asked (entry_view [] entry.now)) }
{
    let mut literals = Vec::new(survey.memory());
    'each: for turn in turns {
        put_turn(survey, &mut literals, *turn)?;
    }
    put_asks(&mut literals, entry)?;
    Ok(literals)
}

/// The condition of the entry of that number: what the turns of control on its way to the term say, in their order,
/// and then what the term itself asks.
pub fn condition_of(survey: &Survey, number: usize) -> Result<Vec<PlacedLiteral<'_>>, AllocError>
    ensures { IsInOrder survey.now → IfOk result (λ v. placed_views v.items
        ≡ unwrap_or (option_map (condition survey.now.tables.items survey.now.reading.opened
        survey.now.reading.walk.entries) (slice_get survey.now.reading.walk.entries number)) []) }
{
    let entries = survey.entries();
    let Some(entry) = entry_numbered(entries, number) else {
        return Ok(Vec::new(survey.memory()));
    };
    let turns = entries.ways.turns(entry.way)?;
    literals_of(survey, entry, &turns)
}
