//! Methods whose values calls read.

ghost use Rattle.std.specs.Prelude.{◌≡◌, ◌++◌, ℕ, IfOk, OnOk};
ghost use Rattle.std.specs.Borrow.{Bor};
ghost use Rattle.std.specs.List.{list_any};
ghost use Rattle.std.specs.Option.{option_copied};
ghost use Rattle.acpi_entries.specs.ConditionViews.{link_view};
ghost use Rattle.acpi_kinds.specs.Views.{kind_view};
ghost use Rattle.acpi_locals.specs.Callables.{entry_object, is_method as is_method_object};
ghost use Rattle.acpi_locals.specs.LocalViews.{name_view, name_views};
ghost use Rattle.acpi_module_uses.specs.NameViews.{name_view as module_view};
ghost use Rattle.acpi_ranges.specs.Index.{entered_in, refusals_in};
ghost use Rattle.acpi_ranges.specs.steps.Indexes.{index_entered, index_refusals};
ghost use Rattle.acpi_survey.specs.SurveyOrder.{IsInOrder};
ghost use Rattle.acpi_tree.specs.TermView.{term_view, terms_tree};
ghost use Rattle.acpi_tree.specs.declared.term.Term.{Term as TermForm};
ghost use Rattle.acpi_method_reads.specs.Reads.{has_return, if_method, is_return, method_meant, only_entry, only_one, only_path, read_at, read_if, reads_by, reads_of_module_name, reads_of_name, reads_of_names, reads_of_table};

use acpi_entries::Link;
use acpi_locals::{BodyName, Callables};
use acpi_module_uses::{ModuleName, names_of_table};
use acpi_name::Path;
use acpi_objects::{ObjectKind, object_kind};
use acpi_ranges::{PlaceIndex, part_of};
use acpi_survey::Survey;
use acpi_tree::{Op, Term};
use acpi_uses::statements_of;
use std::alloc::{AllocError, Global};

/// A method whose value a call reads, and where the call stands.
#[derive(Debug, Clone, Copy)]
pub struct MethodRead {
    /// In a body the line of the call, from 1; at module level the place of its node: the table's number times 2^64, and the
    /// number of bytes of the table's code before it.
    pub place: u128,
    /// The number of the entry of the method.
    pub method: usize,
}

// ---- the method that a name means alone

// The only path at which a name may be found, where that is certain.
fn only_path<'l>(link: &'l Link<'_>) -> Option<&'l Path>
    ensures { option_copied result ≡ only_path (link_view link.now) }
{
    match link.paths.as_slice() {
        [path] if link.is_certain => Some(path),
        _ => None,
    }
}

fn only_number(numbers: &[usize]) -> Option<usize>
    ensures { result ≡ only_one numbers.now }
{
    match numbers {
        [number] => Some(*number),
        _ => None,
    }
}

// The only entry at that path.
fn only_entry(survey: &Survey, link: &Link<'_>) -> Result<Option<usize>, AllocError>
    ensures { IfOk result (λ n. n
        ≡ only_entry survey.now.reading.walk.entries (link_view link.now)) }
{
    match only_path(link) {
        Some(path) => Ok(only_number(&survey.at(path)?)),
        None => Ok(None),
    }
}

fn is_method(kind: &ObjectKind<'_>) -> bool
    ensures { result ≡ is_method_object (kind_view kind.now) }
{
    match kind {
        ObjectKind::Method(_) => true,
        _ => false,
    }
}

fn if_method(survey: &Survey, number: usize) -> Option<usize>
    ensures { IsInOrder survey.now → result ≡ if_method survey.now number }
{
    if is_method(&object_kind(part_of(survey, number), number)) {
        return Some(number);
    }
    None
}

// The method that a name means alone, if it means one.
fn method_meant(survey: &Survey, link: &Link<'_>) -> Result<Option<usize>, AllocError>
    ensures { IsInOrder survey.now
        → IfOk result (λ n. n ≡ method_meant survey.now (link_view link.now)) }
{
    match only_entry(survey, link)? {
        Some(number) => Ok(if_method(survey, number)),
        None => Ok(None),
    }
}

// Puts what a call at a place reads behind others.
fn put_read(
    reads: &mut Vec<MethodRead>,
    survey: &Survey,
    link: &Link<'_>,
    place: u128,
) -> Result<(), AllocError>
    ensures { IsInOrder survey.now → OnOk result (reads.new.items
        ≡ reads.old.items ++ read_at survey.now place (link_view link.now)) }
{
    if let Some(method) = method_meant(survey, link)? {
        reads.push(MethodRead { place, method })?;
    }
    Ok(())
}

// ---- in bodies

// Whether a name calls a method for its value.
fn reads_by(survey: &Survey, callables: &Callables, name: &BodyName<'_>) -> Result<bool, AllocError>
    ensures { IfOk result (λ b. b ≡ reads_by survey.now callables.now (name_view name.now)) }
{
    if name.is_local {
        return Ok(false);
    }
    let is_method = callables.names_method(survey, name)?;
    Ok(name.role.reads_value(is_method))
}

fn put_name(
    reads: &mut Vec<MethodRead>,
    survey: &Survey,
    callables: &Callables,
    name: &BodyName<'_>,
) -> Result<(), AllocError>
    ensures { IsInOrder survey.now → OnOk result (reads.new.items
        ≡ reads.old.items ++ reads_of_name survey.now callables.now (name_view name.now)) }
{
    if reads_by(survey, callables, name)? {
        return put_read(reads, survey, &name.link, name.line as u128);
    }
    Ok(())
}

/// The methods whose values calls read, of the names in a body, line by line: each where the call means that method alone,
/// whatever its condition (ACPI 6.5, 19.6.83). Nothing reads the value of a statement.
pub fn reads_of_names(
    survey: &Survey,
    callables: &Callables,
    names: &[BodyName<'_>],
) -> Result<Vec<MethodRead>, AllocError>
    ensures { IsInOrder survey.now → IfOk result (λ v. v.items
        ≡ reads_of_names survey.now callables.now (name_views names.now)) }
{
    let mut reads = Vec::new(survey.memory());
    'each: for name in names {
        put_name(&mut reads, survey, callables, name)?;
    }
    Ok(reads)
}

// ---- at module level

fn put_module_name(
    reads: &mut Vec<MethodRead>,
    survey: &Survey,
    name: &ModuleName<'_>,
) -> Result<(), AllocError>
    ensures { IsInOrder survey.now → OnOk result (reads.new.items
        ≡ reads.old.items ++ reads_of_module_name survey.now (module_view name.now)) }
{
    if name.role.reads_value(name.is_method) {
        return put_read(reads, survey, &name.link, name.place);
    }
    Ok(())
}

/// The methods whose values calls at module level of a table read, each where the call means that method alone. The index is that
/// of the survey.
pub fn reads_of_table(
    survey: &Survey,
    index: &PlaceIndex<'_>,
    callables: &Callables,
    table: usize,
) -> Result<Vec<MethodRead>, AllocError>
    ensures { IsInOrder survey.now
        → ((number place : ℕ) → index_entered index.now number place
        ≡ entered_in survey.now.reading number place)
        → ((place : ℕ) → index_refusals index.now place ≡ refusals_in survey.now.reading place)
        → IfOk result (λ v. v.items ≡ reads_of_table survey.now callables.now table) }
{
    let mut reads = Vec::new(survey.memory());
    let names = names_of_table(survey, index, callables, table)?;
    'each: for name in &names {
        put_module_name(&mut reads, survey, name)?;
    }
    Ok(reads)
}

// ---- Returns

fn is_return(term: &Term) -> bool
    ensures { result ≡ is_return (term_view term.now) }
{
    match term {
        Term::Op(op, _) => matches!(op, Op::Return),
        _ => false,
    }
}

fn any_returns(statements: &[&Term]) -> bool
    ensures { result
        ≡ list_any (λ (t : Bor TermForm). is_return (term_view t.now)) statements.now }
{
    statements.iter().any(|s| is_return(s))
}

/// Whether a Return stands in a body (ACPI 6.5, 19.6.121).
pub fn has_return(alloc: Global, body: &[Term]) -> Result<bool, AllocError>
    ensures { IfOk result (λ b. b ≡ has_return (terms_tree body.now)) }
{
    let statements = statements_of(alloc, body)?;
    Ok(any_returns(&statements))
}
