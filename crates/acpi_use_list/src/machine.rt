//! The uses of names in the tables of a survey.

ghost use Rattle.std.specs.Prelude.{◌≡◌, ◌++◌, IfOk, OnOk, length};
ghost use Rattle.acpi_tree.specs.TermView.{terms_tree};
ghost use Rattle.acpi_survey.specs.SurveyOrder.{IsInOrder};
ghost use Rattle.acpi_locals.specs.LocalViews.{name_view};
ghost use Rattle.acpi_module_uses.specs.NameViews.{name_view as module_view};
ghost use Rattle.acpi_use_list.specs.Uses.{AreUses, method_site, uses_of_body, uses_of_bodies, uses_of_module_name, uses_of_name, uses_of_table, uses_of_tables, uses_of_terms};
ghost use Rattle.acpi_use_list.specs.steps.Indexes.{IsIndexOf};

use crate::roles::use_role;
use crate::uses::{Use, UseSite, put_uses};
use acpi_entries::{BodyReading, MethodBody};
use acpi_locals::{BodyName, Callables, names_of_body};
use acpi_module_uses::{ModuleName, names_of_table};
use acpi_ranges::{PlaceIndex, index_of};
use acpi_survey::Survey;
use acpi_tree::Term;
use std::alloc::AllocError;

// ---- at module level

// Puts the uses of a name at module level behind others.
fn put_module_name(found: &mut Vec<Use>, name: &ModuleName<'_>) -> Result<(), AllocError>
    ensures { OnOk result (found.new.items
        ≡ found.old.items ++ uses_of_module_name (module_view name.now)) }
{
    let role = use_role(name.role, name.is_method);
    put_uses(found, &name.link, role, UseSite::Node { place: name.place })
}

// Puts those of the names in the nodes of a table behind others.
fn put_table(
    found: &mut Vec<Use>,
    survey: &Survey,
    index: &PlaceIndex<'_>,
    callables: &Callables,
    table: usize,
) -> Result<(), AllocError>
    ensures { IsInOrder survey.now → IsIndexOf survey.now index.now → OnOk result (found.new.items
        ≡ found.old.items ++ uses_of_table survey.now callables.now table) }
{
    let names = names_of_table(survey, index, callables, table)?;
    'each: for name in &names {
        put_module_name(found, name)?;
    }
    Ok(())
}

// Puts those of all tables behind others.
fn put_tables(
    found: &mut Vec<Use>,
    survey: &Survey,
    callables: &Callables,
) -> Result<(), AllocError>
    ensures { IsInOrder survey.now → OnOk result (found.new.items ≡ found.old.items
        ++ uses_of_tables survey.now callables.now (length survey.now.tables.items)) }
{
    let index = index_of(survey)?;
    'each: for table in 0..survey.tables.len() {
        put_table(found, survey, &index, callables, table)?;
    }
    Ok(())
}

// ---- in bodies

// Where a line of the body of a method stands.
fn line_site(survey: &Survey, method: usize, line: usize) -> UseSite
    ensures { result ≡ method_site survey.now method line }
{
    let place = match survey.entry(method) {
        Some(entry) => entry.term.place,
        None => 0,
    };
    UseSite::Line {
        method,
        place,
        line,
    }
}

// Puts the uses of a name in a body behind others.
fn put_body_name(
    found: &mut Vec<Use>,
    survey: &Survey,
    callables: &Callables,
    name: &BodyName<'_>,
) -> Result<(), AllocError>
    ensures { OnOk result (found.new.items
        ≡ found.old.items ++ uses_of_name survey.now callables.now (name_view name.now)) }
{
    let role = use_role(name.role, callables.names_method(survey, name)?);
    let site = line_site(survey, name.method, name.line);
    put_uses(found, &name.link, role, site)
}

// Puts those of the names in the body of the entry of that number behind others.
fn put_terms(
    found: &mut Vec<Use>,
    survey: &Survey,
    callables: &Callables,
    number: usize,
    terms: &[Term],
) -> Result<(), AllocError>
    ensures { OnOk result (found.new.items
        ≡ found.old.items ++ uses_of_terms survey.now callables.now number (terms_tree terms.now)) }
{
    let names = names_of_body(survey, number, terms)?;
    'each: for name in &names {
        put_body_name(found, survey, callables, name)?;
    }
    Ok(())
}

// Puts those of the entry of that number behind others, if its body is read.
fn put_body(
    found: &mut Vec<Use>,
    survey: &Survey,
    callables: &Callables,
    number: usize,
    body: &Option<MethodBody<'_>>,
) -> Result<(), AllocError>
    ensures { OnOk result (found.new.items
        ≡ found.old.items ++ uses_of_body survey.now callables.now number body.now) }
{
    let Some(body) = body else {
        return Ok(());
    };
    match &body.reading {
        BodyReading::Terms(terms) => put_terms(found, survey, callables, number, terms),
        BodyReading::Opaque { .. } => Ok(()),
    }
}

// Puts those of all bodies behind others.
fn put_bodies(
    found: &mut Vec<Use>,
    survey: &Survey,
    callables: &Callables,
    bodies: &[Option<MethodBody<'_>>],
) -> Result<(), AllocError>
    ensures { OnOk result (found.new.items
        ≡ found.old.items ++ uses_of_bodies survey.now callables.now 0 bodies.now) }
{
    'each: for number in 0..bodies.len() {
        put_body(found, survey, callables, number, &bodies[number])?;
    }
    Ok(())
}

// ---- all

/// The uses of names in the tables of a survey: those at module level, table by table, and then those in the bodies of
/// methods that are read. Each stands where its name does among those of its table or its body.
pub fn uses_of_machine(
    survey: &Survey,
    bodies: &[Option<MethodBody<'_>>],
) -> Result<Vec<Use>, AllocError>
    ensures { IsInOrder survey.now → IfOk result (λ v. AreUses survey.now bodies.now v.items) }
{
    let callables = Callables::new(survey)?;
    let mut found = Vec::new(survey.memory());
    put_tables(&mut found, survey, &callables)?;
    put_bodies(&mut found, survey, &callables, bodies)?;
    Ok(found)
}
