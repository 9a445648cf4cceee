//! The methods whose bodies load or unload tables.

ghost use Rattle.std.specs.Prelude.{◌≡◌, ◌↔◌, ◌++◌, ◌∷◌, [], true, if◌then◌else◌, IfOk, OnOk};
ghost use Rattle.std.specs.Option.{option_and_then, option_map};
ghost use Rattle.acpi_entries.specs.EntryBodies.{method_code};
ghost use Rattle.acpi_ranges.specs.EntryParts.{part_declaring};
ghost use Rattle.acpi_ranges.specs.Lookup.{found_of};
ghost use Rattle.acpi_survey.specs.SurveyOrder.{AllTile};
ghost use Rattle.acpi_body_notes.specs.LoadNotes.{AreLoading, LoadsTables};
ghost use Rattle.acpi_body_notes.specs.steps.LoadCodes.{body_loads, code_holds_load};

use crate::load_bytes::holds_load;
use crate::loads::have_load;
use acpi_entries::{BodyReading, MethodBody, body_of};
use acpi_outline::{Fixed, Node};
use acpi_ranges::{Span, SpanContent, part_of};
use acpi_survey::Survey;
use std::alloc::{AllocError, Global};

// Whether the opcode of LoadTable, Load or Unload may stand in the code of the method that a part declares.
fn part_holds_load(part: &Span<'_>) -> bool
    ensures { result ≡ code_holds_load (option_and_then method_code (found_of part.now)) }
{
    match part.what {
        SpanContent::Node(Node::Closed(Fixed::Method(_, _), code)) => holds_load(code),
        _ => false,
    }
}

// The same of the entry of that number: a body without such an opcode need not be read.
fn may_load(survey: &Survey, number: usize) -> bool
    ensures { AllTile survey.now.tables.items
        → result ≡ code_holds_load (option_and_then method_code (part_declaring
        survey.now.tables.items survey.now.reading.walk.entries number)) }
{
    match part_of(survey, number) {
        Some(part) => part_holds_load(&part),
        None => false,
    }
}

// Whether a body, if there is one, is read and loads or unloads a table.
fn body_loads(body: &Option<MethodBody<'_>>) -> bool
    ensures { result ≡ body_loads body.now }
{
    match body {
        Some(body) => match &body.reading {
            BodyReading::Terms(terms) => have_load(terms),
            BodyReading::Opaque { .. } => false,
        },
        None => false,
    }
}

/// Whether the entry of that number is a method whose body is read and loads or unloads a table.
pub fn loads_tables(survey: &Survey, number: usize) -> Result<bool, AllocError>
    ensures { AllTile survey.now.tables.items
        → IfOk result (λ loads. (loads ≡ true) ↔ (LoadsTables survey.now number)) }
{
    if may_load(survey, number) {
        let body = body_of(survey, number)?;
        Ok(body_loads(&body))
    } else {
        Ok(false)
    }
}

// Puts the number behind others, if it is wanted.
fn put_if(found: &mut Vec<usize>, number: usize, is_wanted: bool) -> Result<(), AllocError>
    ensures { OnOk result (found.new.items
        ≡ (if is_wanted then found.old.items ++ number ∷ [] else found.old.items)) }
{
    if is_wanted {
        found.push(number)?;
    }
    Ok(())
}

/// The numbers, in order, of the entries that are methods whose bodies are read and load or unload tables.
pub fn loading_methods(alloc: Global, survey: &Survey) -> Result<Vec<usize>, AllocError>
    ensures { AllTile survey.now.tables.items
        → IfOk result (λ v. AreLoading survey.now v.items) }
{
    let mut found = Vec::new(alloc);
    let entries = survey.entries().paths.entries();
    'each: for number in 0..entries.len() {
        let is_loading = loads_tables(survey, number)?;
        put_if(&mut found, number, is_loading)?;
    }
    Ok(found)
}
