//! The bodies of methods.

ghost use Rattle.std.specs.Prelude.{◌≡◌, ◌++◌, List, Option, map, IfOk, OnOk};
ghost use Rattle.std.specs.List.{AllZip};
ghost use Rattle.acpi_survey.specs.SurveyOrder.{IsInOrder};
ghost use Rattle.acpi_entries.specs.declared.body.MethodBody.{MethodBody as MethodBodyForm};
ghost use Rattle.acpi_conditions.specs.ByPath.{lent_pair};
ghost use Rattle.acpins_survey_output.specs.Shown.{IsBodyListing, body_lines, verdict_line};
ghost use Rattle.acpins_survey_reasons.specs.Numbered.{IsBodyAt, zip_text};
ghost use Rattle.acpins_survey_output.specs.Bodies.{body_text, method_line};

use acpi_entries::{BodyReading, MethodBody, body_of};
use acpi_name::Path;
use acpi_survey::Survey;
use acpi_text::{put_decimal, put_opaque, put_path, put_terms};
use acpins_survey_reasons::put_body_reason;
use std::alloc::{AllocError, Global};
use text_buffer::Text;

/// Puts the statements of a body, a line for each; or its bytes, and why and where they can't be read.
pub(crate) fn put_body(text: &mut Text, body: &MethodBody<'_>)
    ensures { text.new ≡ text.old ++ body_text body.now }
{
    match &body.reading {
        BodyReading::Terms(terms) => put_terms(text, terms),
        BodyReading::Opaque {
            reason,
            place,
            name,
        } => {
            put_opaque(text, body.code);
            text.put("At ");
            put_decimal(text, *place as u64);
            text.put(": ");
            put_body_reason(text, *reason, name);
            text.put("\n")
        }
    }
}

// The line of a method: its path, and whether its body is read, or why and where it isn't.
fn put_method(text: &mut Text, path: &Path, body: &MethodBody<'_>)
    ensures { text.new ≡ text.old ++ method_line path.now body.now }
{
    put_path(text, path);
    match &body.reading {
        BodyReading::Terms(_) => text.put(" terms\n"),
        BodyReading::Opaque {
            reason,
            place,
            name,
        } => {
            text.put(" opaque ");
            put_body_reason(text, *reason, name);
            text.put(" at ");
            put_decimal(text, *place as u64);
            text.put("\n")
        }
    }
}

/// Puts the lines of a body, if there is one.
pub(crate) fn put_some_body(text: &mut Text, body: &Option<MethodBody<'_>>)
    ensures { text.new ≡ text.old ++ body_lines body.now }
{
    match body {
        Some(body) => put_body(text, body),
        None => {},
    }
}

// The line of a method, if there is a body.
fn put_some_method(text: &mut Text, numbered: (&Path, usize), body: &Option<MethodBody<'_>>)
    ensures { text.new ≡ text.old ++ verdict_line (lent_pair numbered.entry) body.now }
{
    match body {
        Some(body) => put_method(text, numbered.0, body),
        None => {},
    }
}

// A line for each of these entries that is a method of a table.
fn put_methods(text: &mut Text, survey: &Survey, order: &[(&Path, usize)]) -> Result<(), AllocError>
    ensures { IsInOrder survey.now → OnOk result ((bs : List (Option MethodBodyForm))
        × AllZip (λ x b. IsBodyAt survey.now x.1 b) (map lent_pair order.now) bs
        × (text.new ≡ text.old
        ++ zip_text verdict_line (map lent_pair order.now) bs)) }
{
    for numbered in order {
        let body = body_of(survey, numbered.1)?;
        put_some_method(text, *numbered, &body);
    }
    Ok(())
}

/// A line for each method of a table, in the order of the paths, those of one path by their places.
pub fn bodies(alloc: Global, survey: &Survey) -> Result<Vec<u8>, AllocError>
    ensures { IsInOrder survey.now → IfOk result (λ text. IsBodyListing survey.now text.items) }
{
    let order = survey.entries().paths.by_path()?;
    let mut text = Text::new(alloc);
    put_methods(&mut text, survey, &order)?;
    text.into_bytes()
}
