//! Entries, and the objects that bodies declare, line by line.

use acpi_condition_list::{ConditionedEntry, conditions_of};
use acpi_entries::bodies_of;
use acpi_findings::Findings;
use acpi_locals::LocalObject;
use acpi_name::Path;
use acpi_survey::Survey;
use acpi_text::put_path;
use acpi_use_list::locals_of_machine;
use acpins_survey_output::{StepText, put_conditioned, put_found, put_kind, put_links, step_texts};
use std::alloc::{AllocError, Global};
use text_buffer::Text;

// Puts the line of an object that a body declares: as that of an entry, whose condition is that the method runs.
fn put_local(text: &mut Text, survey: &Survey, object: &LocalObject<'_>) {
    put_path(text, &object.path);
    text.put(" ");
    put_kind(text, &object.object);
    put_links(text, &object.object, &object.links);
    text.put(" ? runs(");
    if let Some(entry) = survey.entry(object.method) {
        put_path(text, &entry.path);
    }
    text.put(")\n")
}

fn put_locals(text: &mut Text, survey: &Survey, locals: &[LocalObject<'_>]) {
    for object in locals {
        put_local(text, survey, object);
    }
}

// Puts the lines of the first objects whose paths stand before a path; what is left of them.
fn put_locals_before<'s, 'a>(
    text: &mut Text,
    survey: &Survey,
    locals: &'s [LocalObject<'a>],
    path: &Path,
) -> &'s [LocalObject<'a>] {
    let mut rest = locals;
    while let [first, others @ ..] = rest {
        if first.path >= *path {
            return rest;
        }
        put_local(text, survey, first);
        rest = others;
    }
    rest
}

// Puts the lines of entries, whose conditions are made of these literals, and of objects of bodies, by path.
fn put_objects(
    text: &mut Text,
    survey: &Survey,
    literals: &[StepText],
    entries: &[ConditionedEntry<'_>],
    locals: &[LocalObject<'_>],
) -> Result<(), AllocError> {
    let mut rest = locals;
    for entry in entries {
        rest = put_locals_before(text, survey, rest, entry.path);
        put_conditioned(text, survey, literals, entry)?;
    }
    put_locals(text, survey, rest);
    Ok(())
}

/// As `list` does, a line for each entry, problem and note; and behind the entries of a path a line for each object that
/// bodies declare there, by the place of the method.
pub fn list_with_bodies(
    alloc: Global,
    survey: &Survey,
    findings: &Findings,
) -> Result<Vec<u8>, AllocError> {
    let bodies = bodies_of(survey)?;
    let locals = locals_of_machine(survey, &bodies)?;
    let order = survey.entries().paths.by_path()?;
    let conditions = conditions_of(survey, &order)?;
    let literals = step_texts(survey, &conditions.steps)?;
    let mut text = Text::new(alloc);
    put_objects(&mut text, survey, &literals, &conditions.entries, &locals)?;
    put_found(&mut text, findings.problems(), findings.notes());
    text.into_bytes()
}
