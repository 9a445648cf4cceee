//! What is noticed in bodies, among what is found in tables.

ghost use Rattle.std.specs.Prelude.{◌≡◌, ◌++◌, ◌∷◌, [], map, IfOk, OnOk, slice_get};
ghost use Rattle.acpi_findings.specs.Findings.{problems_in};
ghost use Rattle.acpi_findings.specs.ProblemViews.{problem_view};
ghost use Rattle.acpi_survey.specs.SurveyOrder.{AllTile};
ghost use Rattle.acpi_body_notes.specs.LoadNotes.{AreSurveyNotes, load_notes};

use crate::loading::loading_methods;
use acpi_findings::{Findings, Note, NoteReason, found_in};
use acpi_ranges::{entry_numbered, site_of};
use acpi_survey::Survey;
use std::alloc::{AllocError, Global};

// Puts the note of the entry of that number behind others.
fn put_note(found: &mut Vec<Note>, survey: &Survey, number: usize) -> Result<(), AllocError>
    ensures { OnOk result (found.new.items ≡ found.old.items
        ++ load_notes survey.now.reading.walk.entries (number ∷ [])) }
{
    if let Some(entry) = entry_numbered(survey.entries(), number) {
        found.push(Note {
            site: site_of(entry.term.place),
            reason: NoteReason::Loads,
            scope: Some(entry.path.copy()?),
        })?;
    }
    Ok(())
}

// The notes of the entries of these numbers.
fn notes_of(alloc: Global, survey: &Survey, numbers: &[usize]) -> Result<Vec<Note>, AllocError>
    ensures { IfOk result (λ v. v.items
        ≡ load_notes survey.now.reading.walk.entries numbers.now) }
{
    let mut found = Vec::new(alloc);
    'each: for number in numbers {
        put_note(&mut found, survey, *number)?;
    }
    Ok(found)
}

/// What is found in the tables of a survey, in the order of the sites, with a note for each method whose body loads or
/// unloads a table, where the method stands.
pub fn findings_of(alloc: Global, survey: &Survey) -> Result<Findings, AllocError>
    // What is lost or refused in the tables is told.
    ensures problems { IfOk result (λ f. map problem_view f.problems.items
        ≡ problems_in survey.now.reading survey.now.tables.items) }
    // What is noticed in them and in the bodies is told.
    ensures notes { AllTile survey.now.tables.items
        → IfOk result (λ f. AreSurveyNotes survey.now f.notes.items) }
{
    let mut found = found_in(alloc, survey)?;
    let loading = loading_methods(alloc, survey)?;
    found.add_notes(notes_of(alloc, survey, &loading)?)?;
    Ok(found)
}
