//! Texts of a survey into the array of a caller.

ghost use Rattle.std.specs.Prelude.{◌≡◌, ◌≢◌, ◌⊎◌, ◌↔◌, ◌≤◌, ◌<◌, [], length, IfOk, Err, None};
ghost use Rattle.acpi_name.specs.Text.{IsPathText};
ghost use Rattle.acpi_survey.specs.Surveys.{IsSurvey};
ghost use Rattle.acpi_survey.specs.declared.machine_survey.Survey.{Survey};
ghost use Rattle.acpins_lent.specs.Lent.{IsFront, bytes_of, no_survey_outcome};
ghost use Rattle.acpins_survey_run.specs.Prints.{IsPrintOf};
ghost use Rattle.acpins_survey_run.specs.declared.failure.PrintFault.{PrintFault};
ghost use Rattle.acpins_survey_texts.specs.Texts.{HasNothingAt};
ghost use Rattle.acpins_survey_words.specs.Words.{Command};
ghost use Rattle.acpins_survey_calls.specs.Asked.{command_of};
ghost use Rattle.acpins_survey_calls.specs.Texts.{HasNothingThere, IsTextOfTables, IsTextWritten, NeedsTextRoom};

use crate::asked::print_of;
use acpi_code::Depth;
use acpi_name::PathFault;
use acpi_survey::survey;
use acpins_lent::{
    BAD_PATH, CALL, LentTable, MEMORY, NO_OBJECT, NO_ROOM, OK, SurveyOutcome, copy_tables,
    put_front,
};
use acpins_survey_run::{FoundTables, Print, PrintFault};
use acpins_survey_texts::{findings_in, output_of};
use std::alloc::Global;

// A text of tables, and how much was found in them.
#[derive(Drop)]
struct Made {
    text: Vec<u8>,
    outcome: SurveyOutcome,
}

// The text that is made of tables. The survey is given back when it is made.
fn make_text(
    alloc: Global,
    tables: &[LentTable<'_>],
    depth: Depth,
    print: &Print,
) -> Result<Made, PrintFault>
    ensures ok { IfOk result (λ m. (command : Command) → IsPrintOf command print.now
        → IsTextOfTables depth (bytes_of tables.now) command m.text.items m.outcome) }
    ensures nothing { result ≡ Err PrintFault.NoSuchPath → (command : Command)
        → IsPrintOf command print.now
        → (s : Survey) × IsSurvey depth (bytes_of tables.now) s × HasNothingAt command s }
{
    let found = FoundTables {
        tables: copy_tables(alloc, tables)?,
        sources: Vec::new(alloc),
    };
    let survey = survey(alloc, &found.tables, depth)?;
    let findings = findings_in(alloc, &survey)?;
    let output = output_of(alloc, print, &survey, &findings, &found, false)?;
    let outcome = SurveyOutcome {
        tables: survey.tables.len() as u64,
        problems: findings.problems().len() as u64,
        notes: findings.notes().len() as u64,
        text: output.text.len() as u64,
        is_faulty: if output.status == 0 { 0 } else { 1 },
        ..SurveyOutcome::nothing()
    };
    Ok(Made {
        text: output.text,
        outcome,
    })
}

// Writes a text, where there is room for it.
fn put_text(made: &Made, text: &mut [u8], outcome: &mut SurveyOutcome) -> u32
    ensures outcome { outcome.new ≡ made.now.outcome }
    ensures ok { result ≡ OK → IsFront made.now.text.items text.old text.new }
    ensures room { result ≢ OK → length text.old < length made.now.text.items }
    ensures stay { result ≢ OK → text.new ≡ text.old }
    ensures status { (result ≡ OK) ⊎ (result ≡ NO_ROOM) }
{
    *outcome = made.outcome;
    if made.text.len() > text.len() {
        return NO_ROOM;
    }
    put_front(text, &made.text);
    OK
}

/// Writes what the program `acpins-survey` prints of tables, without the names of files: which text it is says `what` (`LIST` and so on).
/// `path` is that of `SHOW`, and of `USES`, where it may have no bytes.
pub fn write_survey_text(
    alloc: Global,
    tables: &[LentTable<'_>],
    depth: u32,
    what: u32,
    path: &[u8],
    text: &mut [u8],
    outcome: &mut SurveyOutcome,
) -> u32
    // The array begins with the text that is asked for.
    ensures ok { result ≡ OK → IsTextWritten depth
        (bytes_of tables.now) what path.now text.old text.new outcome.new }
    // It has less room than that needs: the outcome has how much it is.
    ensures room { result ≡ NO_ROOM → NeedsTextRoom depth
        (bytes_of tables.now) what path.now text.old outcome.new }
    ensures none { result ≡ NO_OBJECT → HasNothingThere depth (bytes_of tables.now) what path.now }
    ensures bad { result ≡ BAD_PATH → IsPathText path.now → ⊥ }
    ensures call { (result ≡ CALL) ↔ ((tables.now ≡ []) ⊎ ((depth < 1) ⊎ ((4096 < depth)
        ⊎ (command_of what path.now ≡ None)))) }
    ensures stay { result ≢ OK → text.new ≡ text.old }
    // Of any other status the outcome is 0.
    ensures silent { result ≢ OK → result ≢ NO_ROOM → outcome.new ≡ no_survey_outcome }
    ensures statuses { result ≤ 7 }
{
    *outcome = SurveyOutcome::nothing();
    let Some(depth) = Depth::new(depth) else {
        return CALL;
    };
    if tables.is_empty() {
        return CALL;
    }
    let print = match print_of(alloc, what, path) {
        Ok(Some(print)) => print,
        Ok(None) => return CALL,
        Err(PathFault::BadText) => return BAD_PATH,
        Err(PathFault::Memory) => return MEMORY,
    };
    match make_text(alloc, tables, depth, &print) {
        Ok(made) => put_text(&made, text, outcome),
        Err(PrintFault::NoSuchPath) => NO_OBJECT,
        Err(PrintFault::Memory) => MEMORY,
    }
}
