//! What C and Rust call (docs/LIBRARY.md): each export calls a function of `acpins_records` or of `acpins_survey_calls`, and states its
//! clauses again.
//!
//! An export takes the host's memory by the three functions of `bindings/c/acpins_heap.h`, and gives all of it back
//! before it returns. A slice is a pointer and a length in C; where the length is 0 the pointer may be NULL.
#![tactic(auto)]

ghost use Rattle.std.specs.Prelude.{◌≡◌, ◌≢◌, ◌↔◌, ◌⊎◌, ◌<◌, ◌≤◌, [], take, None};
ghost use Rattle.acpi_name.specs.Text.{IsPathText};
ghost use Rattle.acpins_records.specs.Bodies.{HasNoMethod, IsBodyWritten, NeedsText};
ghost use Rattle.acpins_records.specs.Checks.{IsVerdictWritten, NeedsAnswerRoom};
ghost use Rattle.acpins_records.specs.Orders.{AreTablesInAnyOrder, IsBodyInAnyOrder, IsWrittenInAnyOrder, LoadInAnyOrder};
ghost use Rattle.acpins_records.specs.Outcomes.{no_outcome};
ghost use Rattle.acpins_records.specs.Rewrites.{AreTablesWritten, NeedTablesRoom};
ghost use Rattle.acpins_records.specs.Written.{IsRefusal, IsWritten, NeedsRoom, SamePlaces, StayButText, bytes_of, contents_of};
ghost use Rattle.acpins_lent.specs.Lent.{no_survey_outcome};
ghost use Rattle.acpins_survey_calls.specs.Asked.{command_of};
ghost use Rattle.acpins_survey_calls.specs.FileTables.{AreFileTablesWritten, HasNotForm, NeedFileTablesRoom};
ghost use Rattle.acpins_survey_calls.specs.Texts.{HasNothingThere, IsTextWritten, NeedsTextRoom};

use acpins_lent::{
    BAD_PATH, CALL, LentTable, NO_METHOD, NO_OBJECT, NO_ROOM, OK, REFUSED, SurveyOutcome,
};
use acpins_records::{
    Arrays, BodyRecord, Outcome, SatisfiedRecord, VerdictRecord, write_body, write_load,
    write_tables, write_verdict,
};
use acpins_survey_calls::{write_file_tables, write_survey_text};
use acpins_survey_records::{SurveyArrays, write_survey};
use std::alloc::Global;

/// The form of the records that the library writes, and which calls there are. It grows by one where there are more calls or fields;
/// records grow at their end.
#[unsafe(no_mangle)]
pub extern "C" fn acpins_abi() -> u32
    ensures { result ≡ 2 }
{
    2
}

/// Loads a DSDT and SSDTs, in the order of their load, and writes what they load to into the caller's arrays.
#[unsafe(no_mangle)]
pub extern "C" fn acpins_load(
    alloc: Global,
    tables: &[LentTable<'_>],
    depth: u32,
    arrays: &mut Arrays<'_>,
    outcome: &mut Outcome,
) -> u32
    // The arrays begin with the records, targets, text, parts and bytes of what the tables load to.
    ensures ok { result ≡ OK → IsWritten depth (bytes_of tables.now) (contents_of arrays.old)
        (contents_of arrays.new) outcome.new }
    // Of independent SSDTs they begin with the same for each order, but for the numbers of tables.
    ensures any_order { result ≡ OK → IsWrittenInAnyOrder depth (bytes_of tables.now)
        (contents_of arrays.old) (contents_of arrays.new) }
    // The tables have no load, for the reason that the outcome has.
    ensures refused { result ≡ REFUSED → IsRefusal depth
        (bytes_of tables.now) arrays.old.text.now arrays.new.text.now outcome.new }
    // They load, to more than there is room for: the outcome has how much it is.
    ensures room { result ≡ NO_ROOM → NeedsRoom depth (bytes_of tables.now)
        (contents_of arrays.old) outcome.new }
    ensures call { (result ≡ CALL) ↔ ((tables.now ≡ []) ⊎ ((depth < 1) ⊎ (4096 < depth))) }
    ensures stay { result ≢ OK → StayButText (contents_of arrays.old) (contents_of arrays.new) }
    ensures text_stays { result ≢ OK → result ≢ REFUSED → arrays.new.text.now
        ≡ arrays.old.text.now }
    // The arrays stay where they are.
    ensures places { SamePlaces arrays.old arrays.new }
    // Of any other status the outcome is 0.
    ensures silent { result ≢ OK → result ≢ REFUSED → result ≢ NO_ROOM → outcome.new ≡ no_outcome }
    ensures statuses { result ≤ 4 }
{
    write_load(alloc, tables, depth, arrays, outcome)
}

/// Writes the body of the method at a path: its statements as text, or its bytes where they can't be read.
#[unsafe(no_mangle)]
pub extern "C" fn acpins_body(
    alloc: Global,
    tables: &[LentTable<'_>],
    depth: u32,
    path: &[u8],
    text: &mut [u8],
    body: &mut BodyRecord,
    outcome: &mut Outcome,
) -> u32
    ensures ok { result ≡ OK → IsBodyWritten depth
        (bytes_of tables.now) path.now text.old text.new body.new outcome.new }
    // Of independent SSDTs in any order it is the body that a single load has at the path.
    ensures any_order { result ≡ OK → IsBodyInAnyOrder depth
        (bytes_of tables.now) path.now text.old text.new body.new }
    ensures refused { result ≡ REFUSED → IsRefusal depth
        (bytes_of tables.now) text.old text.new outcome.new }
    ensures room { result ≡ NO_ROOM → NeedsText depth
        (bytes_of tables.now) path.now text.old body.new outcome.new }
    ensures none { result ≡ NO_METHOD → HasNoMethod depth (bytes_of tables.now) path.now }
    ensures bad { result ≡ BAD_PATH → IsPathText path.now → ⊥ }
    ensures call { (result ≡ CALL) ↔ ((tables.now ≡ []) ⊎ ((depth < 1) ⊎ (4096 < depth))) }
    ensures stay { result ≢ OK → result ≢ REFUSED → text.new ≡ text.old }
    ensures body_stays { result ≢ OK → result ≢ NO_ROOM → body.new ≡ body.old }
    // Of any other status the outcome is 0.
    ensures silent { result ≢ OK → result ≢ REFUSED → result ≢ NO_ROOM → outcome.new ≡ no_outcome }
    ensures statuses { result ≤ 6 }
{
    write_body(alloc, tables, depth, path, text, body, outcome)
}

/// Writes whether the SSDTs may be loaded in any order over the DSDT, and the Externals that they satisfy for one
/// another.
#[unsafe(no_mangle)]
pub extern "C" fn acpins_check(
    alloc: Global,
    tables: &[LentTable<'_>],
    depth: u32,
    satisfied: &mut [SatisfiedRecord],
    text: &mut [u8],
    verdict: &mut VerdictRecord,
    outcome: &mut Outcome,
) -> u32
    ensures ok { result ≡ OK → IsVerdictWritten depth
        (bytes_of tables.now) satisfied.old satisfied.new text.old text.new verdict.new
        outcome.new }
    // SSDTs that may be loaded in any order load in each one to the join of their single loads.
    ensures orders { (result ≡ OK) ⊎ (result ≡ NO_ROOM) → verdict.new.order ≡ 0
        → LoadInAnyOrder depth (bytes_of tables.now) }
    // Only the DSDT is refused: an SSDT that can't be loaded over it is a verdict.
    ensures refused { result ≡ REFUSED → IsRefusal depth
        (take 1 (bytes_of tables.now)) text.old text.new outcome.new }
    ensures room { result ≡ NO_ROOM → NeedsAnswerRoom depth
        (bytes_of tables.now) satisfied.old text.old verdict.new outcome.new }
    ensures call { (result ≡ CALL) ↔ ((tables.now ≡ []) ⊎ ((depth < 1) ⊎ (4096 < depth))) }
    ensures stay { result ≢ OK → satisfied.new ≡ satisfied.old }
    ensures text_stays { result ≢ OK → result ≢ REFUSED → text.new ≡ text.old }
    ensures verdict_stays { result ≢ OK → result ≢ NO_ROOM → verdict.new ≡ verdict.old }
    // Of any other status the outcome is 0.
    ensures silent { result ≢ OK → result ≢ REFUSED → result ≢ NO_ROOM → outcome.new ≡ no_outcome }
    ensures statuses { result ≤ 4 }
{
    write_verdict(alloc, tables, depth, satisfied, text, verdict, outcome)
}

/// Writes the tables, each in its shortest spelling, one behind the other, and where each ends, in bytes.
#[unsafe(no_mangle)]
pub extern "C" fn acpins_rewrite(
    alloc: Global,
    tables: &[LentTable<'_>],
    depth: u32,
    bytes: &mut [u8],
    ends: &mut [u64],
    outcome: &mut Outcome,
) -> u32
    ensures ok { result ≡ OK → AreTablesWritten depth
        (bytes_of tables.now) bytes.old bytes.new ends.old ends.new outcome.new }
    // Of independent SSDTs in any order they load to the join of the single loads.
    ensures any_order { result ≡ OK → AreTablesInAnyOrder depth
        (bytes_of tables.now) bytes.old bytes.new ends.old ends.new }
    ensures refused { result ≡ REFUSED → IsRefusal depth
        (bytes_of tables.now) bytes.old bytes.new outcome.new }
    ensures room { result ≡ NO_ROOM → NeedTablesRoom depth
        (bytes_of tables.now) bytes.old ends.old outcome.new }
    ensures call { (result ≡ CALL) ↔ ((tables.now ≡ []) ⊎ ((depth < 1) ⊎ (4096 < depth))) }
    ensures stay { result ≢ OK → result ≢ REFUSED → bytes.new ≡ bytes.old }
    ensures ends_stay { result ≢ OK → ends.new ≡ ends.old }
    // Of any other status the outcome is 0.
    ensures silent { result ≢ OK → result ≢ REFUSED → result ≢ NO_ROOM → outcome.new ≡ no_outcome }
    ensures statuses { result ≤ 4 }
{
    write_tables(alloc, tables, depth, bytes, ends, outcome)
}

/// Writes the tables in the bytes of a file, one behind the other, and where each ends, in bytes.
#[unsafe(no_mangle)]
pub extern "C" fn acpins_tables(
    alloc: Global,
    file: &[u8],
    form: u32,
    bytes: &mut [u8],
    ends: &mut [u64],
    outcome: &mut SurveyOutcome,
) -> u32
    ensures ok { result ≡ OK → AreFileTablesWritten form
        file.now bytes.old bytes.new ends.old ends.new outcome.new }
    ensures room { result ≡ NO_ROOM → NeedFileTablesRoom form
        file.now bytes.old ends.old outcome.new }
    ensures call { result ≡ CALL → HasNotForm form file.now }
    ensures stay { result ≢ OK → (bytes.new ≡ bytes.old) × (ends.new ≡ ends.old) }
    // Of any other status the outcome is 0.
    ensures silent { result ≢ OK → result ≢ NO_ROOM → outcome.new ≡ no_survey_outcome }
    ensures statuses { result ≤ 4 }
{
    write_file_tables(alloc, file, form, bytes, ends, outcome)
}

/// Writes what the program `acpins-survey` prints of tables, without the names of files: which text it is says `what`.
#[unsafe(no_mangle)]
pub extern "C" fn acpins_survey_text(
    alloc: Global,
    tables: &[LentTable<'_>],
    depth: u32,
    what: u32,
    path: &[u8],
    text: &mut [u8],
    outcome: &mut SurveyOutcome,
) -> u32
    // The array begins with the text that is asked for.
    ensures ok { result ≡ OK → IsTextWritten depth
        (bytes_of tables.now) what path.now text.old text.new outcome.new }
    // It has less room than that needs: the outcome has how much it is.
    ensures room { result ≡ NO_ROOM → NeedsTextRoom depth
        (bytes_of tables.now) what path.now text.old outcome.new }
    ensures none { result ≡ NO_OBJECT → HasNothingThere depth (bytes_of tables.now) what path.now }
    ensures bad { result ≡ BAD_PATH → IsPathText path.now → ⊥ }
    ensures call { (result ≡ CALL) ↔ ((tables.now ≡ []) ⊎ ((depth < 1) ⊎ ((4096 < depth)
        ⊎ (command_of what path.now ≡ None)))) }
    ensures stay { result ≢ OK → text.new ≡ text.old }
    // Of any other status the outcome is 0.
    ensures silent { result ≢ OK → result ≢ NO_ROOM → outcome.new ≡ no_survey_outcome }
    ensures statuses { result ≤ 7 }
{
    write_survey_text(alloc, tables, depth, what, path, text, outcome)
}

/// Surveys tables, and writes their entries, conditions, problems and notes into the caller's arrays.
#[unsafe(no_mangle)]
pub extern "C" fn acpins_survey(
    alloc: Global,
    tables: &[LentTable<'_>],
    depth: u32,
    arrays: &mut SurveyArrays<'_>,
    outcome: &mut SurveyOutcome,
) -> u32
    ensures call { (result ≡ CALL) ↔ ((tables.now ≡ []) ⊎ ((depth < 1) ⊎ (4096 < depth))) }
    ensures statuses { result ≤ 4 }
{
    write_survey(alloc, tables, depth, arrays, outcome)
}
