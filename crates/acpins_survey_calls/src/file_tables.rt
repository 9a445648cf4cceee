//! The tables in the bytes of a file, into arrays of a caller.

ghost use Rattle.std.specs.Prelude.{◌≡◌, ◌≢◌, ◌⊎◌, ◌≤◌, ◌<◌, ℕ, Bool, List, length, IfOk, IfSome, None, false, true};
ghost use Rattle.acpins_lent.specs.Joined.{ends_from, joined};
ghost use Rattle.acpins_lent.specs.Lent.{IsFront, no_survey_outcome};
ghost use Rattle.acpins_survey_calls.specs.FileTables.{AreFileTables, AreFileTablesWritten, HasForm, HasNotForm, IsHex, NeedFileTablesRoom};

use acpins_io::{HexFault, begins_as_tables, from_hex, is_header};
use acpins_lent::{CALL, MEMORY, NO_ROOM, OK, SurveyOutcome, put_front};
use acpins_survey_run::{Failure, tables_in};
use bytes::Bytes;
use std::alloc::{AllocError, Global};

/// Which form it is the bytes tell.
pub const ANY_FORM: u32 = 0;

/// Tables as they stand, one behind another.
pub const PLAIN: u32 = 1;

/// The text that `acpidump` writes.
pub const DUMP: u32 = 2;

/// Hexadecimal text of tables.
pub const HEX: u32 = 3;

// Tables one behind the other.
#[derive(Drop)]
struct Joined {
    bytes: Vec<u8>,
    // Where each ends.
    ends: Vec<u64>,
}

// Joins tables.
fn join(alloc: Global, tables: &[Bytes]) -> Result<Joined, AllocError>
    ensures bytes { IfOk result (λ j. j.bytes.items ≡ joined tables.now) }
    ensures ends { IfOk result (λ j. j.ends.items ≡ ends_from 0 tables.now) }
{
    let mut bytes = Vec::new(alloc);
    let mut ends = Vec::new(alloc);
    for table in tables {
        bytes.extend_from_slice(table)?;
        ends.push(bytes.len() as u64)?;
    }
    Ok(Joined { bytes, ends })
}

// Whether a file of any form is hexadecimal text: it doesn't begin as tables do, and spells bytes that do.
fn is_hex(alloc: Global, file: &[u8]) -> Result<bool, AllocError>
    ensures yes { IfOk result (λ is. is ≡ true → IsHex file.now) }
    ensures no { IfOk result (λ is. is ≡ false → IsHex file.now → ⊥) }
{
    if begins_as_tables(file) {
        return Ok(false);
    }
    match from_hex(alloc, file) {
        Ok(bytes) => Ok(begins_as_tables(&bytes)),
        Err(HexFault::BadHex) => Ok(false),
        Err(HexFault::Memory) => Err(AllocError),
    }
}

// Whether the file is read as hexadecimal text; None where it hasn't the form that is asked for.
fn reads_hex(alloc: Global, file: &[u8], form: u32) -> Result<Option<bool>, AllocError>
    ensures some { IfOk result (λ found. IfSome found (HasForm file.now form)) }
    ensures none { IfOk result (λ found. found ≡ None
        → (hex : Bool) → HasForm file.now form hex → ⊥) }
{
    let hex = match form {
        ANY_FORM => Some(is_hex(alloc, file)?),
        PLAIN if !is_header(file) => Some(false),
        DUMP if is_header(file) => Some(false),
        HEX => Some(true),
        _ => None,
    };
    Ok(hex)
}

// Writes joined tables, where there is room for them.
fn write_joined(
    joined: &Joined,
    bytes: &mut [u8],
    ends: &mut [u64],
    outcome: &mut SurveyOutcome,
) -> u32
    ensures tables { outcome.new.tables ≡ length joined.now.ends.items }
    ensures count { outcome.new.bytes ≡ length joined.now.bytes.items }
    ensures bytes { result ≡ OK → IsFront joined.now.bytes.items bytes.old bytes.new }
    ensures ends { result ≡ OK → IsFront joined.now.ends.items ends.old ends.new }
    ensures room { result ≢ OK → (length bytes.old < length joined.now.bytes.items)
        ⊎ (length ends.old < length joined.now.ends.items) }
    ensures stay { result ≢ OK → (bytes.new ≡ bytes.old) × (ends.new ≡ ends.old) }
    ensures status { (result ≡ OK) ⊎ (result ≡ NO_ROOM) }
{
    *outcome = SurveyOutcome {
        tables: joined.ends.len() as u64,
        bytes: joined.bytes.len() as u64,
        ..SurveyOutcome::nothing()
    };
    if joined.bytes.len() > bytes.len() || joined.ends.len() > ends.len() {
        return NO_ROOM;
    }
    put_front(bytes, &joined.bytes);
    put_front(ends, &joined.ends);
    OK
}

// The tables of a file, one behind the other; None where it hasn't the form that is asked for.
fn joined_in(alloc: Global, file: &[u8], form: u32) -> Result<Option<Joined>, AllocError>
    ensures some { IfOk result (λ found. IfSome found (λ j. (tables : List (List ℕ))
        × AreFileTables form file.now tables × (j.bytes.items ≡ joined tables)
        × (j.ends.items ≡ ends_from 0 tables))) }
    ensures none { IfOk result (λ found. found ≡ None → HasNotForm form file.now) }
{
    let Some(hex) = reads_hex(alloc, file, form)? else {
        return Ok(None);
    };
    let content = Vec::from_slice(alloc, file)?;
    match tables_in(alloc, "", hex, content) {
        Ok(tables) => Ok(Some(join(alloc, &tables)?)),
        Err(Failure::BadHex(_)) => Ok(None),
        Err(_) => Err(AllocError),
    }
}

/// Writes the tables in the bytes of a file, one behind the other, and where each ends, in bytes. `CALL` is the status where the file hasn't
/// the form that is asked for.
pub fn write_file_tables(
    alloc: Global,
    file: &[u8],
    form: u32,
    bytes: &mut [u8],
    ends: &mut [u64],
    outcome: &mut SurveyOutcome,
) -> u32
    ensures ok { result ≡ OK → AreFileTablesWritten form file.now bytes.old bytes.new ends.old ends.new outcome.new }
    ensures room { result ≡ NO_ROOM → NeedFileTablesRoom form file.now bytes.old ends.old outcome.new }
    ensures call { result ≡ CALL → HasNotForm form file.now }
    ensures stay { result ≢ OK → (bytes.new ≡ bytes.old) × (ends.new ≡ ends.old) }
    // Of any other status the outcome is 0.
    ensures silent { result ≢ OK → result ≢ NO_ROOM → outcome.new ≡ no_survey_outcome }
    ensures statuses { result ≤ 4 }
{
    *outcome = SurveyOutcome::nothing();
    match joined_in(alloc, file, form) {
        Ok(Some(joined)) => write_joined(&joined, bytes, ends, outcome),
        Ok(None) => CALL,
        Err(_) => MEMORY,
    }
}
