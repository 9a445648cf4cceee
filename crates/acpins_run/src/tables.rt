//! Files into tables.

ghost use Rattle.std.specs.Prelude.{◌≡◌, ◌≢◌, ◌++◌, ◌∷◌, [], false, Option, None, IfOk, IfErr, OnOk, IfSome, vec_len};
ghost use Rattle.std.specs.declared.io.ErrorKind.{ErrorKind};
ghost use Rattle.acpins_io.specs.Faults.{error_of};
ghost use Rattle.acpins_io.specs.Hexadecimal.{SpellsInHex};
ghost use Rattle.acpins_run.specs.Input.{AddsTablesOf, IsFileFault};
ghost use Rattle.acpins_run.specs.steps.Reading.{CountsFailedRead};
ghost use Rattle.acpins_run.specs.steps.HexFiles.{IsHexFault};

use crate::failure::Failure;
use acpi_table::{ReadFault, SliceSource, Source, read_table};
use acpins_io::{FileFault, Files, HexDecoder, HexFault, OpenFile};
use bytes::Bytes;
use std::alloc::{AllocError, Global};
use std::io::Read;

// The bytes that the rest of a file spells as hexadecimal text. Nothing is read behind a part in which a character can
// stand in no such text.
fn read_hex<'a, R: Read>(
    alloc: Global,
    name: &'a str,
    file: &mut OpenFile<R>,
) -> Result<Vec<u8>, Failure<'a>>
    ensures ok { IfOk result (λ v. IfSome (R.remaining file.old.reader) (SpellsInHex v.items)) }
    ensures err { IfErr result (IsHexFault name.now (R.remaining file.old.reader)
        (error_of file.new.failures file.new.error)) }
{
    let mut decoder = HexDecoder::new(alloc);
    let mut part = [0u8; 4096];
    for _ in 0..u64::MAX {
        let Ok(n) = Read::read(file, &mut part) else {
            return Err(Failure::Read(name));
        };
        if n == 0 {
            return match decoder.finish() {
                Some(bytes) => Ok(bytes),
                None => Err(Failure::BadHex(name)),
            };
        }
        match decoder.take_part(&part[..n]) {
            Ok(()) => {}
            Err(HexFault::BadHex) => return Err(Failure::BadHex(name)),
            Err(HexFault::Memory) => return Err(Failure::Memory),
        }
    }
    // No file has so many parts. No read failed.
    Err(Failure::Memory)
}

// Adds a table to those that came before.
fn add(tables: &mut Vec<Bytes>, table: Vec<u8>) -> Result<(), AllocError>
    ensures { OnOk result (tables.new.items ≡ tables.old.items ++ table.items ∷ []) }
{
    tables.push(Bytes::from_vec(table)?)?;
    Ok(())
}

// Adds the tables that a source gives to those that came before.
fn cut<'a, S: Source>(
    alloc: Global,
    name: &'a str,
    source: &mut S,
    tables: &mut Vec<Bytes>,
) -> Result<(), Failure<'a>>
    ensures ok { OnOk result (AddsTablesOf false
        (S.coming source.old) tables.old.items tables.new.items) }
    // Whatever the error with which reading it failed.
    ensures err { IfErr result (λ f. (error : Option ErrorKind) → error ≢ None
        → IsFileFault false name.now (S.coming source.old) error (vec_len tables.old) f) }
    // A file that can't be read is one failed read, and no other answer has one.
    ensures failures { CountsFailedRead result (S.failures source.old) (S.failures source.new) }
{
    for _ in 0..u64::MAX {
        match read_table(alloc, source) {
            Ok(Some(table)) => {
                let Ok(()) = add(tables, table) else {
                    return Err(Failure::Memory);
                };
            }
            Ok(None) => return Ok(()),
            Err(ReadFault::Table(fault)) => return Err(Failure::Table(tables.len(), fault)),
            Err(ReadFault::Device) => return Err(Failure::Read(name)),
            Err(ReadFault::Memory) => return Err(Failure::Memory),
        }
    }
    // No memory holds so many tables.
    Err(Failure::Memory)
}

// Adds the tables in the rest of an open file to those that came before.
fn add_rest<'a, R: Read>(
    alloc: Global,
    file: &mut OpenFile<R>,
    name: &'a str,
    hex: bool,
    tables: &mut Vec<Bytes>,
) -> Result<(), Failure<'a>>
    ensures ok { OnOk result (AddsTablesOf hex
        (R.remaining file.old.reader) tables.old.items tables.new.items) }
    ensures err { IfErr result (λ f. IsFileFault hex name.now (R.remaining file.old.reader)
        (error_of file.new.failures file.new.error) (vec_len tables.old) f) }
{
    if !hex {
        return cut(alloc, name, file, tables);
    }
    let bytes = read_hex(alloc, name, file)?;
    cut(alloc, name, &mut SliceSource::new(bytes.as_slice()), tables)
}

/// Adds the tables of one file to those that came before. The file is said not to be read only where opening or reading
/// it failed.
pub fn add_tables<'a, F: Files>(
    alloc: Global,
    files: &mut F,
    name: &'a str,
    hex: bool,
    tables: &mut Vec<Bytes>,
) -> Result<(), Failure<'a>>
    ensures ok { OnOk result (AddsTablesOf hex
        (F.bytes_of files.old name.now) tables.old.items tables.new.items) }
    ensures err { IfErr result (λ f. IsFileFault hex name.now (F.bytes_of files.old name.now)
        (F.last_error files.new) (vec_len tables.old) f) }
    ensures stays { F.bytes_of files.new ≡ F.bytes_of files.old }
    ensures others { F.written_to files.new ≡ F.written_to files.old }
{
    let mut file = match files.open(name) {
        Ok(file) => OpenFile::new(file),
        Err(FileFault::Memory) => return Err(Failure::Memory),
        Err(_) => return Err(Failure::Read(name)),
    };
    let added = add_rest(alloc, &mut file, name, hex, tables);
    files.end_reading(file);
    added
}
