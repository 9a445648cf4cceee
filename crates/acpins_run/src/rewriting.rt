//! Tables that are written to a file.

ghost use Rattle.std.specs.Prelude.{◌≡◌, ◌≢◌, ◌∷◌, ◌++◌, ℕ, List, IfErr, IfOk, OnOk, OnErr, map};
ghost use Rattle.acpi_declare.specs.Loads.{HasNoLoad};
ghost use Rattle.acpi_declare.specs.Refusals.{IsLoadFault};
ghost use Rattle.acpins_run.specs.Rewritten.{file_text, table_text, IsFileOf, IsUnwritten};
ghost use Rattle.acpins_io.specs.FilesWritten.{Holds};

use crate::failure::Failure;
use acpi_declare::LoadFault;
use acpi_rewrite::rewrite_shared;
use acpi_space::Space;
use acpi_terms::{Depth, Object};
use acpins_io::{FileFault, Files, write_file};
use bytes::Bytes;
use std::alloc::{AllocError, Global};

// Puts a table behind the text: its bytes, or a line of their lower-case hexadecimal digits.
fn put_table(alloc: Global, text: &mut Vec<u8>, hex: bool, table: &[u8]) -> Result<(), AllocError>
    ensures { OnOk result (text.new.items ≡ text.old.items ++ table_text hex table.now) }
{
    if !hex {
        return text.extend_from_slice(table);
    }
    let digits = hex::encode(alloc, table)?;
    text.extend_from_slice(digits.as_bytes())?;
    text.extend_from_slice(b"\n")
}

// .. each table.
fn file_text(alloc: Global, hex: bool, tables: &[Vec<u8>]) -> Result<Vec<u8>, AllocError>
    ensures { IfOk result (λ text. text.items ≡ file_text hex (map (λ t. t.items) tables.now)) }
{
    let mut text = Vec::new(alloc);
    for table in tables {
        put_table(alloc, &mut text, hex, table)?;
    }
    Ok(text)
}

/// What the file of a DSDT's and SSDTs' rewritten tables holds: the tables one after another, or a line of lower-case
/// hexadecimal digits for each.
pub fn rewritten_text<S: Space<Object>>(
    alloc: Global,
    dsdt: &Bytes,
    ssdts: &[Bytes],
    hex: bool,
    depth: Depth,
) -> Result<Vec<u8>, LoadFault>
    ensures ok { IfOk result (λ text. IsFileOf hex depth (dsdt.now ∷ ssdts.now) text.items) }
    ensures err { IfErr result (λ e. IsLoadFault depth (dsdt.now ∷ ssdts.now) e) }
    ensures none { IfErr result (λ e. e ≢ LoadFault.Memory
        → HasNoLoad depth (dsdt.now ∷ ssdts.now)) }
{
    let rewritten = rewrite_shared::<S>(alloc, dsdt, ssdts, depth)?;
    Ok(file_text(alloc, hex, &rewritten)?)
}

// Why a file of that name isn't written.
fn write_failure(name: &str, fault: FileFault) -> Failure<'_>
    ensures { IsUnwritten name.now result }
{
    match fault {
        FileFault::Memory => Failure::Memory,
        _ => Failure::Out(name),
    }
}

/// Makes the file of that name, and writes the bytes to it. Where that fails, what stands under the name stays.
pub fn put_file<'a, F: Files>(files: &mut F, name: &'a str, bytes: &[u8]) -> Result<(), Failure<'a>>
    ensures held { OnOk result (Holds (F.written_to files.old name.now)
        (F.written_to files.new name.now) bytes.now) }
    ensures others { (other : List ℕ) → other ≢ name.now → F.written_to files.new other
        ≡ F.written_to files.old other }
    ensures err { IfErr result (IsUnwritten name.now) }
    ensures left { OnErr result (F.written_to files.new ≡ F.written_to files.old) }
{
    match write_file(files, name, bytes) {
        Ok(()) => Ok(()),
        Err(fault) => Err(write_failure(name, fault)),
    }
}
