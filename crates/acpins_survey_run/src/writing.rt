//! A file that is written.

ghost use Rattle.std.specs.Prelude.{◌≡◌, ◌≢◌, ℕ, List, IfOk, IfErr, OnOk, OnErr, IsTrue, Some, true, false, map, option_map, string_bytes};
ghost use Rattle.std.specs.List.{All, Contains};
ghost use Rattle.acpins_io.specs.FilesWritten.{Holds};
ghost use Rattle.acpins_survey_run.specs.Runs.{AreSpared};
ghost use Rattle.acpins_survey_run.specs.Stored.{IsSpared, IsUnspared};
ghost use Rattle.acpins_survey_run.specs.steps.Refusals.{IsRefused, IsUnwritten};

use crate::failure::Failure;
use crate::lines::printed_name;
use acpins_io::{FileFault, Files, write_file};
use std::alloc::{AllocError, Global};

// Whether the name is one of these.
fn is_among(name: &str, files: &[String]) -> bool
    ensures among { IsTrue result → Contains (map string_bytes files.now) name.now }
    ensures apart { result ≡ false → All (λ file. file ≢ name.now) (map string_bytes files.now) }
{
    for file in files {
        if file.as_str() == name {
            return true;
        }
    }
    false
}

// Whether no file that is read has that name, and what stands there doesn't begin as tables do.
fn is_spared<F: Files>(files: &mut F, name: &str, sources: &[String]) -> Result<bool, AllocError>
    ensures yes { IfOk result (λ is. is ≡ true
        → IsSpared (F.bytes_of files.old) (map string_bytes sources.now) name.now) }
    ensures no { IfOk result (λ is. is ≡ false
        → IsUnspared (F.bytes_of files.old) (map string_bytes sources.now) name.now) }
    ensures stays { F.bytes_of files.new ≡ F.bytes_of files.old }
    ensures others { F.written_to files.new ≡ F.written_to files.old }
{
    if is_among(name, sources) {
        return Ok(false);
    }
    Ok(!files.holds_tables(name)?)
}

/// Refuses to write a file that is one of those that are read, or that begins as tables do.
pub fn spare_tables<F: Files>(
    alloc: Global,
    files: &mut F,
    out: Option<&str>,
    sources: &[String],
) -> Result<(), Failure>
    ensures ok { OnOk result (AreSpared (F.bytes_of files.old)
        (option_map (λ name. name.now) out.entry) (map string_bytes sources.now)) }
    ensures err { IfErr result (IsRefused (F.bytes_of files.old)
        (option_map (λ name. name.now) out.entry) (map string_bytes sources.now)) }
    ensures stays { F.bytes_of files.new ≡ F.bytes_of files.old }
    ensures others { F.written_to files.new ≡ F.written_to files.old }
{
    let Some(name) = out else {
        return Ok(());
    };
    if !is_spared(files, name, sources)? {
        return Err(Failure::HoldsTables(printed_name(alloc, name)?));
    }
    Ok(())
}

// Why the file of that name isn't written.
fn write_failure(alloc: Global, name: &str, fault: FileFault) -> Failure
    ensures { IsUnwritten (Some name.now) result }
{
    match fault {
        FileFault::Host(kind) => match printed_name(alloc, name) {
            Ok(file) => Failure::Out(file, kind),
            Err(_) => Failure::Memory,
        },
        FileFault::Memory => Failure::Memory,
    }
}

/// Makes the file of that name, and writes the bytes to it. Where that fails, what stands under the name stays.
pub fn put_file<F: Files>(
    alloc: Global,
    files: &mut F,
    name: &str,
    bytes: &[u8],
) -> Result<(), Failure>
    ensures held { OnOk result
        (Holds (F.written_to files.old name.now) (F.written_to files.new name.now) bytes.now) }
    ensures others { (other : List ℕ) → other ≢ name.now
        → F.written_to files.new other ≡ F.written_to files.old other }
    ensures err { IfErr result (IsUnwritten (Some name.now)) }
    ensures left { OnErr result (F.written_to files.new ≡ F.written_to files.old) }
{
    match write_file(files, name, bytes) {
        Ok(()) => Ok(()),
        Err(fault) => Err(write_failure(alloc, name, fault)),
    }
}
