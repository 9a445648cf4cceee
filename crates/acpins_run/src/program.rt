//! One run of the program.

ghost use Rattle.std.specs.Prelude.{◌≡◌, ◌≢◌, ◌≤◌, ◌⊎◌, ◌∷◌, [], IfOk, IfErr, OnOk, OnErr, IsTrue, None};
ghost use Rattle.acpi_name.specs.Text.{SpellsPathText, IsPathText};
ghost use Rattle.std.specs.Io.KnownBytes.{Appends};
ghost use Rattle.acpins_run.specs.declared.failure.Failure.{Failure};
ghost use Rattle.acpins_run.specs.Failures.{status_of};
ghost use Rattle.acpins_run.specs.FailureLines.{failure_line};
ghost use Rattle.acpins_io.specs.PartsWritten.{AppendsBeginning, WritesUntilFailure};
ghost use Rattle.acpins_words.specs.Words.{texts, listing, showing, checking, rewriting, asked_in, asked_of};
ghost use Rattle.acpins_run.specs.Input.{AreTablesOf, IsFilesFault};
ghost use Rattle.acpins_run.specs.steps.Reading.{files_of};
ghost use Rattle.acpins_run.specs.Runs.{IsListing, IsShowing, IsChecking, IsRewriting, IsWrong, IsOutput, GetsOutput, GetsBeginning, IsFailureOf, IsRunFailure, IsStored, StoresOutput, LeavesFiles, FailsWith};

use crate::failure::Failure;
use crate::lines::put_line;
use crate::rewriting::{put_file, rewritten_text};
use crate::tables::add_tables;
use acpi_declare::{Declared, Keep};
use acpi_machine::load_objects;
use acpi_name::{Path, PathFault};
use acpi_space::{Space, TreeSpace};
use acpi_terms::{Depth, Object};
use acpins_io::{Files, PartWriter, UntilFailure, write_whole};
use acpins_output::{Output, check, list, show};
use acpins_words::{Command, Request, read_words};
use bytes::Bytes;
use std::alloc::Global;
use std::io::Write;
use std::mem;

// All tables of all files, in order.
fn tables_of<'a, F: Files>(
    alloc: Global,
    request: &Request<'a>,
    files: &mut F,
) -> Result<Vec<Bytes>, Failure<'a>>
    ensures ok { IfOk result (λ v. AreTablesOf (F.bytes_of files.old) request.now.hex
        (files_of request.now) v.items) }
    ensures err { IfErr result (IsFilesFault (F.bytes_of files.old) request.now.hex
        (F.last_error files.new) (files_of request.now)) }
    ensures others { F.written_to files.new ≡ F.written_to files.old }
{
    let mut tables = Vec::new(alloc);
    for name in request.files.iter() {
        add_tables(alloc, files, *name, request.hex, &mut tables)?;
    }
    Ok(tables)
}

// The same, where there is one at least.
fn some_tables_of<'a, F: Files>(
    alloc: Global,
    request: &Request<'a>,
    files: &mut F,
) -> Result<Vec<Bytes>, Failure<'a>>
    ensures ok { IfOk result (λ v. AreTablesOf (F.bytes_of files.old) request.now.hex
        (files_of request.now) v.items) }
    ensures some { IfOk result (λ v. v.items ≢ []) }
    ensures err { IfErr result (IsFailureOf (F.bytes_of files.old) (F.last_error files.new)
        (asked_in request.now)) }
    ensures others { F.written_to files.new ≡ F.written_to files.old }
{
    let tables = tables_of(alloc, request, files)?;
    if tables.is_empty() {
        return Err(Failure::NoTable);
    }
    Ok(tables)
}

// The listing of what the files hold. Bodies are not listed and refuse nothing, so they are not read, and nothing is
// kept of what the tables note for them.
fn listing_of<'a, S: Space<Object>, F: Files>(
    alloc: Global,
    request: &Request<'a>,
    files: &mut F,
) -> Result<Vec<u8>, Failure<'a>>
    requires { (asked_in request.now).command ≡ listing }
    ensures ok { IfOk result (λ text. IsListing (F.bytes_of files.old)
        (asked_in request.now) text.items) }
    ensures err { IfErr result (IsFailureOf (F.bytes_of files.old) (F.last_error files.new)
        (asked_in request.now)) }
    ensures others { F.written_to files.new ≡ F.written_to files.old }
{
    let tables = some_tables_of(alloc, request, files)?;
    let Some((dsdt, ssdts)) = tables.split_first() else {
        unreachable!()
    };
    let declared: Declared<S> = load_objects(alloc, dsdt, ssdts, Keep::Nothing, request.depth)?;
    let text = list(alloc, declared.objects(), declared.links())?;
    // The process ends soon and gives all memory back at once; to take the namespace apart first costs time.
    mem::forget(declared);
    Ok(text)
}

// The path that the word spells.
fn path_of<'a>(alloc: Global, word: &str) -> Result<Path, Failure<'a>>
    ensures ok { IfOk result (λ p. SpellsPathText p word.now) }
    ensures err { IfErr result (λ f. ((f ≡ Failure.BadPath) × (IsPathText word.now → ⊥))
        ⊎ (f ≡ Failure.Memory)) }
{
    match Path::from_text(alloc, word) {
        Ok(path) => Ok(path),
        Err(PathFault::BadText) => Err(Failure::BadPath),
        Err(PathFault::Memory) => Err(Failure::Memory),
    }
}

// What is shown of the path that the word spells.
fn showing_of<'a, S: Space<Object>, F: Files>(
    alloc: Global,
    request: &Request<'a>,
    word: &str,
    files: &mut F,
) -> Result<Vec<u8>, Failure<'a>>
    requires { (asked_in request.now).command ≡ showing word.now }
    ensures ok { IfOk result (λ text. IsShowing (F.bytes_of files.old)
        (asked_in request.now) word.now text.items) }
    ensures err { IfErr result (IsFailureOf (F.bytes_of files.old) (F.last_error files.new)
        (asked_in request.now)) }
    ensures others { F.written_to files.new ≡ F.written_to files.old }
{
    let path = path_of(alloc, word)?;
    let tables = some_tables_of(alloc, request, files)?;
    let Some((dsdt, ssdts)) = tables.split_first() else {
        unreachable!()
    };
    match show::<S>(alloc, dsdt, ssdts, request.depth, &path)? {
        Some(text) => Ok(text),
        None => Err(Failure::NoSuchPath),
    }
}

// The verdict on the SSDTs that the files hold.
fn checking_of<'a, S: Space<Object>, F: Files>(
    alloc: Global,
    request: &Request<'a>,
    files: &mut F,
) -> Result<Output, Failure<'a>>
    requires { (asked_in request.now).command ≡ checking }
    ensures ok { IfOk result (λ m. IsChecking (F.bytes_of files.old)
        (asked_in request.now) m.status m.text.items) }
    ensures err { IfErr result (IsFailureOf (F.bytes_of files.old) (F.last_error files.new)
        (asked_in request.now)) }
    ensures others { F.written_to files.new ≡ F.written_to files.old }
{
    let tables = some_tables_of(alloc, request, files)?;
    let Some((dsdt, ssdts)) = tables.split_first() else {
        unreachable!()
    };
    Ok(check::<S>(alloc, dsdt, ssdts, request.depth)?)
}

// Writes the tables that the files hold to the file of that name, each in its shortest spelling. All are made before
// the file is.
fn rewriting_of<'a, S: Space<Object>, F: Files>(
    alloc: Global,
    request: &Request<'a>,
    out: &'a str,
    files: &mut F,
) -> Result<(), Failure<'a>>
    requires { (asked_in request.now).command ≡ rewriting out.now }
    ensures ok { OnOk result (IsRewriting (F.bytes_of files.old) (asked_in request.now)) }
    ensures err { IfErr result (IsFailureOf (F.bytes_of files.old) (F.last_error files.new)
        (asked_in request.now)) }
    ensures stored { OnOk result (IsStored (F.bytes_of files.old) (asked_in request.now) out.now
        (F.written_to files.old) (F.written_to files.new)) }
    ensures left { OnErr result (F.written_to files.new ≡ F.written_to files.old) }
{
    let tables = some_tables_of(alloc, request, files)?;
    let Some((dsdt, ssdts)) = tables.split_first() else {
        unreachable!()
    };
    let text = rewritten_text::<S>(alloc, dsdt, ssdts, request.hex, request.depth)?;
    put_file(files, out, &text)
}

/// What a run prints, whole, with the objects kept in a space of the caller's choice. Rewritten tables stand in their
/// file then.
pub fn output_of<'a, S: Space<Object>, F: Files>(
    alloc: Global,
    words: &'a [&'a str],
    files: &mut F,
) -> Result<Output, Failure<'a>>
    ensures ok { IfOk result (λ m. IsOutput (F.bytes_of files.old)
        (texts words.now) m.status m.text.items) }
    ensures err { IfErr result (IsRunFailure (F.bytes_of files.old) (F.last_error files.new)
        (texts words.now)) }
    ensures stored { OnOk result (StoresOutput (F.bytes_of files.old) (texts words.now)
        (F.written_to files.old) (F.written_to files.new)) }
    ensures left { IfErr result (λ f. LeavesFiles (F.bytes_of files.old) (texts words.now) f
        (F.written_to files.old) (F.written_to files.new)) }
{
    let request = read_words(alloc, words)?;
    let text = match request.command {
        Command::List => listing_of::<S, F>(alloc, &request, files)?,
        Command::Show(word) => showing_of::<S, F>(alloc, &request, word, files)?,
        Command::Check => return checking_of::<S, F>(alloc, &request, files),
        Command::Rewrite(out) => {
            rewriting_of::<S, F>(alloc, &request, out, files)?;
            Vec::new(alloc)
        }
    };
    Ok(Output { text, status: 0 })
}

// Makes what the words ask for, prints it, and answers the status. Where anything but printing fails, nothing was
// printed.
fn print_output<'a, F: Files, O: Write>(
    alloc: Global,
    words: &'a [&'a str],
    files: &mut F,
    out: &mut O,
) -> Result<u8, Failure<'a>>
    ensures ok { IfOk result (λ status. GetsOutput (F.bytes_of files.old) (texts words.now) status
        (O.contents out.old) (O.contents out.new)) }
    ensures statuses { IfOk result (λ status. (status ≡ 0) ⊎ (status ≡ 3)) }
    ensures err { IfErr result (IsRunFailure (F.bytes_of files.old) (F.last_error files.new)
        (texts words.now)) }
    ensures kept { IfErr result (λ f. f ≢ Failure.Output → O.contents out.new
        ≡ O.contents out.old) }
    ensures begun { IfErr result (λ f. f ≡ Failure.Output
        → GetsBeginning (F.bytes_of files.old) (texts words.now) (O.contents out.old)
        (O.contents out.new)) }
    ensures stored { OnOk result (StoresOutput (F.bytes_of files.old) (texts words.now)
        (F.written_to files.old) (F.written_to files.new)) }
    ensures left { IfErr result (λ f. LeavesFiles (F.bytes_of files.old) (texts words.now) f
        (F.written_to files.old) (F.written_to files.new)) }
{
    let Output { text, status } = output_of::<TreeSpace<Object>, F>(alloc, words, files)?;
    if !write_whole(out, &text) || out.flush().is_err() {
        return Err(Failure::Output);
    }
    Ok(status)
}

/// Says why a run failed, as far as it can be said, and answers the status.
pub fn report_failure<E, P: PartWriter<E>>(failure: &Failure<'_>, err: &mut E, parts: &mut P) -> u8
    ensures status { result ≡ status_of failure.now }
    ensures line { WritesUntilFailure (failure_line failure.now) (P.failed parts.old)
        (P.contents err.old) (P.failed parts.new) (P.contents err.new) }
{
    put_line(parts, err, failure);
    failure.status()
}

/// The same as `run`, by the caller's way to write parts to `err`: so a contract can say whether a write failed.
pub fn run_telling<'a, F: Files, O: Write, E, P: PartWriter<E>>(
    alloc: Global,
    words: &'a [&'a str],
    files: &mut F,
    out: &mut O,
    err: &mut E,
    parts: &mut P,
) -> u8
    ensures done { result ≢ 1 → result ≢ 2 → GetsOutput (F.bytes_of files.old)
        (texts words.now) result (O.contents out.old) (O.contents out.new) }
    ensures quiet { result ≢ 1 → result ≢ 2 → err.new ≡ err.old }
    ensures stored { result ≢ 1 → result ≢ 2 → StoresOutput (F.bytes_of files.old)
        (texts words.now) (F.written_to files.old) (F.written_to files.new) }
    // The failure's line is said whole, unless a write of it failed.
    ensures failed { 1 ≤ result → result ≤ 2 → FailsWith (F.bytes_of files.old)
        (F.last_error files.new) (texts words.now) result (O.contents out.old) (O.contents out.new)
        (F.written_to files.old) (F.written_to files.new)
        (λ line. WritesUntilFailure line (P.failed parts.old) (P.contents err.old)
        (P.failed parts.new) (P.contents err.new)) }
    ensures statuses { result ≤ 3 }
{
    match print_output(alloc, words, files, out) {
        Ok(status) => status,
        Err(failure) => report_failure(&failure, err, parts),
    }
}

/// Runs the command that the words say, and answers its status. The words leave out the program's name.
/// Nothing is written to `out` before all of the output is made, and nothing to `err` but one line where the
/// status is 1 or 2.
pub fn run<'a, F: Files, O: Write, E: Write>(
    alloc: Global,
    words: &'a [&'a str],
    files: &mut F,
    out: &mut O,
    err: &mut E,
) -> u8
    // All that the words ask for is printed, and nothing else.
    ensures done { result ≢ 1 → result ≢ 2 → GetsOutput (F.bytes_of files.old)
        (texts words.now) result (O.contents out.old) (O.contents out.new) }
    ensures quiet { result ≢ 1 → result ≢ 2 → err.new ≡ err.old }
    ensures stored { result ≢ 1 → result ≢ 2 → StoresOutput (F.bytes_of files.old)
        (texts words.now) (F.written_to files.old) (F.written_to files.new) }
    // Something failed, and its line is said, or a beginning of it; nothing is printed, unless it was the printing.
    ensures failed { 1 ≤ result → result ≤ 2 → FailsWith (F.bytes_of files.old)
        (F.last_error files.new) (texts words.now) result (O.contents out.old) (O.contents out.new)
        (F.written_to files.old) (F.written_to files.new)
        (λ line. AppendsBeginning line (E.contents err.old) (E.contents err.new)) }
    // The words ask for nothing, or for a path that is none, and nothing is printed.
    ensures wrong { result ≡ 2 → IsWrong (texts words.now)
        × (O.contents out.new ≡ O.contents out.old) }
    ensures statuses { result ≤ 3 }
{
    run_telling(alloc, words, files, out, err, &mut UntilFailure::new())
}
