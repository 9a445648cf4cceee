//! One run of the program.

ghost use Rattle.std.specs.Prelude.{◌≡◌, ◌≢◌, ◌≤◌, ◌⊎◌, [], Some, IfOk, IfErr, OnOk, OnErr, option_map, true, false};
ghost use Rattle.std.specs.declared.io.ErrorKind.{ErrorKind};
ghost use Rattle.acpins_io.specs.Outputs.{GetsBeginning, GetsOutput, IsHeldIn, printed_of};
ghost use Rattle.acpins_io.specs.PartsWritten.{AppendsBeginning, WritesUntilFailure};
ghost use Rattle.acpins_words.specs.Words.{texts};
ghost use Rattle.acpins_survey_words.specs.Words.{asked_in, command_in};
ghost use Rattle.acpins_survey_run.specs.FailureLines.{failure_line};
ghost use Rattle.acpins_survey_run.specs.Failures.{status_of};
ghost use Rattle.acpins_survey_run.specs.Machines.{machines_in};
ghost use Rattle.acpins_survey_run.specs.Runs.{AreMachinesOf, AreTablesOf, FailsWith, IsFailureOf, IsOutput, IsRunFailure, LeavesFiles, StoresOutput, first_names, page_file, second_names};
ghost use Rattle.acpins_survey_run.specs.steps.Refusals.{IsMachinesFault, IsPrinted, IsStored, IsTablesFault, IsUnwritten};
ghost use Rattle.acpins_survey_run.specs.declared.failure.Failure.{Failure};

use crate::console::Console;
use crate::failure::Failure;
use crate::folders::Folders;
use crate::lines::put_line;
use crate::printing::{Output, Printer, print_of};
use crate::sources::files_of;
use crate::tables::{FoundMachines, FoundTables, read_tables};
use crate::writing::{put_file, spare_tables};
use acpins_io::{Files, PartWriter, StreamWriter, UntilFailure, WriteErrors, Written, write_out};
use acpins_survey_words::{Command, Invocation, Request, VERSION, fault_text, help_of, read_words};
use acpins_words::WordsFault;
use bytes::Bytes;
use std::alloc::Global;
use std::io::Write;
use std::slice::from_ref;

/// How a run ended.
#[derive(Clone, Copy, Debug, PartialEq, Eq)]
pub struct Ending {
    /// The exit status.
    pub status: u8,
    /// Whether standard output has all that is printed. Where nobody reads it any more it has a beginning of that, and
    /// this is no failure.
    pub is_whole: bool,
}

// The file to which a command writes its text.
fn page_file<'a>(command: &Command<'a>) -> Option<&'a str>
    ensures { option_map (λ name. name.now) result ≡ page_file (command_in command.now) }
{
    match command {
        Command::Html(out) => Some(*out),
        _ => None,
    }
}

// The tables of the files that these arguments stand for, none of which is written.
fn tables_of<F: Files, D: Folders>(
    alloc: Global,
    request: &Request<'_>,
    names: &[&str],
    files: &mut F,
    folders: &mut D,
) -> Result<FoundTables, Failure>
    ensures ok { IfOk result (λ found. AreTablesOf (F.bytes_of files.old)
        (D.names_in folders.old) (asked_in request.now) (texts names.now) found.tables.items) }
    ensures err { IfErr result (IsTablesFault (F.bytes_of files.old) (D.names_in folders.old)
        (F.last_error files.new, D.last_error folders.new) (asked_in request.now)
        (texts names.now)) }
    ensures files { F.bytes_of files.new ≡ F.bytes_of files.old }
    ensures folders { D.names_in folders.new ≡ D.names_in folders.old }
    ensures others { F.written_to files.new ≡ F.written_to files.old }
{
    let sources = files_of(alloc, folders, names)?;
    spare_tables(alloc, files, page_file(&request.command), &sources)?;
    read_tables(alloc, files, &sources, request.hex)
}

// The arguments that stand for the files of the machine that a command is over; of `diff` for those of the first.
fn first_names<'s, 'a>(command: &Command<'a>, names: &'s [&'a str]) -> &'s [&'a str]
    ensures { texts result.now ≡ first_names (command_in command.now) (texts names.now) }
{
    match command {
        Command::Diff { .. } => match names {
            [old, _] => from_ref(old),
            _ => names,
        },
        _ => names,
    }
}

// .. for those of the second, if there are two.
fn second_names<'s, 'a>(command: &Command<'a>, names: &'s [&'a str]) -> Option<&'s [&'a str]>
    ensures { option_map (λ names. texts names.now) result
        ≡ second_names (command_in command.now) (texts names.now) }
{
    match command {
        Command::Diff { .. } => match names {
            [_, new] => Some(from_ref(new)),
            _ => None,
        },
        _ => None,
    }
}

// The tables of the machine that a command is over; of `diff` those of two.
fn machines_of<F: Files, D: Folders>(
    alloc: Global,
    request: &Request<'_>,
    files: &mut F,
    folders: &mut D,
) -> Result<FoundMachines, Failure>
    ensures ok { IfOk result (λ found. AreMachinesOf (F.bytes_of files.old)
        (D.names_in folders.old) (asked_in request.now) (machines_in found)) }
    ensures err { IfErr result (IsMachinesFault (F.bytes_of files.old) (D.names_in folders.old)
        (F.last_error files.new, D.last_error folders.new) (asked_in request.now)) }
    ensures others { F.written_to files.new ≡ F.written_to files.old }
{
    let first = first_names(&request.command, &request.files);
    let first = tables_of(alloc, request, first, files, folders)?;
    let second = match second_names(&request.command, &request.files) {
        Some(names) => Some(tables_of(alloc, request, names, files, folders)?),
        None => None,
    };
    Ok(FoundMachines { first, second })
}

// How many bytes tables have.
fn bytes_of(tables: &[Bytes]) -> usize {
    let mut bytes: usize = 0;
    for table in tables {
        bytes = bytes.saturating_add(table.len());
    }
    bytes
}

// Tells that work over these tables begins.
fn tell_work<C: Console>(console: &mut C, found: &FoundMachines) {
    let mut bytes = bytes_of(&found.first.tables);
    if let Some(second) = &found.second {
        bytes = bytes.saturating_add(bytes_of(&second.tables));
    }
    console.work_begins(bytes);
}

// What is printed of a text that was made: all of it, or nothing where it is written to a file.
fn deliver<F: Files>(
    alloc: Global,
    text: Vec<u8>,
    out: Option<&str>,
    files: &mut F,
) -> Result<Vec<u8>, Failure>
    ensures printed { IfOk result (λ printed.
        printed.items ≡ printed_of (option_map (λ name. name.now) out.entry) text.items) }
    ensures held { OnOk result (IsHeldIn (option_map (λ name. name.now) out.entry) text.items
        (F.written_to files.old) (F.written_to files.new)) }
    ensures err { IfErr result (IsUnwritten (option_map (λ name. name.now) out.entry)) }
    ensures left { OnErr result (F.written_to files.new ≡ F.written_to files.old) }
{
    match out {
        Some(name) => {
            put_file(alloc, files, name, &text)?;
            Ok(Vec::new(alloc))
        }
        None => Ok(text),
    }
}

// What a command over tables prints.
fn survey_output<T: Printer, F: Files, D: Folders, C: Console>(
    alloc: Global,
    request: &Request<'_>,
    printer: &T,
    files: &mut F,
    folders: &mut D,
    console: &mut C,
) -> Result<Output, Failure>
    ensures ok { IfOk result (λ m. IsPrinted (F.bytes_of files.old) (D.names_in folders.old)
        T.makes (asked_in request.now) m.status m.text.items) }
    ensures err { IfErr result (IsFailureOf (F.bytes_of files.old) (D.names_in folders.old)
        T.makes T.has_nothing (F.last_error files.new, D.last_error folders.new)
        (asked_in request.now)) }
    ensures stored { OnOk result (IsStored (F.bytes_of files.old) (D.names_in folders.old)
        T.makes (asked_in request.now) (F.written_to files.old) (F.written_to files.new)) }
    ensures left { OnErr result (F.written_to files.new ≡ F.written_to files.old) }
{
    let print = print_of(alloc, &request.command)?;
    let found = machines_of(alloc, request, files, folders)?;
    tell_work(console, &found);
    let is_coloured = console.shows_colours();
    let output = printer.text(alloc, &print, &found, request.depth, is_coloured)?;
    let text = deliver(alloc, output.text, page_file(&request.command), files)?;
    Ok(Output {
        text,
        status: output.status,
    })
}

// A text that is printed whatever the tables are.
fn text_output(alloc: Global, text: &str) -> Result<Output, Failure>
    ensures ok { IfOk result (λ m. (m.status ≡ 0) × (m.text.items ≡ text.now)) }
    ensures err { IfErr result (λ f. f ≡ Failure.Memory) }
{
    let text = Vec::from_slice(alloc, text.as_bytes())?;
    Ok(Output { text, status: 0 })
}

/// What a run prints, whole. A page stands in its file then.
pub fn output_of<'a, T: Printer, F: Files, D: Folders, C: Console>(
    alloc: Global,
    words: &'a [&'a str],
    printer: &T,
    files: &mut F,
    folders: &mut D,
    console: &mut C,
) -> Result<Output, Failure>
    ensures ok { IfOk result (λ m. IsOutput (F.bytes_of files.old) (D.names_in folders.old)
        T.makes (texts words.now) m.status m.text.items) }
    ensures err { IfErr result (λ f. IsRunFailure (F.bytes_of files.old) (D.names_in folders.old)
        T.makes T.has_nothing (F.last_error files.new, D.last_error folders.new)
        (texts words.now) f × (f ≢ Failure.Output)) }
    ensures stored { OnOk result (StoresOutput (F.bytes_of files.old) (D.names_in folders.old)
        T.makes (texts words.now) (F.written_to files.old) (F.written_to files.new)) }
    ensures left { OnErr result (F.written_to files.new ≡ F.written_to files.old) }
{
    match read_words(alloc, words) {
        Ok(Invocation::Help(topic)) => text_output(alloc, help_of(topic)),
        Ok(Invocation::Version) => text_output(alloc, VERSION),
        Ok(Invocation::Survey(request)) => {
            survey_output(alloc, &request, printer, files, folders, console)
        }
        Err(WordsFault::Wrong) => Err(Failure::WrongArguments(fault_text(alloc, words)?)),
        Err(WordsFault::Memory) => Err(Failure::Memory),
    }
}

// Makes what the words ask for, prints it, and answers the status. Where anything but printing fails, nothing was
// printed.
fn print_output<'a, T: Printer, F: Files, D: Folders, C: Console, O, W: StreamWriter<O>>(
    alloc: Global,
    words: &'a [&'a str],
    printer: &T,
    files: &mut F,
    folders: &mut D,
    console: &mut C,
    out: &mut O,
    writer: &mut W,
) -> Result<Ending, Failure>
    ensures ok { IfOk result (λ e. e.is_whole ≡ true
        → GetsOutput (IsOutput (F.bytes_of files.old) (D.names_in folders.old)
        T.makes (texts words.now)) e.status (W.contents out.old) (W.contents out.new)) }
    ensures part { OnOk result (GetsBeginning
        (IsOutput (F.bytes_of files.old) (D.names_in folders.old) T.makes (texts words.now))
        (W.contents out.old) (W.contents out.new)) }
    ensures unread { IfOk result (λ e. e.is_whole ≡ false
        → W.last_error writer.new ≡ Some ErrorKind.BrokenPipe) }
    ensures statuses { IfOk result (λ e. (e.status ≡ 0) ⊎ (e.status ≡ 3)) }
    ensures err { IfErr result
        (IsRunFailure (F.bytes_of files.old) (D.names_in folders.old)
        T.makes T.has_nothing (F.last_error files.new, D.last_error folders.new)
        (texts words.now)) }
    ensures kept { IfErr result (λ f.
        f ≢ Failure.Output → W.contents out.new ≡ W.contents out.old) }
    ensures begun { IfErr result (λ f. f ≡ Failure.Output
        → GetsBeginning (IsOutput (F.bytes_of files.old) (D.names_in folders.old)
        T.makes (texts words.now)) (W.contents out.old) (W.contents out.new)) }
    ensures stored { OnOk result (StoresOutput (F.bytes_of files.old) (D.names_in folders.old)
        T.makes (texts words.now) (F.written_to files.old) (F.written_to files.new)) }
    ensures left { IfErr result (λ f. LeavesFiles (F.bytes_of files.old) (D.names_in folders.old)
        T.makes (texts words.now) f (F.written_to files.old) (F.written_to files.new)) }
{
    let Output { text, status } = output_of(alloc, words, printer, files, folders, console)?;
    match write_out(writer, out, &text) {
        Written::Whole => Ok(Ending {
            status,
            is_whole: true,
        }),
        Written::Unread => Ok(Ending {
            status,
            is_whole: false,
        }),
        Written::Failed => Err(Failure::Output),
    }
}

/// Says why a run failed, as far as it can be said, and answers the status.
pub fn report_failure<E, P: PartWriter<E>>(failure: &Failure, err: &mut E, parts: &mut P) -> u8
    ensures status { result ≡ status_of failure.now }
    ensures line { WritesUntilFailure (failure_line failure.now) (P.failed parts.old)
        (P.contents err.old) (P.failed parts.new) (P.contents err.new) }
{
    put_line(parts, err, failure);
    failure.status()
}

/// The same as `run`, by the caller's ways to write to `out` and to write parts to `err`: so a contract can say whether a
/// write failed.
pub fn run_telling<
    'a,
    T: Printer,
    F: Files,
    D: Folders,
    C: Console,
    O,
    W: StreamWriter<O>,
    E,
    P: PartWriter<E>,
>(
    alloc: Global,
    words: &'a [&'a str],
    printer: &T,
    files: &mut F,
    folders: &mut D,
    console: &mut C,
    out: &mut O,
    writer: &mut W,
    err: &mut E,
    parts: &mut P,
) -> Ending
    ensures done { result.status ≢ 1 → result.status ≢ 2 → result.is_whole ≡ true
        → GetsOutput (IsOutput (F.bytes_of files.old) (D.names_in folders.old)
        T.makes (texts words.now)) result.status (W.contents out.old) (W.contents out.new) }
    ensures part { result.status ≢ 1 → result.status ≢ 2
        → GetsBeginning (IsOutput (F.bytes_of files.old) (D.names_in folders.old)
        T.makes (texts words.now)) (W.contents out.old) (W.contents out.new) }
    // Only where the writer said so nobody reads it.
    ensures unread { result.status ≢ 1 → result.status ≢ 2 → result.is_whole ≡ false
        → W.last_error writer.new ≡ Some ErrorKind.BrokenPipe }
    ensures quiet { result.status ≢ 1 → result.status ≢ 2 → err.new ≡ err.old }
    ensures stored { result.status ≢ 1 → result.status ≢ 2
        → StoresOutput (F.bytes_of files.old) (D.names_in folders.old)
        T.makes (texts words.now) (F.written_to files.old) (F.written_to files.new) }
    // The failure's line is said whole, unless a write of it failed.
    ensures failed { 1 ≤ result.status → result.status ≤ 2
        → FailsWith (F.bytes_of files.old) (D.names_in folders.old) T.makes T.has_nothing
        (F.last_error files.new, D.last_error folders.new) (texts words.now) result.status
        (W.contents out.old) (W.contents out.new) (F.written_to files.old) (F.written_to files.new)
        (λ line. WritesUntilFailure line (P.failed parts.old) (P.contents err.old)
        (P.failed parts.new) (P.contents err.new)) }
    ensures statuses { result.status ≤ 3 }
{
    match print_output(alloc, words, printer, files, folders, console, out, writer) {
        Ok(ending) => ending,
        Err(failure) => Ending {
            status: report_failure(&failure, err, parts),
            is_whole: false,
        },
    }
}

/// Runs the command that the words say, and answers how it ended. The words leave out the program's name.
/// Nothing is written to `out` before all of the output is made, and nothing to `err` but one line where the
/// status is 1 or 2.
pub fn run<'a, T: Printer, F: Files, D: Folders, C: Console, O: Write, E: Write>(
    alloc: Global,
    words: &'a [&'a str],
    printer: &T,
    files: &mut F,
    folders: &mut D,
    console: &mut C,
    out: &mut O,
    err: &mut E,
) -> Ending
    // All that the words ask for is printed, and nothing else; or a beginning of it, where nobody reads it.
    ensures done { result.status ≢ 1 → result.status ≢ 2 → result.is_whole ≡ true
        → GetsOutput (IsOutput (F.bytes_of files.old) (D.names_in folders.old)
        T.makes (texts words.now)) result.status (O.contents out.old) (O.contents out.new) }
    ensures part { result.status ≢ 1 → result.status ≢ 2
        → GetsBeginning (IsOutput (F.bytes_of files.old) (D.names_in folders.old)
        T.makes (texts words.now)) (O.contents out.old) (O.contents out.new) }
    ensures quiet { result.status ≢ 1 → result.status ≢ 2 → err.new ≡ err.old }
    // The page that the words ask for stands in its file. No other file is written, and none that was read.
    ensures stored { result.status ≢ 1 → result.status ≢ 2
        → StoresOutput (F.bytes_of files.old) (D.names_in folders.old)
        T.makes (texts words.now) (F.written_to files.old) (F.written_to files.new) }
    // Something failed, and its line is said, or a beginning of it; nothing is printed, unless it was the printing.
    ensures failed { 1 ≤ result.status → result.status ≤ 2
        → FailsWith (F.bytes_of files.old) (D.names_in folders.old) T.makes T.has_nothing
        (F.last_error files.new, D.last_error folders.new) (texts words.now) result.status
        (O.contents out.old) (O.contents out.new) (F.written_to files.old) (F.written_to files.new)
        (λ line. AppendsBeginning line (E.contents err.old) (E.contents err.new)) }
    ensures statuses { result.status ≤ 3 }
{
    run_telling(
        alloc,
        words,
        printer,
        files,
        folders,
        console,
        out,
        &mut WriteErrors::new(),
        err,
        &mut UntilFailure::new(),
    )
}
