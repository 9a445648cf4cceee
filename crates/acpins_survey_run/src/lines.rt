//! The line that says why a run failed.

ghost use Rattle.std.specs.Prelude.{◌≡◌, ◌++◌, [], codes, nat_eq, if◌then◌else◌, IfOk, OnOk, ◌<◌};
ghost use Rattle.std.specs.List.{starts_with};
ghost use Rattle.acpins_io.specs.PartsWritten.{WritesUntilFailure};
ghost use Rattle.acpins_survey_run.specs.FailureLines.{argument_text, character_text, digit, failure_text, failure_line};
ghost use Rattle.acpins_survey_run.specs.FailureLines.{host_cause, path_hint, printed_name, read_cause};

use crate::failure::{Failure, ReadCause};
use acpins_io::{PartWriter, put_number, put_text};
use std::alloc::{AllocError, Global};
use std::io::ErrorKind;

// A hexadecimal digit.
fn digit(n: u8) -> u8
    requires { n < 16 }
    ensures { result ≡ digit n }
{
    b"0123456789ABCDEF"[usize::from(n)]
}

// Puts a character of a file's name behind a text.
fn put_character(text: &mut Vec<u8>, c: u8) -> Result<(), AllocError>
    ensures { OnOk result (text.new.items ≡ text.old.items ++ character_text c) }
{
    if c < b' ' || c == 0x7F {
        text.extend_from_slice(&[b'\\', b'x', digit(c / 16), digit(c % 16)])
    } else {
        Ok(text.push(c)?)
    }
}

/// A file's name as it is printed: control characters are `\x` and their two digits.
pub fn printed_name(alloc: Global, name: &str) -> Result<Vec<u8>, AllocError>
    ensures { IfOk result (λ text. text.items ≡ printed_name name.now) }
{
    let mut text = Vec::new(alloc);
    for c in name.as_bytes() {
        put_character(&mut text, *c)?;
    }
    Ok(text)
}

// Why the host refuses a file.
fn host_cause(kind: ErrorKind) -> &'static str
    ensures { result.now ≡ host_cause kind }
{
    match kind {
        ErrorKind::NotFound => "no such file",
        ErrorKind::PermissionDenied => "permission denied",
        ErrorKind::IsADirectory => "is a folder",
        ErrorKind::NotADirectory => "not a folder",
        ErrorKind::FilesystemLoop => "loop of links",
        ErrorKind::InvalidFilename => "name too long",
        ErrorKind::StorageFull => "no space left",
        ErrorKind::QuotaExceeded => "no quota left",
        ErrorKind::FileTooLarge => "file too large",
        ErrorKind::ReadOnlyFilesystem => "read-only file system",
        ErrorKind::ResourceBusy | ErrorKind::ExecutableFileBusy => "busy",
        ErrorKind::BrokenPipe => "nobody reads it",
        _ => "the host refuses it",
    }
}

// Why a file or a folder can't be read.
fn read_cause(cause: ReadCause) -> &'static str
    ensures { result.now ≡ read_cause cause }
{
    match cause {
        ReadCause::Host(kind) => host_cause(kind),
        ReadCause::NoDsdt => "a folder without a DSDT",
        ReadCause::ManyDsdts => "a folder with more than one DSDT",
    }
}

// What is said of a bad path that begins with no backslash.
fn path_hint(word: &[u8]) -> &'static str
    ensures { result.now ≡ path_hint word.now }
{
    if word.starts_with(b"\\") {
        ""
    } else {
        ": it begins with \\ (quote it for the shell)"
    }
}

// An argument, by its number where that is known.
fn put_argument<E, P: PartWriter<E>>(parts: &mut P, err: &mut E, number: Option<usize>)
    ensures { WritesUntilFailure (argument_text number) (P.failed parts.old)
        (P.contents err.old) (P.failed parts.new) (P.contents err.new) }
{
    match number {
        Some(number) => {
            put_text(parts, err, "argument ");
            put_number(parts, err, number)
        }
        None => put_text(parts, err, "an argument"),
    }
}

// What is said of a file.
fn put_about<E, P: PartWriter<E>>(parts: &mut P, err: &mut E, file: &Vec<u8>, what: &str)
    ensures { WritesUntilFailure (file.now.items ++ what.now) (P.failed parts.old)
        (P.contents err.old) (P.failed parts.new) (P.contents err.new) }
{
    parts.write_part(err, file.as_slice());
    put_text(parts, err, what)
}

fn put_failure<E, P: PartWriter<E>>(parts: &mut P, err: &mut E, failure: &Failure)
    ensures { WritesUntilFailure (failure_text failure.now) (P.failed parts.old)
        (P.contents err.old) (P.failed parts.new) (P.contents err.new) }
{
    match failure {
        Failure::WrongArguments(text) => parts.write_part(err, text.as_slice()),
        Failure::NotUtf8(number) => {
            put_argument(parts, err, *number);
            put_text(parts, err, " is not UTF-8: its file cannot be named")
        }
        Failure::BadPath(word) => {
            put_text(parts, err, "bad path: ");
            parts.write_part(err, word.as_slice());
            put_text(parts, err, path_hint(word.as_slice()))
        }
        Failure::NoSuchPath => put_text(parts, err, "no such path"),
        Failure::NoTable(file) => put_about(parts, err, file, ": holds no table"),
        Failure::Read(file, cause) => {
            put_about(parts, err, file, ": cannot be read: ");
            put_text(parts, err, read_cause(*cause))
        }
        Failure::BadHex(file) => put_about(parts, err, file, ": bad hexadecimal text"),
        Failure::HoldsTables(file) => put_about(parts, err, file, ": holds ACPI tables"),
        Failure::Out(file, kind) => {
            put_about(parts, err, file, ": cannot be written: ");
            put_text(parts, err, host_cause(*kind))
        }
        Failure::Output => put_text(parts, err, "standard output cannot be written"),
        Failure::Memory => put_text(parts, err, "M Memory"),
    }
}

/// Writes the line that says why a run failed. It takes no memory.
pub fn put_line<E, P: PartWriter<E>>(parts: &mut P, err: &mut E, failure: &Failure)
    ensures { WritesUntilFailure (failure_line failure.now) (P.failed parts.old)
        (P.contents err.old) (P.failed parts.new) (P.contents err.new) }
{
    put_text(parts, err, "acpins-survey: ");
    put_failure(parts, err, failure);
    put_text(parts, err, "\n")
}
