//! The line that says why a run failed.

ghost use Rattle.std.specs.Prelude.{◌≡◌, ◌++◌, codes, decimal};
ghost use Rattle.acpins_io.specs.PartsWritten.{WritesUntilFailure};
ghost use Rattle.acpins_output.specs.FaultTexts.{item_reason_text, load_reason_text};
ghost use Rattle.acpins_run.specs.FailureLines.{failure_text, failure_line};

use crate::failure::Failure;
use acpins_io::{PartWriter, put_number, put_text};
use acpins_output::{put_item, put_load_reason};

// A table's number, before what fails in it.
fn put_table<E, P: PartWriter<E>>(parts: &mut P, err: &mut E, number: usize)
    ensures { WritesUntilFailure (codes "table " ++ decimal number ++ codes ": ")
        (P.failed parts.old) (P.contents err.old) (P.failed parts.new) (P.contents err.new) }
{
    put_text(parts, err, "table ");
    put_number(parts, err, number);
    put_text(parts, err, ": ")
}

fn put_failure<E, P: PartWriter<E>>(parts: &mut P, err: &mut E, failure: &Failure<'_>)
    ensures { WritesUntilFailure (failure_text failure.now) (P.failed parts.old)
        (P.contents err.old) (P.failed parts.new) (P.contents err.new) }
{
    match failure {
        Failure::WrongWords => put_text(parts, err, "wrong words"),
        Failure::BadPath => put_text(parts, err, "bad path"),
        Failure::NoSuchPath => put_text(parts, err, "no such path"),
        Failure::NoTable => put_text(parts, err, "no table"),
        Failure::Read(file) => {
            put_text(parts, err, file);
            put_text(parts, err, ": cannot be read")
        }
        Failure::BadHex(file) => {
            put_text(parts, err, file);
            put_text(parts, err, ": bad hexadecimal text")
        }
        Failure::Out(file) => {
            put_text(parts, err, file);
            put_text(parts, err, ": cannot be written")
        }
        Failure::Output => put_text(parts, err, "standard output cannot be written"),
        Failure::Table(number, fault) => {
            put_table(parts, err, *number);
            put_text(parts, err, fault.text())
        }
        Failure::Item(number, reason, place) => {
            put_table(parts, err, *number);
            put_item(parts, err, *reason, *place)
        }
        Failure::Load(number, reason) => {
            put_table(parts, err, *number);
            put_load_reason(parts, err, reason)
        }
        Failure::Memory => put_text(parts, err, "M Memory"),
    }
}

/// Writes the line that says why a run failed. It takes no memory.
pub fn put_line<E, P: PartWriter<E>>(parts: &mut P, err: &mut E, failure: &Failure<'_>)
    ensures { WritesUntilFailure (failure_line failure.now) (P.failed parts.old)
        (P.contents err.old) (P.failed parts.new) (P.contents err.new) }
{
    put_text(parts, err, "acpins: ");
    put_failure(parts, err, failure);
    put_text(parts, err, "\n")
}
