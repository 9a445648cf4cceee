//! Why a run ends with status 1 or 2, and the line that says so.

ghost use Rattle.std.specs.Prelude.{◌≡◌};
ghost use Rattle.acpins_run.specs.Failures.{failure_of, failure_of_words, status_of};
ghost use Rattle.acpins_run.specs.declared.failure.Failure.{Failure};

use acpi_declare::{LoadFault, LoadReason};
use acpi_table::{HEADER_BYTES, TableFault};
use acpi_terms::ItemReason;
use acpins_words::WordsFault;
use std::alloc::{AllocError, AllocFailed};
use thiserror::Error;

/// Why a run made nothing.
#[derive(Debug, Drop, Error)]
pub enum Failure<'a> {
    /// The words are none that the command knows.
    #[error("acpins: wrong words")]
    WrongWords,
    /// The words ask for the object of a path, and the word of the path spells none.
    #[error("acpins: bad path")]
    BadPath,
    /// The namespace has no object at the path.
    #[error("acpins: no such path")]
    NoSuchPath,
    /// The files hold no table.
    #[error("acpins: no table")]
    NoTable,
    /// This file could not be opened or read to its end.
    #[error("acpins: {0}: cannot be read")]
    Read(&'a str),
    /// This file is no hexadecimal text.
    #[error("acpins: {0}: bad hexadecimal text")]
    BadHex(&'a str),
    /// This file could not be made or written.
    #[error("acpins: {0}: cannot be written")]
    Out(&'a str),
    /// Standard output could not be written.
    #[error("acpins: standard output cannot be written")]
    Output,
    /// The bytes of the files hold no table here.
    #[error("acpins: table {0}: {1}")]
    Table(usize, TableFault),
    /// A table's code can't be read: the reason, and its place in bytes from the table's first byte.
    #[error("acpins: table {0}: {1} at {2}")]
    Item(usize, ItemReason, usize),
    /// A table can't be loaded.
    #[error("acpins: table {0}: {1}")]
    Load(usize, LoadReason),
    /// A growth of memory was refused.
    #[error("acpins: M Memory")]
    Memory,
}

impl<'a> Failure<'a> {
    /// The exit status: 2 for words, 1 for all else.
    pub fn status(&self) -> u8
        ensures { result ≡ status_of self.now }
    {
        match self {
            Failure::WrongWords | Failure::BadPath => 2,
            _ => 1,
        }
    }
}

impl<'a> From<WordsFault> for Failure<'a> {
    ghost from_gives = { λ e f. f ≡ failure_of_words e };

    fn from(fault: WordsFault) -> Failure<'a> {
        match fault {
            WordsFault::Wrong => Failure::WrongWords,
            WordsFault::Memory => Failure::Memory,
        }
    }
}

impl<'a> From<AllocError> for Failure<'a> {
    ghost from_gives = { λ _ f. f ≡ Failure.Memory };

    fn from(_error: AllocError) -> Failure<'a> {
        Failure::Memory
    }
}

impl<'a, T: Drop> From<AllocFailed<T>> for Failure<'a> {
    ghost from_gives = { λ _ f. f ≡ Failure.Memory };

    fn from(_failed: AllocFailed<T>) -> Failure<'a> {
        Failure::Memory
    }
}

impl<'a> From<LoadFault> for Failure<'a> {
    ghost from_gives = { λ e f. f ≡ failure_of e };

    fn from(fault: LoadFault) -> Failure<'a> {
        match fault {
            LoadFault::Memory => Failure::Memory,
            LoadFault::At { table, reason } => match reason {
                LoadReason::Item { reason, place } => {
                    Failure::Item(table, reason, place.saturating_add(HEADER_BYTES))
                }
                reason => Failure::Load(table, reason),
            },
        }
    }
}
