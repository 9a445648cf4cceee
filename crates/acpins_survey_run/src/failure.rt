//! Why a run ends with status 1 or 2.

ghost use Rattle.std.specs.Prelude.{◌≡◌};
ghost use Rattle.acpins_survey_run.specs.Failures.{failure_of_printing, status_of};
ghost use Rattle.acpins_survey_run.specs.declared.failure.Failure.{Failure};
ghost use Rattle.acpins_survey_run.specs.declared.failure.PrintFault.{PrintFault};

use std::alloc::{AllocError, AllocFailed};
use std::io::ErrorKind;

/// Why a file can't be read.
#[derive(Clone, Copy, Debug, PartialEq, Eq)]
pub enum ReadCause {
    /// The host refuses it, with an error of this kind.
    Host(ErrorKind),
    /// It is a folder, and no file in it is that of a DSDT.
    NoDsdt,
    /// It is a folder, and more than one file in it is that of a DSDT.
    ManyDsdts,
}

/// Why a run made nothing. The names of files are kept as they are printed.
#[derive(Debug, Drop)]
pub enum Failure {
    /// The arguments ask for nothing that the command knows. The text says what is wrong with them.
    WrongArguments(Vec<u8>),
    /// The argument of this number, if it is known which one it is, is not UTF-8.
    NotUtf8(Option<usize>),
    /// The arguments ask for the objects at a path, and this word spells none.
    BadPath(Vec<u8>),
    /// No object may be at the path.
    NoSuchPath,
    /// This file holds no table.
    NoTable(Vec<u8>),
    /// This file could not be opened or read to its end.
    Read(Vec<u8>, ReadCause),
    /// This file is no hexadecimal text.
    BadHex(Vec<u8>),
    /// This file is to be written, and holds tables.
    HoldsTables(Vec<u8>),
    /// This file could not be made or written, with an error of this kind.
    Out(Vec<u8>, ErrorKind),
    /// Standard output could not be written.
    Output,
    /// A growth of memory was refused.
    Memory,
}

/// Why nothing is made of tables.
#[derive(Clone, Copy, Debug, PartialEq, Eq)]
pub enum PrintFault {
    /// No object may be at the path.
    NoSuchPath,
    /// A growth of memory was refused.
    Memory,
}

impl Failure {
    /// The exit status: 2 for arguments, 1 for all else.
    pub fn status(&self) -> u8
        ensures { result ≡ status_of self.now }
    {
        match self {
            Failure::WrongArguments(_) | Failure::BadPath(_) => 2,
            _ => 1,
        }
    }
}

impl From<AllocError> for Failure {
    ghost from_gives = { λ _ f. f ≡ Failure.Memory };

    fn from(_error: AllocError) -> Failure {
        Failure::Memory
    }
}

impl<T: Drop> From<AllocFailed<T>> for Failure {
    ghost from_gives = { λ _ f. f ≡ Failure.Memory };

    fn from(_failed: AllocFailed<T>) -> Failure {
        Failure::Memory
    }
}

impl From<PrintFault> for Failure {
    ghost from_gives = { λ e f. f ≡ failure_of_printing e };

    fn from(fault: PrintFault) -> Failure {
        match fault {
            PrintFault::NoSuchPath => Failure::NoSuchPath,
            PrintFault::Memory => Failure::Memory,
        }
    }
}

impl From<AllocError> for PrintFault {
    ghost from_gives = { λ _ f. f ≡ PrintFault.Memory };

    fn from(_error: AllocError) -> PrintFault {
        PrintFault::Memory
    }
}

impl<T: Drop> From<AllocFailed<T>> for PrintFault {
    ghost from_gives = { λ _ f. f ≡ PrintFault.Memory };

    fn from(_failed: AllocFailed<T>) -> PrintFault {
        PrintFault::Memory
    }
}
