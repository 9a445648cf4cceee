//! Why a part of code can't be read.

ghost use Rattle.std.specs.Prelude.{◌≡◌};
ghost use Rattle.acpi_code.specs.declared.fault.ConstantFault.TheVariants.{Part};
ghost use Rattle.acpi_code.specs.declared.fault.FieldFault.TheVariants as fields;

use crate::opcode::Opcode;
use std::alloc::{AllocError, AllocFailed};
use thiserror::Error;

/// What is wrong at a place of the code.
#[derive(Clone, Copy, Debug, PartialEq, Eq, Error)]
pub enum CodeReason {
    /// The list ends there, and a byte is needed there.
    #[error("Cut")]
    Cut,
    /// A package length or bit count whose lead byte has reserved bits (ACPI 6.5, 20.2.4).
    #[error("ReservedBits")]
    ReservedBits,
    /// A name or segment must stand there, and none does (20.2.2).
    #[error("BadName")]
    BadName,
    /// A package length below its own number of bytes, or past the list's end (20.2.4).
    #[error("Overrun")]
    Overrun,
    /// A byte above 7F inside a string (20.2.3).
    #[error("BadString")]
    BadString,
    /// A term must begin there, and no level is left for it.
    #[error("TooDeep")]
    TooDeep,
}

/// Why a part that takes no memory can't be read.
#[derive(Clone, Copy, Debug, PartialEq, Eq, Error)]
#[error("{reason}")]
pub struct CodeFault {
    /// What is wrong at the place.
    pub reason: CodeReason,
    /// Where, in bytes from the first byte of the code.
    pub place: usize,
}

/// Why a constant, or what holds one, can't be read.
#[derive(Clone, Copy, Debug, PartialEq, Eq, Error)]
pub enum ConstantFault {
    /// A part of it can't be read.
    #[error("{0}")]
    Part(CodeFault),
    /// A constant must stand there, and this begins there.
    #[error("NotConstant")]
    NotConstant {
        /// What begins there.
        opcode: Opcode,
        /// Where, in bytes from the first byte of the code.
        place: usize,
    },
}

/// Why field elements can't be read.
#[derive(Clone, Copy, Debug, PartialEq, Eq, Error)]
pub enum FieldFault {
    /// What is wrong, and where.
    #[error("{0}")]
    At(ConstantFault),
    /// A growth of memory was refused.
    #[error("Memory")]
    Memory,
}

impl From<CodeFault> for ConstantFault {
    ghost from_gives = { λ fault constant. constant ≡ Part fault };

    fn from(fault: CodeFault) -> ConstantFault {
        ConstantFault::Part(fault)
    }
}

impl From<CodeFault> for FieldFault {
    ghost from_gives = { λ fault field. field ≡ fields.At (Part fault) };

    fn from(fault: CodeFault) -> FieldFault {
        FieldFault::At(ConstantFault::Part(fault))
    }
}

impl From<ConstantFault> for FieldFault {
    ghost from_gives = { λ fault field. field ≡ fields.At fault };

    fn from(fault: ConstantFault) -> FieldFault {
        FieldFault::At(fault)
    }
}

impl From<AllocError> for FieldFault {
    ghost from_gives = { λ _ field. field ≡ fields.Memory };

    fn from(_e: AllocError) -> FieldFault {
        FieldFault::Memory
    }
}

impl<T: Drop> From<AllocFailed<T>> for FieldFault {
    ghost from_gives = { λ _ field. field ≡ fields.Memory };

    fn from(_e: AllocFailed<T>) -> FieldFault {
        FieldFault::Memory
    }
}
