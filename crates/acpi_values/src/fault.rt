//! Why a method body can't be read.

ghost use Rattle.std.specs.Prelude.{◌≡◌};
ghost use Rattle.acpi_values.specs.declared.fault.BodyError.TheVariants as stops;
ghost use Rattle.acpi_values.specs.Faults.{reason_of, fault_of};
ghost use Rattle.acpi_values.specs.Texts.{body_reason_text};
ghost use Rattle.acpi_values.specs.steps.Reading.{fault_at};
ghost use Rattle.acpi_values.specs.steps.Cursor.{field_fault_of};

use acpi_code::{Code, CodeFault, CodeReason, ConstantFault, FieldFault};
use std::alloc::{AllocError, AllocFailed};
use thiserror::Error;

/// Why no term is read at a place.
#[derive(Clone, Copy, Debug, PartialEq, Eq, Error)]
pub enum BodyReason {
    /// The list ends there, and the form needs a byte there.
    #[error("B1 Cut")]
    Cut,
    /// At the place of a value or a statement, no term begins there.
    #[error("B2 BadOpcode")]
    BadOpcode,
    /// A package length or bit count whose lead byte has reserved bits (ACPI 6.5, 20.2.4).
    #[error("B3 ReservedBits")]
    ReservedBits,
    /// A name or segment must stand there, and none does (20.2.2).
    #[error("B4 BadName")]
    BadName,
    /// A package length below its own number of bytes, or past the list's end.
    #[error("B5 Overrun")]
    Overrun,
    /// At the place of a statement, a term that is none: a constant, a string, a Local, an Arg, Debug, or an
    /// Else that follows no If.
    #[error("B6 NotStatement")]
    NotStatement,
    /// At the place of a value, a term that has none: an operator without a value, If, Else, While, Debug or a
    /// declaration.
    #[error("B7 NotValue")]
    NotValue,
    /// No super name, target or simple name begins there.
    #[error("B8 NotTarget")]
    NotTarget,
    /// At the place of a value or a statement, a term that bodies may not have: Alias, Scope, Method, External,
    /// Device, Processor, PowerResource, ThermalZone, LoadTable, Load, Unload or DataTableRegion.
    #[error("B9 LeftOut")]
    LeftOut,
    /// A byte above 7F inside a string.
    #[error("B10 BadString")]
    BadString,
    /// A term of a level above the limit.
    #[error("B11 TooDeep")]
    TooDeep,
    /// No data begins there, no element of a package, or no constant that is the size of a Connect buffer.
    #[error("B12 NotData")]
    NotData,
    /// A declared name that has no segments, or whose place would be above the root.
    #[error("B13 BadPlace")]
    BadPlace,
    /// It isn't sure how many values follow a name. Never of a body of the strict loader.
    #[error("S5 UnsureCount")]
    Unsure,
}

impl BodyReason {
    /// The number and the name of the reason, as the programs print them.
    pub fn text(self) -> &'static str
        ensures { result.now ≡ body_reason_text self }
    {
        match self {
            BodyReason::Cut => "B1 Cut",
            BodyReason::BadOpcode => "B2 BadOpcode",
            BodyReason::ReservedBits => "B3 ReservedBits",
            BodyReason::BadName => "B4 BadName",
            BodyReason::Overrun => "B5 Overrun",
            BodyReason::NotStatement => "B6 NotStatement",
            BodyReason::NotValue => "B7 NotValue",
            BodyReason::NotTarget => "B8 NotTarget",
            BodyReason::LeftOut => "B9 LeftOut",
            BodyReason::BadString => "B10 BadString",
            BodyReason::TooDeep => "B11 TooDeep",
            BodyReason::NotData => "B12 NotData",
            BodyReason::BadPlace => "B13 BadPlace",
            BodyReason::Unsure => "S5 UnsureCount",
        }
    }
}

/// Why a method body can't be read.
#[derive(Clone, Copy, Debug, PartialEq, Eq, Error)]
#[error("{reason}")]
pub struct BodyFault {
    /// What is wrong at the place.
    pub reason: BodyReason,
    /// Where, in bytes from the body's first byte.
    pub place: usize,
}

/// Why reading a body stopped.
#[derive(Clone, Copy)]
pub enum BodyError {
    /// The body can't be read.
    Fault(BodyFault),
    /// A growth of memory was refused.
    Memory,
}

impl From<AllocError> for BodyError {
    ghost from_gives = { λ _ s. s ≡ stops.Memory };

    fn from(_e: AllocError) -> BodyError {
        BodyError::Memory
    }
}

impl<T: Drop> From<AllocFailed<T>> for BodyError {
    ghost from_gives = { λ _ s. s ≡ stops.Memory };

    fn from(_e: AllocFailed<T>) -> BodyError {
        BodyError::Memory
    }
}

impl From<CodeReason> for BodyReason {
    ghost from_gives = { λ reason body. body ≡ reason_of reason };

    fn from(reason: CodeReason) -> BodyReason {
        match reason {
            CodeReason::Cut => BodyReason::Cut,
            CodeReason::ReservedBits => BodyReason::ReservedBits,
            CodeReason::BadName => BodyReason::BadName,
            CodeReason::Overrun => BodyReason::Overrun,
            CodeReason::BadString => BodyReason::BadString,
            CodeReason::TooDeep => BodyReason::TooDeep,
        }
    }
}

impl From<CodeFault> for BodyError {
    ghost from_gives = { λ fault stop. stop ≡ stops.Fault (fault_of fault) };

    fn from(fault: CodeFault) -> BodyError {
        BodyError::Fault(BodyFault {
            reason: fault.reason.into(),
            place: fault.place,
        })
    }
}

impl From<FieldFault> for BodyError {
    ghost from_gives = { λ fault stop. stop ≡ field_fault_of fault };

    fn from(fault: FieldFault) -> BodyError {
        match fault {
            FieldFault::At(ConstantFault::Part(fault)) => fault.into(),
            FieldFault::At(ConstantFault::NotConstant { place, .. }) => BodyError::Fault(
                BodyFault {
                    reason: BodyReason::NotData,
                    place,
                },
            ),
            FieldFault::Memory => BodyError::Memory,
        }
    }
}

/// The fault that the next byte shows.
pub fn refused(code: &Code<'_>, reason: BodyReason) -> BodyError
    ensures { result ≡ stops.Fault (fault_at code.now.end code.now.bytes reason) }
{
    BodyError::Fault(BodyFault {
        reason,
        place: code.place(),
    })
}
