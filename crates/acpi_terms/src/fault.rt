//! Why items can't be read.

ghost use Rattle.std.specs.Prelude.{◌≡◌};
ghost use Rattle.acpi_terms.specs.declared.fault.ItemFault.TheVariants.{Memory};
ghost use Rattle.acpi_terms.specs.Faults.{reason_of, fault_of, constant_fault_of, field_fault_of};
ghost use Rattle.acpi_terms.specs.steps.Reading.{fault_at, stopped};

use acpi_code::{Code, CodeFault, CodeReason, ConstantFault, FieldFault, Opcode};
use std::alloc::{AllocError, AllocFailed};
use thiserror::Error;

/// Why no item is read at a place.
#[derive(Clone, Copy, Debug, PartialEq, Eq, Error)]
pub enum ItemReason {
    /// The list ends there, and the form needs a byte there.
    #[error("K1 Cut")]
    Cut,
    /// No term begins there.
    #[error("K2 BadOpcode")]
    BadOpcode,
    /// A package length or bit count whose lead byte has reserved bits, or an External count above 7.
    #[error("K3 ReservedBits")]
    ReservedBits,
    /// A name or segment must stand there, and none does.
    #[error("K4 BadName")]
    BadName,
    /// A package length below its own number of bytes, or past the list's end.
    #[error("K5 Overrun")]
    Overrun,
    /// A term that is no constant stands where a constant must stand, or one that is no name where the source of a
    /// Create field must.
    #[error("K6 Computed")]
    Computed,
    /// An Alias.
    #[error("K7 Alias")]
    Alias,
    /// An If, Else or While, other than `If (Zero)` round External items alone.
    #[error("K8 ModuleIf")]
    ModuleIf,
    /// A term of a method body.
    #[error("K9 ModuleCode")]
    ModuleCode,
    /// A Load, LoadTable or Unload.
    #[error("K10 Load")]
    Load,
    /// No data begins there, or as an element neither data nor a name.
    #[error("K11 NotData")]
    NotData,
    /// A term of a level above the limit.
    #[error("K12 TooDeep")]
    TooDeep,
    /// A byte above 7F inside a string.
    #[error("K13 BadString")]
    BadString,
    /// A DataTableRegion.
    #[error("K14 DataRegion")]
    DataRegion,
}

/// Why items can't be read.
#[derive(Clone, Copy, Debug, PartialEq, Eq, Error)]
pub enum ItemFault {
    /// A reason, and the place that shows it, in bytes from the first byte of the code.
    #[error("{reason}")]
    At {
        /// What is wrong.
        reason: ItemReason,
        /// Where, in bytes from the code's first byte.
        place: usize,
    },
    /// A growth of memory was refused.
    #[error("K15 Memory")]
    Memory,
}

impl From<AllocError> for ItemFault {
    ghost from_gives = { λ _ e. e ≡ Memory };

    fn from(_e: AllocError) -> ItemFault {
        ItemFault::Memory
    }
}

impl<T: Drop> From<AllocFailed<T>> for ItemFault {
    ghost from_gives = { λ _ e. e ≡ Memory };

    fn from(_e: AllocFailed<T>) -> ItemFault {
        ItemFault::Memory
    }
}

impl From<CodeReason> for ItemReason {
    ghost from_gives = { λ reason item. item ≡ reason_of reason };

    fn from(reason: CodeReason) -> ItemReason {
        match reason {
            CodeReason::Cut => ItemReason::Cut,
            CodeReason::ReservedBits => ItemReason::ReservedBits,
            CodeReason::BadName => ItemReason::BadName,
            CodeReason::Overrun => ItemReason::Overrun,
            CodeReason::BadString => ItemReason::BadString,
            CodeReason::TooDeep => ItemReason::TooDeep,
        }
    }
}

impl From<CodeFault> for ItemFault {
    ghost from_gives = { λ fault item. item ≡ fault_of fault };

    fn from(fault: CodeFault) -> ItemFault {
        ItemFault::At {
            reason: fault.reason.into(),
            place: fault.place,
        }
    }
}

impl From<ConstantFault> for ItemFault {
    ghost from_gives = { λ fault item. item ≡ constant_fault_of fault };

    fn from(fault: ConstantFault) -> ItemFault {
        match fault {
            ConstantFault::Part(fault) => fault.into(),
            ConstantFault::NotConstant { opcode, place } => {
                let reason = match opcode {
                    Opcode::Nothing => ItemReason::BadOpcode,
                    _ => ItemReason::Computed,
                };
                ItemFault::At { reason, place }
            }
        }
    }
}

impl From<FieldFault> for ItemFault {
    ghost from_gives = { λ fault item. item ≡ field_fault_of fault };

    fn from(fault: FieldFault) -> ItemFault {
        match fault {
            FieldFault::At(fault) => fault.into(),
            FieldFault::Memory => ItemFault::Memory,
        }
    }
}

/// The fault that the next byte shows.
pub(crate) fn refused(code: &Code<'_>, reason: ItemReason) -> ItemFault
    ensures { result ≡ stopped (fault_at code.now.end code.now.bytes reason) }
{
    ItemFault::At {
        reason,
        place: code.place(),
    }
}
