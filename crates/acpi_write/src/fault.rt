//! Why trees can't be written.

ghost use Rattle.std.specs.Prelude.{◌≡◌};
ghost use Rattle.acpi_write.specs.declared.fault.WriteFault.TheVariants.{Memory};

use std::alloc::{AllocError, AllocFailed};
use thiserror::Error;

/// Why trees can't be written.
#[derive(Clone, Copy, Debug, PartialEq, Eq, Error)]
pub enum WriteFault {
    /// A package of more than 268,435,455 bytes, a bit count above that number, or a table of more than 16,777,216
    /// bytes.
    #[error("W1 TooLong")]
    TooLong,
    /// A growth of memory was refused.
    #[error("W2 Memory")]
    Memory,
}

impl From<AllocError> for WriteFault {
    ghost from_gives = { λ _ e. e ≡ Memory };

    fn from(_e: AllocError) -> WriteFault {
        WriteFault::Memory
    }
}

impl<T: Drop> From<AllocFailed<T>> for WriteFault {
    ghost from_gives = { λ _ e. e ≡ Memory };

    fn from(_e: AllocFailed<T>) -> WriteFault {
        WriteFault::Memory
    }
}
