//! Why words ask for nothing.

ghost use Rattle.std.specs.Prelude.{◌≡◌};
ghost use Rattle.acpins_words.specs.declared.fault.WordsFault.{WordsFault};

use std::alloc::AllocError;
use thiserror::Error;

/// Why words ask for nothing.
#[derive(Clone, Copy, Debug, PartialEq, Eq, Error)]
pub enum WordsFault {
    /// The words are none that the command knows.
    #[error("wrong words")]
    Wrong,
    /// A growth of memory was refused.
    #[error("M Memory")]
    Memory,
}

impl From<AllocError> for WordsFault {
    ghost from_gives = { λ _ f. f ≡ WordsFault.Memory };

    fn from(_error: AllocError) -> WordsFault {
        WordsFault::Memory
    }
}
