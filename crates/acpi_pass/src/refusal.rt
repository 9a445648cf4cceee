//! Why a declaration is refused.

use acpi_name::Path;
use std::alloc::{AllocError, AllocFailed};
use thiserror::Error;

/// Why a declaration or a Scope term is refused (ACPI 6.5, 5.3). The first that holds is reported.
#[derive(Clone, Copy, Debug, PartialEq, Eq, Error)]
pub enum Refusal {
    /// The declared name has no segments.
    #[error("E1 EmptyName")]
    EmptyName,
    /// The name goes above the root.
    #[error("E2 AboveRoot")]
    AboveRoot,
    /// A Scope's name is not found.
    #[error("E3 Missing")]
    Missing,
    /// The path without its last segment is not defined.
    #[error("E4 NoParent")]
    NoParent,
    /// No objects may stand below the object there.
    #[error("E5 NotAScope")]
    NotAScope,
    /// An object stands at the path already.
    #[error("E6 Taken")]
    Taken,
}

/// Why the pass over a table stops.
#[derive(Debug, Drop)]
pub enum PassError {
    /// A declaration or a Scope term is refused, with the path that the refusal names.
    Refused(Refusal, Path),
    /// A growth of memory was refused.
    Memory,
}

impl From<AllocError> for PassError {
    ghost use Rattle.std.specs.Prelude.{◌≡◌};
    ghost use Rattle.acpi_pass.specs.declared.refusal.PassError.TheVariants.{Memory};

    ghost from_gives = { λ _ f. f ≡ Memory };

    fn from(_: AllocError) -> PassError {
        PassError::Memory
    }
}

impl<T: Drop> From<AllocFailed<T>> for PassError {
    ghost use Rattle.std.specs.Prelude.{◌≡◌};
    ghost use Rattle.acpi_pass.specs.declared.refusal.PassError.TheVariants.{Memory};

    ghost from_gives = { λ _ f. f ≡ Memory };

    fn from(_: AllocFailed<T>) -> PassError {
        PassError::Memory
    }
}
