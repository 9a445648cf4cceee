//! The place of a name in a scope.

ghost use Rattle.std.specs.Prelude.{◌≡◌, IfOk, Ok, Err, Some, None, ◌↔◌};
ghost use Rattle.acpi_name.specs.Paths.{place_of};
ghost use Rattle.acpi_name.specs.NameRefs.{name_parts};
ghost use Rattle.acpi_name.specs.declared.places.PlaceFault.TheVariants.{Memory};

use crate::name::NameRef;
use crate::path::Path;
use std::alloc::{AllocError, AllocFailed, Global};
use thiserror::Error;

/// Why a name has no place in a scope.
#[derive(Clone, Copy, Debug, PartialEq, Eq, Error)]
pub enum PlaceFault {
    /// The name goes up more parents than the scope has.
    #[error("A1 AboveRoot")]
    AboveRoot,
    /// Memory was refused.
    #[error("A2 Memory")]
    Memory,
}

impl From<AllocError> for PlaceFault {
    ghost from_gives = { λ _ f. f ≡ Memory };

    fn from(_e: AllocError) -> PlaceFault {
        PlaceFault::Memory
    }
}

impl<T: Drop> From<AllocFailed<T>> for PlaceFault {
    ghost from_gives = { λ _ f. f ≡ Memory };

    fn from(_e: AllocFailed<T>) -> PlaceFault {
        PlaceFault::Memory
    }
}

/// The path that a name has in a scope, without a search (ACPI 6.5, 5.3): the segments from the root on
/// if it is rooted, else those of the scope without its last `parents` segments, and then the segments.
pub fn place(alloc: Global, scope: &Path, name: NameRef<'_>) -> Result<Path, PlaceFault>
    ensures ok { IfOk result (λ p. place_of scope.now (name_parts name.entry) ≡ Some p) }
    ensures above { (result ≡ Err PlaceFault.AboveRoot)
        ↔ (place_of scope.now (name_parts name.entry) ≡ None) }
{
    let start = if name.rooted() {
        0
    } else if name.parents() <= scope.len() {
        scope.len() - name.parents()
    } else {
        return Err(PlaceFault::AboveRoot);
    };
    let mut path = scope.beginning_with_room(alloc, start, name.len())?;
    path.append(name)?;
    Ok(path)
}
