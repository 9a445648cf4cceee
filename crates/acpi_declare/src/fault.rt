//! Why a load is refused.

use acpi_name::Path;
use acpi_pass::Refusal;
use acpi_table::TableFault;
use acpi_terms::ItemReason;
use std::alloc::{AllocError, AllocFailed};
use thiserror::Error;

/// Why a table can't be loaded.
#[derive(Debug, Drop, Error)]
pub enum LoadReason {
    /// No table stands at the front of the bytes.
    #[error("{0}")]
    Table(TableFault),
    /// Table 0 is no DSDT.
    #[error("L1 NotDsdt")]
    NotDsdt,
    /// A later table is no SSDT.
    #[error("L2 NotSsdt")]
    NotSsdt,
    /// Bytes follow the table.
    #[error("L3 Trailing")]
    Trailing,
    /// The table's code can't be read: the reason, and its place in bytes from the code's first byte.
    #[error("{reason}")]
    Item { reason: ItemReason, place: usize },
    /// A declaration or a Scope term is refused, with the path that the refusal names.
    #[error("{refusal} {path}")]
    Refused { refusal: Refusal, path: Path },
}

/// Why a load is refused.
#[derive(Debug, Drop, Error)]
pub enum LoadFault {
    /// The first table that can't be loaded, by its number in the list, and the reason.
    #[error("{reason}")]
    At { table: usize, reason: LoadReason },
    /// A growth of memory was refused.
    #[error("M Memory")]
    Memory,
}

impl From<AllocError> for LoadFault {
    ghost use Rattle.std.specs.Prelude.{◌≡◌};
    ghost use Rattle.acpi_declare.specs.declared.fault.LoadFault.TheVariants.{Memory};

    ghost from_gives = { λ _ f. f ≡ Memory };

    fn from(_: AllocError) -> LoadFault {
        LoadFault::Memory
    }
}

impl<T: Drop> From<AllocFailed<T>> for LoadFault {
    ghost use Rattle.std.specs.Prelude.{◌≡◌};
    ghost use Rattle.acpi_declare.specs.declared.fault.LoadFault.TheVariants.{Memory};

    ghost from_gives = { λ _ f. f ≡ Memory };

    fn from(_: AllocFailed<T>) -> LoadFault {
        LoadFault::Memory
    }
}
