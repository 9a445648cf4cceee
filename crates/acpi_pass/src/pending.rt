//! Links that are searched when all tables are declared.

ghost use Rattle.std.specs.Prelude.{IsTrue, ◌≡◌, ◌↔◌, List, ◌∷◌, [], ◌++◌, OnOk};
ghost use Rattle.acpi_name.specs.Names.{Segment};
ghost use Rattle.acpi_pass.specs.Pending.{all_pending_of, linked_paths, pending_from, pending_for};

use acpi_name::{Name, Path, Seg};
use std::alloc::AllocError;

/// Declared paths that have the same links.
#[derive(Debug, Drop)]
pub enum LinkedPaths {
    /// A buffer field.
    One(Path),
    /// The units of a field list, by their segments below its scope.
    Units(Vec<Seg>),
}

impl LinkedPaths {
    // Whether there are none.
    pub(crate) fn is_empty(&self) -> bool
        ensures { (scope : List Segment) → IsTrue result ↔ (linked_paths scope self.now ≡ []) }
    {
        match self {
            LinkedPaths::One(_) => false,
            LinkedPaths::Units(segs) => segs.is_empty(),
        }
    }
}

/// Declared paths whose links are searched when all tables are declared: the same names, from the same scope.
#[derive(Debug, Drop)]
pub struct PendingLinks {
    /// The paths.
    pub paths: LinkedPaths,
    /// The scope of the names.
    pub scope: Path,
    /// What the links name.
    pub names: Vec<Name>,
}

// Adds the links of some paths.
pub(crate) fn add_links(
    links: &mut Vec<PendingLinks>,
    paths: LinkedPaths,
    scope: &Path,
    names: Vec<Name>,
) -> Result<(), AllocError>
    ensures { OnOk result (all_pending_of links.new.items ≡ all_pending_of links.old.items
        ++ pending_from scope.now names.items (linked_paths scope.now paths)) }
{
    links.push(PendingLinks {
        paths,
        scope: scope.copy()?,
        names,
    })?;
    Ok(())
}

// Adds the links of one path.
pub(crate) fn add_links_of(
    links: &mut Vec<PendingLinks>,
    path: &Path,
    scope: &Path,
    names: Vec<Name>,
) -> Result<(), AllocError>
    ensures { OnOk result (all_pending_of links.new.items ≡ all_pending_of links.old.items
        ++ pending_for path.now scope.now names.items ∷ []) }
{
    add_links(links, LinkedPaths::One(path.copy()?), scope, names)?;
    Ok(())
}
