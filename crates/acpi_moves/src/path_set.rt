//! Sets of paths.

use acpi_name::Path;
use acpi_space::{Refused, Space, TreeSpace};
use std::alloc::{AllocError, Global};

/// A set of paths, kept as a tree: a path is found by one walk down, however many there are.
#[derive(Drop)]
pub(crate) struct PathSet {
    paths: TreeSpace<()>,
}

impl PathSet {
    /// No path.
    pub(crate) fn new(alloc: Global) -> PathSet {
        PathSet {
            paths: TreeSpace::new(alloc),
        }
    }

    /// Adds a path, if it isn't there.
    pub(crate) fn insert(&mut self, path: Path) -> Result<(), AllocError> {
        match self.paths.insert(path, ()) {
            Err(Refused::Memory(())) => Err(AllocError),
            _ => Ok(()),
        }
    }

    /// Whether a path is there.
    pub(crate) fn contains(&self, path: &Path) -> bool {
        self.paths.get(path).is_some()
    }
}
