//! Where objects of an old version stand in a new one.

use acpi_name::Path;
use std::alloc::{AllocError, Global};
use std::collections::BTreeMap;

/// A map from paths of an old version to paths of a new one: what stands below a path that moved moves with it.
#[derive(Drop)]
pub struct Moves {
    paths: BTreeMap<Path, Path>,
}

impl Moves {
    /// Nothing moved.
    pub fn new(alloc: Global) -> Moves {
        Moves {
            paths: BTreeMap::new(alloc),
        }
    }

    /// What stands at the old path and below it stands at the new one and below.
    pub fn add(&mut self, old: &Path, new: &Path) -> Result<(), AllocError> {
        self.paths.insert(old.copy()?, new.copy()?)?;
        Ok(())
    }

    // The new path of the longest beginning of a path that moved, and how many segments it has.
    fn longest(&self, path: &Path) -> Result<Option<(&Path, usize)>, AllocError> {
        if self.paths.is_empty() {
            return Ok(None);
        }
        let mut beginning = path.copy()?;
        for _ in 0..path.len() {
            if let Some(new) = self.paths.get(&beginning) {
                return Ok(Some((new, beginning.len())));
            }
            beginning.pop();
        }
        Ok(None)
    }

    /// Where what stands at a path of the old version stands in the new one, if it does.
    pub fn new_path(&self, path: &Path) -> Result<Path, AllocError> {
        let Some((new, count)) = self.longest(path)? else {
            return path.copy();
        };
        let mut moved = new.copy()?;
        for segment in path.segs().iter().skip(count) {
            moved.push(*segment)?;
        }
        Ok(moved)
    }
}
