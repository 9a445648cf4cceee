//! A namespace that is kept in an ordered map.

use crate::space::{Refused, Space};
use acpi_name::Path;
use std::alloc::{AllocError, Global};
use std::collections::BTreeMap;
use std::marker::Model;

/// A namespace that is kept in an ordered map.
#[derive(Drop)]
pub struct MapSpace<V> {
    alloc: Global,
    tree: BTreeMap<Path, V>,
}

impl<V> Model for MapSpace<V> {
    ghost use Rattle.std.specs.FinMap as map;
    ghost use Rattle.acpi_space.specs.Spaces.{PathMap, coded_path};

    ghost Value = { PathMap V };

    ghost coded = { map.code coded_path V.code };

    ghost view = { λ a. map.from_entries a.tree.entries };
}

impl<V: Drop> Space<V> for MapSpace<V> {
    ghost contents = { λ s. s };

    fn new(alloc: Global) -> Self {
        MapSpace {
            alloc,
            tree: BTreeMap::new(alloc),
        }
    }

    fn get(&self, path: &Path) -> Option<&V> {
        self.tree.get(path)
    }

    fn insert(&mut self, path: Path, value: V) -> Result<(), Refused<V>> {
        if self.tree.contains_key(&path) {
            return Err(Refused::Taken(value));
        }
        match self.tree.insert(path, value) {
            Ok(_) => Ok(()),
            Err(failed) => Err(Refused::Memory(failed.value.1)),
        }
    }

    fn pairs(&self) -> Result<Vec<(Path, &V)>, AllocError> {
        let mut pairs = Vec::new(self.alloc);
        for (path, value) in &self.tree {
            pairs.push((path.copy()?, value))?;
        }
        Ok(pairs)
    }
}
