//! Values of a space that are asked for in the order of their paths.

ghost use Rattle.std.specs.Prelude.{◌≡◌, IfOk};
ghost use Rattle.std.specs.FinMap.{get};
ghost use Rattle.std.specs.Option.{option_copied};

use acpi_name::Path;
use acpi_space::{Space, TreeSpace};
use std::alloc::AllocError;
use std::marker::Model;

/// A space whose paths are asked for in their order: the value of the next one is at hand. Any other is looked for.
#[derive(Drop)]
pub(crate) struct InOrder<'a, V> {
    space: &'a TreeSpace<V>,
    pairs: Vec<(Path, &'a V)>,
    // The place of the next pair.
    next: usize,
}

impl<'a, V> Model for InOrder<'a, V> {
    ghost use Rattle.std.specs.Prelude.{◌≡◌, map};
    ghost use Rattle.std.specs.FinMap as finite;
    ghost use Rattle.acpi_space.specs.Spaces.{PathMap, coded_path};

    ghost Value = { PathMap V };

    ghost coded = { finite.code coded_path V.code };

    ghost view = { λ r. r.space.now };

    ghost invariant = { λ r. map (λ p. (p.0, p.1.now)) r.pairs.items ≡ finite.entries r.space.now };
}

impl<'a, V: Drop> InOrder<'a, V> {
    /// From the first path on.
    pub(crate) fn of(space: &'a TreeSpace<V>) -> Result<InOrder<'a, V>, AllocError>
        ensures { IfOk result (λ r. r ≡ space.now) }
    {
        Ok(InOrder {
            space,
            pairs: space.pairs()?,
            next: 0,
        })
    }

    /// The value at a path.
    pub(crate) fn get(&mut self, path: &Path) -> Option<&'a V>
        ensures value { option_copied result ≡ get self.old path.now }
        ensures stays { self.new ≡ self.old }
    {
        match self.pairs.get(self.next) {
            Some((next, value)) if *next == *path => {
                self.next += 1;
                Some(*value)
            }
            _ => self.space.get(path),
        }
    }
}
