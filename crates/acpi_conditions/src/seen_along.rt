//! What is seen behind all tables, where control came by a way.

ghost use Rattle.std.specs.Prelude.{◌≡◌, map, IfOk};
ghost use Rattle.acpi_name.specs.NameRefs.{name_parts};
ghost use Rattle.acpi_conditions.specs.Known.{candidates, is_certain_name};
ghost use Rattle.acpi_conditions.specs.Met.{numbers_beyond};
ghost use Rattle.acpi_conditions.specs.Turns.{turn_of};
ghost use Rattle.acpi_conditions.specs.EntryForms.{entry_view};
ghost use Rattle.acpi_conditions.specs.Views.{seen_by_way};

use crate::known_paths::KnownPaths;
use crate::met::possible_numbers;
use crate::searches::{Candidates, find};
use crate::seen::{certain_of, possible_of};
use crate::statuses::{Status, Statuses};
use crate::turns::{Turn, Ways};
use acpi_name::{NameRef, Path};
use std::alloc::{AllocError, Global};
use std::marker::Model;

/// What is known of the paths, behind all tables, where control came by some turns (ACPI 6.5, 20.2.5.2): possible are
/// the entries whose way isn't exclusive with them, and certain is what those settle whose way is a part of them. It
/// serves terms that declare nothing; of an entry's term it is what `Seen` says.
#[derive(Drop)]
pub struct SeenAlong<'a> {
    paths: &'a KnownPaths,
    ways: &'a Ways,
    turns: &'a [Turn],
}

impl<'a> Model for SeenAlong<'a> {
    ghost use Rattle.acpi_conditions.specs.Views.{WayView};

    ghost Value = { WayView };

    ghost use Rattle.acpi_conditions.specs.steps.Views.{way_view_of};

    ghost view = { way_view_of };
}

impl<'a> SeenAlong<'a> {
    /// What is seen where control came by these turns.
    pub fn new(paths: &'a KnownPaths, ways: &'a Ways, turns: &'a [Turn]) -> SeenAlong<'a>
        ensures { result ≡ record {
          entries = map (entry_view ways.now) paths.now.entries;
          way = map turn_of turns.now;
        } }
    {
        SeenAlong { paths, ways, turns }
    }

    /// Where a name may be found from a scope.
    pub fn find(
        &self,
        alloc: Global,
        scope: &Path,
        name: NameRef<'_>,
    ) -> Result<Candidates, AllocError>
        ensures paths { IfOk result (λ c. c.paths.items
            ≡ candidates (seen_by_way self.now) scope.now (name_parts name.entry)) }
        ensures certain { IfOk result (λ c. c.is_certain
            ≡ is_certain_name (seen_by_way self.now) scope.now (name_parts name.entry)) }
    {
        find(alloc, self, scope, name)
    }

    /// The numbers, from 0 and in order, of the entries at a path that are possible.
    pub fn numbers_at(&self, alloc: Global, path: &Path) -> Result<Vec<usize>, AllocError>
        ensures { IfOk result (λ v. v.items
            ≡ numbers_beyond self.now.way path.now 0 self.now.entries) }
    {
        let sights = self.paths.at(path).sights;
        possible_numbers(alloc, self.ways, self.turns, self.paths.entries(), sights)
    }
}

impl<'a> Statuses for SeenAlong<'a> {
    ghost known = { seen_by_way };

    fn status(&self, path: &Path) -> Status {
        let entries = self.paths.entries();
        let sights = self.paths.at(path).sights;
        Status {
            certain: certain_of(self.ways, self.turns, entries, sights),
            possible: possible_of(self.ways, self.turns, entries, sights),
        }
    }
}
