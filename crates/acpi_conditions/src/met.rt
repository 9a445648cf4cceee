//! Which entries control may have met.

ghost use Rattle.std.specs.Prelude.{◌≡◌, map, slice_get, IfOk};
ghost use Rattle.std.specs.List.{filter};
ghost use Rattle.acpi_name.specs.NameRefs.{name_parts};
ghost use Rattle.acpi_conditions.specs.Known.{candidates, is_certain_name};
ghost use Rattle.acpi_conditions.specs.Turns.{turn_of, way_of};
ghost use Rattle.acpi_conditions.specs.EntryForms.{entry_view};
ghost use Rattle.acpi_conditions.specs.Met.{met_by, numbers_met};
ghost use Rattle.acpi_conditions.specs.steps.Views.{passes_if};
ghost use Rattle.acpi_conditions.specs.declared.seen.Test.TheVariants.{Possible};

use crate::entry::Entry;
use crate::known_paths::KnownPaths;
use crate::searches::{Candidates, find};
use crate::seen::{Test, passes_at, possible_of};
use crate::slots::Sight;
use crate::statuses::{Status, Statuses};
use crate::turns::{Turn, Way, Ways};
use acpi_name::{NameRef, Path};
use std::alloc::{AllocError, Global};
use std::marker::Model;

/// Which of the entries so far control may have met on its way to a place in a table (ACPI 6.5, 5.3 and 20.2.5): those
/// whose way isn't exclusive with its own. Nothing else is possible, in the body of a While either. Each test looks at
/// the entries at one path alone.
#[derive(Drop)]
pub struct Met<'a> {
    paths: &'a KnownPaths,
    ways: &'a Ways,
    turns: Vec<Turn>,
}

impl<'a> Model for Met<'a> {
    ghost use Rattle.acpi_conditions.specs.Met.{Meeting};

    ghost Value = { Meeting };

    ghost use Rattle.acpi_conditions.specs.steps.Meetings.{meeting_of};

    ghost view = { meeting_of };
}

/// The numbers of the entries that are possible, of those that are there.
pub(crate) fn possible_numbers(
    alloc: Global,
    ways: &Ways,
    turns: &[Turn],
    entries: &[Entry],
    sights: &[Sight],
) -> Result<Vec<usize>, AllocError>
    ensures { IfOk result (λ v. v.items ≡ filter (λ n. passes_if Possible ways.now
        (map turn_of turns.now) (slice_get entries.now n)) (map (λ x. x.number) sights.now)) }
{
    sights
        .iter()
        .map(|s| s.number)
        .filter(|n| passes_at(Test::Possible, ways, turns, entries, *n))
        .collect(alloc)
}

impl<'a> Met<'a> {
    /// What control may have met that comes by a way.
    pub fn new(paths: &'a KnownPaths, ways: &'a Ways, way: Way) -> Result<Met<'a>, AllocError>
        ensures { IfOk result (λ m. m ≡ record {
          entries = map (entry_view ways.now) paths.now.entries;
          certain = paths.now.certain;
          way = way_of ways.now way;
        }) }
    {
        let turns = ways.turns(way)?;
        Ok(Met { paths, ways, turns })
    }

    /// Where a name may be found from a scope.
    pub fn find(
        &self,
        alloc: Global,
        scope: &Path,
        name: NameRef<'_>,
    ) -> Result<Candidates, AllocError>
        ensures paths { IfOk result (λ c. c.paths.items
            ≡ candidates (met_by self.now) scope.now (name_parts name.entry)) }
        ensures certain { IfOk result (λ c. c.is_certain
            ≡ is_certain_name (met_by self.now) scope.now (name_parts name.entry)) }
    {
        find(alloc, self, scope, name)
    }

    /// The numbers, from 0 and in order, of the entries at a path that control may have met.
    pub fn numbers_at(&self, alloc: Global, path: &Path) -> Result<Vec<usize>, AllocError>
        ensures { IfOk result (λ v. v.items ≡ numbers_met self.now path.now) }
    {
        let sights = self.paths.at(path).sights;
        possible_numbers(alloc, self.ways, &self.turns, self.paths.entries(), sights)
    }
}

impl<'a> Statuses for Met<'a> {
    ghost known = { met_by };

    fn status(&self, path: &Path) -> Status {
        let here = self.paths.at(path);
        let entries = self.paths.entries();
        Status {
            certain: here.certain,
            possible: possible_of(self.ways, &self.turns, entries, here.sights),
        }
    }
}
