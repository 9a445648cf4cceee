//! What is seen from an entry, behind all tables.

ghost use Rattle.std.specs.Prelude.{◌≡◌, map, slice_get, IfOk};
ghost use Rattle.std.specs.List.{list_any};
ghost use Rattle.acpi_name.specs.NameRefs.{name_parts};
ghost use Rattle.acpi_conditions.specs.Known.{candidates, is_certain_name};
ghost use Rattle.acpi_conditions.specs.Presences.{is_a_scope, is_something};
ghost use Rattle.acpi_conditions.specs.Turns.{turn_of};
ghost use Rattle.acpi_conditions.specs.EntryForms.{entry_view};
ghost use Rattle.acpi_conditions.specs.Views.{links_by, seen_by};
ghost use Rattle.acpi_conditions.specs.steps.Views.{passes, passes_if};
ghost use Rattle.acpi_conditions.specs.declared.seen.Test.TheVariants.{Certain, CertainScope, Possible, PossibleScope};

use crate::entry::Entry;
use crate::known_paths::KnownPaths;
use crate::searches::{Candidates, find};
use crate::slots::Sight;
use crate::statuses::{Presence, Status, Statuses};
use crate::turns::{Turn, Ways};
use acpi_name::{Name, NameRef, Path};
use std::alloc::{AllocError, Global};
use std::marker::Model;

/// A test of what is known of a path.
#[derive(Debug, Clone, Copy)]
pub(crate) enum Test {
    /// Something is certain.
    Certain,
    /// A scope is certain.
    CertainScope,
    /// Something is possible.
    Possible,
    /// A scope is possible.
    PossibleScope,
}

/// What is known of the paths, behind all tables, where control came to an entry's term (ACPI 6.5, 20.2.5.2): possible
/// are the entries whose way isn't exclusive with that of the entry, and certain is what those settle whose way is a
/// part of it. Each test looks at the entries at one path alone.
#[derive(Drop)]
pub struct Seen<'a> {
    paths: &'a KnownPaths,
    ways: &'a Ways,
    entry: &'a Entry,
    turns: Vec<Turn>,
}

impl<'a> Model for Seen<'a> {
    ghost use Rattle.acpi_conditions.specs.Views.{View};

    ghost Value = { View };

    ghost use Rattle.acpi_conditions.specs.steps.Views.{view_of, HasWay};

    ghost view = { view_of };

    ghost invariant = { HasWay };
}

// Whether an entry makes a test hold at its path, from a way of these turns.
fn passes(test: Test, ways: &Ways, turns: &[Turn], entry: &Entry) -> bool
    ensures { result ≡ passes test (map turn_of turns.now) (entry_view ways.now entry.now) }
{
    let asks = &entry.asks;
    let settles = !asks.has && asks.needs.is_empty();
    match test {
        Test::Certain => settles && ways.is_part_of(entry.way, turns),
        Test::CertainScope => {
            settles && entry.term.is_scope && !asks.no && ways.is_part_of(entry.way, turns)
        }
        Test::Possible => !ways.are_exclusive(entry.way, turns),
        Test::PossibleScope => entry.term.is_scope && !ways.are_exclusive(entry.way, turns),
    }
}

/// Whether there is an entry of the number, and it passes.
pub(crate) fn passes_at(
    test: Test,
    ways: &Ways,
    turns: &[Turn],
    entries: &[Entry],
    number: usize,
) -> bool
    ensures { result ≡ passes_if test ways.now (map turn_of turns.now)
        (slice_get entries.now number) }
{
    match entries.get(number) {
        Some(entry) => passes(test, ways, turns, entry),
        None => false,
    }
}

// Whether one of the entries passes that are there.
fn any_passes(test: Test, ways: &Ways, turns: &[Turn], entries: &[Entry], sights: &[Sight]) -> bool
    ensures { result ≡ list_any (λ x. passes_if test ways.now (map turn_of turns.now)
        (slice_get entries.now x.number)) sights.now }
{
    sights
        .iter()
        .any(|s| passes_at(test, ways, turns, entries, s.number))
}

/// What may stand where these entries do, from a way of these turns.
pub(crate) fn possible_of(
    ways: &Ways,
    turns: &[Turn],
    entries: &[Entry],
    sights: &[Sight],
) -> Presence
    ensures something { is_something result ≡ list_any (λ x. passes_if Possible ways.now
        (map turn_of turns.now) (slice_get entries.now x.number)) sights.now }
    ensures scope { is_a_scope result ≡ list_any (λ x. passes_if PossibleScope ways.now
        (map turn_of turns.now) (slice_get entries.now x.number)) sights.now }
{
    if any_passes(Test::PossibleScope, ways, turns, entries, sights) {
        return Presence::Scope;
    }
    if any_passes(Test::Possible, ways, turns, entries, sights) {
        return Presence::Object;
    }
    Presence::Nothing
}

/// What stands for certain where these entries do, from a way of these turns.
pub(crate) fn certain_of(
    ways: &Ways,
    turns: &[Turn],
    entries: &[Entry],
    sights: &[Sight],
) -> Presence
    ensures something { is_something result ≡ list_any (λ x. passes_if Certain ways.now
        (map turn_of turns.now) (slice_get entries.now x.number)) sights.now }
    ensures scope { is_a_scope result ≡ list_any (λ x. passes_if CertainScope ways.now
        (map turn_of turns.now) (slice_get entries.now x.number)) sights.now }
{
    if any_passes(Test::CertainScope, ways, turns, entries, sights) {
        return Presence::Scope;
    }
    if any_passes(Test::Certain, ways, turns, entries, sights) {
        return Presence::Object;
    }
    Presence::Nothing
}

impl<'a> Seen<'a> {
    /// What is seen from an entry.
    pub fn new(
        paths: &'a KnownPaths,
        ways: &'a Ways,
        entry: &'a Entry,
    ) -> Result<Seen<'a>, AllocError>
        ensures { IfOk result (λ s. s ≡ record {
          entries = map (entry_view ways.now) paths.now.entries;
          entry = entry_view ways.now entry.now;
        }) }
    {
        Ok(Seen {
            paths,
            ways,
            entry,
            turns: ways.turns(entry.way)?,
        })
    }

    /// Where a name may be found from the entry's scope.
    pub fn find(&self, alloc: Global, name: NameRef<'_>) -> Result<Candidates, AllocError>
        ensures paths { IfOk result (λ c. c.paths.items
            ≡ candidates (seen_by self.now) self.now.entry.scope (name_parts name.entry)) }
        ensures certain { IfOk result (λ c. c.is_certain
            ≡ is_certain_name (seen_by self.now) self.now.entry.scope (name_parts name.entry)) }
    {
        let scope = &self.entry.scope;
        find(alloc, self, scope, name)
    }
}

impl<'a> Statuses for Seen<'a> {
    ghost known = { seen_by };

    fn status(&self, path: &Path) -> Status {
        let entries = self.paths.entries();
        let sights = self.paths.at(path).sights;
        Status {
            certain: certain_of(self.ways, &self.turns, entries, sights),
            possible: possible_of(self.ways, &self.turns, entries, sights),
        }
    }
}

/// Where each of some names may be found from the entry's scope (ACPI 6.5, 20.2.5.2): the links of a field element, by
/// the names of its region, index, data or bank.
pub fn links_of(
    alloc: Global,
    seen: &Seen<'_>,
    names: &[Name],
) -> Result<Vec<Candidates>, AllocError>
    ensures paths { IfOk result (λ v. map (λ c. c.paths.items) v.items
        ≡ links_by seen.now names.now) }
    ensures certain { IfOk result (λ v. map (λ c. c.is_certain) v.items
        ≡ map (is_certain_name (seen_by seen.now) seen.now.entry.scope) names.now) }
{
    let mut links = Vec::new(alloc);
    for name in names {
        links.push(seen.find(alloc, name.view())?)?;
    }
    Ok(links)
}
