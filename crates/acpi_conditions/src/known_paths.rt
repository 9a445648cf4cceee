//! What is known of the paths, kept by path.

ghost use Rattle.std.specs.Prelude.{◌≡◌, ◌++◌, ◌∷◌, [], length, map, slice_get, true, Some, IfOk, OnOk, OnErr};
ghost use Rattle.std.specs.Option.{option_map};
ghost use Rattle.acpi_conditions.specs.ByPath.{AreByPath, lent_pair};
ghost use Rattle.acpi_conditions.specs.Entries.{Path as PathParts};
ghost use Rattle.acpi_conditions.specs.EntryForms.{entry_view};
ghost use Rattle.acpi_conditions.specs.Known.{is_certain, is_certain_scope};
ghost use Rattle.acpi_conditions.specs.Presences.{is_a_scope, is_something};
ghost use Rattle.acpi_conditions.specs.KnownLists.{known_by, lists_behind, nothing_listed};
ghost use Rattle.acpi_conditions.specs.steps.Slots.{IsNumbered, kept_over, with_sight};
ghost use Rattle.acpi_conditions.specs.steps.Facts.{kept_in, paths_in};
ghost use Rattle.acpi_conditions.specs.steps.Settled.{certain_there};

use crate::entry::Entry;
use crate::facts::{Fact, HiddenRange, Mark, put_fact, seen_of, take_back};
use crate::slots::{Here, Sight, Slots};
use crate::statuses::{Presence, Status, Statuses};
use acpi_name::Path;
use std::alloc::{AllocError, Global};
use std::marker::Model;

/// What is known of the paths when control comes to a term (ACPI 6.5, 5.3): the entries, in byte order, what is
/// certain, which entries an Else around hides, and whether a While is around. Each test looks at one path alone.
#[derive(Drop)]
pub struct KnownPaths {
    slots: Slots,
    entries: Vec<Entry>,
    // The number of the slot of each entry's path.
    entry_slots: Vec<usize>,
    facts: Vec<Fact>,
    hidden: Vec<HiddenRange>,
    in_loop: bool,
}

impl Model for KnownPaths {
    ghost use Rattle.acpi_conditions.specs.EntryForms.{entry_view};
    ghost use Rattle.acpi_conditions.specs.KnownLists.{KnownLists};

    ghost Value = { KnownLists };

    ghost use Rattle.acpi_conditions.specs.steps.KeptPaths.{lists_of, IsKept};

    ghost view = { lists_of };

    ghost invariant = { IsKept };
}

impl Statuses for KnownPaths {
    ghost known = { known_by [] };

    fn status(&self, path: &Path) -> Status {
        let here = self.at(path);
        let certain = here.certain;
        if self.in_loop {
            return Status {
                certain,
                possible: Presence::Scope,
            };
        }
        let possible = seen_of(&self.hidden, here.sights);
        Status { certain, possible }
    }
}

impl KnownPaths {
    ghost use Rattle.acpi_conditions.specs.steps.Facts.{sights_beyond};

    /// Nothing is known.
    pub fn new(alloc: Global) -> KnownPaths
        ensures { result ≡ nothing_listed }
    {
        KnownPaths {
            slots: Slots::new(alloc),
            entries: Vec::new(alloc),
            entry_slots: Vec::new(alloc),
            facts: Vec::new(alloc),
            hidden: Vec::new(alloc),
            in_loop: false,
        }
    }

    /// The entries.
    pub fn entries(&self) -> &[Entry]
        ensures { result.now ≡ self.now.entries }
    {
        &self.entries
    }

    /// The paths and numbers of the entries in the order of the paths, those of one path in the order of their numbers.
    pub fn by_path(&self) -> Result<Vec<(&Path, usize)>, AllocError>
        ensures { IfOk result (λ v. AreByPath (map (λ e. e.path) self.now.entries)
            (map lent_pair v.items)) }
    {
        // They stand in that order already, so that the sort only goes through them.
        let mut order = self.slots.numbered()?;
        order.sort()?;
        Ok(order)
    }

    /// What is kept at a path.
    pub(crate) fn at(&self, path: &Path) -> Here<'_>
        ensures sights { result.sights.now
            ≡ sights_beyond path.now 0 (map (entry_view []) self.now.entries) }
        ensures certain { is_something result.certain ≡ is_certain (known_by [] self.now) path.now }
        ensures certain_scope { is_a_scope result.certain
            ≡ is_certain_scope (known_by [] self.now) path.now }
    {
        self.slots.at(path)
    }

    /// Puts an entry behind the others; its number. Where an allocation fails nothing changes.
    pub fn put(&mut self, entry: Entry) -> Result<usize, AllocError>
        ensures number { IfOk result (λ n. n ≡ length self.old.entries) }
        ensures ok { OnOk result (self.new
            ≡ record self.old { entries = self.old.entries ++ entry ∷ [] }) }
        ensures err { OnErr result (self.new ≡ self.old) }
    {
        let number = self.entries.len();
        let slot = self.slots.reach(&entry.path)?;
        self.entry_slots.push(slot)?;
        match put_entry(&mut self.slots, &mut self.entries, slot, entry) {
            Ok(()) => Ok(number),
            Err(_) => {
                self.entry_slots.truncate(number);
                Err(AllocError)
            }
        }
    }

    /// Says that something stands at a path for certain. Where an allocation fails nothing changes.
    pub fn certify(&mut self, path: &Path, is_scope: bool) -> Result<(), AllocError>
        ensures ok { OnOk result (self.new ≡ record self.old {
          certain = record { path = path.now; is_scope = is_scope } ∷ self.old.certain;
        }) }
        ensures err { OnErr result (self.new ≡ self.old) }
    {
        let slot = self.slots.reach(path)?;
        put_fact(&mut self.slots, &mut self.facts, slot, is_scope)
    }

    /// Says that this stands for certain at the path of the entry of a number, if there is one. Where an allocation
    /// fails nothing changes.
    pub(crate) fn certify_entry(
        &mut self,
        number: usize,
        presence: Presence,
    ) -> Result<(), AllocError>
        ensures ok { OnOk result (self.new ≡ record self.old {
          certain = certain_there presence (option_map (λ e. e.path)
              (slice_get self.old.entries number)) ++ self.old.certain;
        }) }
        ensures err { OnErr result (self.new ≡ self.old) }
    {
        if !presence.is_something() {
            return Ok(());
        }
        match self.entry_slots.get(number) {
            Some(slot) => {
                let slot = *slot;
                put_fact(
                    &mut self.slots,
                    &mut self.facts,
                    slot,
                    presence.is_a_scope(),
                )
            }
            None => Ok(()),
        }
    }

    /// This moment.
    pub fn mark(&self) -> Mark
        ensures entries { result.entries ≡ length self.now.entries }
        ensures certain { result.certain ≡ length self.now.certain }
        ensures hidden { result.hidden ≡ length self.now.hidden }
        ensures in_loop { result.in_loop ≡ self.now.in_loop }
    {
        Mark {
            entries: self.entries.len(),
            certain: self.facts.len(),
            hidden: self.hidden.len(),
            in_loop: self.in_loop,
        }
    }

    /// Comes to the body of a While.
    pub fn enter_loop(&mut self)
        ensures { self.new ≡ record self.old { in_loop = true } }
    {
        self.in_loop = true;
    }

    /// Hides the entries from a number on: those of an If's first branch, for its Else.
    pub fn hide(&mut self, from: usize) -> Result<(), AllocError>
        ensures ok { OnOk result (self.new ≡ record self.old {
          hidden = self.old.hidden ++ record { from = from; to = length self.old.entries } ∷ [];
        }) }
        ensures err { OnErr result (self.new ≡ self.old) }
    {
        let to = self.entries.len();
        self.hidden.push(HiddenRange { from, to })?;
        Ok(())
    }

    /// Comes out of a package: what was hidden since its mark is shown again, and a While is around where one was at
    /// the mark. What is certain stays, or is what was at the mark.
    pub fn come_out(&mut self, mark: Mark, keeps: bool)
        ensures { self.new ≡ lists_behind mark keeps self.old }
    {
        self.hidden.truncate(mark.hidden);
        self.in_loop = mark.in_loop;
        if keeps {
            return;
        }
        take_back(&mut self.slots, &mut self.facts, mark.certain);
    }
}

// Puts an entry behind the others, and its number behind those at its path, whose slot has this number. Where an
// allocation fails nothing changes.
fn put_entry(
    slots: &mut Slots,
    entries: &mut Vec<Entry>,
    slot: usize,
    entry: Entry,
) -> Result<(), AllocError>
    requires numbered { IsNumbered slots.old.numbers (paths_in slots.old) }
    requires slot { slice_get (paths_in slots.old) slot ≡ Some entry.path }
    ensures numbered { IsNumbered slots.new.numbers (paths_in slots.new) }
    ensures paths { paths_in slots.new ≡ paths_in slots.old }
    ensures ok { OnOk result ((p : PathParts) → kept_in slots.new p ≡ kept_over entry.path
        (with_sight (record { number = length entries.old.items; is_scope = entry.term.is_scope }))
        (kept_in slots.old) p) }
    ensures entries { OnOk result (entries.new.items ≡ entries.old.items ++ entry ∷ []) }
    ensures err { OnErr result ((p : PathParts) → kept_in slots.new p ≡ kept_in slots.old p) }
    ensures err_entries { OnErr result (entries.new.items ≡ entries.old.items) }
{
    let number = entries.len();
    let is_scope = entry.term.is_scope;
    entries.push(entry)?;
    match slots.put_sight(slot, Sight { number, is_scope }) {
        Ok(()) => Ok(()),
        Err(_) => {
            entries.truncate(number);
            Err(AllocError)
        }
    }
}
