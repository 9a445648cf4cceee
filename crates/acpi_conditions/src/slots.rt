//! What is kept at each path.

ghost use Rattle.std.specs.Prelude.{◌≡◌, ◌<◌, ◌++◌, [], length, map, Some, IfOk, OnOk, OnErr, slice_get};
ghost use Rattle.std.specs.FinMap as finite;
ghost use Rattle.std.specs.List.{flat_map};
ghost use Rattle.std.specs.Option.{option_copied};
ghost use Rattle.acpi_conditions.specs.ByPath.{lent_pair};
ghost use Rattle.acpi_conditions.specs.Entries.{Path as PathParts};
ghost use Rattle.acpi_conditions.specs.steps.SlotPairs.{slot_pairs};

use crate::by_path::Numbered;
use crate::statuses::Presence;
use acpi_name::Path;
use acpi_space::{Refused, Space, TreeSpace};
use std::alloc::{AllocError, Global};

/// An entry at a path.
#[derive(Debug, Clone, Copy)]
pub struct Sight {
    /// The number of the entry, in byte order.
    pub number: usize,
    /// Whether others may be declared below its object.
    pub is_scope: bool,
}

/// A path, the entries there, in their order, and what is certain there.
#[derive(Drop)]
pub struct Slot {
    /// The path that the entries declare.
    pub path: Path,
    /// The entries there, in their order.
    pub sights: Vec<Sight>,
    /// What is certain there.
    pub certain: Presence,
}

/// What is kept at a path.
#[derive(Clone, Copy)]
pub(crate) struct Here<'a> {
    /// The entries there, in their order.
    pub sights: &'a [Sight],
    /// What is certain.
    pub certain: Presence,
}

/// A slot for each path at which something was declared or certain.
#[derive(Drop)]
pub struct Slots {
    alloc: Global,
    numbers: TreeSpace<usize>,
    slots: Vec<Slot>,
}

impl Slots {
    ghost use Rattle.acpi_conditions.specs.steps.Slots.{HasMore, IsNumbered, kept_at, kept_over, nothing_here, path_in, paths_of, slot_of, with_certain, with_sight};

    /// No slots.
    pub(crate) fn new(alloc: Global) -> Slots
        ensures empty { (p : PathParts) → kept_at result.numbers result.slots.items p
            ≡ nothing_here }
        ensures numbered { IsNumbered result.numbers (paths_of result.slots.items) }
        ensures none { result.slots.items ≡ [] }
    {
        Slots {
            alloc,
            numbers: TreeSpace::new(alloc),
            slots: Vec::new(alloc),
        }
    }

    /// What is kept at a path.
    pub(crate) fn at(&self, path: &Path) -> Here<'_>
        ensures sights { result.sights.now
            ≡ (kept_at self.now.numbers self.now.slots.items path.now).sights }
        ensures certain { result.certain
            ≡ (kept_at self.now.numbers self.now.slots.items path.now).certain }
    {
        match self.get(path) {
            Some(slot) => Here {
                sights: &slot.sights,
                certain: slot.certain,
            },
            None => Here {
                sights: &[],
                certain: Presence::Nothing,
            },
        }
    }

    // The slot of a path.
    fn get(&self, path: &Path) -> Option<&Slot>
        ensures { option_copied result ≡ slot_of self.now.numbers self.now.slots.items path.now }
    {
        match self.numbers.get(path) {
            Some(number) => self.slots.get(*number),
            None => None,
        }
    }

    /// The paths and numbers of the entries, in the order of the paths.
    pub(crate) fn numbered(&self) -> Result<Vec<(&Path, usize)>, AllocError>
        ensures { IfOk result (λ v. map lent_pair v.items
            ≡ flat_map (λ x. slot_pairs self.now.slots.items x.1)
            (finite.entries self.now.numbers)) }
    {
        let mut numbered = Numbered {
            slots: &self.slots,
            order: Vec::new(self.alloc),
        };
        self.numbers.visit_pairs(&mut numbered)?;
        Ok(numbered.order)
    }

    /// The number of a path's slot; where it has none it gets one. Where an allocation fails nothing changes.
    pub(crate) fn reach(&mut self, path: &Path) -> Result<usize, AllocError>
        requires { IsNumbered self.old.numbers (paths_of self.old.slots.items) }
        ensures numbered { IsNumbered self.new.numbers (paths_of self.new.slots.items) }
        ensures same { (p : PathParts) → kept_at self.new.numbers self.new.slots.items p
            ≡ kept_at self.old.numbers self.old.slots.items p }
        ensures paths { HasMore (paths_of self.old.slots.items) (paths_of self.new.slots.items) }
        ensures number { IfOk result (λ n.
            slice_get (paths_of self.new.slots.items) n ≡ Some path.now) }
    {
        if let Some(number) = self.numbers.get(path) {
            return Ok(*number);
        }
        let number = self.slots.len();
        let key = path.copy()?;
        self.slots.push(Slot {
            path: path.copy()?,
            sights: Vec::new(self.alloc),
            certain: Presence::Nothing,
        })?;
        match self.numbers.insert(key, number) {
            Ok(()) => Ok(number),
            Err(_) => {
                self.slots.truncate(number);
                Err(AllocError)
            }
        }
    }

    /// What is certain at the path of a slot.
    pub(crate) fn certain(&self, number: usize) -> Presence
        requires numbered { IsNumbered self.now.numbers (paths_of self.now.slots.items) }
        requires within { number < length self.now.slots.items }
        ensures { result ≡ (kept_at self.now.numbers self.now.slots.items
            (path_in (paths_of self.now.slots.items) number)).certain }
    {
        let slot = &self.slots[number];
        slot.certain
    }

    /// Says what is certain at the path of a slot.
    pub(crate) fn set_certain(&mut self, number: usize, certain: Presence)
        requires numbered { IsNumbered self.old.numbers (paths_of self.old.slots.items) }
        requires within { number < length self.old.slots.items }
        ensures numbered { IsNumbered self.new.numbers (paths_of self.new.slots.items) }
        ensures paths { paths_of self.new.slots.items ≡ paths_of self.old.slots.items }
        ensures certain { (p : PathParts) → kept_at self.new.numbers self.new.slots.items p
            ≡ kept_over (path_in (paths_of self.old.slots.items) number) (with_certain certain)
            (kept_at self.old.numbers self.old.slots.items) p }
    {
        let slot = &mut self.slots[number];
        slot.certain = certain;
    }

    /// Puts an entry at the end of those at the path of a slot. Where an allocation fails nothing changes.
    pub(crate) fn put_sight(&mut self, number: usize, sight: Sight) -> Result<(), AllocError>
        requires numbered { IsNumbered self.old.numbers (paths_of self.old.slots.items) }
        requires within { number < length self.old.slots.items }
        ensures numbered { IsNumbered self.new.numbers (paths_of self.new.slots.items) }
        ensures paths { paths_of self.new.slots.items ≡ paths_of self.old.slots.items }
        ensures ok { OnOk result ((p : PathParts) → kept_at self.new.numbers self.new.slots.items p
            ≡ kept_over (path_in (paths_of self.old.slots.items) number) (with_sight sight)
            (kept_at self.old.numbers self.old.slots.items) p) }
        ensures err { OnErr result ((p : PathParts)
            → kept_at self.new.numbers self.new.slots.items p
            ≡ kept_at self.old.numbers self.old.slots.items p) }
    {
        let slot = &mut self.slots[number];
        slot.sights.push(sight)?;
        Ok(())
    }
}
