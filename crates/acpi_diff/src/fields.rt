//! What differs of the units of field lists.

use acpi_entries::links_of;
use acpi_kinds::ObjectKind;
use acpi_name::{Path, Seg};
use acpi_overview::Object;
use acpi_versions::{Pair, Side};
use std::alloc::{AllocError, Global};
use std::collections::BTreeMap;

/// A unit of a field list.
#[derive(Debug, Clone, Copy, PartialEq, Eq)]
pub struct Unit {
    /// Its name.
    pub name: Seg,
    /// Where it begins, in bits from the first of its region.
    pub offset: u64,
    /// Its width, in bits.
    pub bits: u32,
    /// FieldFlags: access, lock and update rules (ACPI 6.5, 20.2.5.2).
    pub flags: u8,
}

/// A unit that both versions have.
#[derive(Debug, Clone, Copy)]
pub struct UnitPair {
    /// As the old version has it.
    pub old: Unit,
    /// As the new version has it.
    pub new: Unit,
}

/// What differs of the units of a region, each list by the units' places.
#[derive(Debug, Drop)]
pub struct RegionChange {
    /// The region, or the index register: its path in the new version.
    pub path: Path,
    /// The units that only the old version has.
    pub gone: Vec<Unit>,
    /// The units that only the new version has.
    pub new: Vec<Unit>,
    /// The units that have another name at the same place.
    pub renamed: Vec<UnitPair>,
    /// The units that both have, at another place, of another width or with other flags.
    pub changed: Vec<UnitPair>,
}

/// The changes of all regions while they are made.
#[derive(Drop)]
pub(crate) struct RegionChanges {
    alloc: Global,
    by_path: BTreeMap<Path, RegionChange>,
}

// The unit that an object is.
fn unit_of(object: &Object<'_>) -> Option<Unit> {
    let ObjectKind::Field {
        flags,
        offset,
        bits,
        ..
    } = object.kind
    else {
        return None;
    };
    let name = *object.path.segs().last()?;
    Some(Unit {
        name,
        offset,
        bits,
        flags,
    })
}

// The path in the new version of the region of a unit, if it is known.
fn region_of<'m, 'a>(side: Side<'m, 'a>, object: &Object<'a>) -> Result<Option<Path>, AllocError> {
    let links = links_of(side.machine.survey, object.number)?;
    match links.first().and_then(|l| l.paths.first()) {
        Some(path) => Ok(Some(side.moves.new_path(path)?)),
        None => Ok(None),
    }
}

impl RegionChange {
    // Nothing differs yet.
    fn new(alloc: Global, path: Path) -> RegionChange {
        RegionChange {
            path,
            gone: Vec::new(alloc),
            new: Vec::new(alloc),
            renamed: Vec::new(alloc),
            changed: Vec::new(alloc),
        }
    }

    // Takes units of one place and width that are gone and new as renamed ones, and puts all in the order of their places.
    fn settle(&mut self, alloc: Global) -> Result<(), AllocError> {
        let mut by_place: BTreeMap<(u64, u32), Unit> = BTreeMap::new(alloc);
        for unit in &self.gone {
            by_place.insert((unit.offset, unit.bits), *unit)?;
        }
        let mut new = Vec::new(alloc);
        for unit in &self.new {
            match by_place.remove(&(unit.offset, unit.bits)) {
                Some(old) => self.renamed.push(UnitPair { old, new: *unit })?,
                None => new.push(*unit)?,
            }
        }
        let mut gone = Vec::new(alloc);
        for unit in &self.gone {
            if by_place.get(&(unit.offset, unit.bits)) == Some(unit) {
                gone.push(*unit)?;
            }
        }
        self.gone = gone;
        self.new = new;
        self.gone
            .sort_by(|one: &Unit, other: &Unit| one.offset.cmp(&other.offset))?;
        self.new
            .sort_by(|one: &Unit, other: &Unit| one.offset.cmp(&other.offset))?;
        self.renamed.sort_by(|one: &UnitPair, other: &UnitPair| one
            .old
            .offset
            .cmp(&other.old.offset))?;
        self.changed.sort_by(|one: &UnitPair, other: &UnitPair| one
            .old
            .offset
            .cmp(&other.old.offset))
    }
}

impl RegionChanges {
    /// No region differs yet.
    pub(crate) fn new(alloc: Global) -> RegionChanges {
        RegionChanges {
            alloc,
            by_path: BTreeMap::new(alloc),
        }
    }

    // Puts what stands at a path into the changes of its region.
    fn put(&mut self, path: Path, old: Option<Unit>, new: Option<Unit>) -> Result<(), AllocError> {
        if self.by_path.get(&path).is_none() {
            let change = RegionChange::new(self.alloc, path.copy()?);
            self.by_path.insert(path.copy()?, change)?;
        }
        let Some(change) = self.by_path.get_mut(&path) else {
            return Ok(());
        };
        match (old, new) {
            (Some(old), Some(new)) => change.changed.push(UnitPair { old, new })?,
            (Some(old), None) => change.gone.push(old)?,
            (None, Some(new)) => change.new.push(new)?,
            (None, None) => {}
        }
        Ok(())
    }

    /// Puts what differs of the units at a path. A unit that is in another region is gone from one and new in the other.
    pub(crate) fn put_pair<'m, 'a>(
        &mut self,
        old_side: Side<'m, 'a>,
        new_side: Side<'m, 'a>,
        pair: &Pair<'m, 'a>,
    ) -> Result<(), AllocError> {
        let old = pair.old.and_then(|o| unit_of(o));
        let new = pair.new.and_then(|o| unit_of(o));
        let old_region = match pair.old {
            Some(object) if old.is_some() => region_of(old_side, object)?,
            _ => None,
        };
        let new_region = match pair.new {
            Some(object) if new.is_some() => region_of(new_side, object)?,
            _ => None,
        };
        if old_region == new_region {
            return match new_region {
                Some(region) if old != new => self.put(region, old, new),
                _ => Ok(()),
            };
        }
        if let Some(region) = old_region {
            self.put(region, old, None)?;
        }
        if let Some(region) = new_region {
            self.put(region, None, new)?;
        }
        Ok(())
    }

    /// The changes by the paths of the regions.
    pub(crate) fn end(self) -> Result<Vec<RegionChange>, AllocError> {
        let alloc = self.alloc;
        let mut changes = Vec::new(alloc);
        for (_, change) in self.by_path.into_iter() {
            let mut change = change;
            change.settle(alloc)?;
            changes.push(change)?;
        }
        Ok(changes)
    }
}
