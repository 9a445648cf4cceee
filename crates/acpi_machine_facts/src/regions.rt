//! Operation regions, of tables and of methods (ACPI 6.5, 5.5.2.4).

use acpi_check_machine::{Body, Machine};
use acpi_kinds::{ObjectKind, UnitForm};
use acpi_locals::LocalObject;
use acpi_name::Path;
use acpi_overview::{Address, Bound, BoundTerm, Certainty, Object, Overview, UnitSource, kind_of};
use std::alloc::AllocError;

/// What is odd of the bounds of a region.
#[derive(Debug, Clone, Copy, PartialEq, Eq)]
pub enum OddBounds {
    /// It has no byte.
    Empty,
    /// It ends above the last address of its space, which is this one.
    Above(u64),
}

/// An operation region.
#[derive(Debug, Drop)]
pub struct RegionFact<'m, 'a> {
    /// Its path.
    pub path: &'m Path,
    /// The object that is the region, or the method that declares it when it runs.
    pub object: Object<'a>,
    /// Whether a method declares it when it runs.
    pub is_local: bool,
    /// Where the device around it stands.
    pub device: Address,
    /// RegionSpace: 0 SystemMemory, 1 SystemIO and so on (20.2.5.2 DefOpRegion).
    pub space: u8,
    /// RegionOffset: its first byte in the space.
    pub offset: Bound<'a>,
    /// RegionLen: how many bytes it has.
    pub length: Bound<'a>,
    /// How many field units may be in it.
    pub units: usize,
    /// The field unit from which its first byte is read.
    pub source: Option<UnitSource<'a>>,
    /// The containers whose constant resources claim it, from its first byte on without a gap.
    pub claimed_by: Vec<usize>,
    /// The first address that these don't claim, where they claim a part of it alone.
    pub claimed_to: Option<u64>,
    /// Whether these claim nothing of it, where both bounds are known and devices may claim such addresses.
    pub is_unclaimed: bool,
}

// The last address of a space, where regions may end (5.5.2.4).
fn last_address(space: u8) -> u64 {
    match space {
        1 => 0xFFFF,
        2 => 0xFFF,
        3 | 5 => 0xFF,
        _ => u64::MAX,
    }
}

impl RegionFact<'_, '_> {
    /// The first and the last byte, where they are known without running code and there is one.
    pub fn ends(&self) -> Option<(u64, u64)> {
        let from = self.offset.number()?;
        let count = self.length.number()?;
        Some((from, from.saturating_add(count.checked_sub(1)?)))
    }

    /// What is odd of its bounds.
    pub fn odd(&self) -> Option<OddBounds> {
        let from = self.offset.number()?;
        let count = self.length.number()?;
        let Some(rest) = count.checked_sub(1) else {
            return Some(OddBounds::Empty);
        };
        let last = last_address(self.space);
        match from.checked_add(rest) {
            Some(end) if end <= last => None,
            _ => Some(OddBounds::Above(last)),
        }
    }

    /// How far its bounds are known.
    pub fn mark(&self) -> Certainty {
        match (self.offset, self.length) {
            (Bound::Read(_), _) => Certainty::Read,
            (_, Bound::Read(_)) => Certainty::Read,
            (Bound::Constant(_), Bound::Constant(_)) => Certainty::Constant,
            _ => Certainty::Named,
        }
    }

    // Puts which containers claim it.
    fn set_claims(&mut self, overview: &Overview<'_>) -> Result<(), AllocError> {
        let (Some(kind), Some((from, last))) = (kind_of(self.space), self.ends()) else {
            return Ok(());
        };
        let cover = overview.claims.cover(kind, from, last.saturating_add(1))?;
        self.is_unclaimed = cover.containers.is_empty();
        if !self.is_unclaimed && cover.to <= last {
            self.claimed_to = Some(cover.to);
        }
        self.claimed_by = cover.containers;
        Ok(())
    }
}

// A bound in the body of a method, whose names aren't searched.
fn bound<'a>(term: &'a acpi_tree::Term) -> Bound<'a> {
    Bound::new(&BoundTerm {
        term,
        constant: None,
    })
}

// Whether a field unit of a method may be in a region at a path.
fn is_unit_in(local: &LocalObject<'_>, path: &Path) -> bool {
    match local.object {
        ObjectKind::Field { form, .. } => {
            !matches!(form, UnitForm::Index)
                && local.links.first().is_some_and(|l| l.paths.contains(path))
        }
        _ => false,
    }
}

// The region that an object of a body is, if it is one.
fn local_region<'m, 'a>(
    machine: &Machine<'a>,
    body: &'m Body<'a>,
    local: &'m LocalObject<'a>,
) -> Option<RegionFact<'m, 'a>> {
    let ObjectKind::Region {
        space,
        offset,
        length,
    } = local.object
    else {
        return None;
    };
    Some(RegionFact {
        path: &local.path,
        object: body.object,
        is_local: true,
        device: Address::Missing,
        space,
        offset: bound(offset),
        length: bound(length),
        units: body
            .locals
            .iter()
            .filter(|l| is_unit_in(l, &local.path))
            .count(),
        source: None,
        claimed_by: Vec::new(machine.alloc),
        claimed_to: None,
        is_unclaimed: false,
    })
}

/// The regions of tables in the order of their paths, and then those that methods declare.
pub(crate) fn regions_of<'m, 'a>(
    machine: &'m Machine<'a>,
    overview: &Overview<'a>,
) -> Result<Vec<RegionFact<'m, 'a>>, AllocError> {
    let mut regions = Vec::new(machine.alloc);
    for region in &overview.regions {
        regions.push(RegionFact {
            path: region.object.path,
            object: region.object,
            is_local: false,
            device: region.device,
            space: region.space,
            offset: region.offset,
            length: region.length,
            units: region.units,
            source: region.source,
            claimed_by: Vec::new(machine.alloc),
            claimed_to: None,
            is_unclaimed: false,
        })?;
    }
    for object in &machine.objects {
        let Some(body) = machine.body(object.number) else {
            continue;
        };
        for local in &body.locals {
            if let Some(region) = local_region(machine, body, local) {
                regions.push(region)?;
            }
        }
    }
    for region in regions.iter_mut() {
        region.set_claims(overview)?;
    }
    Ok(regions)
}
