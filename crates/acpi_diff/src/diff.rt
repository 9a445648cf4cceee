//! What differs between two versions of a machine.

use crate::changes::{Change, ChangeKind, Comparison};
use crate::fields::{RegionChange, RegionChanges};
use crate::findings::{FindingChange, LostName, finding_changes};
use acpi_body_diff::{BodyChange, BodyResult, compare_bodies};
use acpi_check_machine::{Finding, Machine};
use acpi_kinds::ObjectKind;
use acpi_moves::{MachineMatch, Moves};
use acpi_name::Path;
use acpi_overview::{Object, Tree};
use acpi_versions::{Pair, Side, common_segments, pairs_of};
use std::alloc::{AllocError, Global};
use std::collections::BTreeSet;

/// What differs between two versions of a machine, but for devices and objects that moved.
#[derive(Drop)]
pub struct Diff<'f> {
    /// What differs of objects, by path.
    pub changes: Vec<Change>,
    /// What differs of the units of regions, by path.
    pub regions: Vec<RegionChange>,
    /// What differs of bodies, by path.
    pub bodies: Vec<BodyChange>,
    /// The paths of objects that differ in nothing but what is not told: how constants and names are spelled, which Locals a
    /// method uses, whether it is Serialized.
    pub alike: Vec<Path>,
    /// The errors and warnings that only one version has.
    pub findings: Vec<FindingChange<'f>>,
    /// The names that nothing declares and that more methods use, or fewer.
    pub lost_names: Vec<LostName>,
}

// The paths of some containers.
fn paths_of(
    alloc: Global,
    tree: &Tree<'_>,
    numbers: &[usize],
) -> Result<BTreeSet<Path>, AllocError> {
    let mut paths = BTreeSet::new(alloc);
    for number in numbers {
        if let Some(container) = tree.containers.get(*number) {
            paths.insert(container.object.path.copy()?)?;
        }
    }
    Ok(paths)
}

// Whether two objects differ in how their terms are spelled, or in flags of methods.
fn is_spelled_otherwise(old: &Object<'_>, new: &Object<'_>) -> bool {
    match (old.kind, new.kind) {
        (ObjectKind::Name(Some(one)), ObjectKind::Name(Some(other))) => one != other,
        (ObjectKind::Method(one), ObjectKind::Method(other)) => one != other,
        _ => false,
    }
}

/// The differences while they are found.
#[derive(Drop)]
struct Differences<'m, 'a> {
    comparison: Comparison<'m, 'a>,
    changes: Vec<Change>,
    regions: RegionChanges,
    bodies: Vec<BodyChange>,
    alike: Vec<Path>,
}

impl<'m, 'a> Differences<'m, 'a> {
    // Puts what differs of the body of a method that both versions have; whether something is told.
    fn put_body(&mut self, pair: &Pair<'m, 'a>) -> Result<bool, AllocError> {
        match compare_bodies(self.comparison.old, self.comparison.new, pair)? {
            BodyResult::Lines(change) => {
                self.bodies.push(change)?;
                Ok(true)
            }
            BodyResult::Bytes => {
                let alloc = self.comparison.new.machine.alloc;
                self.changes.push(Change {
                    path: pair.path.copy()?,
                    kind: ChangeKind::Body,
                    old: Vec::new(alloc),
                    new: Vec::new(alloc),
                })?;
                Ok(true)
            }
            BodyResult::Alike => {
                self.alike.push(pair.path.copy()?)?;
                Ok(true)
            }
            BodyResult::Same => Ok(false),
        }
    }

    fn put_pair(&mut self, pair: &Pair<'m, 'a>) -> Result<(), AllocError> {
        if self.comparison.is_within_single(pair)? {
            return Ok(());
        }
        let count = self.changes.len();
        self.comparison.put_changes(&mut self.changes, pair)?;
        self.regions
            .put_pair(self.comparison.old, self.comparison.new, pair)?;
        let (Some(old), Some(new)) = (pair.old, pair.new) else {
            return Ok(());
        };
        let mut is_told = self.changes.len() > count;
        if let (ObjectKind::Method(_), ObjectKind::Method(_)) = (old.kind, new.kind) {
            is_told = self.put_body(pair)? || is_told;
        }
        if !is_told && is_spelled_otherwise(old, new) {
            self.alike.push(pair.path.copy()?)?;
        }
        Ok(())
    }
}

// All differences, but for findings.
fn differences_of<'m, 'a>(
    comparison: Comparison<'m, 'a>,
) -> Result<Differences<'m, 'a>, AllocError> {
    let alloc = comparison.new.machine.alloc;
    let mut found = Differences {
        comparison,
        changes: Vec::new(alloc),
        regions: RegionChanges::new(alloc),
        bodies: Vec::new(alloc),
        alike: Vec::new(alloc),
    };
    for pair in &pairs_of(comparison.old, comparison.new)? {
        found.put_pair(pair)?;
    }
    Ok(found)
}

/// What differs between two versions of a machine, of which is known which devices and objects are the same, and what checks
/// find in each.
pub fn diff_of<'m, 'a, 'f>(
    old: (&'m Machine<'a>, &'f [Finding]),
    new: (&'m Machine<'a>, &'f [Finding]),
    matched: &'m MachineMatch<'a>,
) -> Result<Diff<'f>, AllocError> {
    let alloc = new.0.alloc;
    let common = common_segments(alloc, old.0, new.0)?;
    let nothing = Moves::new(alloc);
    let gone = paths_of(alloc, &matched.old, &matched.devices.gone)?;
    let come = paths_of(alloc, &matched.new, &matched.devices.new)?;
    let moves = &matched.devices.moves;
    let comparison = Comparison {
        old: Side {
            machine: old.0,
            moves,
            common: &common,
        },
        new: Side {
            machine: new.0,
            moves: &nothing,
            common: &common,
        },
        gone: &gone,
        come: &come,
    };
    let Differences {
        changes,
        regions,
        bodies,
        alike,
        ..
    } = differences_of(comparison)?;
    let (findings, lost_names) = finding_changes(alloc, (old.1, moves), (new.1, &nothing))?;
    Ok(Diff {
        changes,
        regions: regions.end()?,
        bodies,
        alike,
        findings,
        lost_names,
    })
}
