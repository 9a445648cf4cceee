//! The two versions of a machine.

use acpi_check_machine::Machine;
use acpi_moves::Moves;
use acpi_name::{Path, Seg};
use std::alloc::{AllocError, Global};
use std::collections::BTreeSet;

/// A version of a machine, as it is compared.
#[derive(Clone, Copy)]
pub struct Side<'m, 'a> {
    /// Its objects and bodies.
    pub machine: &'m Machine<'a>,
    /// Where what stands at its paths stands in the new version: of the new version itself nothing moved.
    pub moves: &'m Moves,
    /// The last segments of paths that both versions have.
    pub common: &'m BTreeSet<Seg>,
}

/// The container around a path; the root's is the root.
pub fn path_around(path: &Path) -> Result<Path, AllocError> {
    let mut around = path.copy()?;
    around.pop();
    Ok(around)
}

fn last_segments(machine: &Machine<'_>) -> Result<BTreeSet<Seg>, AllocError> {
    let mut segments = BTreeSet::new(machine.alloc);
    for object in &machine.objects {
        if let Some(segment) = object.path.segs().last() {
            segments.insert(*segment)?;
        }
    }
    Ok(segments)
}

/// The last segments of paths that both versions have.
pub fn common_segments(
    alloc: Global,
    old: &Machine<'_>,
    new: &Machine<'_>,
) -> Result<BTreeSet<Seg>, AllocError> {
    let in_old = last_segments(old)?;
    let mut common = BTreeSet::new(alloc);
    for segment in last_segments(new)?.iter() {
        if in_old.contains(segment) {
            common.insert(*segment)?;
        }
    }
    Ok(common)
}
