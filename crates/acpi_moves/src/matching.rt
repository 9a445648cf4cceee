//! Which objects of two machines are the same.

use crate::devices::{DeviceMatch, match_devices};
use crate::objects::{ObjectMove, match_objects};
use acpi_overview::{Object, Tree, declared_values};
use std::alloc::{AllocError, Global};

/// Which objects of two versions of a machine are the same.
#[derive(Drop)]
pub struct MachineMatch<'a> {
    /// The containers of the old version.
    pub old: Tree<'a>,
    /// The containers of the new version.
    pub new: Tree<'a>,
    /// Which of them are the same, and where all objects of the old version stand in the new one.
    pub devices: DeviceMatch,
    /// The objects that moved by themselves.
    pub objects: Vec<ObjectMove<'a>>,
}

/// Which objects of two versions are the same; those of each are given, by path.
pub fn match_machines<'a>(
    alloc: Global,
    old: &[Object<'a>],
    new: &[Object<'a>],
) -> Result<MachineMatch<'a>, AllocError> {
    let old_tree = Tree::new(alloc, old, &declared_values(alloc, old)?)?;
    let new_tree = Tree::new(alloc, new, &declared_values(alloc, new)?)?;
    let mut devices = match_devices(alloc, old, &old_tree, new, &new_tree)?;
    let objects = match_objects(alloc, old, new, &mut devices.moves)?;
    Ok(MachineMatch {
        old: old_tree,
        new: new_tree,
        devices,
        objects,
    })
}
