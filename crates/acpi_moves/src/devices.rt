//! Devices that are gone, new, or moved.

use crate::keys::{address_key, id_key, member_key};
use crate::moves::Moves;
use crate::path_set::PathSet;
use acpi_name::{Path, Seg};
use acpi_overview::{Container, Object, Tree, is_directly_in};
use std::alloc::{AllocError, Global};
use std::collections::{BTreeMap, BTreeSet};

/// A device that moved, or has another name.
#[derive(Debug, Clone, Copy)]
pub struct DeviceMove {
    /// The number of the container in the old version.
    pub old: usize,
    /// Its number in the new version.
    pub new: usize,
}

/// Which containers of two versions are the same: devices, processors, power resources and thermal zones.
#[derive(Drop)]
pub struct DeviceMatch {
    /// Where those of the old version stand in the new one.
    pub moves: Moves,
    /// The numbers of those that only the old version has.
    pub gone: Vec<usize>,
    /// The numbers of those that only the new version has.
    pub new: Vec<usize>,
    /// Those that moved by themselves, and not with a container around.
    pub moved: Vec<DeviceMove>,
}

/// What tells a container apart from others.
const KEY_COUNT: usize = 4;

// The names of what stands directly in each container, by path.
fn members_of(
    alloc: Global,
    objects: &[Object<'_>],
    tree: &Tree<'_>,
) -> Result<Vec<Vec<Seg>>, AllocError> {
    let mut members = Vec::new(alloc);
    for _ in 0..tree.containers.len() {
        members.push(Vec::new(alloc))?;
    }
    for (object, around) in objects.iter().zip(tree.around.iter()) {
        let Some(number) = around else {
            continue;
        };
        let is_member = tree
            .containers
            .get(*number)
            .map_or(false, |c| is_directly_in(object.path, c.object.path));
        if let (true, Some(list), Some(last)) = (
            is_member,
            members.get_mut(*number),
            object.path.segs().last(),
        ) {
            list.push(*last)?;
        }
    }
    Ok(members)
}

// The key of that number of a container at a path.
fn key_of(
    alloc: Global,
    number: usize,
    container: &Container<'_>,
    path: &Path,
    members: &[Seg],
) -> Result<Option<Vec<u8>>, AllocError> {
    match number {
        0 => id_key(alloc, container),
        1 => address_key(alloc, container, path),
        2 => member_key(alloc, container, path, members, true),
        _ => member_key(alloc, container, path, members, false),
    }
}

/// The containers of the new version at whose paths the old one has none, by their keys.
#[derive(Drop)]
struct Candidates {
    alloc: Global,
    by_key: BTreeMap<(usize, Vec<u8>), Vec<usize>>,
    taken: BTreeSet<usize>,
}

impl Candidates {
    fn put_under(&mut self, key: (usize, Vec<u8>), number: usize) -> Result<(), AllocError> {
        if let Some(numbers) = self.by_key.get_mut(&key) {
            numbers.push(number)?;
            return Ok(());
        }
        let mut numbers = Vec::new(self.alloc);
        numbers.push(number)?;
        self.by_key.insert(key, numbers)?;
        Ok(())
    }

    // Puts a container under its keys; the last one put is found first.
    fn put(
        &mut self,
        number: usize,
        container: &Container<'_>,
        members: &[Seg],
    ) -> Result<(), AllocError> {
        for i in 0..KEY_COUNT {
            let key = key_of(self.alloc, i, container, container.object.path, members)?;
            if let Some(key) = key {
                self.put_under((i, key), number)?;
            }
        }
        Ok(())
    }

    // Takes the first container under a key that is not taken yet.
    fn take_by(&mut self, i: usize, key: Vec<u8>) -> Result<Option<usize>, AllocError> {
        let Some(numbers) = self.by_key.get_mut(&(i, key)) else {
            return Ok(None);
        };
        for _ in 0..numbers.len() {
            let Some(number) = numbers.pop() else {
                break;
            };
            if !self.taken.contains(&number) {
                self.taken.insert(number)?;
                return Ok(Some(number));
            }
        }
        Ok(None)
    }

    // Takes the container of the new version that is the same as one of the old version, which would stand at a path.
    fn take(
        &mut self,
        container: &Container<'_>,
        path: &Path,
        members: &[Seg],
    ) -> Result<Option<usize>, AllocError> {
        for i in 0..KEY_COUNT {
            let Some(key) = key_of(self.alloc, i, container, path, members)? else {
                continue;
            };
            if let Some(number) = self.take_by(i, key)? {
                return Ok(Some(number));
            }
        }
        Ok(None)
    }
}

// The paths of containers.
fn paths_of(alloc: Global, tree: &Tree<'_>) -> Result<PathSet, AllocError> {
    let mut paths = PathSet::new(alloc);
    for container in &tree.containers {
        paths.insert(container.object.path.copy()?)?;
    }
    Ok(paths)
}

// The containers of the new version at whose paths the old one has none.
fn candidates_of(
    alloc: Global,
    old_paths: &PathSet,
    new: &Tree<'_>,
    members: &[Vec<Seg>],
) -> Result<Candidates, AllocError> {
    let mut candidates = Candidates {
        alloc,
        by_key: BTreeMap::new(alloc),
        taken: BTreeSet::new(alloc),
    };
    for (number, container) in new.containers.iter().enumerate().rev() {
        if !old_paths.contains(container.object.path) {
            let own = members.get(number).map_or(&[] as &[Seg], |m| m.as_slice());
            candidates.put(number, container, own)?;
        }
    }
    Ok(candidates)
}

/// The containers of two versions while they are matched.
#[derive(Drop)]
struct Matching<'m, 'a> {
    old: &'m Tree<'a>,
    new: &'m Tree<'a>,
    new_paths: PathSet,
    candidates: Candidates,
    found: DeviceMatch,
    // The paths of those of the new version that the old one has too.
    kept: PathSet,
}

impl<'m, 'a> Matching<'m, 'a> {
    // Comes to the next container of the old version, behind those around.
    fn next(&mut self, number: usize, members: &[Seg]) -> Result<(), AllocError> {
        let Some(container) = self.old.containers.get(number) else {
            return Ok(());
        };
        let path = self.found.moves.new_path(container.object.path)?;
        if self.new_paths.contains(&path) {
            self.kept.insert(path)?;
            return Ok(());
        }
        let Some(other) = self.candidates.take(container, &path, members)? else {
            self.found.gone.push(number)?;
            return Ok(());
        };
        self.add(container, number, other)
    }

    fn add(&mut self, container: &Container<'_>, old: usize, new: usize) -> Result<(), AllocError> {
        let Some(moved) = self.new.containers.get(new) else {
            return Ok(());
        };
        self.found
            .moves
            .add(container.object.path, moved.object.path)?;
        self.found.moved.push(DeviceMove { old, new })?;
        self.kept.insert(moved.object.path.copy()?)?;
        Ok(())
    }

    // What was found, with those of the new version that are left.
    fn end(mut self) -> Result<DeviceMatch, AllocError> {
        let tree = self.new;
        for (number, container) in tree.containers.iter().enumerate() {
            if !self.kept.contains(container.object.path) {
                self.found.new.push(number)?;
            }
        }
        Ok(self.found)
    }
}

/// Which containers of two versions are the same: those at one path; of those left those with the same `_HID` and `_UID`, with
/// the same `_ADR` in the same container, or in which the same names stand, where they have one name or stand in the same
/// container. The objects of both versions are given, by path.
pub fn match_devices<'m, 'a>(
    alloc: Global,
    old_objects: &[Object<'_>],
    old: &'m Tree<'a>,
    new_objects: &[Object<'_>],
    new: &'m Tree<'a>,
) -> Result<DeviceMatch, AllocError> {
    let old_paths = paths_of(alloc, old)?;
    let new_members = members_of(alloc, new_objects, new)?;
    let new_paths = paths_of(alloc, new)?;
    let candidates = candidates_of(alloc, &old_paths, new, &new_members)?;
    let found = DeviceMatch {
        moves: Moves::new(alloc),
        gone: Vec::new(alloc),
        new: Vec::new(alloc),
        moved: Vec::new(alloc),
    };
    let mut matching = Matching {
        old,
        new,
        new_paths,
        candidates,
        found,
        kept: PathSet::new(alloc),
    };
    let members = members_of(alloc, old_objects, old)?;
    for number in 0..members.len() {
        matching.next(number, &members[number])?;
    }
    matching.end()
}
