//! Objects that moved by themselves.

use crate::keys::kind_number;
use crate::moves::Moves;
use crate::path_set::PathSet;
use acpi_name::{Path, Seg};
use acpi_overview::{Object, is_container, objects_at};
use std::alloc::{AllocError, Global};
use std::collections::BTreeMap;

/// An object that stands in another scope.
#[derive(Debug, Clone, Copy)]
pub struct ObjectMove<'a> {
    /// Its path in the old version.
    pub old: &'a Path,
    /// Its path in the new version.
    pub new: &'a Path,
}

// The objects of one name and kind that only one version has: the number of the first, and how many.
#[derive(Debug, Clone, Copy)]
struct Singles {
    first: usize,
    count: usize,
}

// What stands in one version alone, by name and kind.
type ByName = BTreeMap<(Seg, u8), Singles>;

// Whether an object may have moved by itself: a table declares it, it is no container, and its name is none that the standard
// reserves.
fn may_move(object: &Object<'_>) -> bool {
    match object.path.segs().last() {
        Some(segment) => {
            object.site.is_some()
                && !is_container(object.kind)
                && !segment.bytes().starts_with(b"_")
        }
        None => false,
    }
}

// Puts the object of a number.
fn put(singles: &mut ByName, object: &Object<'_>, number: usize) -> Result<(), AllocError> {
    let Some(segment) = object.path.segs().last() else {
        return Ok(());
    };
    let key = (*segment, kind_number(object.kind));
    if let Some(found) = singles.get_mut(&key) {
        found.count = found.count.saturating_add(1);
        return Ok(());
    }
    singles.insert(
        key,
        Singles {
            first: number,
            count: 1,
        },
    )?;
    Ok(())
}

// The only object of those of one name and kind.
fn only<'o, 'a>(objects: &'o [Object<'a>], singles: &Singles) -> Option<&'o Object<'a>> {
    if singles.count == 1 {
        objects.get(singles.first)
    } else {
        None
    }
}

/// Objects that stand in another scope: of one name and kind only the old version has an object at some path, and only the new
/// version one at another, one each. They are put behind the moves. The objects of both versions are given, by path.
pub fn match_objects<'a>(
    alloc: Global,
    old: &[Object<'a>],
    new: &[Object<'a>],
    moves: &mut Moves,
) -> Result<Vec<ObjectMove<'a>>, AllocError> {
    let mut kept = PathSet::new(alloc);
    let mut gone: ByName = BTreeMap::new(alloc);
    for (number, object) in old.iter().enumerate() {
        let path = moves.new_path(object.path)?;
        if may_move(object) && objects_at(new, &path).is_empty() {
            put(&mut gone, object, number)?;
        }
        kept.insert(path)?;
    }
    let mut come: ByName = BTreeMap::new(alloc);
    for (number, object) in new.iter().enumerate() {
        if may_move(object) && !kept.contains(object.path) {
            put(&mut come, object, number)?;
        }
    }
    let mut found = Vec::new(alloc);
    for (key, singles) in gone.iter() {
        let Some(others) = come.get(key) else {
            continue;
        };
        if let (Some(one), Some(other)) = (only(old, singles), only(new, others)) {
            moves.add(one.path, other.path)?;
            found.push(ObjectMove {
                old: one.path,
                new: other.path,
            })?;
        }
    }
    Ok(found)
}
