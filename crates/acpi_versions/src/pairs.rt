//! Objects of two versions that are the same.

use crate::conditions::condition_text;
use crate::sides::Side;
use acpi_name::Path;
use acpi_overview::Object;
use std::alloc::{AllocError, Global};

/// What stands at a path of the new version.
#[derive(Debug, Drop)]
pub struct Pair<'m, 'a> {
    /// The path.
    pub path: Path,
    /// The object of the old version.
    pub old: Option<&'m Object<'a>>,
    /// The object of the new version.
    pub new: Option<&'m Object<'a>>,
}

// The objects of a version, by their paths in the new one, those of one path in their order.
fn by_new_path<'m, 'a>(
    alloc: Global,
    side: Side<'m, 'a>,
) -> Result<Vec<(Path, &'m Object<'a>)>, AllocError> {
    let mut found = Vec::new(alloc);
    for object in &side.machine.objects {
        found.push((side.moves.new_path(object.path)?, object))?;
    }
    found.sort_by(|one: &(Path, &Object<'_>), other: &(Path, &Object<'_>)| one.0.cmp(&other.0))?;
    Ok(found)
}

// The conditions of objects, with their numbers, in order.
fn numbered_conditions<'m, 'a>(
    side: Side<'m, 'a>,
    objects: &[&'m Object<'a>],
) -> Result<Vec<(Vec<u8>, usize)>, AllocError> {
    let mut conditions = Vec::new(side.machine.alloc);
    for number in 0..objects.len() {
        conditions.push((condition_text(side, objects[number], None)?, number))?;
    }
    conditions.sort()?;
    Ok(conditions)
}

/// The objects of two versions at one path while they are paired.
#[derive(Drop)]
struct Pairing<'m, 'a> {
    old: Vec<Option<&'m Object<'a>>>,
    new: Vec<Option<&'m Object<'a>>>,
    pairs: Vec<(Option<&'m Object<'a>>, Option<&'m Object<'a>>)>,
}

// Takes the object of that number.
fn take<'m, 'a>(
    objects: &mut Vec<Option<&'m Object<'a>>>,
    number: usize,
) -> Option<&'m Object<'a>> {
    objects.get_mut(number)?.take()
}

impl<'m, 'a> Pairing<'m, 'a> {
    // Pairs those with one condition, in their order; the conditions are in order.
    fn pair_alike(
        &mut self,
        old: &[(Vec<u8>, usize)],
        new: &[(Vec<u8>, usize)],
    ) -> Result<(), AllocError> {
        let mut i = 0usize;
        let mut j = 0usize;
        for _ in 0..old.len().saturating_add(new.len()) {
            let (Some(one), Some(other)) = (old.get(i), new.get(j)) else {
                return Ok(());
            };
            if one.0 < other.0 {
                i = i.saturating_add(1);
            } else if other.0 < one.0 {
                j = j.saturating_add(1);
            } else {
                let pair = (take(&mut self.old, one.1), take(&mut self.new, other.1));
                self.pairs.push(pair)?;
                i = i.saturating_add(1);
                j = j.saturating_add(1);
            }
        }
        Ok(())
    }

    // Pairs those that are left, in their order.
    fn pair_rest(&mut self) -> Result<(), AllocError> {
        let mut old = self.old.iter().filter_map(|o| *o);
        let mut new = self.new.iter().filter_map(|o| *o);
        for _ in 0..self.old.len().saturating_add(self.new.len()) {
            let pair = (old.next(), new.next());
            if pair.0.is_none() && pair.1.is_none() {
                return Ok(());
            }
            self.pairs.push(pair)?;
        }
        Ok(())
    }
}

// Puts the pairs of what stands at one path: those with one condition, then the others in their order.
fn put_pairs<'m, 'a>(
    pairs: &mut Vec<Pair<'m, 'a>>,
    sides: (Side<'m, 'a>, Side<'m, 'a>),
    path: &Path,
    old: &[&'m Object<'a>],
    new: &[&'m Object<'a>],
) -> Result<(), AllocError> {
    let alloc = sides.0.machine.alloc;
    let mut pairing = Pairing {
        old: Vec::new(alloc),
        new: Vec::new(alloc),
        pairs: Vec::new(alloc),
    };
    for object in old {
        pairing.old.push(Some(*object))?;
    }
    for object in new {
        pairing.new.push(Some(*object))?;
    }
    if old.len() > 1 || new.len() > 1 {
        let in_old = numbered_conditions(sides.0, old)?;
        pairing.pair_alike(&in_old, &numbered_conditions(sides.1, new)?)?;
    }
    pairing.pair_rest()?;
    for (old, new) in &pairing.pairs {
        pairs.push(Pair {
            path: path.copy()?,
            old: *old,
            new: *new,
        })?;
    }
    Ok(())
}

// The objects from a place on.
fn rest_of<'l, 'm, 'a>(
    listed: &'l [(Path, &'m Object<'a>)],
    place: usize,
) -> &'l [(Path, &'m Object<'a>)] {
    listed.get(place..).unwrap_or(listed)
}

// The objects at the front of a list that stand at a path.
fn objects_at<'m, 'a>(
    alloc: Global,
    listed: &[(Path, &'m Object<'a>)],
    path: &Path,
) -> Result<Vec<&'m Object<'a>>, AllocError> {
    let mut objects = Vec::new(alloc);
    for (other, object) in listed {
        if *other != *path {
            break;
        }
        objects.push(*object)?;
    }
    Ok(objects)
}

// The path of the first object of a list.
fn first_path(listed: &[(Path, &Object<'_>)]) -> Result<Option<Path>, AllocError> {
    match listed.first() {
        Some(first) => Ok(Some(first.0.copy()?)),
        None => Ok(None),
    }
}

// The lesser of two paths, of which there may be one or none.
fn lesser(one: Option<Path>, other: Option<Path>) -> Option<Path> {
    match (one, other) {
        (Some(one), Some(other)) => Some(one.min(other)),
        (Some(one), None) => Some(one),
        (None, other) => other,
    }
}

/// What stands at each path of the new version, in the order of the paths: objects of both versions in pairs, and those that
/// only one has.
pub fn pairs_of<'m, 'a>(
    old: Side<'m, 'a>,
    new: Side<'m, 'a>,
) -> Result<Vec<Pair<'m, 'a>>, AllocError> {
    let alloc = old.machine.alloc;
    let listed_old = by_new_path(alloc, old)?;
    let listed_new = by_new_path(alloc, new)?;
    let mut pairs = Vec::new(alloc);
    let (mut place_old, mut place_new) = (0usize, 0usize);
    for _ in 0..listed_old.len().saturating_add(listed_new.len()) {
        let rest_old = rest_of(&listed_old, place_old);
        let rest_new = rest_of(&listed_new, place_new);
        let Some(path) = lesser(first_path(rest_old)?, first_path(rest_new)?) else {
            break;
        };
        let at_old = objects_at(alloc, rest_old, &path)?;
        let at_new = objects_at(alloc, rest_new, &path)?;
        put_pairs(&mut pairs, (old, new), &path, &at_old, &at_new)?;
        place_old = place_old.saturating_add(at_old.len());
        place_new = place_new.saturating_add(at_new.len());
    }
    Ok(pairs)
}
