//! Which objects stand in an object.

use acpi_name::Seg;
use acpi_overview::Object;
use std::alloc::{AllocError, Global};

/// Where the objects of a machine stand in the list of all, which is by path: what stands in an object follows it there.
#[derive(Debug, Drop)]
pub(crate) struct ObjectTree {
    // The place of each object, by the number of its entry.
    places: Vec<usize>,
    // By the place of each object: the place behind the last one that stands in it.
    ends: Vec<usize>,
}

// Whether an object stands at the path of another or below it.
fn is_inside(object: &Object<'_>, around: &Object<'_>) -> bool {
    object.path.segs().starts_with(around.path.segs())
}

// Whether an object has the segment at that place of its path, and it is the last one.
fn is_child(object: &Object<'_>, depth: usize, segment: Seg) -> bool {
    matches!(object.path.segs().get(depth..), Some([last]) if *last == segment)
}

// Whether the path of an object ends at that place, or has a segment there that stands before this one.
fn is_before(object: &Object<'_>, depth: usize, segment: Seg) -> bool {
    match object.path.segs().get(depth) {
        Some(other) => *other < segment,
        None => true,
    }
}

// How many objects at the front of a list are children of that name.
fn count_children(objects: &[Object<'_>], depth: usize, segment: Seg) -> usize {
    let mut count = 0usize;
    for object in objects {
        if !is_child(object, depth, segment) {
            break;
        }
        count = count.saturating_add(1);
    }
    count
}

// The objects from a place up to another.
fn objects_between<'o, 'a>(objects: &'o [Object<'a>], from: usize, to: usize) -> &'o [Object<'a>] {
    let to = to.min(objects.len());
    &objects[from.min(to)..to]
}

fn places_of(alloc: Global, objects: &[Object<'_>]) -> Result<Vec<usize>, AllocError> {
    let mut places = Vec::new(alloc);
    for _ in objects {
        places.push(0usize)?;
    }
    for (i, object) in objects.iter().enumerate() {
        if let Some(place) = places.get_mut(object.number) {
            *place = i;
        }
    }
    Ok(places)
}

fn ends_of(alloc: Global, objects: &[Object<'_>]) -> Result<Vec<usize>, AllocError> {
    let mut ends = Vec::new(alloc);
    ends.resize(objects.len(), objects.len())?;
    let mut around: Vec<usize> = Vec::new(alloc);
    for (i, object) in objects.iter().enumerate() {
        for _ in 0..around.len() {
            let Some(last) = around.last().copied() else {
                break;
            };
            if objects.get(last).is_some_and(|o| is_inside(object, o)) {
                break;
            }
            if let Some(end) = ends.get_mut(last) {
                *end = i;
            }
            around.pop();
        }
        around.push(i)?;
    }
    Ok(ends)
}

impl ObjectTree {
    /// The tree of objects, which are by path.
    pub(crate) fn new(alloc: Global, objects: &[Object<'_>]) -> Result<ObjectTree, AllocError> {
        Ok(ObjectTree {
            places: places_of(alloc, objects)?,
            ends: ends_of(alloc, objects)?,
        })
    }

    /// The place of the object of the entry of that number.
    pub(crate) fn place(&self, number: usize) -> Option<usize> {
        self.places.get(number).copied()
    }

    // The objects at the path of an object, from it on, and those below.
    fn inside<'o, 'a>(&self, objects: &'o [Object<'a>], object: &Object<'a>) -> &'o [Object<'a>] {
        let from = self.place(object.number).unwrap_or(objects.len());
        let to = self.ends.get(from).copied().unwrap_or(from);
        objects_between(objects, from, to)
    }

    /// The objects of that name directly in an object.
    pub(crate) fn children<'o, 'a>(
        &self,
        objects: &'o [Object<'a>],
        object: &Object<'a>,
        segment: Seg,
    ) -> &'o [Object<'a>] {
        let depth = object.path.len();
        let inside = self.inside(objects, object);
        let from = inside.partition_point(|o| is_before(o, depth, segment));
        let rest = objects_between(inside, from, inside.len());
        let count = count_children(rest, depth, segment);
        objects_between(rest, 0, count)
    }
}
