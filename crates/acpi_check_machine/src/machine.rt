//! The objects and bodies of a survey, as checks look at them.

use crate::bodies::{Body, ReadBody};
use crate::lines::LineName;
use crate::tree::ObjectTree;
use acpi_conditions::{Candidates, Seen, SeenAlong};
use acpi_facts::objects_of;
use acpi_kinds::ObjectKind;
use acpi_locals::{Callables, LocalObject};
use acpi_name::{NameRef, Path, Seg};
use acpi_overview::{Object, objects_at};
use acpi_survey::Survey;
use std::alloc::{AllocError, Global};

/// What checks look at.
#[derive(Drop)]
pub struct Machine<'a> {
    /// Where memory comes from.
    pub alloc: Global,
    /// The survey of its tables.
    pub survey: &'a Survey,
    /// What its tables may declare, by path, and what is there before them.
    pub objects: Vec<Object<'a>>,
    /// The bodies of its methods that can be read, by the numbers of their entries.
    pub bodies: Vec<Body<'a>>,
    /// Which entries mean a method.
    pub callables: Callables,
    tree: ObjectTree,
}

/// The only object that a name may find.
#[derive(Debug, Clone, Copy)]
pub enum FoundObject<'m, 'a> {
    /// One that a table declares.
    Entry(&'m Object<'a>),
    /// One that a line before declares.
    Local(&'m LocalObject<'a>),
}

/// The path of a name below a path.
pub fn child_of(path: &Path, segment: [u8; 4]) -> Result<Path, AllocError> {
    let mut child = path.copy()?;
    if let Some(seg) = Seg::new(segment) {
        child.push(seg)?;
    }
    Ok(child)
}

// The bodies of methods, by the numbers of their entries.
fn bodies_of<'a>(
    alloc: Global,
    survey: &'a Survey,
    objects: &[Object<'a>],
    tree: &ObjectTree,
    callables: &Callables,
    read: &'a [ReadBody],
) -> Result<Vec<Body<'a>>, AllocError> {
    let mut bodies = Vec::new(alloc);
    for body in read {
        let Some(place) = tree.place(body.method) else {
            continue;
        };
        if let Some(object) = objects.get(place) {
            bodies.push(Body::new(survey, callables, *object, &body.terms)?)?;
        }
    }
    Ok(bodies)
}

impl<'m, 'a> FoundObject<'m, 'a> {
    /// Where it stands in the namespace.
    pub fn path(self) -> &'m Path {
        match self {
            FoundObject::Entry(object) => object.path,
            FoundObject::Local(local) => &local.path,
        }
    }

    /// What it is.
    pub fn kind(self) -> ObjectKind<'a> {
        match self {
            FoundObject::Entry(object) => object.kind,
            FoundObject::Local(local) => local.object,
        }
    }
}

/// The first of objects that a table declares without a condition.
pub(crate) fn first_fixed<'o, 'a>(objects: &'o [Object<'a>]) -> Option<&'o Object<'a>> {
    objects
        .iter()
        .find(|o| o.site.is_some() && !o.is_conditional)
}

impl<'a> Machine<'a> {
    /// The machine of a survey, whose bodies are these.
    pub fn new(
        alloc: Global,
        survey: &'a Survey,
        read: &'a [ReadBody],
    ) -> Result<Machine<'a>, AllocError> {
        let objects = objects_of(alloc, survey)?;
        let tree = ObjectTree::new(alloc, &objects)?;
        let callables = Callables::new(survey)?;
        let bodies = bodies_of(alloc, survey, &objects, &tree, &callables, read)?;
        Ok(Machine {
            alloc,
            survey,
            objects,
            bodies,
            callables,
            tree,
        })
    }

    /// The objects at a path.
    pub fn at(&self, path: &Path) -> &[Object<'a>] {
        objects_at(&self.objects, path)
    }

    /// The objects of that name that stand directly in an object of the machine.
    pub fn below(&self, object: &Object<'a>, name: [u8; 4]) -> &[Object<'a>] {
        match Seg::new(name) {
            Some(segment) => self.tree.children(&self.objects, object, segment),
            None => &self.objects[..0],
        }
    }

    /// Whether something of that name may be declared directly in an object of the machine.
    pub fn has(&self, object: &Object<'a>, name: [u8; 4]) -> bool {
        !self.below(object, name).is_empty()
    }

    /// The first object at a path that a table declares without a condition.
    pub fn fixed(&self, path: &Path) -> Option<&Object<'a>> {
        first_fixed(self.at(path))
    }

    /// The devices without a condition, by path.
    pub fn devices(&self) -> Result<Vec<Object<'a>>, AllocError> {
        let mut devices = Vec::new(self.alloc);
        for object in &self.objects {
            if matches!(object.kind, ObjectKind::Device) && !object.is_conditional {
                devices.push(*object)?;
            }
        }
        Ok(devices)
    }

    /// The body of the method of that entry, if it can be read.
    pub fn body(&self, method: usize) -> Option<&Body<'a>> {
        let place = self.bodies.partition_point(|b| b.object.number < method);
        let body = self.bodies.get(place)?;
        if body.object.number == method {
            Some(body)
        } else {
            None
        }
    }

    /// The only object at the only path at which something may be found for certain, behind all tables.
    pub fn only(&self, paths: &[Path], is_certain: bool) -> Option<&Object<'a>> {
        match paths {
            [path] if is_certain => match self.at(path) {
                [object] => Some(object),
                _ => None,
            },
            _ => None,
        }
    }

    /// The only object at the only path at which something in a body may be found for certain, at a line.
    pub fn only_behind<'m>(
        &'m self,
        body: &'m Body<'a>,
        line: usize,
        paths: &[Path],
        is_certain: bool,
    ) -> Option<FoundObject<'m, 'a>> {
        let [path] = paths else {
            return None;
        };
        if is_certain && body.declares(path, line) {
            return body.only_local(path, line).map(FoundObject::Local);
        }
        self.only(paths, is_certain).map(FoundObject::Entry)
    }

    /// The only object that a name on a line of a body may find.
    pub fn found_by<'m>(
        &'m self,
        body: &'m Body<'a>,
        line: usize,
        name: &LineName<'a>,
    ) -> Option<FoundObject<'m, 'a>> {
        self.only_behind(body, line, &name.paths, name.is_certain)
    }

    /// Where a name in the term of an object may be found, behind all tables.
    pub fn search(
        &self,
        object: &Object<'a>,
        name: NameRef<'_>,
    ) -> Result<Option<Candidates>, AllocError> {
        let entries = self.survey.entries();
        let Some(entry) = self.survey.entry(object.number) else {
            return Ok(None);
        };
        let seen = Seen::new(entries.paths, entries.ways, entry)?;
        Ok(Some(seen.find(self.alloc, name)?))
    }

    /// Where a name may be found from a scope, as an object's term sees it behind all tables.
    pub fn search_from(
        &self,
        object: &Object<'a>,
        scope: &Path,
        name: NameRef<'_>,
    ) -> Result<Option<Candidates>, AllocError> {
        let entries = self.survey.entries();
        let Some(entry) = self.survey.entry(object.number) else {
            return Ok(None);
        };
        let turns = entries.ways.turns(entry.way)?;
        let seen = SeenAlong::new(entries.paths, entries.ways, &turns);
        Ok(Some(seen.find(self.alloc, scope, name)?))
    }

    /// The objects at a path that the term of an object may find there.
    pub fn seen_at(&self, object: &Object<'a>, path: &Path) -> Result<Vec<Object<'a>>, AllocError> {
        let entries = self.survey.entries();
        let mut seen = Vec::new(self.alloc);
        let Some(entry) = self.survey.entry(object.number) else {
            return Ok(seen);
        };
        let turns = entries.ways.turns(entry.way)?;
        let along = SeenAlong::new(entries.paths, entries.ways, &turns);
        let numbers = along.numbers_at(self.alloc, path)?;
        for object in self.at(path) {
            if numbers.binary_search(&object.number).is_ok() {
                seen.push(*object)?;
            }
        }
        Ok(seen)
    }
}
