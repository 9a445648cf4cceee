//! The bodies of methods.

use crate::lines::{Line, lines_of};
use acpi_entries::{BodyReading, MethodBody, body_of};
use acpi_locals::{BodyName, Callables, LocalObject, local_objects, names_of_body};
use acpi_name::Path;
use acpi_overview::Object;
use acpi_survey::Survey;
use acpi_tree::Term;
use std::alloc::{AllocError, Global};

/// The body of a method that can be read.
#[derive(Debug, Drop)]
pub struct ReadBody {
    /// The number of the method's entry.
    pub method: usize,
    /// Its terms.
    pub terms: Vec<Term>,
}

/// The body of a method, line by line (ACPI 6.5, 20.2.5.2).
#[derive(Debug, Drop)]
pub struct Body<'a> {
    /// The method.
    pub object: Object<'a>,
    /// Its terms.
    pub terms: &'a [Term],
    /// The names in its terms, in the order in which they stand.
    pub names: Vec<BodyName<'a>>,
    /// Its lines: each If or While before what stands in it.
    pub lines: Vec<Line<'a>>,
    /// The objects that its terms declare, line after line (5.5.2.3).
    pub locals: Vec<LocalObject<'a>>,
    // The places of these objects, by their paths; those of one path line after line.
    by_path: Vec<usize>,
}

// The terms of a body, if it can be read.
fn terms_in(body: MethodBody<'_>) -> Option<Vec<Term>> {
    let reading = body.reading;
    match reading {
        BodyReading::Terms(terms) => Some(terms),
        BodyReading::Opaque { name: _name, .. } => None,
    }
}

/// The bodies of a survey's methods that can be read, by the numbers of their entries.
pub fn read_bodies(alloc: Global, survey: &Survey) -> Result<Vec<ReadBody>, AllocError> {
    let mut read = Vec::new(alloc);
    for method in 0..survey.entries().paths.entries().len() {
        let Some(body) = body_of(survey, method)? else {
            continue;
        };
        if let Some(terms) = terms_in(body) {
            read.push(ReadBody { method, terms })?;
        }
    }
    Ok(read)
}

// The places of objects, by their paths.
fn by_path(alloc: Global, locals: &[LocalObject<'_>]) -> Result<Vec<usize>, AllocError> {
    let mut order: Vec<(&Path, usize)> = Vec::new(alloc);
    for i in 0..locals.len() {
        order.push((&locals[i].path, i))?;
    }
    order.sort()?;
    let mut places = Vec::new(alloc);
    for (_, place) in &order {
        places.push(*place)?;
    }
    Ok(places)
}

// Whether the object at a place has a path before this one.
fn is_before(locals: &[LocalObject<'_>], place: usize, path: &Path) -> bool {
    match locals.get(place) {
        Some(local) => local.path < *path,
        None => false,
    }
}

impl<'a> Body<'a> {
    // The body of a method, whose terms are these.
    pub(crate) fn new(
        survey: &Survey,
        callables: &Callables,
        object: Object<'a>,
        terms: &'a [Term],
    ) -> Result<Body<'a>, AllocError> {
        let locals = local_objects(survey, object.number, terms)?;
        let by_path = by_path(survey.memory(), &locals)?;
        let names = names_of_body(survey, object.number, terms)?;
        Ok(Body {
            object,
            terms,
            lines: lines_of(survey, callables, terms, &names)?,
            names,
            locals,
            by_path,
        })
    }

    // Where objects at a path begin, of those by path.
    fn first_at(&self, path: &Path) -> usize {
        self.by_path
            .partition_point(|i| is_before(&self.locals, *i, path))
    }

    // The object of that number by path, if a line before that one declares it at the path.
    fn local_before(&self, number: usize, path: &Path, line: usize) -> Option<&LocalObject<'a>> {
        let local = self.locals.get(*self.by_path.get(number)?)?;
        if local.path == *path && local.line < line {
            Some(local)
        } else {
            None
        }
    }

    /// Whether a line before that one declares a path.
    pub fn declares(&self, path: &Path, line: usize) -> bool {
        self.local_before(self.first_at(path), path, line).is_some()
    }

    /// The only object that lines before that one declare at a path.
    pub fn only_local(&self, path: &Path, line: usize) -> Option<&LocalObject<'a>> {
        let first = self.first_at(path);
        let local = self.local_before(first, path, line)?;
        match self.local_before(first.saturating_add(1), path, line) {
            Some(_) => None,
            None => Some(local),
        }
    }

    /// The objects that its terms declare, by path; those of one path line after line.
    pub fn locals_by_path(&self, alloc: Global) -> Result<Vec<&LocalObject<'a>>, AllocError> {
        let mut locals = Vec::new(alloc);
        for place in &self.by_path {
            if let Some(local) = self.locals.get(*place) {
                locals.push(local)?;
            }
        }
        Ok(locals)
    }
}
