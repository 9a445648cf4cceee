//! The lines of the body of a method.

use acpi_conditions::copy_paths;
use acpi_locals::{BodyName, Callables};
use acpi_name::{Name, Path};
use acpi_survey::Survey;
use acpi_tree::Term;
use acpi_uses::{Role, statements_of};
use std::alloc::{AllocError, Global};

/// A name on a line.
#[derive(Debug, Drop)]
pub struct LineName<'a> {
    /// The name, not resolved.
    pub name: &'a Name,
    /// How it stands there: as it is once it is known whether it is the name of a method.
    pub role: Role,
    /// The paths at which it may be found, the innermost first.
    pub paths: Vec<Path>,
    /// Whether it is found for certain, at the last of them if not before.
    pub is_certain: bool,
    /// Whether the last of the paths is one that a line before declares.
    pub is_local: bool,
}

/// A line of the body of a method: a statement, without those in it.
#[derive(Debug, Drop)]
pub struct Line<'a> {
    /// Its number, from 1.
    pub number: usize,
    /// The statement.
    pub statement: &'a Term,
    /// The names in it, in the order in which they stand; of an If or a While those in its predicate.
    pub names: Vec<LineName<'a>>,
    // The keys of the names and their numbers, in order.
    by_key: Vec<(u64, usize)>,
}

impl<'a> LineName<'a> {
    /// The only path at which it may be found, where that is certain.
    pub fn only_path(&self) -> Option<&Path> {
        match self.paths.as_slice() {
            [path] if self.is_certain => Some(path),
            _ => None,
        }
    }
}

// A number that equal names have, and few others.
fn key_of(name: &Name) -> u64 {
    let name = name.view();
    let mut key = (name.parents() as u64) * 2;
    if name.rooted() {
        key = key.wrapping_add(1);
    }
    for i in 0..name.len() {
        let segment = u64::from(u32::from_be_bytes(name.seg(i).bytes()));
        key = key
            .wrapping_mul(0x9E37_79B9_7F4A_7C15)
            .wrapping_add(segment);
        key = key.rotate_left(31);
    }
    key
}

impl<'a> Line<'a> {
    // The name of that number, if it is this one.
    fn name_at(&self, number: usize, name: &Name) -> Option<&LineName<'a>> {
        let found = self.names.get(number)?;
        if *found.name == *name {
            Some(found)
        } else {
            None
        }
    }

    /// What a name that stands on the line may find.
    pub fn name(&self, name: &Name) -> Option<&LineName<'a>> {
        let key = key_of(name);
        let first = self.by_key.partition_point(|k| k.0 < key);
        for (other, number) in self.by_key.get(first..)? {
            if *other != key {
                return None;
            }
            if let Some(found) = self.name_at(*number, name) {
                return Some(found);
            }
        }
        None
    }

    // Puts the keys of its names in order.
    fn set_keys(&mut self) -> Result<(), AllocError> {
        for number in 0..self.names.len() {
            if let Some(name) = self.names.get(number) {
                self.by_key.push((key_of(name.name), number))?;
            }
        }
        self.by_key.sort_unstable();
        Ok(())
    }
}

// Puts a name on its line.
fn put_name<'a>(
    lines: &mut Vec<Line<'a>>,
    alloc: Global,
    name: &BodyName<'a>,
    is_method: bool,
) -> Result<(), AllocError> {
    let Some(line) = lines.get_mut(name.line.saturating_sub(1)) else {
        return Ok(());
    };
    line.names.push(LineName {
        name: name.link.name,
        role: name.role.resolve(is_method),
        paths: copy_paths(alloc, &name.link.paths)?,
        is_certain: name.link.is_certain,
        is_local: name.is_local,
    })?;
    Ok(())
}

/// The lines of a body, in which these names stand.
pub(crate) fn lines_of<'a>(
    survey: &Survey,
    callables: &Callables,
    terms: &'a [Term],
    names: &[BodyName<'a>],
) -> Result<Vec<Line<'a>>, AllocError> {
    let alloc = survey.memory();
    let mut lines = Vec::new(alloc);
    for statement in &statements_of(alloc, terms)? {
        let number = lines.len().saturating_add(1);
        lines.push(Line {
            number,
            statement: *statement,
            names: Vec::new(alloc),
            by_key: Vec::new(alloc),
        })?;
    }
    for name in names {
        let is_method = callables.names_method(survey, name)?;
        put_name(&mut lines, alloc, name, is_method)?;
    }
    for line in lines.iter_mut() {
        line.set_keys()?;
    }
    Ok(lines)
}
