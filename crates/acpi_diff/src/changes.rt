//! What differs of objects, but for the lines of bodies and the units of fields.

use acpi_kinds::ObjectKind;
use acpi_name::Path;
use acpi_overview::{Object, is_container};
use acpi_versions::{
    Description, Pair, Side, condition_text, describe, missing_descriptors, path_around,
    templates_of,
};
use std::alloc::{AllocError, Global};
use std::collections::BTreeSet;
use text_buffer::Text;

/// What differs of an object.
#[derive(Debug, Clone, Copy, PartialEq, Eq)]
pub enum ChangeKind {
    /// Only the old version has it.
    Gone,
    /// Only the new version has it.
    New,
    /// What it is, or its value.
    Value,
    /// The descriptors of its resource template: those that only one version has, unless they stand in another order.
    Resources,
    /// Its condition, but for what is a condition of the container around too.
    Condition,
    /// The code of a method.
    Body,
}

/// A difference of an object.
#[derive(Debug, Drop)]
pub struct Change {
    /// Its path in the new version.
    pub path: Path,
    /// What differs.
    pub kind: ChangeKind,
    /// What the old version has.
    pub old: Vec<u8>,
    /// What the new version has.
    pub new: Vec<u8>,
}

/// What is compared: two versions, and the paths of the containers that only the new one has.
#[derive(Clone, Copy)]
pub struct Comparison<'m, 'a> {
    /// The old version.
    pub old: Side<'m, 'a>,
    /// The new version.
    pub new: Side<'m, 'a>,
    /// The containers that only the old version has, by their paths in it.
    pub gone: &'m BTreeSet<Path>,
    /// The containers that only the new version has, by their paths.
    pub come: &'m BTreeSet<Path>,
}

/// Whether an object is a unit of a field list, which is told of its region.
pub(crate) fn is_unit(object: &Object<'_>) -> bool {
    matches!(object.kind, ObjectKind::Field { .. })
}

// Whether an object that only one version has is told by itself: no container, and no unit of a field list.
fn is_told(object: &Object<'_>) -> bool {
    !is_container(object.kind) && !is_unit(object) && object.site.is_some()
}

// What an object is, and what is said of it: `name = 5`, `method, 2 arguments`.
fn whole_text(text: &mut Text, description: &Description) {
    text.put(description.word);
    if !description.shown.is_empty() {
        text.put(if description.word == "name" {
            " = "
        } else {
            ", "
        });
        text.put_all(&description.shown);
    }
}

// An object that only one version has, with its condition.
fn single_text<'m, 'a>(
    side: Side<'m, 'a>,
    object: &'m Object<'a>,
    around: &'m Path,
) -> Result<Vec<u8>, AllocError> {
    let mut text = Text::new(side.machine.alloc);
    whole_text(&mut text, &describe(side, object, around)?);
    if object.has_own_condition {
        text.put(" if ");
        text.put_all(&condition_text(side, object, Some(around))?);
    }
    text.into_bytes()
}

fn described(alloc: Global, description: &Description) -> Result<Vec<u8>, AllocError> {
    let mut text = Text::new(alloc);
    whole_text(&mut text, description);
    text.into_bytes()
}

// The text of an object, as it is compared or as it is printed.
fn text_of(
    alloc: Global,
    description: &Description,
    is_exact: bool,
) -> Result<Vec<u8>, AllocError> {
    let bytes = if is_exact {
        &description.exact
    } else {
        &description.shown
    };
    Vec::from_slice(alloc, bytes)
}

// Another value.
fn changed(path: &Path, old: Vec<u8>, new: Vec<u8>) -> Result<Change, AllocError> {
    Ok(Change {
        path: path.copy()?,
        kind: ChangeKind::Value,
        old,
        new,
    })
}

// Other descriptors.
fn resource_change(
    alloc: Global,
    path: &Path,
    old: &[u8],
    new: &[u8],
) -> Result<Change, AllocError> {
    let (old, new) = missing_descriptors(alloc, old, new)?;
    Ok(Change {
        path: path.copy()?,
        kind: ChangeKind::Resources,
        old,
        new,
    })
}

impl<'m, 'a> Comparison<'m, 'a> {
    /// Whether an object that only one version has stands in a container that only this version has.
    pub(crate) fn is_within_single(&self, pair: &Pair<'m, 'a>) -> Result<bool, AllocError> {
        match (pair.old, pair.new) {
            (Some(object), None) => Ok(self.gone.contains(&path_around(object.path)?)),
            (None, Some(object)) => Ok(self.come.contains(&path_around(object.path)?)),
            _ => Ok(false),
        }
    }

    fn put_single(&self, changes: &mut Vec<Change>, pair: &Pair<'m, 'a>) -> Result<(), AllocError> {
        let alloc = self.new.machine.alloc;
        let around = path_around(&pair.path)?;
        match (pair.old, pair.new) {
            (Some(object), None) if is_told(object) => {
                changes.push(Change {
                    path: pair.path.copy()?,
                    kind: ChangeKind::Gone,
                    old: single_text(self.old, object, &around)?,
                    new: Vec::new(alloc),
                })?;
            }
            (None, Some(object)) if is_told(object) => {
                changes.push(Change {
                    path: pair.path.copy()?,
                    kind: ChangeKind::New,
                    old: Vec::new(alloc),
                    new: single_text(self.new, object, &around)?,
                })?;
            }
            _ => {}
        }
        Ok(())
    }

    // Puts that the condition differs, where it isn't that of the container around.
    fn put_condition(
        &self,
        changes: &mut Vec<Change>,
        path: &Path,
        old: &Object<'a>,
        new: &Object<'a>,
    ) -> Result<(), AllocError> {
        if !old.has_own_condition && !new.has_own_condition {
            return Ok(());
        }
        if condition_text(self.old, old, None)? == condition_text(self.new, new, None)? {
            return Ok(());
        }
        let around = path_around(path)?;
        changes.push(Change {
            path: path.copy()?,
            kind: ChangeKind::Condition,
            old: condition_text(self.old, old, Some(&around))?,
            new: condition_text(self.new, new, Some(&around))?,
        })?;
        Ok(())
    }

    // Puts that an object is another, or has another value.
    fn put_value(
        &self,
        changes: &mut Vec<Change>,
        path: &Path,
        old: &Object<'a>,
        new: &Object<'a>,
    ) -> Result<(), AllocError> {
        let alloc = self.new.machine.alloc;
        let around = path_around(path)?;
        let one = describe(self.old, old, &around)?;
        let other = describe(self.new, new, &around)?;
        if one.word == other.word && one.exact == other.exact {
            return Ok(());
        }
        let change = if one.word != other.word {
            changed(path, described(alloc, &one)?, described(alloc, &other)?)?
        } else if let Some((from, to)) = templates_of(alloc, old, new)? {
            resource_change(alloc, path, from, to)?
        } else {
            let is_exact = one.shown == other.shown;
            changed(
                path,
                text_of(alloc, &one, is_exact)?,
                text_of(alloc, &other, is_exact)?,
            )?
        };
        changes.push(change)?;
        Ok(())
    }

    /// Puts what differs of what stands at a path, but for the lines of a body and the units of a field list.
    pub(crate) fn put_changes(
        &self,
        changes: &mut Vec<Change>,
        pair: &Pair<'m, 'a>,
    ) -> Result<(), AllocError> {
        let (Some(old), Some(new)) = (pair.old, pair.new) else {
            return self.put_single(changes, pair);
        };
        self.put_condition(changes, &pair.path, old, new)?;
        if is_unit(old) && is_unit(new) {
            return Ok(());
        }
        self.put_value(changes, &pair.path, old, new)
    }
}
