//! Lines about tables as they are printed elsewhere.

use crate::objects::{Object, Site};
use acpi_name::Path;

/// The line of a problem or a note.
#[derive(Drop)]
pub struct FoundLine {
    /// Where it stands.
    pub site: Site,
    /// The line, with its end.
    pub text: Vec<u8>,
}

/// An object that has a condition.
#[derive(Drop)]
pub struct ConditionLine<'a> {
    /// The object.
    pub object: Object<'a>,
    /// The condition.
    pub text: Vec<u8>,
}

/// Lines about tables as they are printed elsewhere.
#[derive(Drop)]
pub struct Lines<'a> {
    /// What is lost or refused.
    pub problems: Vec<FoundLine>,
    /// How many bytes of tables are lost.
    pub lost: usize,
    /// What is noticed and loses nothing.
    pub notes: Vec<FoundLine>,
    /// What has a condition, in the order of the paths.
    pub conditions: Vec<ConditionLine<'a>>,
}

impl<'a> Lines<'a> {
    /// The conditions of the objects at a path.
    pub fn conditions_at(&self, path: &Path) -> &[ConditionLine<'a>] {
        let from = self.conditions.partition_point(|l| *l.object.path < *path);
        let to = self.conditions.partition_point(|l| *l.object.path <= *path);
        if from <= to {
            &self.conditions[from..to]
        } else {
            &[]
        }
    }
}
