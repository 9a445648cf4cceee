//! The objects that tables may declare, by path.

use acpi_kinds::ObjectKind;
use acpi_name::Path;

/// A place in a table.
#[derive(Debug, Clone, Copy, PartialEq, Eq)]
pub struct Site {
    /// The number of the table.
    pub table: usize,
    /// How many bytes of the table stand before it.
    pub offset: usize,
}

/// An object that a table may declare, or that is there before all tables (ACPI 6.5, 5.3).
#[derive(Debug, Clone, Copy)]
pub struct Object<'a> {
    /// The number of its entry.
    pub number: usize,
    /// Where it stands in the namespace.
    pub path: &'a Path,
    /// What it is.
    pub kind: ObjectKind<'a>,
    /// Where its term begins; nowhere for what is there before all tables.
    pub site: Option<Site>,
    /// The number of bytes of a method's code.
    pub code: usize,
    /// Whether it has a condition.
    pub is_conditional: bool,
    /// Whether it has a condition that the container in which it stands doesn't have.
    pub has_own_condition: bool,
    /// Of a field unit the number of its region, where it is sure to be in that one.
    pub region: Option<usize>,
}

/// The objects at a path, of objects in the order of their paths.
pub fn objects_at<'a, 'b>(objects: &'b [Object<'a>], path: &Path) -> &'b [Object<'a>] {
    let from = objects.partition_point(|o| *o.path < *path);
    let to = objects.partition_point(|o| *o.path <= *path);
    if from <= to { &objects[from..to] } else { &[] }
}
