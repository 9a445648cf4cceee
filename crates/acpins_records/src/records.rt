//! What crosses to C.

use crate::parts::PartRecord;

/// An object of the namespace (ACPI 6.5, 5.3). Its line in the text begins with its path.
#[repr(C)]
#[derive(Clone, Copy, Debug)]
pub struct ObjectRecord {
    /// The kind, 0 to 16 (`kind_of` of specs/Records.antt).
    pub kind: u64,
    /// Where its line begins in the text, in bytes.
    pub line: u64,
    /// The bytes of its line, with the line end.
    pub line_length: u64,
    /// The bytes of its path, with which the line begins.
    pub path_length: u64,
    /// The place of the first of its targets.
    pub target: u64,
    /// How many targets it has: one for each of its links.
    pub targets: u64,
    /// What is known of it, by its kind.
    pub numbers: [u64; 6],
    /// The place of the object in which it stands; `NONE` of the root.
    pub parent: u64,
    /// The place behind the last object below it.
    pub below: u64,
    /// Of a Name: the place of its data among the parts; `NONE` of any other object.
    pub part: u64,
    /// Of a method that a table declares: that table, from 0; `NONE` of any other object.
    pub code_table: u64,
    /// .. where its TermList begins, in bytes from the table's first byte (20.2.5.2 DefMethod); 0 of any other object.
    pub code_place: u64,
    /// .. and the bytes of its TermList; 0 of any other object.
    pub code_length: u64,
}

/// The caller's arrays.
#[repr(C)]
#[derive(Drop)]
pub struct Arrays<'a> {
    /// One record for each object, in the order of the paths.
    pub objects: &'a mut [ObjectRecord],
    /// What links find: each the place of an object, or `NONE`.
    pub targets: &'a mut [u64],
    /// A line for each object.
    pub text: &'a mut [u8],
    /// The constant data of Names, each package before its elements.
    pub parts: &'a mut [PartRecord],
    /// The bytes of strings and buffers, and the text of names in packages.
    pub bytes: &'a mut [u8],
}
