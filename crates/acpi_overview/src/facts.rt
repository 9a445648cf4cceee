//! What a survey of tables gives, of which an overview is made.

use crate::objects::Object;
use crate::value::Value;
use acpi_name::Name;
use acpi_tree::Term;

/// How much of a table is read (ACPI 6.5, 5.2.6).
#[derive(Debug, Clone, Copy, PartialEq, Eq)]
pub enum TableState {
    /// All of it, and its bytes sum to 0.
    Good,
    /// All of it, but its bytes don't sum to 0.
    BadSum,
    /// What is there of it: its end is missing.
    Cut,
    /// Nothing, since it is neither a DSDT nor an SSDT.
    Other,
    /// Nothing, since it has no possible length.
    Broken,
}

/// A table.
#[derive(Debug, Clone, Copy)]
pub struct Table<'a> {
    /// Its bytes, and those behind it.
    pub bytes: &'a [u8],
    /// How much of it is read.
    pub state: TableState,
}

/// A bound of a region: its term, and the constant that the term names.
#[derive(Debug, Clone, Copy)]
pub struct BoundTerm<'a> {
    /// The term.
    pub term: &'a Term,
    /// Where the term is a name whose only object is a constant that no code stores to, the constant.
    pub constant: Option<u64>,
}

/// An operation region, and what the names in its bounds find (ACPI 6.5, 19.6.100).
#[derive(Debug, Clone, Copy)]
pub struct RegionTerms<'a> {
    /// The object that the region is.
    pub object: Object<'a>,
    /// Its place among the objects.
    pub place: usize,
    /// RegionSpace: 0 SystemMemory, 1 SystemIO and so on (ACPI 6.5, 20.2.5.2 DefOpRegion).
    pub space: u8,
    /// RegionOffset: its first byte in the space.
    pub offset: BoundTerm<'a>,
    /// RegionLen: how many bytes it has.
    pub length: BoundTerm<'a>,
    /// The only object that the first name in its offset finds, where the offset is read at run time.
    pub source: Option<Object<'a>>,
    /// How many field units may be in it.
    pub units: usize,
}

/// Bytes of a buffer that code writes before a method returns it: from the first to that behind the last.
#[derive(Debug, Clone, Copy, PartialEq, Eq)]
pub struct WrittenBytes {
    /// The first byte.
    pub from: usize,
    /// The byte behind the last.
    pub to: usize,
}

/// The resource template that a method returns, some bytes of which its code writes before.
#[derive(Debug, Drop)]
pub struct CodeTemplate<'a> {
    /// The place of the method among the objects.
    pub place: usize,
    /// The name of the buffer.
    pub name: &'a Name,
    /// The bytes with which the buffer is declared.
    pub bytes: &'a [u8],
    /// Which of them code writes.
    pub written: Vec<WrittenBytes>,
}

/// What a survey of tables gives.
#[derive(Drop)]
pub struct Facts<'a> {
    /// The tables, in the order of their numbers.
    pub tables: Vec<Table<'a>>,
    /// The objects in the order of their paths, those of one path in the order of their places.
    pub objects: Vec<Object<'a>>,
    /// By the place of an object, what is known of its value.
    pub values: Vec<Value<'a>>,
    /// The templates that methods return and write before, by the places of the methods.
    pub templates: Vec<CodeTemplate<'a>>,
    /// The operation regions in the same order; the place of one of them is its number.
    pub regions: Vec<RegionTerms<'a>>,
    /// How many methods have code that can't be read.
    pub opaque: usize,
}
