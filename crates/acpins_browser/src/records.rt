//! What a page lends.

/// A text: a pointer and a length.
#[repr(C)]
#[derive(Clone, Copy)]
pub struct LentText<'a> {
    /// Its bytes, in UTF-8.
    pub bytes: &'a [u8],
}

/// A file: two pointers, each with a length.
#[repr(C)]
#[derive(Clone, Copy)]
pub struct LentFile<'a> {
    /// Its name, as an argument has it.
    pub name: &'a [u8],
    /// Its bytes.
    pub bytes: &'a [u8],
}

/// A folder: its name, and the names in it.
#[repr(C)]
#[derive(Clone, Copy)]
pub struct LentFolder<'a> {
    /// Its name, as an argument has it.
    pub name: &'a [u8],
    /// The names in it, in UTF-8 and in any order.
    pub names: &'a [LentText<'a>],
}
