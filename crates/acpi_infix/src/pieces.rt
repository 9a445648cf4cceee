//! What the text of a term is made of.

use acpi_name::Name;
use acpi_tree::{Int, Term};
use std::alloc::{AllocError, Global};

/// A piece of the text of a term.
#[derive(Debug, Clone, Copy)]
pub(crate) enum Piece<'t> {
    /// These characters.
    Text(&'t str),
    /// A constant number.
    Number(u64),
    /// A number in decimal digits.
    Decimal(u64),
    /// A constant, as it is spelled.
    Int(Int),
    /// A name that is used.
    Name(&'t Name),
    /// A name that is declared.
    NewName(&'t Name),
    /// Bytes.
    Bytes(&'t [u8]),
    /// A buffer of this size and these bytes.
    Buffer(&'t Term, &'t [u8]),
    /// A term that has no parts, or whose parts are printed as everywhere.
    Whole(&'t Term),
    /// A term, by its parts.
    Term(&'t Term),
    /// A value, in parentheses where it has a sign.
    Value(&'t Term),
}

/// Pieces, one behind another.
#[derive(Drop)]
pub(crate) struct Pieces<'t> {
    pub list: Vec<Piece<'t>>,
}

impl<'t> Pieces<'t> {
    pub(crate) fn new(alloc: Global) -> Pieces<'t> {
        Pieces {
            list: Vec::new(alloc),
        }
    }

    pub(crate) fn put(&mut self, piece: Piece<'t>) -> Result<(), AllocError> {
        self.list.push(piece)?;
        Ok(())
    }

    pub(crate) fn put_text(&mut self, text: &'t str) -> Result<(), AllocError> {
        self.put(Piece::Text(text))
    }
}
