//! Declarations in bodies.

use crate::pieces::{Piece, Pieces};
use acpi_tree::{Decl, Term, Width};
use std::alloc::AllocError;

// The word for a Create field of a fixed width.
fn create_word(width: Width) -> &'static str {
    match width {
        Width::Bit => "CreateBitField(",
        Width::Byte => "CreateByteField(",
        Width::Word => "CreateWordField(",
        Width::DWord => "CreateDWordField(",
        Width::QWord => "CreateQWordField(",
    }
}

// A value, and a comma.
fn put_next<'t>(pieces: &mut Pieces<'t>, value: &'t Term) -> Result<(), AllocError> {
    pieces.put(Piece::Term(value))?;
    pieces.put_text(", ")
}

/// Puts a declaration of a value, a region or a Create field, and answers whether it is one.
pub(crate) fn put_decl<'t>(pieces: &mut Pieces<'t>, decl: &'t Decl) -> Result<bool, AllocError> {
    match decl {
        Decl::Name(name, value) => {
            pieces.put_text("Name(")?;
            pieces.put(Piece::NewName(name))?;
            pieces.put_text(", ")?;
            pieces.put(Piece::Term(value))?;
        }
        Decl::Create {
            width,
            source,
            index,
            name,
        } => {
            pieces.put_text(create_word(*width))?;
            put_next(pieces, source)?;
            put_next(pieces, index)?;
            pieces.put(Piece::NewName(name))?;
        }
        Decl::CreateField {
            source,
            index,
            bits,
            name,
        } => {
            pieces.put_text("CreateField(")?;
            put_next(pieces, source)?;
            put_next(pieces, index)?;
            put_next(pieces, bits)?;
            pieces.put(Piece::NewName(name))?;
        }
        Decl::Region {
            name,
            space,
            offset,
            length,
        } => {
            pieces.put_text("OperationRegion(")?;
            pieces.put(Piece::NewName(name))?;
            pieces.put_text(", ")?;
            pieces.put(Piece::Number(u64::from(*space)))?;
            pieces.put_text(", ")?;
            put_next(pieces, offset)?;
            pieces.put(Piece::Term(length))?;
        }
        _ => return Ok(false),
    }
    pieces.put_text(")")?;
    Ok(true)
}
