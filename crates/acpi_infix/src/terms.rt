//! Terms in infix form, each in one line.

use crate::constants::{put_constant, put_int};
use crate::declarations::put_decl;
use crate::operators::put_op;
use crate::pieces::{Piece, Pieces};
use crate::signs::has_sign;
use crate::style::TermStyle;
use acpi_text::{put_decimal, put_name, put_spaced, put_term};
use acpi_tree::Term;
use std::alloc::{AllocError, Global};
use text_buffer::Text;

// A word, and a term before a parenthesis.
pub(crate) fn put_head<'t>(
    pieces: &mut Pieces<'t>,
    word: &'t str,
    test: &'t Term,
) -> Result<(), AllocError> {
    pieces.put_text(word)?;
    pieces.put(Piece::Term(test))?;
    pieces.put_text(")")
}

// Terms with commas between them.
fn put_list<'t>(
    pieces: &mut Pieces<'t>,
    before: &'t str,
    terms: &'t [Term],
    behind: &'t str,
) -> Result<(), AllocError> {
    pieces.put_text(before)?;
    let mut is_first = true;
    for term in terms {
        if !is_first {
            pieces.put_text(", ")?;
        }
        is_first = false;
        pieces.put(Piece::Term(term))?;
    }
    pieces.put_text(behind)
}

fn put_package<'t>(
    pieces: &mut Pieces<'t>,
    count: u8,
    elements: &'t [Term],
) -> Result<(), AllocError> {
    put_list(pieces, "{", elements, "}")?;
    if usize::from(count) != elements.len() {
        pieces.put_text(" of ")?;
        pieces.put(Piece::Number(u64::from(count)))?;
    }
    Ok(())
}

// The pieces of a term; of an If or a While its head alone.
fn put_pieces<'t>(pieces: &mut Pieces<'t>, term: &'t Term) -> Result<(), AllocError> {
    match term {
        Term::Int(int) => pieces.put(Piece::Int(*int)),
        Term::Buffer(size, bytes) => pieces.put(Piece::Buffer(size, bytes)),
        Term::Package(count, elements) => put_package(pieces, *count, elements),
        Term::VarPackage(count, elements) => {
            put_list(pieces, "{", elements, "}")?;
            pieces.put_text(" of ")?;
            pieces.put(Piece::Term(count))
        }
        Term::NoTarget => Ok(()),
        Term::Ref(name) => pieces.put(Piece::Name(name)),
        Term::Call(name, values) => {
            pieces.put(Piece::Name(name))?;
            if values.is_empty() {
                return Ok(());
            }
            put_list(pieces, "(", values, ")")
        }
        Term::Op(op, operands) => put_op(pieces, *op, operands),
        Term::If(test, _, _) => put_head(pieces, "If (", test),
        Term::While(test, _) => put_head(pieces, "While (", test),
        Term::Declare(decl) => {
            if put_decl(pieces, decl)? {
                return Ok(());
            }
            pieces.put(Piece::Whole(term))
        }
        Term::Str(_) | Term::Local(_) | Term::Arg(_) | Term::Debug => {
            pieces.put(Piece::Whole(term))
        }
    }
}

// The pieces of a buffer that has no form of its own: its size and its bytes.
fn put_buffer<'t>(
    pieces: &mut Pieces<'t>,
    size: &'t Term,
    bytes: &'t [u8],
) -> Result<(), AllocError> {
    pieces.put_text("Buffer(")?;
    pieces.put(Piece::Term(size))?;
    pieces.put_text("){")?;
    pieces.put(Piece::Bytes(bytes))?;
    pieces.put_text("}")
}

// The pieces of a value, in parentheses where it has a sign.
fn put_value<'t>(pieces: &mut Pieces<'t>, term: &'t Term) -> Result<(), AllocError> {
    if !has_sign(term) {
        return put_pieces(pieces, term);
    }
    pieces.put_text("(")?;
    put_pieces(pieces, term)?;
    pieces.put_text(")")
}

// Puts a piece, but for the pieces that it is made of: these are the result.
fn put_piece<'t, S: TermStyle>(
    text: &mut Text,
    style: &S,
    piece: Piece<'t>,
    alloc: Global,
) -> Result<Pieces<'t>, AllocError> {
    let mut pieces = Pieces::new(alloc);
    match piece {
        Piece::Text(characters) => text.put(characters),
        Piece::Number(number) => put_constant(text, number),
        Piece::Decimal(number) => put_decimal(text, number),
        Piece::Int(int) => put_int(text, int),
        Piece::Name(name) => style.put_name(text, name)?,
        Piece::NewName(name) => put_name(text, name.view()),
        Piece::Bytes(bytes) => put_spaced(text, bytes),
        Piece::Buffer(size, bytes) => {
            if !style.put_bytes(text, bytes)? {
                put_buffer(&mut pieces, size, bytes)?;
            }
        }
        Piece::Whole(term) => put_term(text, term),
        Piece::Term(term) => put_pieces(&mut pieces, term)?,
        Piece::Value(term) => put_value(&mut pieces, term)?,
    }
    Ok(pieces)
}

/// Puts a term in one line; of an If or a While its head alone.
pub fn put_infix<S: TermStyle>(text: &mut Text, style: &S, term: &Term) -> Result<(), AllocError> {
    let alloc = text.alloc();
    let mut open = Vec::new(alloc);
    open.push(Piece::Term(term))?;
    for _ in 0..u64::MAX {
        let Some(piece) = open.pop() else {
            break;
        };
        let pieces = put_piece(text, style, piece, alloc)?;
        for part in pieces.list.iter().rev() {
            open.push(*part)?;
        }
    }
    Ok(())
}
