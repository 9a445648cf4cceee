//! The tables in a file.

ghost use Rattle.std.specs.Prelude.{◌≡◌, ◌↔◌, ◌<◌, ◌≤◌, IfOk, IsTrue, length, take};
ghost use Rattle.acpi_table.specs.Tables.{length_field};
ghost use Rattle.acpi_pieces.specs.Pieces.{HasLength, IsFront, ArePieces, PiecesMakeTheFile, PiecesAreOne};

use acpi_table::{HEADER_BYTES, TABLE_LIMIT};
use byteorder::{ByteOrder, LittleEndian};
use bytes::Bytes;
use std::alloc::{AllocError, Global};

/// The Length field of a table's header, in bytes: how long the table is by its own account (ACPI 6.5, 5.2.6).
pub fn length_field(bytes: &[u8]) -> usize
    requires { 8 ≤ length bytes.now }
    ensures { result ≡ length_field bytes.now }
{
    LittleEndian::read_u32(&bytes[4..]) as usize
}

// Whether a table of a possible length begins there.
fn has_length(bytes: &[u8]) -> bool
    ensures { IsTrue result ↔ HasLength bytes.now }
{
    if bytes.len() < HEADER_BYTES {
        return false;
    }
    let length = length_field(bytes);
    HEADER_BYTES <= length && length <= TABLE_LIMIT
}

// How many bytes the piece at the front has.
fn front_length(bytes: &[u8]) -> usize
    requires { 0 < length bytes.now }
    ensures some { 0 < result }
    ensures within { result ≤ length bytes.now }
    ensures front { IsFront (take result bytes.now) bytes.now }
{
    if !has_length(bytes) {
        return bytes.len();
    }
    length_field(bytes).min(bytes.len())
}

/// The tables in a file, one after another, none of them copied. A table that the file's end cuts, or what begins no
/// table of a possible length, is the last piece.
pub fn pieces(alloc: Global, file: &Bytes) -> Result<Vec<Bytes>, AllocError>
    ensures { IfOk result (λ v. ArePieces v.items file.now) }
{
    let mut pieces = Vec::new(alloc);
    let mut rest = file.clone()?;
    'each: while !rest.is_empty() {
        let length = front_length(&rest);
        pieces.push(rest.split_to(length)?)?;
    }
    Ok(pieces)
}

/// The pieces of a file, one after another, are the file, and a file is cut into pieces in one way. Each law is the
/// contract of a call that does nothing.
pub fn pieces_make_the_file()
    ensures whole { PiecesMakeTheFile }
    ensures one { PiecesAreOne }
{}
