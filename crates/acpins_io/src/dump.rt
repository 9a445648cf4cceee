//! The text that the program `acpidump` writes of tables.
//!
//! ```text
//! DSDT @ 0x000000007FBE4010
//!     0000: 44 53 44 54 9C 21 00 00 02 4C 42 4F 43 48 53 20  DSDT.!...LBOCHS
//!     0010: 42 58 50 43 20 20 20 20 01 00 00 00 42 58 50 43  BXPC    ....BXPC
//! ```

ghost use Rattle.std.specs.Prelude.{◌≡◌, ◌≤◌, ◌++◌, IfOk, IfSome, OnOk, length, map};
ghost use Rattle.acpins_io.specs.Dump.{begins_as_tables, behind_offset, blocks_of, byte_at, bytes_at, bytes_under, is_header, lines_of, row_bytes, tables_of_dump};

use crate::hexadecimal::digit_value;
use std::alloc::{AllocError, Global};

/// The bytes that a row has at most.
const ROW_BYTES: usize = 16;

/// Whether a table's block begins there: with four characters of a signature and an address, as
/// `DSDT @ 0x000000007FBE4010`. A file whose first line is one holds such a text.
pub fn is_header(text: &[u8]) -> bool
    ensures { result ≡ is_header text.now }
{
    match text {
        [_, _, _, _, rest @ ..] => rest.starts_with(b" @ 0x"),
        _ => false,
    }
}

/// Whether the bytes begin as a table does (`DSDT`, `SSDT`), or as the text that `acpidump` writes.
pub fn begins_as_tables(bytes: &[u8]) -> bool
    ensures { result ≡ begins_as_tables bytes.now }
{
    bytes.starts_with(b"DSDT") || bytes.starts_with(b"SSDT") || is_header(bytes)
}

// The byte whose two digits stand behind a blank.
fn byte_at(text: &[u8]) -> Option<u8>
    ensures byte { result ≡ byte_at text.now }
    ensures room { IfSome result (λ _. 3 ≤ length text.now) }
{
    match text {
        [b' ', high, low, ..] => Some(digit_value(*high)? * 16 + digit_value(*low)?),
        _ => None,
    }
}

// What stands behind the offset in a row.
#[tactic(auto, using(crate::proofs::Dumped::offset_here, crate::proofs::Dumped::offset_later, crate::proofs::Dumped::no_offset))]
fn behind_offset(line: &[u8]) -> &[u8]
    ensures { result.now ≡ behind_offset line.now }
{
    for i in 0..line.len() {
        if line[i] == b':' {
            return &line[i + 1..];
        }
    }
    &[]
}

// Puts the bytes of a row behind others.
fn put_row(bytes: &mut Vec<u8>, line: &[u8]) -> Result<(), AllocError>
    ensures { OnOk result (bytes.new.items ≡ bytes.old.items ++ row_bytes line.now) }
{
    let mut rest = behind_offset(line);
    for _i in 0..ROW_BYTES {
        let Some(byte) = byte_at(rest) else {
            return Ok(());
        };
        bytes.push(byte)?;
        rest = &rest[3..];
    }
    Ok(())
}

// The bytes of the rows under a block's first line.
#[tactic(auto, using(crate::proofs::Dumped::under_row, crate::proofs::Dumped::under_header, crate::proofs::Dumped::under_none))]
fn bytes_under(alloc: Global, lines: &[&[u8]]) -> Result<Vec<u8>, AllocError>
    ensures { IfOk result (λ v. v.items ≡ bytes_under (map (λ line. line.now) lines.now)) }
{
    let mut bytes = Vec::new(alloc);
    for line in lines {
        if is_header(line) {
            return Ok(bytes);
        }
        put_row(&mut bytes, line)?;
    }
    Ok(bytes)
}

// Adds the bytes of each block with that signature.
#[tactic(auto, using(crate::proofs::Dumped::block_there, crate::proofs::Dumped::none_begins, crate::proofs::Dumped::no_block))]
fn add_blocks(
    alloc: Global,
    signature: &[u8],
    lines: &[&[u8]],
    tables: &mut Vec<Vec<u8>>,
) -> Result<(), AllocError>
    ensures { OnOk result (map (λ t. t.items) tables.new.items
        ≡ map (λ t. t.items) tables.old.items
        ++ blocks_of signature.now (map (λ line. line.now) lines.now)) }
{
    for i in 0..lines.len() {
        let line = lines[i];
        if is_header(line) && line.starts_with(signature) {
            tables.push(bytes_under(alloc, &lines[i + 1..])?)?;
        }
    }
    Ok(())
}

// The lines of a text.
fn lines_of(alloc: Global, text: &[u8]) -> Result<Vec<&[u8]>, AllocError>
    ensures { IfOk result (λ v. map (λ line. line.now) v.items ≡ lines_of text.now) }
{
    text.split(|c| *c == b'\n').collect(alloc)
}

/// The bytes of the DSDTs in the text that `acpidump` writes, and behind them those of the SSDTs, in the order of the
/// text. Other tables are left out, and so is what has no place in such a text.
pub fn tables_in_dump(alloc: Global, text: &[u8]) -> Result<Vec<Vec<u8>>, AllocError>
    ensures { IfOk result (λ v. map (λ t. t.items) v.items ≡ tables_of_dump text.now) }
{
    let lines = lines_of(alloc, text)?;
    let mut tables = Vec::new(alloc);
    add_blocks(alloc, b"DSDT", &lines, &mut tables)?;
    add_blocks(alloc, b"SSDT", &lines, &mut tables)?;
    Ok(tables)
}
