//! What of a table's bytes is read.

ghost use Rattle.std.specs.Prelude.{◌≡◌, ◌⊎◌, ◌↔◌, ◌-◌, ◌≤◌, ℕ, List, IfOk, IsTrue, length, take, codes};
ghost use Rattle.acpi_table.specs.Tables.{length_field};
ghost use Rattle.acpi_pieces.specs.Pieces.{HasLength};
ghost use Rattle.acpi_pieces.specs.Tables.{code_read};
ghost use Rattle.acpi_pieces.specs.Tables.{IsDsdt, IsSsdt, IsJudged, IsOutOfPlace, HasBadSum, code_in};

use crate::file::length_field;
use acpi_table::{HEADER_BYTES, TableFault, split_table};
use bytes::Bytes;
use std::alloc::AllocError;

/// Why none of a table is read.
#[derive(Clone, Copy, Debug, PartialEq, Eq)]
pub enum TableReason {
    /// It has no possible length.
    Table(TableFault),
    /// Table 0 is neither a DSDT nor an SSDT.
    NotDsdt,
    /// A later table is neither.
    NotSsdt,
}

/// What is read of a table (ACPI 6.5, 5.2.6).
#[derive(Debug, Drop)]
pub enum TableContent {
    /// Nothing of it is read, and why.
    Unread(TableReason),
    /// Its code is read.
    Read {
        /// What stands behind the header, to the table's end.
        code: Bytes,
        /// Whether fewer bytes are there than the table has.
        is_cut: bool,
        /// Whether its bytes don't sum to 0.
        has_bad_sum: bool,
        /// Whether it is an SSDT where the DSDT should be, or a DSDT where an SSDT should be.
        is_out_of_place: bool,
        /// How many bytes stand behind the table.
        trailing: usize,
    },
}

fn signature(bytes: &[u8]) -> [u8; 4]
    requires { 4 ≤ length bytes.now }
    ensures { result ≡ take 4 bytes.now }
{
    let mut signature = [0; 4];
    signature.copy_from_slice(&bytes[..4]);
    signature
}

fn is_dsdt(signature: [u8; 4]) -> bool
    ensures { IsTrue result ↔ (signature ≡ codes "DSDT") }
{
    signature == *b"DSDT"
}

fn is_ssdt(signature: [u8; 4]) -> bool
    ensures { IsTrue result ↔ (signature ≡ codes "SSDT") }
{
    signature == *b"SSDT"
}

// Whether the signature is a definition block's.
fn is_block(signature: [u8; 4]) -> bool
    ensures { IsTrue result ↔ ((signature ≡ codes "DSDT") ⊎ (signature ≡ codes "SSDT")) }
{
    is_dsdt(signature) || is_ssdt(signature)
}

// Why none of a table of that number is read, if it is no definition block.
fn unread(number: usize) -> TableContent
    ensures { (bytes : List ℕ) → HasLength bytes → ¬ IsDsdt bytes → ¬ IsSsdt bytes
        → IsJudged number bytes result }
{
    if number == 0 {
        TableContent::Unread(TableReason::NotDsdt)
    } else {
        TableContent::Unread(TableReason::NotSsdt)
    }
}

// Whether a table has another signature than one of its number should.
fn is_out_of_place(number: usize, signature: [u8; 4]) -> bool
    ensures { (bytes : List ℕ) → signature ≡ take 4 bytes
        → IsTrue result ↔ IsOutOfPlace number bytes }
{
    if number == 0 {
        !is_dsdt(signature)
    } else {
        !is_ssdt(signature)
    }
}

// What is read of a table of a possible length.
fn read(number: usize, bytes: &Bytes, has_bad_sum: bool) -> Result<TableContent, AllocError>
    requires length { HasLength bytes.now }
    requires sum { IsTrue has_bad_sum ↔ HasBadSum bytes.now }
    ensures { IfOk result (λ j. IsJudged number bytes.now j) }
{
    let signature = signature(bytes);
    if !is_block(signature) {
        return Ok(unread(number));
    }
    let length = length_field(bytes);
    let end = length.min(bytes.len());
    Ok(TableContent::Read {
        code: bytes.slice(HEADER_BYTES..end)?,
        is_cut: bytes.len() < length,
        has_bad_sum,
        is_out_of_place: is_out_of_place(number, signature),
        trailing: bytes.len() - end,
    })
}

/// What is read of the bytes of the table of that number, the first being 0.
pub fn judge(number: usize, bytes: &Bytes) -> Result<TableContent, AllocError>
    ensures { IfOk result (λ j. IsJudged number bytes.now j) }
{
    match split_table(bytes) {
        Ok(_) => read(number, bytes, false),
        Err(fault) => match fault {
            TableFault::Cut => read(number, bytes, false),
            TableFault::BadSum => read(number, bytes, true),
            _ => Ok(TableContent::Unread(TableReason::Table(fault))),
        },
    }
}

impl TableContent {
    /// The code, of which nothing is read where the table isn't.
    pub fn code(&self) -> &[u8]
        ensures { result.now ≡ code_read self.now }
    {
        match self {
            TableContent::Read { code, .. } => code.as_slice(),
            TableContent::Unread(_) => &[],
        }
    }
}
