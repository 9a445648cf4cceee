//! Tables and their headers (ACPI 6.5, 5.2.6).

ghost use Rattle.std.specs.Prelude.{◌≡◌, ℕ, ◌+◌, ◌≤◌, ◌↔◌, ◌++◌, List, length, take, drop, IfOk, IsErrOf, IsOkAnd};
ghost use Rattle.byteorder.specs.Endian.{little_number};
ghost use Rattle.acpi_table.specs.Tables.{IsTable, IsRefusedAs, table_at, header_of, length_field};
ghost use Rattle.acpi_table.specs.Gives.{Gives};
ghost use Rattle.acpi_table.specs.Texts.{table_fault_text};

use crate::sums::byte_sum;
use byteorder::{ByteOrder, LittleEndian};
use std::marker::Model;
use thiserror::Error;

/// A header's bytes, before the table's code.
pub const HEADER_BYTES: usize = 36;

/// The most bytes that a table may have.
pub const TABLE_LIMIT: usize = 16_777_216;

/// Why no table could be cut from the front of the bytes. The first that holds is told.
#[derive(Debug, Clone, Copy, PartialEq, Eq, Error)]
pub enum TableFault {
    /// There are fewer than 36 bytes, a header's.
    #[error("T1 Short")]
    Short,
    /// Length is below 36.
    #[error("T2 BadLength")]
    BadLength,
    /// Length is above 16,777,216.
    #[error("T3 TooLong")]
    TooLong,
    /// There are fewer bytes than Length says.
    #[error("T4 Cut")]
    Cut,
    /// The table's bytes don't sum to 0 modulo 256.
    #[error("T5 BadSum")]
    BadSum,
}

impl TableFault {
    /// The number and the name of the fault, as the programs print them.
    pub fn text(self) -> &'static str
        ensures { result.now ≡ table_fault_text self }
    {
        match self {
            TableFault::Short => "T1 Short",
            TableFault::BadLength => "T2 BadLength",
            TableFault::TooLong => "T3 TooLong",
            TableFault::Cut => "T4 Cut",
            TableFault::BadSum => "T5 BadSum",
        }
    }
}

/// A table's header, field for field as it stands (ACPI 6.5, table 5.4).
#[derive(Debug, Clone, Copy, PartialEq, Eq)]
pub struct Header {
    /// `DSDT` or `SSDT`, and in other tables what they are.
    pub signature: [u8; 4],
    /// The whole table's bytes, the header's among them.
    pub length: u32,
    /// The revision of the table's form.
    pub revision: u8,
    /// What brings the sum of all bytes to 0 modulo 256.
    pub checksum: u8,
    /// Who made the machine.
    pub oem_id: [u8; 6],
    /// The maker's own name for the table.
    pub oem_table_id: [u8; 8],
    /// The maker's own revision.
    pub oem_revision: u32,
    /// The vendor of the compiler that wrote the table.
    pub creator_id: [u8; 4],
    /// That compiler's revision.
    pub creator_revision: u32,
}

/// A whole table, lent from the bytes that it was cut from. Contracts see it as its bytes.
#[derive(Debug, Drop)]
pub struct Table<'a> {
    whole: &'a [u8],
}

impl<'a> Model for Table<'a> {
    ghost use Rattle.std.specs.Prelude.{ℕ, List};
    ghost use Rattle.acpi_table.specs.Tables.{IsTable};

    ghost Value = { List ℕ };

    ghost view = { λ t. t.whole.now };

    ghost invariant = { λ t. IsTable t.whole.now };
}

impl<'a> Table<'a> {
    /// The table's header.
    pub fn header(&self) -> Header
        ensures { result ≡ header_of self.now }
    {
        header_at(self.whole)
    }

    /// The bytes after the header, a list of terms (ACPI 6.5, 20.2.5).
    pub fn code(&self) -> &'a [u8]
        ensures { result.now ≡ drop 36 self.now }
    {
        &self.whole[HEADER_BYTES..]
    }

    /// All bytes of the table, which have a table's length and sum.
    pub fn bytes(&self) -> &'a [u8]
        ensures same { result.now ≡ self.now }
        ensures table { IsTable self.now }
    {
        self.whole
    }
}

// The fields of the 36 bytes at the front.
fn header_at(bytes: &[u8]) -> Header
    requires { 36 ≤ length bytes.now }
    ensures { result ≡ header_of bytes.now }
{
    Header {
        signature: text_at(bytes, 0),
        length: LittleEndian::read_u32(&bytes[4..]),
        revision: bytes[8],
        checksum: bytes[9],
        oem_id: text_at(bytes, 10),
        oem_table_id: text_at(bytes, 16),
        oem_revision: LittleEndian::read_u32(&bytes[24..]),
        creator_id: text_at(bytes, 28),
        creator_revision: LittleEndian::read_u32(&bytes[32..]),
    }
}

// The field of N bytes at a place.
fn text_at<const N: usize>(bytes: &[u8], place: usize) -> [u8; N]
    requires { place + N ≤ length bytes.now }
    ensures { result ≡ take N (drop place bytes.now) }
{
    let mut text = [0; N];
    text.copy_from_slice(&bytes[place..place + N]);
    text
}

// The field Length, as a number of bytes.
pub(crate) fn length_at(bytes: &[u8]) -> usize
    requires { 8 ≤ length bytes.now }
    ensures { result ≡ length_field bytes.now }
{
    LittleEndian::read_u32(&bytes[4..]) as usize
}

/// The table at the front of the bytes, and the bytes after it; or the first fault, in the order of
/// `TableFault`.
#[tactic(auto, unfolding(crate::specs::Tables::table_at))]
pub fn split_table(bytes: &[u8]) -> Result<(Table<'_>, &[u8]), TableFault>
    // What is cut off is a table, and nothing is lost.
    ensures found { IfOk result (λ x. IsTable x.0 × (bytes.now ≡ x.0 ++ x.1.now)) }
    // A table at the front is cut off.
    ensures only { (table rest : List ℕ) → IsTable table → bytes.now ≡ table ++ rest
        → IsOkAnd result (λ x. (x.0 ≡ table) × (x.1.now ≡ rest)) }

    ensures refused { (fault : TableFault) → IsErrOf result fault ↔ IsRefusedAs fault bytes.now }
    ensures exact { Gives (λ x. (x.0, x.1.now)) result (table_at bytes.now) }
{
    if bytes.len() < HEADER_BYTES {
        return Err(TableFault::Short);
    }
    let length = length_at(bytes);
    if length < HEADER_BYTES {
        return Err(TableFault::BadLength);
    }
    if length > TABLE_LIMIT {
        return Err(TableFault::TooLong);
    }
    if bytes.len() < length {
        return Err(TableFault::Cut);
    }
    let (whole, rest) = bytes.split_at(length);
    if byte_sum(whole) != 0 {
        return Err(TableFault::BadSum);
    }
    Ok((Table { whole }, rest))
}
