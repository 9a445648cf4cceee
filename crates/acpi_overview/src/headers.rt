//! The headers of tables.

ghost use Rattle.std.specs.Prelude.{◌≤◌, ◌↔◌, length, IsSome};

use acpi_table::HEADER_BYTES;
use byteorder::{ByteOrder, LittleEndian};

/// What the header of a table says (ACPI 6.5, table 5.4). Texts end before the bytes 00 and blanks at their end.
#[derive(Debug, Clone, Copy)]
pub struct TableHeader<'a> {
    /// The signature, `DSDT` or `SSDT`, and in other tables what they are.
    pub signature: &'a [u8],
    /// The revision: below 2 integers have 32 bits.
    pub revision: u8,
    /// Who made the machine.
    pub oem_id: &'a [u8],
    /// The maker's own name for the table.
    pub oem_table_id: &'a [u8],
    /// The maker's own revision.
    pub oem_revision: u32,
    /// The vendor of the compiler that wrote the table.
    pub creator_id: &'a [u8],
    /// That compiler's revision.
    pub creator_revision: u32,
}

// A text without the bytes 00 and the blanks at its end.
fn trim_text(text: &[u8]) -> &[u8] {
    let count = text
        .iter()
        .rev()
        .take_while(|b| **b == 0 || **b == b' ')
        .count();
    &text[..text.len().saturating_sub(count)]
}

/// The header of a table, if it has as many bytes.
pub fn header_of(bytes: &[u8]) -> Option<TableHeader<'_>>
    ensures { IsSome result ↔ (36 ≤ length bytes.now) }
{
    if bytes.len() < HEADER_BYTES {
        return None;
    }
    Some(TableHeader {
        signature: trim_text(&bytes[..4]),
        revision: bytes[8],
        oem_id: trim_text(&bytes[10..16]),
        oem_table_id: trim_text(&bytes[16..24]),
        oem_revision: LittleEndian::read_u32(&bytes[24..28]),
        creator_id: trim_text(&bytes[28..32]),
        creator_revision: LittleEndian::read_u32(&bytes[32..36]),
    })
}
