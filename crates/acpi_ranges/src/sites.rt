//! Places of the code of tables, and their offsets.

ghost use Rattle.std.specs.Prelude.{◌≡◌};
ghost use Rattle.acpi_ranges.specs.Sites.{byte_at, offset_of, site_at, site_of, table_at};

use acpi_table::HEADER_BYTES;

/// A table's number, and an offset in bytes from the table's first byte, its header included.
#[derive(Debug, Clone, Copy, PartialEq, Eq)]
pub struct Site {
    /// The number of the table, the first being 0.
    pub table: usize,
    /// Bytes from the table's first.
    pub offset: usize,
}

/// An offset from the table's first byte, of a place in its code.
pub fn offset_of(place: usize) -> usize
    ensures { result ≡ offset_of place }
{
    place.saturating_add(HEADER_BYTES)
}

/// The site of a place in the code of a table.
pub fn site_at(number: usize, place: usize) -> Site
    ensures { result ≡ site_at number place }
{
    Site {
        table: number,
        offset: offset_of(place),
    }
}

/// The number of the table in which a place is.
pub fn table_at(place: u128) -> usize
    ensures { result ≡ table_at place }
{
    (place / (1 << 64)) as usize
}

/// The number of bytes of the table's code before a place.
pub fn byte_at(place: u128) -> usize
    ensures { result ≡ byte_at place }
{
    (place % (1 << 64)) as usize
}

/// The site of what stands at a place: its table, and its offset from the table's first byte.
pub fn site_of(place: u128) -> Site
    ensures { result ≡ site_of place }
{
    Site {
        table: table_at(place),
        offset: offset_of(byte_at(place)),
    }
}
