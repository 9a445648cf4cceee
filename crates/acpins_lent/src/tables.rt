//! Tables that a caller lends.

ghost use Rattle.std.specs.Prelude.{◌≡◌, IfOk};
ghost use Rattle.acpins_lent.specs.Lent.{bytes_of};

use bytes::Bytes;
use std::alloc::{AllocError, Global};

/// A whole table, lent by the caller: a pointer and a length (ACPI 6.5, 5.2.6).
#[repr(C)]
#[derive(Clone, Copy)]
pub struct LentTable<'a> {
    /// Its bytes, with the header.
    pub bytes: &'a [u8],
}

/// No place: of a link that finds nothing, of the root's parent, of data and code that an object doesn't have.
pub const NONE: u64 = 18_446_744_073_709_551_615;

/// Copies of the tables.
pub fn copy_tables(alloc: Global, tables: &[LentTable<'_>]) -> Result<Vec<Bytes>, AllocError>
    ensures { IfOk result (λ v. v.items ≡ bytes_of tables.now) }
{
    let mut copies = Vec::new(alloc);
    for table in tables {
        copies.push(Bytes::copy_from_slice(alloc, table.bytes)?)?;
    }
    Ok(copies)
}
