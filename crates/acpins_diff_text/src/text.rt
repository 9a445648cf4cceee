//! All sections, one behind another.

use crate::bodies::put_bodies;
use crate::devices::put_devices;
use crate::fields::put_fields;
use crate::head::{put_counts, put_tables};
use crate::moved::put_moved;
use crate::seen::put_seen;
use crate::stayed::put_stayed;
use acpi_diff::Diff;
use acpi_moves::MachineMatch;
use acpi_overview::Table;
use std::alloc::{AllocError, Global};
use text_buffer::Text;

/// How a difference is printed.
#[derive(Debug, Clone, Copy)]
pub struct DiffOptions {
    /// Whether nothing is folded or cut.
    pub is_verbose: bool,
    /// Whether both versions give the same entries and bodies.
    pub is_same: bool,
}

/// What differs between two versions, whose tables are given: the tables and counts, and a section for devices, objects that
/// moved, what a system sees without running code, all else in devices that stayed, field lists and bodies of methods.
pub fn diff_text(
    alloc: Global,
    tables: (&[Table<'_>], &[Table<'_>]),
    matched: &MachineMatch<'_>,
    diff: &Diff<'_>,
    options: DiffOptions,
) -> Result<Vec<u8>, AllocError> {
    let mut text = Text::new(alloc);
    put_tables(&mut text, tables.0, tables.1);
    put_counts(&mut text, matched, diff, options.is_same);
    put_devices(&mut text, matched, options)?;
    put_moved(&mut text, matched, options)?;
    put_seen(&mut text, diff, options)?;
    put_stayed(&mut text, diff, options)?;
    put_fields(&mut text, diff, options)?;
    put_bodies(&mut text, diff, options)?;
    text.into_bytes()
}
