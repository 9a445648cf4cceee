//! What a machine is, in a few lines: how much was read, what was found, and its tables.

use acpi_infix::put_constant;
use acpi_machine_facts::MachineFacts;
use acpi_overview::{Table, TableState, header_of};
use acpi_overview_text::{put_between, put_count, put_escaped};
use acpi_phrases::{NO_BREAK, put_number_of};
use acpi_text::put_decimal;
use std::alloc::{AllocError, Global};
use text_buffer::Text;

/// How many findings there are, by level.
#[derive(Debug, Clone, Copy, PartialEq, Eq)]
pub struct FindingCounts {
    /// Where bytes of tables are lost or refused.
    pub problems: usize,
    /// What stops a method.
    pub errors: usize,
    /// What is probably a mistake.
    pub warnings: usize,
    /// What is worth a look.
    pub remarks: usize,
    /// What is noticed, and loses nothing.
    pub notes: usize,
}

// Puts the maker of a machine and its name of the first table.
fn put_maker(text: &mut Text, tables: &[Table<'_>]) {
    let Some(header) = tables.first().and_then(|t| header_of(t.bytes)) else {
        return text.put("No table");
    };
    if header.oem_id.is_empty() && header.oem_table_id.is_empty() {
        return put_escaped(text, header.signature);
    }
    put_words(text, &[header.oem_id, header.oem_table_id])
}

// Puts the words that aren't empty, escaped, with blanks between them.
fn put_words(text: &mut Text, words: &[&[u8]]) {
    let mut separator = "";
    for word in words {
        if !word.is_empty() {
            text.put(separator);
            separator = " ";
            put_escaped(text, word);
        }
    }
}

// Puts a number of things behind others, if there are any.
fn put_some(text: &mut Text, count: usize, one: &str, more: &str) {
    if count > 0 {
        put_between(text, ", ");
        put_number_of(text, count, one, more);
    }
}

/// The title: who made the machine, how many devices it has, and what was found.
pub fn title(facts: &MachineFacts<'_, '_>, counts: FindingCounts) -> Result<Vec<u8>, AllocError> {
    let totals = &facts.overview.totals;
    let mut text = Text::new(facts.machine.alloc);
    put_maker(&mut text, &facts.overview.tables);
    text.put(": ");
    put_number_of(&mut text, totals.devices, "device", "devices");
    let mut found = Text::new(facts.machine.alloc);
    put_some(&mut found, counts.problems, "problem", "problems");
    put_some(&mut found, counts.errors, "error", "errors");
    put_some(&mut found, counts.warnings, "warning", "warnings");
    put_some(&mut found, counts.remarks, "remark", "remarks");
    put_some(&mut found, counts.notes, "note", "notes");
    text.put(", ");
    if acpi_overview_text::is_empty(&found) {
        text.put("nothing found wrong");
    }
    text.put_text(&found);
    if totals.conditional > 0 {
        text.put(", ");
        put_number_of(&mut text, totals.conditional, "object", "objects");
        text.put(" under a condition");
    }
    text.into_bytes()
}

// Puts how much was read, but for so many bytes that are lost.
fn put_read(text: &mut Text, facts: &MachineFacts<'_, '_>, lost: usize) {
    let opaque = facts.overview.totals.opaque;
    text.put("All read");
    if lost > 0 || opaque > 0 {
        text.put(" but ");
    }
    if lost > 0 {
        put_number_of(text, lost, "byte", "bytes");
    }
    if lost > 0 && opaque > 0 {
        text.put(" and ");
    }
    if opaque > 0 {
        put_number_of(text, opaque, "method", "methods");
    }
    let is_good = |t: &Table<'_>| t.state == TableState::Good;
    if facts.overview.tables.iter().all(is_good) {
        text.put(", sums good");
    }
}

// How many bytes tables have.
fn bytes_of(tables: &[Table<'_>]) -> usize {
    let mut count = 0usize;
    for table in tables {
        count = count.saturating_add(table.bytes.len());
    }
    count
}

/// How much was read, where so many bytes are lost, and what the tables hold.
pub fn extent(facts: &MachineFacts<'_, '_>, lost: usize) -> Result<Vec<u8>, AllocError> {
    let totals = &facts.overview.totals;
    let tables = &facts.overview.tables;
    let mut text = Text::new(facts.machine.alloc);
    put_read(&mut text, facts, lost);
    text.put(": ");
    put_number_of(&mut text, tables.len(), "table", "tables");
    put_some(&mut text, bytes_of(tables), "byte", "bytes");
    text.put(", ");
    put_number_of(&mut text, totals.methods, "method", "methods");
    put_some(&mut text, totals.units, "field", "fields");
    let local = facts.regions.iter().filter(|r| r.is_local).count();
    let global = facts.regions.len().saturating_sub(local);
    if global > 0 || local == 0 {
        put_some(&mut text, global, "region", "regions");
    } else {
        put_between(&mut text, ", ");
        put_number_of(&mut text, 0, "region", "regions");
    }
    if local > 0 {
        text.put(" and ");
        put_count(&mut text, local as u64);
        text.put(" in methods");
    }
    text.into_bytes()
}

// The name of a file without the folders around it.
fn file_name(file: &str) -> &[u8] {
    let bytes = file.as_bytes();
    let count = bytes.iter().rev().take_while(|b| **b != b'/').count();
    &bytes[bytes.len().saturating_sub(count)..]
}

// Puts what is in a table, where that isn't a DSDT or an SSDT that is whole and sums to 0.
fn put_state(text: &mut Text, state: TableState) {
    match state {
        TableState::Good => {}
        TableState::BadSum => {
            text.put("  sum");
            text.put_one(NO_BREAK);
            text.put("wrong")
        }
        TableState::Cut => text.put("  its end is missing"),
        TableState::Other => text.put("  not read: neither a DSDT nor an SSDT"),
        TableState::Broken => text.put("  not read: no length is possible"),
    }
}

// The text of a revision.
fn revision_text(alloc: Global, revision: u64) -> Result<Vec<u8>, AllocError> {
    let mut text = Text::new(alloc);
    put_constant(&mut text, revision);
    text.into_bytes()
}

/// A table: its file without folders, and what its header says.
pub fn table_row(
    alloc: Global,
    table: &Table<'_>,
    file: Option<&str>,
) -> Result<Vec<u8>, AllocError> {
    let mut text = Text::new(alloc);
    if let Some(file) = file {
        put_escaped(&mut text, file_name(file));
        text.put("  ");
    }
    let Some(header) = header_of(table.bytes) else {
        text.put("no header  ");
        put_number_of(&mut text, table.bytes.len(), "byte", "bytes");
        put_state(&mut text, table.state);
        return text.into_bytes();
    };
    put_escaped(&mut text, header.signature);
    text.put(" revision");
    text.put_one(NO_BREAK);
    put_decimal(&mut text, u64::from(header.revision));
    text.put("  ");
    put_count(&mut text, table.bytes.len() as u64);
    text.put_one(NO_BREAK);
    text.put("bytes");
    put_state(&mut text, table.state);
    let maker = revision_text(alloc, u64::from(header.oem_revision))?;
    text.put("  ");
    put_words(&mut text, &[header.oem_id, header.oem_table_id, &maker]);
    let compiler = revision_text(alloc, u64::from(header.creator_revision))?;
    text.put("  ");
    put_words(&mut text, &[header.creator_id, &compiler]);
    text.into_bytes()
}
