//! The tables of both versions, and how much differs.

use acpi_diff::{Change, ChangeKind, Diff};
use acpi_moves::MachineMatch;
use acpi_overview::{Table, TableHeader, TableState, header_of};
use acpi_overview_text::{put_escaped, put_hex};
use acpi_text::put_decimal;
use text_buffer::Text;

// ---- tables

fn state_word(state: TableState) -> &'static str {
    match state {
        TableState::Good => "good",
        TableState::BadSum => "bad",
        TableState::Cut => "cut",
        TableState::Other | TableState::Broken => "not read",
    }
}

fn put_sum(text: &mut Text, old: TableState, new: TableState) {
    text.put("sum ");
    text.put(state_word(old));
    if old != new {
        text.put(" -> ");
        text.put(state_word(new));
    }
}

// A number of both versions, where they differ.
fn put_numbers(text: &mut Text, word: &str, old: u64, new: u64) {
    if old != new {
        text.put(word);
        put_decimal(text, old);
        text.put(" -> ");
        put_decimal(text, new);
        text.put(", ");
    }
}

// .. in hexadecimal
fn put_revisions(text: &mut Text, word: &str, old: u32, new: u32) {
    if old != new {
        text.put(word);
        put_hex(text, u64::from(old), 1);
        text.put(" -> ");
        put_hex(text, u64::from(new), 1);
        text.put(", ");
    }
}

// An id of both versions, where they differ.
fn put_ids(text: &mut Text, word: &str, old: &[u8], new: &[u8]) {
    if old != new {
        text.put(word);
        put_escaped(text, old);
        text.put(" -> ");
        put_escaped(text, new);
        text.put(", ");
    }
}

fn put_headers(text: &mut Text, old: &TableHeader<'_>, new: &TableHeader<'_>) {
    put_ids(text, "signature ", old.signature, new.signature);
    put_numbers(
        text,
        "revision ",
        u64::from(old.revision),
        u64::from(new.revision),
    );
    put_ids(text, "OEM id ", old.oem_id, new.oem_id);
    put_ids(text, "OEM table id ", old.oem_table_id, new.oem_table_id);
    put_revisions(text, "OEM revision ", old.oem_revision, new.oem_revision);
    put_ids(text, "compiler ", old.creator_id, new.creator_id);
    put_revisions(
        text,
        "compiler revision ",
        old.creator_revision,
        new.creator_revision,
    )
}

// What differs of a table.
fn put_both(text: &mut Text, old: &Table<'_>, new: &Table<'_>) {
    if old.bytes == new.bytes {
        return text.put("the same bytes");
    }
    let (from, to) = (old.bytes.len() as u64, new.bytes.len() as u64);
    put_numbers(text, "length ", from, to);
    if let (Some(one), Some(other)) = (header_of(old.bytes), header_of(new.bytes)) {
        put_headers(text, &one, &other);
    }
    put_sum(text, old.state, new.state)
}

fn put_signature(text: &mut Text, table: &Table<'_>) {
    if let Some(header) = header_of(table.bytes) {
        text.put(" ");
        put_escaped(text, header.signature);
    }
    text.put(": ")
}

fn put_table(text: &mut Text, number: usize, old: Option<&Table<'_>>, new: Option<&Table<'_>>) {
    text.put("table ");
    put_decimal(text, number as u64);
    if let Some(table) = new.or(old) {
        put_signature(text, table);
    }
    match (old, new) {
        (Some(old), Some(new)) => put_both(text, old, new),
        (None, _) => text.put("new"),
        (_, None) => text.put("gone"),
    }
    text.put("\n")
}

/// Puts a line for each table: what differs of its header and its length, and whether its bytes sum to 0.
pub(crate) fn put_tables(text: &mut Text, old: &[Table<'_>], new: &[Table<'_>]) {
    for number in 0..old.len().max(new.len()) {
        put_table(text, number, old.get(number), new.get(number));
    }
}

// ---- counts

fn put_count(text: &mut Text, separator: &mut &'static str, count: usize, one: &str, many: &str) {
    if count == 0 {
        return;
    }
    text.put(*separator);
    *separator = ", ";
    put_decimal(text, count as u64);
    text.put(" ");
    text.put(if count == 1 { one } else { many })
}

fn count_of(changes: &[Change], kind: ChangeKind) -> usize {
    changes.iter().filter(|c| c.kind == kind).count()
}

fn put_changes(text: &mut Text, separator: &mut &'static str, diff: &Diff<'_>) {
    let changes = diff.changes.as_slice();
    let values = count_of(changes, ChangeKind::Value).saturating_add(count_of(
        changes,
        ChangeKind::Resources,
    ));
    let bodies = count_of(changes, ChangeKind::Body).saturating_add(diff.bodies.len());
    let conditions = count_of(changes, ChangeKind::Condition);
    put_count(
        text,
        separator,
        count_of(changes, ChangeKind::Gone),
        "object gone",
        "objects gone",
    );
    put_count(
        text,
        separator,
        count_of(changes, ChangeKind::New),
        "object new",
        "objects new",
    );
    put_count(text, separator, values, "value changed", "values changed");
    put_count(
        text,
        separator,
        conditions,
        "condition changed",
        "conditions changed",
    );
    put_count(
        text,
        separator,
        diff.regions.len(),
        "field layout changed",
        "field layouts changed",
    );
    put_count(
        text,
        separator,
        bodies,
        "method body changed",
        "method bodies changed",
    )
}

/// Puts a line with counts of what differs.
pub(crate) fn put_counts(
    text: &mut Text,
    matched: &MachineMatch<'_>,
    diff: &Diff<'_>,
    is_same: bool,
) {
    let mut separator = "";
    let devices = &matched.devices;
    put_count(
        text,
        &mut separator,
        devices.gone.len(),
        "device gone",
        "devices gone",
    );
    put_count(
        text,
        &mut separator,
        devices.new.len(),
        "device new",
        "devices new",
    );
    put_count(
        text,
        &mut separator,
        devices.moved.len(),
        "device moved",
        "devices moved",
    );
    put_count(
        text,
        &mut separator,
        matched.objects.len(),
        "object moved",
        "objects moved",
    );
    put_changes(text, &mut separator, diff);
    if separator.is_empty() {
        text.put(if is_same {
            "nothing that is declared changed"
        } else {
            "nothing changed but spelling, Locals or Serialized"
        });
    }
    text.put("\n")
}
