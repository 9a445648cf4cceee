//! Why something is lost, refused or noticed, as people say it, with what Linux prints.

use crate::findings::put_site;
use acpi_conditions::Reason;
use acpi_findings::{Note, NoteReason, Problem, ProblemReason};
use acpi_machine_facts::MachineFacts;
use acpi_name::Path;
use acpi_outline::{LostFault, LostReason};
use acpi_overview::{Object, Site, header_of};
use acpi_overview_text::{put_count, put_escaped};
use acpi_pieces::TableReason;
use acpi_trimmed::{put_trimmed_name, put_trimmed_path};
use acpins_survey_reasons::{lost_reason_name, table_reason_name};
use byteorder::{ByteOrder, LittleEndian};
use std::alloc::AllocError;
use text_buffer::Text;

// The object that was declared at a path before a place.
fn declared_before<'a>(
    facts: &MachineFacts<'_, 'a>,
    path: &Path,
    site: Site,
) -> Option<Object<'a>> {
    for object in facts.machine.at(path) {
        if object.site.is_some() && object.site != Some(site) {
            return Some(*object);
        }
    }
    None
}

// Whether the bytes of two places of tables are the same, so many of them.
fn are_same_bytes(facts: &MachineFacts<'_, '_>, one: Site, other: Site, count: usize) -> bool {
    let bytes = |site: Site| {
        let table = facts.overview.tables.get(site.table)?;
        table
            .bytes
            .get(site.offset..site.offset.saturating_add(count))
    };
    match (bytes(one), bytes(other)) {
        (Some(one), Some(other)) => one == other,
        _ => false,
    }
}

// Puts that something stands at a path already.
fn put_taken(text: &mut Text, facts: &MachineFacts<'_, '_>, path: &Path, problem: &Problem) {
    let site = Site {
        table: problem.site.table,
        offset: problem.site.offset,
    };
    put_trimmed_path(text, path);
    text.put(" is declared before");
    let before = declared_before(facts, path, site).and_then(|o| o.site);
    if let Some(before) = before {
        text.put(", at ");
        put_site(text, before, None, before.table != site.table);
        if let Some(lost) = problem.lost {
            let count = lost.to.saturating_sub(lost.from);
            if are_same_bytes(facts, site, before, count) {
                text.put(", with the same bytes");
            }
        }
    }
    text.put("; this one is ignored (Linux: AE_ALREADY_EXISTS)")
}

fn put_paths(text: &mut Text, paths: &[Path]) {
    let mut separator = "";
    for path in paths {
        text.put(separator);
        separator = ", ";
        put_trimmed_path(text, path);
    }
}

fn put_refusal(text: &mut Text, facts: &MachineFacts<'_, '_>, reason: &Reason, problem: &Problem) {
    match reason {
        Reason::Taken(path) => put_taken(text, facts, path, problem),
        Reason::Missing(path) => {
            put_trimmed_path(text, path);
            text.put(" is not found (Linux: Could not resolve symbol, AE_NOT_FOUND)")
        }
        Reason::NoParent(path) => {
            put_trimmed_path(text, path);
            text.put(" is to be declared where nothing is (Linux: AE_NOT_FOUND)")
        }
        Reason::NotAScope(path) => {
            put_trimmed_path(text, path);
            text.put(" opens no scope (Linux: AE_AML_OPERAND_TYPE)")
        }
        Reason::EmptyName(_) => text.put("what is declared has no name (Linux: AE_AML_BAD_NAME)"),
        Reason::AboveRoot(_) => { text.put("a name goes up above the root (Linux: AE_NOT_FOUND)") }
        Reason::Unsure(paths) => {
            text.put("only a run tells whether this is at ");
            put_paths(text, paths)
        }
    }
}

// Puts that a part of a table's code can't be read.
fn put_lost(text: &mut Text, fault: &LostFault, problem: &Problem) {
    text.put(match fault.reason {
        LostReason::NoNode => "no term begins here",
        LostReason::ManyArguments => "a method has bits set that mean nothing",
        LostReason::Computed => "only a run tells where this ends",
        LostReason::Term(_) => "a term can't be read",
    });
    text.put(" (");
    text.put(lost_reason_name(fault.reason));
    if let Some(name) = &problem.name {
        text.put(" ");
        put_trimmed_name(text, name.view());
    }
    text.put(")")
}

// Puts the file of a table, or which table it is.
fn put_file(text: &mut Text, files: &[&str], table: usize) {
    match files.get(table) {
        Some(file) => {
            let bytes = file.as_bytes();
            let count = bytes.iter().rev().take_while(|b| **b != b'/').count();
            put_escaped(text, &bytes[bytes.len().saturating_sub(count)..])
        }
        None => text.put("the table"),
    }
}

// Puts why none of a table is read.
fn put_unread(
    text: &mut Text,
    facts: &MachineFacts<'_, '_>,
    files: &[&str],
    reason: TableReason,
    table: usize,
) {
    put_file(text, files, table);
    let header = facts
        .overview
        .tables
        .get(table)
        .and_then(|t| header_of(t.bytes));
    match (reason, header) {
        (TableReason::NotDsdt | TableReason::NotSsdt, Some(header)) => {
            text.put(" is a ");
            put_escaped(text, header.signature);
            text.put(": not read")
        }
        _ => {
            text.put(" is no ACPI table: not read (");
            text.put(table_reason_name(reason));
            text.put(")")
        }
    }
}

// Puts that the end of a table is missing.
fn put_cut(text: &mut Text, facts: &MachineFacts<'_, '_>, files: &[&str], table: usize) {
    put_file(text, files, table);
    text.put(" is cut");
    let Some(found) = facts.overview.tables.get(table) else {
        return;
    };
    if let Some(length) = found.bytes.get(4..8) {
        text.put(": ");
        put_count(text, found.bytes.len() as u64);
        text.put(" of ");
        put_count(text, u64::from(LittleEndian::read_u32(length)));
        text.put(" bytes are here");
    }
}

/// Puts why something is lost or refused.
pub(crate) fn put_problem_words(
    text: &mut Text,
    facts: &MachineFacts<'_, '_>,
    files: &[&str],
    problem: &Problem,
) -> Result<(), AllocError> {
    let table = problem.site.table;
    match &problem.reason {
        ProblemReason::Unread(reason) => put_unread(text, facts, files, *reason, table),
        ProblemReason::Cut => put_cut(text, facts, files, table),
        ProblemReason::Trailing => {
            put_file(text, files, table);
            text.put(" has bytes behind the table")
        }
        ProblemReason::Lost(fault) => put_lost(text, fault, problem),
        ProblemReason::Refused(reason) => put_refusal(text, facts, reason, problem),
    }
    Ok(())
}

/// Puts what is noticed.
pub(crate) fn put_note_words(text: &mut Text, note: &Note) {
    match &note.reason {
        NoteReason::BadSum => text.put("the table's bytes don't sum to 0"),
        NoteReason::NotDsdt => text.put("the first table is no DSDT"),
        NoteReason::NotSsdt => {
            text.put("a DSDT that isn't the first table: was the order meant?")
        }
        NoteReason::Unknown(name) => {
            text.put("no table given here declares ");
            put_trimmed_name(text, name.view());
            text.put(", and table code names it")
        }
        NoteReason::Stray => text.put("a term has no effect where it stands"),
        NoteReason::StrayElse => text.put("an Else belongs to no If"),
        NoteReason::Loads => match &note.scope {
            Some(path) if !path.is_empty() => {
                put_trimmed_path(text, path);
                text.put(" loads tables: more may come")
            }
            _ => text.put("table code loads tables: more may come"),
        },
    }
}
