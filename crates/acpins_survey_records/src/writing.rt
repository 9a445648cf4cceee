//! A survey into the arrays of a caller.

ghost use Rattle.std.specs.Prelude.{◌≡◌, ◌↔◌, ◌⊎◌, ◌≤◌, ◌<◌, [], length, true, IfOk};

use crate::building::{Records, build_records};
use crate::records::SurveyArrays;
use acpi_body_notes::findings_of;
use acpi_code::Depth;
use acpi_findings::Findings;
use acpi_survey::{Survey, survey};
use acpins_lent::{CALL, LentTable, MEMORY, NO_ROOM, OK, SurveyOutcome, copy_tables, put_front};
use std::alloc::{AllocError, Global};

// Whether the arrays have room for the records.
fn have_room(records: &Records, text: &[u8], arrays: &SurveyArrays<'_>) -> bool
    ensures entries { result ≡ true
        → length records.now.entries.entries.items ≤ length arrays.now.entries.now }
    ensures targets { result ≡ true
        → length records.now.entries.targets.items ≤ length arrays.now.targets.now }
    ensures literals { result ≡ true
        → length records.now.literals.items ≤ length arrays.now.literals.now }
    ensures findings { result ≡ true
        → length records.now.findings.items ≤ length arrays.now.findings.now }
    ensures text { result ≡ true → length text.now ≤ length arrays.now.text.now }
    ensures parts { result ≡ true
        → length records.now.entries.parts.parts.items ≤ length arrays.now.parts.now }
    ensures bytes { result ≡ true
        → length records.now.entries.parts.bytes.items ≤ length arrays.now.bytes.now }
{
    records.entries.entries.len() <= arrays.entries.len()
        && records.entries.targets.len() <= arrays.targets.len()
        && records.literals.len() <= arrays.literals.len()
        && records.findings.len() <= arrays.findings.len()
        && text.len() <= arrays.text.len()
        && records.entries.parts.parts.len() <= arrays.parts.len()
        && records.entries.parts.bytes.len() <= arrays.bytes.len()
}

// How many of each there are.
fn count(survey: &Survey, findings: &Findings, records: &Records, text: &[u8]) -> SurveyOutcome {
    SurveyOutcome {
        tables: survey.tables.len() as u64,
        entries: records.entries.entries.len() as u64,
        literals: records.literals.len() as u64,
        targets: records.entries.targets.len() as u64,
        parts: records.entries.parts.parts.len() as u64,
        problems: findings.problems().len() as u64,
        notes: findings.notes().len() as u64,
        text: text.len() as u64,
        bytes: records.entries.parts.bytes.len() as u64,
        is_faulty: if findings.problems().is_empty() { 0 } else { 1 },
    }
}

// Writes the records, where there is room for them.
fn write_records(records: &Records, text: &[u8], arrays: &mut SurveyArrays<'_>) -> u32
    ensures { (result ≡ OK) ⊎ (result ≡ NO_ROOM) }
{
    if !have_room(records, text, arrays) {
        return NO_ROOM;
    }
    put_front(arrays.entries, &records.entries.entries);
    put_front(arrays.targets, &records.entries.targets);
    put_front(arrays.literals, &records.literals);
    put_front(arrays.findings, &records.findings);
    put_front(arrays.text, text);
    put_front(arrays.parts, &records.entries.parts.parts);
    put_front(arrays.bytes, &records.entries.parts.bytes);
    OK
}

// Surveys the tables, and writes what is found where there is room for it.
fn survey_into(
    alloc: Global,
    tables: &[LentTable<'_>],
    depth: Depth,
    arrays: &mut SurveyArrays<'_>,
    outcome: &mut SurveyOutcome,
) -> Result<u32, AllocError>
    ensures { IfOk result (λ s. (s ≡ OK) ⊎ (s ≡ NO_ROOM)) }
{
    let copied = copy_tables(alloc, tables)?;
    let survey = survey(alloc, &copied, depth)?;
    let findings = findings_of(alloc, &survey)?;
    let records = build_records(alloc, &survey, &findings)?;
    let text = records.entries.text.bytes()?;
    *outcome = count(&survey, &findings, &records, text);
    Ok(write_records(&records, text, arrays))
}

/// Surveys tables, and writes their entries, conditions, problems and notes into the caller's arrays.
pub fn write_survey(
    alloc: Global,
    tables: &[LentTable<'_>],
    depth: u32,
    arrays: &mut SurveyArrays<'_>,
    outcome: &mut SurveyOutcome,
) -> u32
    ensures call { (result ≡ CALL) ↔ ((tables.now ≡ []) ⊎ ((depth < 1) ⊎ (4096 < depth))) }
    ensures statuses { result ≤ 4 }
{
    *outcome = SurveyOutcome::nothing();
    let Some(depth) = Depth::new(depth) else {
        return CALL;
    };
    if tables.is_empty() {
        return CALL;
    }
    match survey_into(alloc, tables, depth, arrays, outcome) {
        Ok(status) => status,
        Err(_) => MEMORY,
    }
}
