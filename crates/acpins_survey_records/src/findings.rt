//! The records of problems and notes.

use crate::records::FindingRecord;
use acpi_findings::{Findings, Note, Problem};
use acpins_survey_output::put_found;
use acpins_survey_reasons::{note_name, problem_name};
use std::alloc::{AllocError, Global};
use text_buffer::Text;

// The levels of findings.
const PROBLEM: u64 = 0;

const NOTE: u64 = 1;

// The code of a reason by its name, as 0x4B06 of `K6 Computed`.
fn reason_code(name: &str) -> u64 {
    let mut code = 0u64;
    let mut number = 0u64;
    for character in name.as_bytes() {
        match *character {
            b' ' => return code.saturating_mul(256).saturating_add(number),
            b'0'..=b'9' => {
                let digit = u64::from(character.saturating_sub(b'0'));
                number = number.saturating_mul(10).saturating_add(digit);
            }
            letter => code = u64::from(letter),
        }
    }
    code.saturating_mul(256).saturating_add(number)
}

// Where a line of a text begins, and how many bytes it has.
#[derive(Clone, Copy)]
struct Line {
    begin: usize,
    length: usize,
}

fn problem_record(problem: &Problem, line: Line) -> FindingRecord {
    let (from, to) = match problem.lost {
        Some(range) => (range.from, range.to),
        None => (0, 0),
    };
    FindingRecord {
        reason: reason_code(problem_name(&problem.reason)),
        level: PROBLEM,
        table: problem.site.table as u64,
        place: problem.site.offset as u64,
        lost_from: from as u64,
        lost_to: to as u64,
        line: line.begin as u64,
        line_length: line.length as u64,
    }
}

fn note_record(note: &Note, line: Line) -> FindingRecord {
    FindingRecord {
        reason: reason_code(note_name(&note.reason)),
        level: NOTE,
        table: note.site.table as u64,
        place: note.site.offset as u64,
        lost_from: 0,
        lost_to: 0,
        line: line.begin as u64,
        line_length: line.length as u64,
    }
}

// The records of these lines, which begin there: of a problem each that begins with `!`, of a note any other.
fn records_of(
    alloc: Global,
    lines: &[u8],
    begin: usize,
    findings: &Findings,
) -> Result<Vec<FindingRecord>, AllocError> {
    let mut problems = findings.problems().iter();
    let mut notes = findings.notes().iter();
    let mut records = Vec::new(alloc);
    let mut begin = begin;
    for line in lines.split(|character| *character == b'\n') {
        let length = line.len().saturating_add(1);
        let at = Line { begin, length };
        let record = match line {
            [] => None,
            [b'!', ..] => problems.next().map(|problem| problem_record(problem, at)),
            _ => notes.next().map(|note| note_record(note, at)),
        };
        if let Some(record) = record {
            records.push(record)?;
        }
        begin = begin.saturating_add(length);
    }
    Ok(records)
}

/// Puts the lines of all problems and notes behind a text, as `list` has them; their records.
pub(crate) fn put_findings(
    alloc: Global,
    text: &mut Text,
    findings: &Findings,
) -> Result<Vec<FindingRecord>, AllocError> {
    let begin = text.bytes()?.len();
    let mut lines = Text::new(alloc);
    put_found(&mut lines, findings.problems(), findings.notes());
    text.put_text(&lines);
    records_of(alloc, lines.bytes()?, begin, findings)
}
