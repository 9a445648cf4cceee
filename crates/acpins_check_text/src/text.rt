//! The lines of findings, and their counts.

use crate::line_folds::folds;
use crate::order::in_order;
use acpi_check_machine::{CheckId, Finding, Level};
use acpi_text::put_decimal;
use acpi_trimmed::put_trimmed_path;
use std::alloc::{AllocError, Global};
use text_buffer::Text;

/// What of the findings is printed.
#[derive(Debug, Clone, Copy)]
pub struct CheckOptions<'o> {
    /// Whether each finding has a line of its own.
    pub is_verbose: bool,
    /// The checks whose findings are neither printed nor counted.
    pub ignored: &'o [CheckId],
}

/// What is printed of findings.
#[derive(Debug, Drop)]
pub struct CheckText {
    /// The lines.
    pub text: Vec<u8>,
    /// Whether one of the findings is an error or a warning.
    pub has_faults: bool,
}

// The findings that aren't ignored.
fn kept<'f>(
    alloc: Global,
    found: &[&'f Finding],
    ignored: &[CheckId],
) -> Result<Vec<&'f Finding>, AllocError> {
    let mut kept = Vec::new(alloc);
    for finding in found {
        if !ignored.contains(&finding.id) {
            kept.push(*finding)?;
        }
    }
    Ok(kept)
}

// The path of the first finding of a line, with that of the last and the number where there are more.
fn put_paths(text: &mut Text, first: &Finding, others: &[usize], findings: &[&Finding]) {
    put_trimmed_path(text, &first.path);
    let Some(last) = others.last().and_then(|n| findings.get(*n)) else {
        return;
    };
    text.put(" .. ");
    put_trimmed_path(text, &last.path);
    text.put(" (");
    put_decimal(text, (others.len() as u64).saturating_add(1));
    text.put(")");
}

fn put_place(text: &mut Text, finding: &Finding) {
    text.put(" at ");
    put_decimal(text, finding.table as u64);
    text.put(":");
    put_decimal(text, finding.offset as u64);
    if let Some(line) = finding.line {
        text.put(" line ");
        put_decimal(text, line as u64);
    }
}

// The line of a finding, and of others that stand on it.
fn put_line(text: &mut Text, first: &Finding, others: &[usize], findings: &[&Finding]) {
    text.put(first.id.level().text());
    text.put(" ");
    text.put(first.id.text());
    text.put(" ");
    put_paths(text, first, others, findings);
    text.put(": ");
    text.put_all(&first.text);
    put_place(text, first);
    text.put("\n");
}

fn put_folded(text: &mut Text, alloc: Global, findings: &[&Finding]) -> Result<(), AllocError> {
    for line in &folds(alloc, findings)? {
        if let [first, others @ ..] = line.as_slice() {
            if let Some(finding) = findings.get(*first) {
                put_line(text, finding, others, findings);
            }
        }
    }
    Ok(())
}

fn put_all(text: &mut Text, findings: &[&Finding]) {
    for finding in findings {
        put_line(text, finding, &[], findings);
    }
}

// How many findings are of a level.
fn count_of(findings: &[&Finding], level: Level) -> usize {
    findings.iter().filter(|f| f.id.level() == level).count()
}

fn put_count(text: &mut Text, findings: &[&Finding], level: Level) {
    let count = count_of(findings, level);
    put_decimal(text, count as u64);
    text.put(" ");
    text.put(level.text());
    if count != 1 {
        text.put("s");
    }
}

fn put_counts(text: &mut Text, findings: &[&Finding]) {
    put_count(text, findings, Level::Error);
    text.put(", ");
    put_count(text, findings, Level::Warning);
    text.put(", ");
    put_count(text, findings, Level::Remark);
    text.put("\n");
}

/// The lines of findings by level, check, place and line, alike ones on one line, and then how many there are of each level.
pub fn check_text(
    alloc: Global,
    found: &[Finding],
    options: CheckOptions<'_>,
) -> Result<CheckText, AllocError> {
    let findings = kept(alloc, &in_order(alloc, found)?, options.ignored)?;
    let mut text = Text::new(alloc);
    if options.is_verbose {
        put_all(&mut text, &findings);
    } else {
        put_folded(&mut text, alloc, &findings)?;
    }
    put_counts(&mut text, &findings);
    let has_faults = findings.iter().any(|f| f.id.level() != Level::Remark);
    Ok(CheckText {
        text: text.into_bytes()?,
        has_faults,
    })
}
