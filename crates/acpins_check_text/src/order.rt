//! The order in which findings are printed.

use acpi_check_machine::{CheckId, Finding, Level};
use std::alloc::{AllocError, Global};

// By what findings are ordered: level, check, table, offset, and line.
fn rank_of(finding: &Finding) -> (Level, CheckId, usize, usize, usize) {
    let line = finding.line.unwrap_or(0);
    (
        finding.id.level(),
        finding.id,
        finding.table,
        finding.offset,
        line,
    )
}

/// Findings by level, then check, place and line; those alike in all of these as they were found.
pub fn in_order<'f>(alloc: Global, found: &'f [Finding]) -> Result<Vec<&'f Finding>, AllocError> {
    let mut order = Vec::new(alloc);
    for i in 0..found.len() {
        order.push((rank_of(&found[i]), i))?;
    }
    order.sort()?;
    let mut findings = Vec::new(alloc);
    for (_, number) in &order {
        if let Some(finding) = found.get(*number) {
            findings.push(finding)?;
        }
    }
    Ok(findings)
}
