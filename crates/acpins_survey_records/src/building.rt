//! All records of a survey.

use crate::entries::EntryRecords;
use crate::findings::put_findings;
use crate::literals::put_literals;
use crate::records::{FindingRecord, LiteralRecord};
use acpi_condition_list::conditions_of;
use acpi_findings::Findings;
use acpi_survey::Survey;
use std::alloc::{AllocError, Global};

/// All records of a survey. The text is that of the entries.
#[derive(Drop)]
pub(crate) struct Records {
    pub entries: EntryRecords,
    pub literals: Vec<LiteralRecord>,
    pub findings: Vec<FindingRecord>,
}

/// The records of a survey and its findings.
pub(crate) fn build_records(
    alloc: Global,
    survey: &Survey,
    findings: &Findings,
) -> Result<Records, AllocError> {
    let order = survey.entries().paths.by_path()?;
    let conditions = conditions_of(survey, &order)?;
    let mut entries = EntryRecords::new(alloc);
    entries.put_all(survey, &conditions)?;
    let found = put_findings(alloc, &mut entries.text, findings)?;
    let mut literals = Vec::new(alloc);
    put_literals(&mut literals, &mut entries.text, survey, &conditions.steps)?;
    Ok(Records {
        entries,
        literals,
        findings: found,
    })
}
