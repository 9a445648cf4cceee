//! What `diff` prints.

ghost use Rattle.std.specs.Prelude.{◌≡◌, ◌⊎◌, IfOk, nat_eq};
ghost use Rattle.acpi_same.specs.Same.{TellsSame};
ghost use Rattle.acpi_survey.specs.SurveyOrder.{IsInOrder};

use crate::checks::found_by;
use acpi_check_machine::{Finding, Machine, ReadBody, read_bodies};
use acpi_diff::diff_of;
use acpi_facts::table_of;
use acpi_findings::Findings;
use acpi_moves::match_machines;
use acpi_overview::Table;
use acpi_same::is_same;
use acpi_survey::Survey;
use acpins_diff_text::{DiffOptions, diff_text};
use acpins_survey_run::Output;
use std::alloc::{AllocError, Global};

/// A version of a machine: the survey of its tables, and what is lost, refused and noticed in them.
#[derive(Clone, Copy)]
pub(crate) struct Version<'v> {
    pub survey: &'v Survey,
    pub findings: &'v Findings,
}

// The tables of a survey.
fn tables_of(alloc: Global, survey: &Survey) -> Result<Vec<Table<'_>>, AllocError> {
    let mut tables = Vec::new(alloc);
    for table in &survey.tables {
        tables.push(table_of(table))?;
    }
    Ok(tables)
}

// The text of what differs between two machines, which have these findings and tables.
fn machines_text<'m, 'a, 'f>(
    old: (&'m Machine<'a>, &'f [Finding]),
    new: (&'m Machine<'a>, &'f [Finding]),
    tables: (&[Table<'_>], &[Table<'_>]),
    options: DiffOptions,
) -> Result<Vec<u8>, AllocError> {
    let alloc = old.0.alloc;
    let matched = match_machines(alloc, &old.0.objects, &new.0.objects)?;
    let diff = diff_of((old.0, old.1), (new.0, new.1), &matched)?;
    diff_text(alloc, tables, &matched, &diff, options)
}

// The text of what differs between two surveys, whose bodies are read.
fn surveys_text<'r>(
    alloc: Global,
    old: &'r Survey,
    old_read: &'r [ReadBody],
    old_findings: &Findings,
    new: &'r Survey,
    new_read: &'r [ReadBody],
    new_findings: &Findings,
    options: DiffOptions,
) -> Result<Vec<u8>, AllocError> {
    let old_machine = Machine::new(alloc, old, old_read)?;
    let old_found = found_by(&old_machine, old_findings)?;
    let new_machine = Machine::new(alloc, new, new_read)?;
    let new_found = found_by(&new_machine, new_findings)?;
    let old_tables = tables_of(alloc, old)?;
    let new_tables = tables_of(alloc, new)?;
    machines_text(
        (&old_machine, &old_found),
        (&new_machine, &new_found),
        (&old_tables, &new_tables),
        options,
    )
}

/// What is printed of two versions of a machine. The status is 0 where both have the same entries and bodies, but for where they
/// stand, and else 3.
pub(crate) fn diff_output(
    alloc: Global,
    old: Version<'_>,
    new: Version<'_>,
    is_verbose: bool,
) -> Result<Output, AllocError>
    ensures same { IsInOrder old.entry.survey.now → IsInOrder new.entry.survey.now
        → IfOk result (λ m. TellsSame old.entry.survey.now new.entry.survey.now
        (nat_eq m.status 0)) }
    ensures statuses { IfOk result (λ m. (m.status ≡ 0) ⊎ (m.status ≡ 3)) }
{
    let is_same = is_same(old.survey, new.survey)?;
    let options = DiffOptions {
        is_verbose,
        is_same,
    };
    let old_read = read_bodies(alloc, old.survey)?;
    let new_read = read_bodies(alloc, new.survey)?;
    let text = surveys_text(
        alloc,
        old.survey,
        &old_read,
        old.findings,
        new.survey,
        &new_read,
        new.findings,
        options,
    )?;
    let status = if is_same { 0 } else { 3 };
    Ok(Output { text, status })
}
