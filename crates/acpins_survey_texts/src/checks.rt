//! What `check` prints.

use acpi_body_checks::check_bodies;
use acpi_check_ids::CheckId;
use acpi_check_machine::{Finding, Machine, read_bodies};
use acpi_findings::Findings;
use acpi_module_checks::check_module;
use acpi_name_findings::check_names;
use acpi_object_checks::check_objects;
use acpi_survey::Survey;
use acpins_check_text::{CheckOptions, CheckText, check_text};
use std::alloc::{AllocError, Global};

/// What checks find in a machine. What is lost, refused and noticed in its tables is given.
pub(crate) fn found_by(
    machine: &Machine<'_>,
    findings: &Findings,
) -> Result<Vec<Finding>, AllocError> {
    let mut found = Vec::new(machine.alloc);
    let reads = check_names(machine, findings, &mut found)?;
    check_bodies(machine, &reads, &mut found)?;
    check_module(machine, &mut found)?;
    check_objects(machine, &mut found)?;
    Ok(found)
}

/// What the checks find in the tables of a survey. What is lost, refused and noticed in them is given.
pub(crate) fn findings_of_checks(
    alloc: Global,
    survey: &Survey,
    findings: &Findings,
) -> Result<Vec<Finding>, AllocError> {
    let read = read_bodies(alloc, survey)?;
    let machine = Machine::new(alloc, survey, &read)?;
    found_by(&machine, findings)
}

/// What is printed of what is wrong in the tables of a survey, or probably a mistake. What is lost, refused and noticed in them
/// is given.
pub(crate) fn check_of(
    alloc: Global,
    survey: &Survey,
    findings: &Findings,
    is_verbose: bool,
    ignored: &[CheckId],
) -> Result<CheckText, AllocError> {
    let found = findings_of_checks(alloc, survey, findings)?;
    let options = CheckOptions {
        is_verbose,
        ignored,
    };
    check_text(alloc, &found, options)
}
