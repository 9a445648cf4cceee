//! What the checks of names find, in words (ACPI 6.5, 5.3, 19.6 and 20.2.5).
//!
//! ```text
//! let reads = check_names(&machine, &problems, &mut found)?;     // the methods whose values are read, one for each call
//! ```
//!
//! Each check is a module with one function over a machine, which puts what it finds behind what others found.
#![tactic(auto)]

mod lost_names;
mod methods;
mod problems;
mod reads;

use acpi_check_machine::{Finding, Machine};
use acpi_findings::Findings;
use std::alloc::AllocError;

/// Puts what the checks of names find behind what was found; the problems of the tables are given. The result are the methods
/// whose values are read, by the numbers of their entries, one for each call that can mean no other. Only an allocation failure
/// is an error.
pub fn check_names(
    machine: &Machine<'_>,
    problems: &Findings,
    found: &mut Vec<Finding>,
) -> Result<Vec<usize>, AllocError> {
    problems::problems(machine.alloc, problems, found)?;
    lost_names::no_link(machine, found)?;
    lost_names::no_name(machine, found)?;
    let reads = reads::no_value(machine, found)?;
    lost_names::no_element(machine, found)?;
    methods::not_serialized(machine, found)?;
    Ok(reads)
}
