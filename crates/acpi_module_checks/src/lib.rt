//! Checks of what stands at module level: the terms that are run while a table is loaded (ACPI 6.5, 5.4.2 and 20.2.5).
//!
//! ```text
//! check_module(&machine, &mut found)?;
//! ```
#![tactic(auto)]

mod questions;

use acpi_check_machine::{Finding, Machine};
use std::alloc::AllocError;

/// Puts what the checks of terms at module level find behind what was found. Only an allocation failure is an error.
pub fn check_module(machine: &Machine<'_>, found: &mut Vec<Finding>) -> Result<(), AllocError> {
    questions::questions(machine, found)
}
