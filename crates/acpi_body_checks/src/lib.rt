//! Checks of the bodies of methods (ACPI 6.5, 19.6 and 20.2.5): how control goes through them, and what they wait for, compare
//! and ask.
//!
//! ```text
//! let machine = Machine::new(alloc, &survey, &read)?;
//! check_bodies(&machine, &reads, &mut found)?;
//! ```
//!
//! Each check is a module with one function over a machine, which puts what it finds behind what others found.
#![tactic(auto)]

mod comparing;
mod graph;
mod held;
mod lines_behind;
mod never;
mod polls;
mod reach;
mod rounds;
mod some_value;
mod system;
mod twice;
mod units;
mod visits;

use acpi_check_machine::{Finding, Machine};
use std::alloc::AllocError;
pub use system::questions_in;

/// Puts what the checks of bodies find behind what was found. The methods whose values calls read are given by the numbers of
/// their entries, one for each call. Only an allocation failure is an error.
pub fn check_bodies(
    machine: &Machine<'_>,
    reads: &[usize],
    found: &mut Vec<Finding>,
) -> Result<(), AllocError> {
    some_value::some_value(machine, reads, found)?;
    twice::twice(machine, found)?;
    held::held(machine, found)?;
    polls::polls(machine, found)?;
    never::never(machine, found)?;
    system::system(machine, found)
}
