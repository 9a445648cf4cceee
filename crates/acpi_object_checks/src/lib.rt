//! Checks of the objects that tables declare: their names and types, ids, resources, fields and ports (ACPI 6.5, chapters
//! 5 and 6).
//!
//! ```text
//! let machine = Machine::new(alloc, &survey, &read)?;
//! check_objects(&machine, &mut found)?;
//! ```
//!
//! Each check is a module with one function over a machine, which puts what it finds behind what others found.
#![tactic(auto)]

mod arguments;
mod classes;
mod events;
mod fields_past;
mod guarded_ports;
mod id_forms;
mod lacks;
mod properties;
mod resource_faults;
mod resource_reader;
mod resources;
mod routes;
mod routing;
mod same_addresses;
mod same_ids;
mod sources;
mod texts;
mod units;

use acpi_check_machine::{Finding, Machine};
use std::alloc::AllocError;

/// Puts what the checks of objects find behind what was found. Only an allocation failure is an error.
pub fn check_objects(machine: &Machine<'_>, found: &mut Vec<Finding>) -> Result<(), AllocError> {
    arguments::arguments(machine, found)?;
    same_ids::same_ids(machine, found)?;
    id_forms::id_forms(machine, found)?;
    routing::routing(machine, found)?;
    resources::resources(machine, found)?;
    fields_past::fields_past(machine, found)?;
    properties::properties(machine, found)?;
    events::events(machine, found)?;
    same_addresses::same_addresses(machine, found)?;
    lacks::lacks(machine, found)?;
    guarded_ports::guarded_ports(machine, found)
}
