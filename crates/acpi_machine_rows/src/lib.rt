//! What a machine is: a row for each kind of thing that it has (ACPI 6.5).
//!
//! ```text
//! for row in &machine_rows(&facts, false)? { .. }
//! ```
#![tactic(auto)]

mod classes;
mod device_names;
mod event_rows;
mod machine_words;
mod routing_rows;
mod sleep_rows;
mod start_rows;

pub use machine_words::{MachineRow, machine_rows};
