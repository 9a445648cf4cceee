//! What is found in the tables of a survey, with a note for each method whose body loads or unloads a table (ACPI 6.5,
//! 5.2.11 and 20.2.5).
//!
//! ```text
//! let findings = findings_of(alloc, &survey)?;
//! let notes = findings.notes();   // those of tables and those of bodies, by their sites
//! ```
#![tactic(auto)]

mod load_bytes;
mod loading;
mod loads;
mod notes;

pub use loading::{loading_methods, loads_tables};
pub use loads::have_load;
pub use notes::findings_of;
