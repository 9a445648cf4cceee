//! The report: what a machine is, for a terminal, in lines of a width (ACPI 6.5).
//!
//! ```text
//! let found = found_rows(&facts, &files, &findings, &checked, options.is_verbose)?;
//! let text = report(&facts, &found, &files, options)?;
//! ```
//!
//! Nothing here opens a file or reads an argument. Only an allocation failure is an error.
#![tactic(auto)]

mod devices;
mod machine_report;
mod regions;
mod sections;
mod sheet;

pub use machine_report::{ReportOptions, report};
