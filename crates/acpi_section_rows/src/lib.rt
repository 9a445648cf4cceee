//! Sections of all that is known of a machine: sleep states, wake, events, entry points, what is asked for, routing, conditions (ACPI 6.5).
//!
//! ```text
//! for section in &sections(&facts)? { .. }
//! for (object, condition) in &condition_rows(&facts, false)? { .. }
//! ```
#![tactic(auto)]

mod routing_sections;
mod section_rows;

pub use section_rows::{Section, SectionRow, condition_rows, sections};
