//! The conditions of entries as one list of literals, in which equal beginnings are one (ACPI 6.5, 5.3 and 19.6).
//!
//! ```text
//! Survey, entries in an order ──► literals, each with the number of the one before it; of each entry its last literal
//! ```
//!
//! ```text
//! let conditions = conditions_of(&survey, &survey.entries().paths.by_path()?)?;
//! for entry in &conditions.entries { .. }                  // `entry.condition`: the number of its last literal
//! for step in &conditions.steps {
//!     let literal = literal_of(&survey, step.source)?;     // what has to be so; `step.before` has the literal before
//! }
//! ```
//!
//! The conditions of 1,000 Ifs in one another are 1,000 literals: `condition_of` of `acpi_entries` gives each entry a list of
//! its own, which are half a million.
#![tactic(auto)]

mod list;
mod literals;
mod sources;

pub use list::{ConditionStep, ConditionedEntry, Conditions, conditions_of};
pub use literals::literal_of;
pub use sources::LiteralSource;
