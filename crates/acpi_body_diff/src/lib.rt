//! What differs between two versions of a method's body, by lines (ACPI 6.5, 20.2.5.2).
//!
//! ```text
//! match compare_bodies(old, new, &pair)? {
//!     BodyResult::Lines(change) => { .. }        // lines that are gone and new, with two around
//!     BodyResult::Alike => { .. }                // spelled otherwise, or with other Locals
//!     ..
//! }
//! ```
//!
//! Lines are matched near-linearly: those that both bodies have at their ends, then those that stand in each once, in one order,
//! and so on between these.
#![tactic(auto)]

mod bodies;
mod body_changes;
mod line_match;

pub use body_changes::{BodyChange, BodyResult, DiffLine, LineMark, compare_bodies};
