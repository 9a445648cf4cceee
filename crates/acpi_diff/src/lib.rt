//! What differs between two versions of the tables of a machine (ACPI 6.5, 5.3 and 20.2.5).
//!
//! ```text
//! Machine, Machine ──acpi_moves──► what stands where in the new version
//!                  ──acpi_versions──► objects of both, in pairs ──► changes of objects, of fields
//!                                                               ──acpi_body_diff──► changes of bodies
//! ```
//!
//! ```text
//! let matched = match_machines(alloc, &old.objects, &new.objects)?;
//! let diff = diff_of((&old, &old_findings), (&new, &new_findings), &matched)?;
//! for change in &diff.changes { .. }
//! ```
#![tactic(auto)]

mod changes;
mod diff;
mod fields;
mod findings;

pub use changes::{Change, ChangeKind};
pub use diff::{Diff, diff_of};
pub use fields::{RegionChange, Unit, UnitPair};
pub use findings::{FindingChange, LostName};
