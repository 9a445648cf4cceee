//! Whether two surveys of tables say the same, but for where it stands: the same entries with the same objects, links,
//! conditions and bodies (ACPI 6.5, 5.3 and 20.2.5).
//!
//! ```text
//! if is_same(&old, &new)? { .. }      // nothing that is declared changed
//! ```
#![tactic(auto)]

mod bodies;
mod entries;
mod kinds;
mod same;

pub use same::is_same;
