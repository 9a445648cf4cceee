//! What a survey of tables gives as plain values, of which an overview is made (ACPI 6.5).
//!
//! ```text
//! Survey ──► tables, objects by path, regions with what their names find ──► Facts of acpi_overview
//! ```
//!
//! ```text
//! let facts = facts_of(alloc, &survey, &store_targets, values, templates)?;
//! let overview = overview_of(alloc, facts)?;
//! ```
#![tactic(auto)]

mod conditions;
mod facts;
mod names;
mod objects;
mod regions;
mod store_targets;
mod tables;
mod units;

pub use facts::facts_of;
pub use objects::{objects_of, plain_site};
pub use store_targets::StoreTargets;
pub use tables::table_of;
