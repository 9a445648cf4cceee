//! Which objects the parts of tables declare, with terms where the values of their arguments may be computed (ACPI 6.5, 5.3
//! and 20.2.5.2).
//!
//! ```text
//! if let ObjectKind::Region { offset, length, .. } = object_kind(part_of(&survey, number), number) { .. }
//! ```
#![tactic(auto)]

pub mod laws;
mod parts;

pub use acpi_kinds::{ObjectKind, UnitForm};
pub use parts::{kind_of_decl, object_kind};
