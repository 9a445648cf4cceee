//! The kinds of objects that terms declare, with terms where the values of their arguments may be computed (ACPI 6.5, 5.3 and
//! 20.2.5.2).
#![tactic(auto)]

mod kind;

pub use kind::{ObjectKind, UnitForm};
