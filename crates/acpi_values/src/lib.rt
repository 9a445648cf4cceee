//! Terms that give values, read from their bytes, as they stand in method bodies and at the level of a table.
//!
//! How many arguments follow a name depends on what the name means, so a term is read against a `Counting`; where that
//! isn't sure of a name, the reading stops there.
#![tactic(auto)]

mod counting;
mod fault;
mod refusal;
mod register;
pub mod term;

pub use acpi_code::Depth;
pub use counting::Counting;
pub use fault::{BodyError, BodyFault, BodyReason, refused};
pub use term::read_term;
