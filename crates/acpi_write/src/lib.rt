//! Trees as bytes: the one spelling that is the shortest (ACPI 6.5, 20.2).
#![tactic(auto)]

mod data;
mod declaration;
mod fault;
mod item;
pub mod laws;
mod term;
mod writer;
mod writing;

pub use fault::WriteFault;
pub use writing::{write_items, write_table, write_terms};
