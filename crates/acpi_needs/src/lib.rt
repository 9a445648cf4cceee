//! The names that a declaration asks for: those that have to be found when its term is run (ACPI 6.5, 5.3 and 20.2.5).
//!
//! ```text
//! Name(NAM0, Package() { REF0 })        asks for none: elements of packages are resolved later
//! OperationRegion(REG0, 0, MTH1, 0x10)  asks for MTH1
//! ```
#![tactic(auto)]

mod needs;

pub use needs::{is_among, needs_of, needs_of_three, needs_of_value};
