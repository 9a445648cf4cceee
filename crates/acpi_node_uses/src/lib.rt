//! The names that stand in nodes, each with its role.
//!
//! ```text
//! Scope (\_SB) { .. }             opens \_SB
//! Alias (OBJ0, OBJ1)              refers to OBJ0
//! Field (REG0, ..) { .. }         its units lie in REG0
//! ```
#![tactic(auto)]

mod nodes;

pub use nodes::uses_of_node;
