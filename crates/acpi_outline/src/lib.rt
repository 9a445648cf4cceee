//! The outline of a table's code: nodes that tile its bytes, whatever stands at module level (ACPI 6.5, 20.2.5).
//!
//! No table is refused. Where no term can be read, the rest of its list is lost, and reading goes on behind the list:
//!
//! ```text
//!   5B 82 07 44 45 56 30 04 04 08 42 42 42 42 01
//!   ├──── Device(DEV0) ──────┤ ├─ Name(BBBB) ──┤
//!                        ├lost┤                    NoNode at 7
//! ```
//!
//! What follows a name depends on what was declared before, so the caller keeps what is known (`Known`):
//!
//! ```text
//! let nodes = read_outline(&mut known, code, depth)?;
//! ```
//!
//! A contract sees nodes as a tree, and says of which bytes they are the outline by `specs/Outline.antt`, and for which
//! reason a range is lost by `specs/Faults.antt`. `laws` says that each code has one outline (`has_outline`,
//! `at_most_one_outline`), that its nodes tile the code (`nodes_tile`), where its reasons lie
//! (`reasons_lie_in_their_ranges`), and that damage in a package stays in it (`packages_contain`).
#![tactic(auto)]

mod fault;
mod fields;
mod fixed;
mod form;
mod known;
pub mod laws;
mod leaf;
mod node;
mod outline;
mod plain;
mod reader;

pub use fault::{LostFault, LostReason};
pub use form::{ContainerForm, DataForm, PackedForm};
pub use known::Known;
pub use node::{Fixed, Lost, Node, Nodes, PlacedField, PlacedNode, Plain};
pub use outline::read_outline;
