//! Definition blocks of ACPI 6.5 as trees: the module-level items that the AML byte code of a table
//! spells, read from its bytes.
//!
//! ```text
//!   10 0B 5F 53 42 5F 08 41 42 43 44 00      read_items ─►  Scope(_SB_, [Name(ABCD, Zero)])
//! ```
//!
//! `read_items` gives the items, or the first fault from the left with its place:
//!
//! ```text
//! let items = read_items(alloc, code, depth)?;
//! ```
//!
//! A contract sees a value as a tree of `acpi_tree`, and says of which bytes it is the reading by the relation of
//! `specs/Spelling.antt`, and of a fault that the bytes fail by it, by the relation of `specs/Faults.antt`.
#![tactic(auto)]

mod block;
mod constant;
mod data;
mod fault;
mod form;
mod item;
pub mod laws;
mod part;
mod scope_block;

pub use acpi_code::Depth;
pub use acpi_tree::{
    Data, Decl, Elem, External, FieldElem, FieldForm, Int, Item, Object, Op, Operand, ScopeKind,
    Term, Width, items_fit, terms_fit,
};
pub use fault::{ItemFault, ItemReason};
pub use item::{NextItem, next_item, read_items, read_items_shared};
pub use part::{read_elem, read_int};
pub use scope_block::{ScopeBlock, ScopeFront};
