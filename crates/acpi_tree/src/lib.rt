//! Definition blocks of ACPI 6.5 as trees: constants, data, the module-level items, and the objects that
//! they declare.
//!
//! The types hold `Vec`s and names of their own; a contract sees a value as a tree of `specs/Tree.antt`.
//! Data, objects and terms are equal where their trees are, and `copy` gives one with the same tree.
#![tactic(auto)]

mod copies;
mod declaration_copies;
mod fits;
mod object;
mod op;
mod place;
mod same;
mod standing;
mod term;
mod term_copies;
mod term_same;
mod tree;

pub use fits::items_fit;
pub use object::{FieldForm, Object};
pub use op::{Op, OpClass, OpRow};
pub use place::{NamedForm, OperandKind, Place, UnitsForm};
pub use standing::terms_fit;
pub use term::{Decl, Operand, Term};
pub use tree::{Data, Elem, External, FieldElem, Int, Item, ScopeKind, Width};
