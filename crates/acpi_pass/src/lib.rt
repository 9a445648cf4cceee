//! What the items of one table declare over a namespace (ACPI 6.5, 5.3), and the links that are searched when all tables are
//! declared.
//!
//! ```text
//! items ── Pass ──► Space<Object>, pending links, notes of the table
//!                                      └── search_links, over the final objects ──► LinkMap
//! ```
//!
//! The pass knows items, not the bytes that spell them.
#![tactic(auto)]

mod field_list;
mod items;
mod keep;
mod link_map;
mod links;
mod notes;
mod pass;
mod pending;
mod placing;
mod predefined;
mod refusal;

pub use keep::{Keep, put_kept};
pub use link_map::{LinkMap, LinkVisitor};
pub use links::{copy_answers, misses_of_links, search_links};
pub use notes::{Method, TableNotes};
pub use pass::Pass;
pub use pending::{LinkedPaths, PendingLinks};
pub use predefined::predefined_space;
pub use refusal::{PassError, Refusal};
