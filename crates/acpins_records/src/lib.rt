//! What tables load to, as plain records for C and Rust (docs/LIBRARY.md): one for each object, in the order of the paths,
//! with the places of its parent and of what its links find; the text that `acpins list` prints, in which each record has
//! its line; and the constant data of Names.
//!
//! ```text
//! tables ── declare ──► objects, links, notes ── build_records ──► Records ──► the caller's arrays
//!               └─────► refusal ────────────────────────────────► Outcome
//! ```
//!
//! `write_load`, `write_body`, `write_verdict` and `write_tables` are what `acpins_c` exports. They keep nothing: all
//! memory that they take is given back when they return.
#![tactic(auto)]

mod body;
mod building;
mod check;
mod in_order;
pub mod laws;
mod loading;
mod numbers;
mod outcome;
mod parts;
mod paths;
mod records;
mod refusing;
mod rewrite;
mod targets;
mod tree;

pub use body::{BodyRecord, write_body};
pub use check::{SatisfiedRecord, VerdictRecord, write_verdict};
pub use loading::write_load;
pub use outcome::Outcome;
pub use parts::PartRecord;
pub use records::{Arrays, ObjectRecord};
pub use rewrite::write_tables;
