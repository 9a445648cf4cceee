//! What is lost, refused and noticed in the tables of a survey.
//!
//! ```text
//! let findings = found_in(alloc, &survey)?;
//! let problems = findings.problems();   // what is lost or refused, where, and why
//! let notes = findings.notes();         // what is noticed and loses nothing
//! ```
//!
//! `laws` says that each refusal is told, and no other.
#![tactic(auto)]

mod findings;
pub mod laws;
mod marks;
mod notes;
mod problems;

pub use findings::{Findings, found_in};
pub use notes::{Note, NoteReason};
pub use problems::{Problem, ProblemReason};
