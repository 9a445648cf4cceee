//! A survey as plain records for C and Rust (docs/LIBRARY.md): one for each entry, with its condition and where its term stands; the
//! literals of conditions, in which equal beginnings are one; what links may find; the data of Names; problems and notes. The text of the
//! survey is what `acpins-survey list` prints, in which each entry, problem and note has its line, and behind it a text for each literal.
//!
//! ```text
//! tables ── survey, findings_of ──► Survey, Findings ── build_records ──► Records ──► the caller's arrays
//! ```
//!
//! It keeps nothing: all memory that a call takes is given back when it returns.
#![tactic(auto)]

mod building;
mod entries;
mod findings;
mod literals;
mod numbers;
mod parts;
mod places;
mod records;
mod writing;

pub use records::{
    EntryRecord, FindingRecord, LiteralRecord, PartRecord, SurveyArrays, TargetRecord,
};
pub use writing::write_survey;
