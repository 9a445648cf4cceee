//! What the library does for callers of the survey, into arrays of theirs (docs/LIBRARY.md): the texts that the program `acpins-survey`
//! prints, and the tables in the bytes of a file.
//!
//! ```text
//! tables ── survey, findings_in ──► Survey, Findings ── output_of (acpins_survey_texts) ──► text ──► the caller's array
//! file ──── tables_in (acpins_survey_run) ──► tables ─────────────────────────────────────────────► the caller's arrays
//! ```
//!
//! They keep nothing: all memory that they take is given back when they return.
#![tactic(auto)]

mod asked;
mod file_tables;
mod survey_text;

pub use asked::{
    BODIES, CHECK, HTML, JSON, LIST, LIST_BODIES, MAP, REPORT, REPORT_ALL, SHOW, USES,
};
pub use file_tables::{ANY_FORM, DUMP, HEX, PLAIN, write_file_tables};
pub use survey_text::write_survey_text;
