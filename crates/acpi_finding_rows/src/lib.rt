//! What was found in the tables of a machine, in words, and the title that counts it.
//!
//! ```text
//! let found = found_rows(&facts, &files, &findings, &checked, false)?;
//! let title = title(&facts, found.counts)?;
//! ```
#![tactic(auto)]

mod findings;
mod missing;
mod reasons;
mod summary;

pub use findings::{FindingLevel, FindingRow, FoundRows, found_rows};
pub use summary::{FindingCounts, extent, table_row, title};
