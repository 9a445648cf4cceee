//! The operation regions of a machine, row by row (ACPI 6.5, 5.5.2.4).
//!
//! ```text
//! for row in &region_rows(&facts, false)? { .. }
//! ```
#![tactic(auto)]

mod alike_regions;
mod region_lists;
mod region_words;
mod regions;

pub use region_lists::{unclaimed_rows, unclaimed_text, unit_texts};
pub use region_words::{mark_of, put_addresses, put_length, put_odd};
pub use regions::{RegionRow, region_rows};
