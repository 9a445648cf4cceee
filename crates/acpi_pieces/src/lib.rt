//! The tables in a file, one after another (ACPI 6.5, 5.2.6): where each begins, by the Length of the one before it; and
//! what is read of the bytes of each.
//!
//! ```text
//! let tables = pieces(alloc, &file)?;   // none of them copied; what begins no table is the last piece
//! let judged = judge(number, table)?;   // its code, and what is wrong with the table as a whole
//! ```
#![tactic(auto)]

mod file;
mod tables;

pub use file::{length_field, pieces, pieces_make_the_file};
pub use tables::{TableContent, TableReason, judge};
