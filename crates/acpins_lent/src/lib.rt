//! What all calls of the library share (docs/LIBRARY.md): tables that a caller lends, paths that it names, how a call ended, and how
//! arrays of the caller are written.
//!
//! ```text
//! LentTable ── copy_tables ──► Bytes, over which the calls work
//! items ────── put_front ────► the front of an array of the caller
//! ```
#![tactic(auto)]

mod fronts;
mod outcomes;
mod paths;
mod statuses;
mod tables;

pub use fronts::put_front;
pub use outcomes::SurveyOutcome;
pub use paths::path_in;
pub use statuses::{BAD_PATH, CALL, MEMORY, NO_METHOD, NO_OBJECT, NO_ROOM, OK, REFUSED};
pub use tables::{LentTable, NONE, copy_tables};
