//! What the commands print of tables: the listing of a namespace, one object with the body of its method, the verdict on
//! SSDTs, and why tables can't be loaded.
//!
//! ```text
//! Declared ── list ──────────────────────────► a line for each object
//! tables ──── show ──────────────────────────► the line of one object, and the body of its method
//! tables ──── check ─────────────────────────► the verdict, and the Externals that are satisfied
//! LoadReason ── put_load_reason, put_fault ──► words, part by part (PartWriter)
//! ```
//!
//! Nothing here opens a file or reads an argument: the program (`acpins_run`) and the library for C share it.
#![tactic(auto)]

mod checking;
mod faults;
mod listing;
mod output;
mod showing;

pub use checking::check;
pub use faults::{put_fault, put_item, put_load_reason};
pub use listing::{links_of, list};
pub use output::Output;
pub use showing::{body_at, show};
