//! What the commands of the survey print of tables: the objects that they may declare with their conditions, what is lost
//! and noticed, the bodies of methods, and what each byte belongs to (ACPI 6.5, 5.3 and 20.2.5).
//!
//! ```text
//! Survey ── list ────► a line for each entry, then each problem and note
//!        ── show ────► the lines of the entries at one path, with the bodies of their methods
//!        ── bodies ──► a line for each method: read, or why not
//!        ── map ─────► what each byte of each table belongs to
//! ```
//!
//! Nothing here opens a file or reads an argument. Only an allocation failure is an error.
#![tactic(auto)]

mod condition;
mod condition_steps;
mod entries;
mod found;
mod links;
mod listing;
mod method_lines;
mod objects;
mod ranges;
mod showing;

pub use condition::{put_condition, put_literal};
pub use condition_steps::{StepText, step_texts};
pub use entries::{put_conditioned, put_entry, put_numbered};
pub use found::{put_found, put_note, put_problem};
pub use links::{put_link, put_links};
pub use listing::{has_problem, list};
pub use method_lines::bodies;
pub use objects::put_kind;
pub use ranges::map;
pub use showing::show;
