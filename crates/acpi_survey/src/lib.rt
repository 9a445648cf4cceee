//! The survey of tables: what a DSDT and SSDTs may declare, and under which condition, whatever stands in them
//! (ACPI 6.5, 5.2.11, 5.3 and 20.2.5). None of their code is run, and no table is refused.
//!
//! ```text
//! tables ──judge──► code ──read_outline──► nodes
//!                                              │
//!                             a walk over nodes, which counts what follows a name
//!                                              ▼
//!                                    entries and refusals
//! ```
//!
//! What the nodes of a table do with what is declared is said by `specs/Nodes.antt`, and how many values follow a name
//! by `specs/Reading.antt`. `laws` says that what is read of tables is the survey of what their nodes do
//! (`read_is_survey`), so that all laws of `acpi_conditions` hold of it, and that no two nodes stand at one place
//! (`places_are_distinct`).
#![tactic(auto)]

mod counts;
pub mod entry_laws;
mod known;
pub mod laws;
mod machine_survey;
mod name_uses;
mod names;
mod predefined;
mod reading;
mod reading_nodes;
mod remarks;
pub mod run_laws;
mod table_reader;

pub use counts::{agreed, expected_count, put_counts};
pub use machine_survey::{Survey, SurveyedTable};
pub use name_uses::{NameUse, names_in_fixed, names_in_plain, names_in_terms};
pub use predefined::PREDEFINED;
pub use reading::place_in;
pub use remarks::{AliasSource, OpenedScope, Unknown};
pub use table_reader::survey;
