//! The namespace that a DSDT and a list of SSDTs declare (ACPI 6.5, 5.3), without running any of their code.
//!
//! ```text
//! bytes of a table ── cut, read ──► item tree ── pass ──► Space<Object>, pending links, notes      table by table
//!                                                              └──────► links, searched over the final objects
//! ```
//!
//! What goes in is byte strings that nobody vouches for, one table each. What comes out is what the definitions
//! of `specs/` give (`IsLoad`, `AreNotes`), or the first table that has no listing, with a reason that is true
//! of it (`IsLoadFault`). A caller:
//!
//! ```text
//! let declared: Declared<TreeSpace<Object>> = declare(alloc, dsdt, &[ssdt], depth)?;
//! for (path, object) in &declared.objects().pairs()? { .. }
//! ```
//!
//! A caller that reads no bodies, or one alone, keeps less of what tables note (`declare_keeping`).
//!
//! Tables can be declared one after another (`Declaring`), and an SSDT over tables that are only borrowed
//! (`Declaring::ssdt_over`): so many SSDTs are each declared over one DSDT, which is read once.
#![tactic(auto)]

mod declaring;
mod fault;
pub mod laws;
mod load;

pub use acpi_pass::{Keep, LinkMap, Method, Refusal, TableNotes, copy_answers};
pub use declaring::Declaring;
pub use fault::{LoadFault, LoadReason};
pub use load::{Declared, declare, declare_keeping, declare_shared, shared_tables};
