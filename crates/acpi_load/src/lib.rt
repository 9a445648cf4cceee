//! The load of a DSDT and a list of SSDTs (ACPI 6.5, 5.3), without running any of their code.
//!
//! ```text
//!                 ┌─ acpi_declare ─┐          ┌─ acpi_body ─┐
//! bytes of tables ──► namespace ──────────────────────────────► Machine: objects
//!                 ──► links ──────────────────────────────────►          links
//!                 ──► notes: methods, External counts ──► read ►          bodies
//! ```
//!
//! The bodies are read when all tables are declared, over the final namespace. What comes out is the machine of the
//! tables (`IsMachine` of `acpi_order`), or the first table that has no listing, with a reason that is true of it. A
//! body that can't be read stays as its bytes, and `explain` tells why (`IsExplained`). A caller that prints which
//! methods can't be read:
//!
//! ```text
//! let machine: Machine<TreeSpace<Object>> = load(alloc, dsdt, &[ssdt], depth)?;
//! for (path, body) in machine.bodies() {
//!     if let Body::Opaque(_) = body {
//!         // Loads the tables anew: for the few that are not read.
//!         let fault = explain::<TreeSpace<Object>>(alloc, dsdt, &[ssdt], path, depth)?;
//!     }
//! }
//! ```
//!
//! What is loaded stands in `acpi_machine`, single loads in `acpi_singles`, what is said of an order in `acpi_verdict`,
//! and rewriting in `acpi_rewrite`; this crate re-exports them all, and states in `laws` what holds of them.
//!
//! `single` tells of the load with one SSDT what it declares, misses and awaits. `verdict` finds whether all SSDTs may
//! be loaded in any order, or the first reason that they may not (`IsVerdict` of `acpi_order`), and `satisfied` which
//! methods that bodies await another SSDT declares (`IsSatisfied`). `check_shared` tells both, by fewer loads:
//!
//! ```text
//! let checked = check_shared::<TreeSpace<Object>>(alloc, &dsdt, &ssdts, depth)?;
//! match checked.verdict {
//!     Verdict::Commute => checked.satisfied,
//!     Verdict::Missed { searcher, definer, path } => ..
//! }
//! ```
#![tactic(auto)]

pub mod laws;

pub use acpi_declare::{
    Declared, Keep, LinkMap, LoadFault, LoadReason, Refusal, declare, declare_keeping,
    declare_shared,
};
pub use acpi_machine::{
    Machine, explain, explain_shared, load, load_objects, load_shared, load_with_body_at,
};
pub use acpi_rewrite::{rewrite, rewrite_shared};
pub use acpi_singles::{Awaited, Single, join, single, single_shared};
pub use acpi_verdict::{
    Checked, Satisfied, Verdict, check_shared, satisfied, satisfied_shared, verdict, verdict_shared,
};
