//! What a DSDT and SSDTs load to, without running any of their code (ACPI 6.5, 5.3).
//!
//! ```text
//!                 ┌─ acpi_declare ─┐          ┌─ acpi_body ─┐
//! bytes of tables ──► namespace ──────────────────────────────► Machine: objects
//!                 ──► links ──────────────────────────────────►          links
//!                 ──► notes: methods, External counts ──► read ►          bodies
//! ```
//!
//! The bodies are read when all tables are declared, over the final namespace. What comes out is the machine of the
//! tables (`IsMachine` of `acpi_order`), or the first table that has no listing, with a reason that is true of it. A
//! body that can't be read stays as its bytes, and `explain` tells why (`IsExplained`). A caller that prints which
//! methods can't be read:
//!
//! ```text
//! let machine: Machine<TreeSpace<Object>> = load(alloc, dsdt, &[ssdt], depth)?;
//! for (path, body) in machine.bodies() {
//!     if let Body::Opaque(_) = body {
//!         // Loads the tables anew: for the few that are not read.
//!         let fault = explain::<TreeSpace<Object>>(alloc, dsdt, &[ssdt], path, depth)?;
//!     }
//! }
//! ```
#![tactic(auto)]

mod bodies;
mod machine;
mod reasons;

pub use bodies::put_body;
pub use machine::{Machine, load, load_objects, load_shared, load_with_body_at};
pub use reasons::{explain, explain_shared};
