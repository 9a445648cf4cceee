//! Tables in their shortest spelling (ACPI 6.5, 5.2.6 and 20.2).
//!
//! ```text
//! bytes of tables ──► acpi_declare ──► namespace, notes ─┐
//!                 ──► acpi_terms ────► items ────────────┼─► acpi_write ──► bytes of tables
//!                     acpi_body ─────► bodies ◄──────────┘
//! ```
//!
//! What comes out says the same: it has the same objects, links and bodies (`rewritten_load_alike`), no table is
//! longer than it was, and rewriting it again gives it (`rewritten_stay`). A caller that stores small tables:
//!
//! ```text
//! let tables: Vec<Vec<u8>> = rewrite::<TreeSpace<Object>>(alloc, dsdt, &[ssdt], depth)?;
//! ```
#![tactic(auto)]

mod rewriting;
pub mod rewriting_laws;

pub use rewriting::{rewrite, rewrite_shared};
