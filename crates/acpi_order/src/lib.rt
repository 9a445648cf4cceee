//! When SSDTs may be loaded in any order: what a list of tables loads to, as definitions, and the laws of SSDTs that
//! are independent of each other over a DSDT (ACPI 6.5, 5.2.11).
//!
//! ```text
//!   each SSDT loads alone over the DSDT  ┐
//!   no two declare one path              ├──►  in any order they load to the union of the single loads
//!   none declares what another missed    ┘
//! ```
//!
//! The definitions stand in `specs/`: machines (`IsMachine`), what a load missed (`IsMiss`), independence
//! (`IsIndependent`), the join of machines (`IsJoin`) and the verdict on SSDTs (`IsVerdict`). Nothing here runs.
#![tactic(auto)]

pub mod laws;
