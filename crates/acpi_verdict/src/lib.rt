//! Whether a DSDT's SSDTs may be loaded in any order (ACPI 6.5, 5.2.11 and 5.3).
//!
//! ```text
//! let checked = check_shared::<TreeSpace<Object>>(alloc, &dsdt, &ssdts, depth)?;
//! match checked.verdict {
//!     Verdict::Commute => checked.satisfied,
//!     Verdict::Missed { searcher, definer, path } => ..
//! }
//! ```
//!
//! `verdict` finds whether SSDTs may be loaded in any order, or the first reason that they may not (`IsVerdict` of
//! `acpi_order`), and `satisfied` which methods that bodies await another SSDT declares (`IsSatisfied`). `check_shared`
//! tells both.
//!
//! # Two passes over the SSDTs
//!
//! SSDTs clash where two declare one path, or where the load of one looks up in vain a path that another declares. No other
//! path matters. So the first pass finds who declares what, and the second searches for these paths alone:
//!
//! ```text
//! DSDT ──► each SSDT laid over it        ──► `Definers`: the SSDTs that declare each path, with the argument counts
//!          `ssdt_paths`, `overlay`           of methods; the first path that two declare
//!
//! DSDT ──► each SSDT laid over it again  ──► `PairMisses`: which of the definers' paths its Scope terms, links and
//!          `findings`                        bodies missed, and which methods they await
//!                                                └──► the first clash (`miss_clashes`), `satisfied_externals`
//! ```
//!
//! Each SSDT is declared twice, so that no more than one is held at a time. Pairs of SSDTs are never compared.
//!
//! With an SSDT over it, the DSDT's own links and bodies may find another object than alone. They are searched once for the
//! DSDT alone. What they missed and awaited then stays so under an SSDT, unless that SSDT declares one of these paths.
//! `affected_ssdts` marks the SSDTs that do, and only for these the DSDT is searched once more. A mark too many costs a
//! search and changes no answer.
//!
//! `misses` and `paths` are public for the load with one SSDT (`acpi_singles`).
#![tactic(auto)]

mod affected_ssdts;
mod checking;
mod clashes;
mod commuting;
mod definers;
mod findings;
mod miss_clashes;
pub mod misses;
mod overlay;
mod pair_misses;
pub mod paths;
mod satisfied_externals;
mod satisfying;
mod ssdt_paths;
mod table_misses;
mod verdicts;

pub use checking::check_shared;
pub use commuting::{verdict, verdict_shared};
pub use satisfying::{satisfied, satisfied_shared};
pub use verdicts::{Checked, Satisfied, Verdict};
