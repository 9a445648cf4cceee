//! The load of a DSDT with one SSDT, and the join of such loads (ACPI 6.5, 5.2.11 and 5.3).
//!
//! `single` tells of the load with one SSDT what it declares, misses and awaits, and `join` puts such loads together. A law of
//! `acpi_order` says that SSDTs that commute load to that join, in each order.
//!
//! ```text
//! let one: Single<TreeSpace<Object>> = single(alloc, dsdt, ssdt, depth)?;
//! let all: Option<Machine<TreeSpace<Object>>> = join(alloc, vec![one, other])?;
//! ```
#![tactic(auto)]

mod joining;
mod pair;
mod paths;
mod single_misses;
mod singles;

pub use joining::join;
pub use pair::{single, single_shared};
pub use singles::{Awaited, Single};
