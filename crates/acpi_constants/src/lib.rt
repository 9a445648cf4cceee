//! What objects give without running code (ACPI 6.5, 19.6): a constant, also where a method does nothing but return one, and a
//! resource template of which a method writes some bytes before it returns it.
//!
//! ```text
//! Machine ──Constants::new──► Constants ──facts──► Facts of acpi_overview
//! ```
//!
//! ```text
//! let constants = Constants::new(&machine)?;
//! let overview = overview_of(alloc, constants.facts()?)?;
//! ```
#![tactic(auto)]

mod constants;
mod templates;

pub use constants::Constants;
