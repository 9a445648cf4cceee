//! What a machine is, for people and programs: its devices with their states, the regions that tables and methods declare, and
//! lists of what it sleeps by, asks for and routes (ACPI 6.5).
//!
//! ```text
//! let machine = Machine::new(alloc, &survey, &read)?;
//! let overview = overview_of(alloc, Constants::new(&machine)?.facts()?)?;
//! let facts = MachineFacts::new(&machine, &overview)?;
//! ```
#![tactic(auto)]

mod devices;
mod facts;
mod regions;

pub use devices::{Device, DeviceState, Role};
pub use facts::MachineFacts;
pub use regions::{OddBounds, RegionFact};
