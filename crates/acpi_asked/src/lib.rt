//! What methods ask for: strings of `_OSI` (ACPI 6.5, 5.7.2), and UUIDs with which `_DSM` and `_OSC` are called (6.2.11 and
//! 9.1.1).
#![tactic(auto)]

mod interfaces;
mod uuids;

pub use interfaces::{Interface, interfaces_of};
pub use uuids::{UuidUse, uuid_name, uuids_of};
