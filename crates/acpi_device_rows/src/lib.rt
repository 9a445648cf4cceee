//! The devices of a machine, row by row, those that are alike as one, and the details of each (ACPI 6.5, 6).
//!
//! ```text
//! for row in &device_rows(&facts, &Children::new(&facts)?, true)? { .. }
//! ```
#![tactic(auto)]

mod alike;
mod details;
mod devices;

pub use details::{Detail, DeviceDetails, device_details};
pub use devices::{Children, DeviceRow, device_rows};
