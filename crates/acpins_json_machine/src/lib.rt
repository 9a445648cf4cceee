//! What is found in tables, devices with their resources, and operation regions, as lists of JSON (ACPI 6.5, 5.5.2.4, 6.1
//! to 6.4 and 7.3).
//!
//! ```text
//! put_line_member(&mut text, "findings");
//! put_findings(&mut text, alloc, &findings)?;           // what the checks found
//! put_line_member(&mut text, "devices");
//! put_devices(&mut text, &facts)?;
//! put_line_member(&mut text, "regions");
//! put_regions(&mut text, &facts)?;
//! put_line_member(&mut text, "sleep_states");
//! put_sleep_states(&mut text, &facts);                  // .. and what else is known of the machine
//! ```
#![tactic(auto)]

mod connections;
mod devices;
mod events;
mod findings;
mod ids;
mod power;
mod regions;
mod resources;
mod routing;
mod values;
mod wake;

pub use devices::put_devices;
pub use events::{put_events, put_interfaces, put_uuids};
pub use findings::put_findings;
pub use power::{put_power_resources, put_sleep_states, put_thermal_zones};
pub use regions::put_regions;
pub use routing::put_routings;
