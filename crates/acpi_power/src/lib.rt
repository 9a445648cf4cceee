//! Sleep, power and heat (ACPI 6.5, 7 and 11): the sleep states of a machine, by which events devices wake it, power resources
//! and who needs them, and the trip points of thermal zones.
//!
//! ```text
//! let states = sleep_states(&machine)?;
//! let wake = wake_of(&container.values.prw);
//! let resources = power_resources(&machine, &overview)?;
//! let trips = trips_of(&machine, &overview, &zone)?;
//! ```
#![tactic(auto)]

mod power;
mod sleep;
mod thermal;
mod wake;

pub use power::{PowerObject, PowerResource, power_objects, power_resources};
pub use sleep::{SleepState, sleep_states};
pub use thermal::{TripKind, TripPoint, trips_of};
pub use wake::{Wake, WakeEvent, wake_of};
