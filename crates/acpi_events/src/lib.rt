//! Whom the methods of events notify (ACPI 6.5, 5.6): general-purpose events, queries of embedded controllers, and interrupts of
//! event devices.
//!
//! ```text
//! let notifications = notifications_of(&machine, &method)?;     // by the method and those that it calls
//! let by_interrupt = interrupt_notifications(&machine, &method)?;
//! ```
#![tactic(auto)]

mod handlers;
mod interrupts;
mod notifications;

pub use handlers::{EventNumber, event_number, handler_of};
pub use interrupts::{InterruptNotifications, interrupt_notifications};
pub use notifications::{Notification, NotifyTarget, notifications_of};
