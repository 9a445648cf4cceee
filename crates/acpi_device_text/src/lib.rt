//! Words of a device: its place, its state, by what it wakes the machine, whom events notify, what routes its interrupts, the trip points of its zone (ACPI 6.5, 5.6, 6.1, 6.2.13, 7.3.13, 11.4).
//!
//! ```text
//! put_place(&mut text, container, &uid_text(alloc, container)?);
//! ```
#![tactic(auto)]

mod device_words;
mod notify_words;
mod routing_words;
mod thermal_words;

pub use device_words::{
    PlaceKind, is_short_uid, place_kind, put_all_counts, put_counts, put_device_wake,
    put_general_event, put_place, put_state, put_wake, put_wake_code, role_word, uid_text,
};
pub use notify_words::put_target;
pub use routing_words::put_form;
pub use thermal_words::trip_texts;
