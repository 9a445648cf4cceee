//! Which objects of two versions of a machine's tables are the same: those at one path, and those that moved (ACPI 6.5, 5.3).
//!
//! ```text
//! objects of both ──match_devices──► devices gone, new and moved ──match_objects──► objects that moved alone ──► Moves
//! ```
//!
//! ```text
//! let matched = match_machines(alloc, &old.objects, &new.objects)?;
//! let path = matched.devices.moves.new_path(object.path)?;      // where an object of the old version stands in the new one
//! ```
#![tactic(auto)]

mod devices;
mod keys;
mod matching;
mod moves;
mod objects;
mod path_set;

pub use devices::{DeviceMatch, DeviceMove, match_devices};
pub use keys::kind_word;
pub use matching::{MachineMatch, match_machines};
pub use moves::Moves;
pub use objects::{ObjectMove, match_objects};
