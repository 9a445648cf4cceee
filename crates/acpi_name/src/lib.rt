//! Names of the ACPI namespace: segments, names as they are written, and paths from the root (ACPI 6.5,
//! 5.3 and 20.2.2).
//!
//! ```text
//! bytes ──read_name──► NameRef ──own──► Name
//!                         │
//! scope: Path ──place─────┴──► Path ◄──from_text── text
//! ```
//!
//! ```text
//! let (name, used) = read_name(bytes)?;
//! let path = place(alloc, &scope, name)?;
//! ```
//!
//! Bytes go in and names come out; a name and the scope in which it stands give a path. A contract
//! sees a segment as its four bytes, a name as `NameParts` (rooted or not, parents, segments), and a
//! path as the list of its segments.
#![tactic(auto)]

pub mod laws;
mod name;
mod path;
mod places;
mod reading;
mod seg;
mod show;
mod text;
mod writing;

pub use name::{Name, NameRef};
pub use path::Path;
pub use places::{PlaceFault, place};
pub use reading::{NameFault, begins_segment, read_name};
pub use seg::{Seg, is_lead_char, is_name_char};
pub use text::PathFault;
pub use writing::write_name;
