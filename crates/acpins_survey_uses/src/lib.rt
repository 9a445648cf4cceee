//! What is printed of the uses of names, and of the objects that the bodies of methods declare (ACPI 6.5, 5.3 and
//! 5.5.2.3).
//!
//! ```text
//! uses(alloc, &survey, None)?                        // a line for each path or name, and behind it one for each use
//! list_with_bodies(alloc, &survey, &findings)?       // as `list`, and a line for each object of a body
//! ```
#![tactic(auto)]

mod declared;
mod local_lines;
mod scopes;
mod use_lines;

pub use local_lines::list_with_bodies;
pub use use_lines::{role_text, uses};
