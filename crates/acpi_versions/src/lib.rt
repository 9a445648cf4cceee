//! Objects of two versions of a machine's tables, as they are compared and as they are printed (ACPI 6.5, 5.3 and 19.6).
//!
//! ```text
//! for pair in &pairs_of(old, new)? { .. }               // what stands at each path of the new version
//! let one = describe(old, object, &around)?;            // `name`, `5`
//! let condition = condition_text(old, object, None)?;   // nothing where it has none
//! ```
//!
//! Terms are compared by their texts (`acpi_infix`), with each name as the path in the new version at which it is found. So
//! nothing is told of how constants and names are spelled.
#![tactic(auto)]

mod conditions;
mod descriptions;
mod names;
mod pairs;
mod resources;
mod sides;

pub use conditions::condition_text;
pub use descriptions::{Description, describe};
pub use names::{Names, TermPlace};
pub use pairs::{Pair, pairs_of};
pub use resources::{missing_descriptors, templates_of};
pub use sides::{Side, common_segments, path_around};
