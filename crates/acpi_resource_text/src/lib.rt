//! The resources of a device in words, each in full and in short (ACPI 6.5, 6.4).
//!
//! ```text
//! let texts = resource_texts(&machine, resources, is_bridge)?;
//! ```
#![tactic(auto)]

mod connections;
mod resources;
mod short_texts;
mod spaces;

pub use resources::{ResourceKind, ResourceText, resource_texts};
pub use short_texts::{ResourceTexts, are_equal, short_resources};
