//! What a check of tables finds: the ids of its findings, and how bad each is.
//!
//! ```text
//! let id = CheckId::of("no-link");
//! // Some(CheckId::NoLink); its level is Level::Error
//! ```
#![tactic(auto)]

mod ids;

pub use ids::{CheckId, Level};
