//! What is asked of an entry of a survey: its condition, where the names of its term may be found, and the body of its
//! method.
//!
//! ```text
//! let condition = condition_of(&survey, number)?;   // what has to be so for the term to declare its object
//! let links = links_of(&survey, number)?;           // where the names of the term may be found
//! let body = body_of(&survey, number)?;             // what the code of a method is read as
//! let bodies = bodies_of(&survey)?;                 // .. of each method, read once
//! let found = find_behind(alloc, &seen, &locals, &method, name)?;     // where a name in it may be found
//! ```
#![tactic(auto)]

mod bodies;
mod body;
mod condition;
pub mod laws;
mod links;
mod locals;
mod method_bodies;
mod placed;
mod setting;

pub use bodies::bodies_of;
pub use body::{BodyReading, MethodBody, body_of};
pub use condition::{Literal, PlacedLiteral, condition_of, test_at};
pub use links::{Link, links_in, links_of};
pub use locals::find_behind;
