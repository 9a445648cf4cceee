//! Method bodies as terms: read from their bytes, or kept as bytes where no terms stand for them.
//!
//! How many arguments follow a name depends on what the name means, so a body is read against a namespace:
//!
//! ```text
//!   A4 4D 54 48 32 0A 01 0A 02      read_body ─►  Return(MTH2(0x01, 0x02))    where \MTH2 takes two arguments
//!                                             ─►  the bytes themselves        where nothing is known of MTH2
//! ```
//!
//! `read_terms` reads a body against whatever counts the values behind a name, a `MethodCounting`; where that isn't
//! sure of a name, the reading stops there.
//!
//! A contract sees a body as terms of `acpi_tree`, and says of which bytes they are the reading by the relation of
//! `specs/Statements.antt`, and of a fault what it shows of them by `specs/Faults.antt`.
#![tactic(auto)]

mod arguments;
mod body;
mod counting;
mod declare;
mod gathered;
pub mod laws;
mod locals;
mod misses;
mod same;
mod searched;
mod spelled;
mod statement;

pub use acpi_code::Depth;
pub use acpi_counts::Counts;
pub use acpi_values::{BodyError, BodyFault, BodyReason, Counting, read_term};
pub use body::{Body, read_body, read_terms, why};
pub use counting::MethodCounting;
pub use locals::add_declared_paths;
pub use misses::{BodyMisses, OpenMiss, body_misses, body_misses_among};
