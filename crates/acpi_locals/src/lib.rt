//! What the bodies of methods declare, and where the names in them may be found (ACPI 6.5, 5.3 and 5.5.2.3).
//!
//! ```text
//! let body = body_of(&survey, number)?;                          // of acpi_entries: its terms, if it is read
//! let objects = local_objects(&survey, number, &terms)?;         // what it declares, line by line
//! let names = names_of_body(&survey, number, &terms)?;           // its names, and where each may be found
//! let callables = Callables::new(&survey)?;
//! let is_method = callables.names_method(&survey, &names[0])?;   // whether a name means a method
//! ```
//!
//! A line is a statement: the first of a body has the line 1, and what stands in an If or a While has lines behind
//! that of the If or the While. A name is searched in the scope of the method's path, as it is seen from the method's
//! entry; what the lines before declare is certain.
#![tactic(auto)]

mod body_names;
mod callables;
mod declaring;
pub mod laws;
mod lines;
mod locals;
mod marks;
mod method;

pub use body_names::{BodyName, names_of_body};
pub use callables::Callables;
pub use locals::{LocalObject, local_objects};
