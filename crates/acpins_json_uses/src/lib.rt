//! What methods declare and where names are used, as lists of JSON (ACPI 6.5, 5.3 and 5.5.2.3).
//!
//! ```text
//! put_line_member(&mut text, "locals");
//! put_locals(&mut text, &survey, &locals);      // of locals_of_machine of acpi_use_list
//! put_line_member(&mut text, "uses");
//! put_uses(&mut text, &survey, &uses);          // of uses_of_machine, sorted
//! ```
#![tactic(auto)]

mod locals;
mod methods;
mod uses;

pub use locals::put_locals;
pub use methods::put_method;
pub use uses::put_uses;
