//! What checks look at, and what they find: the objects and the method bodies of a survey of tables (ACPI 6.5, 5.3 and 20.2.5).
//!
//! ```text
//! Survey ──read_bodies──► bodies that can be read ──Machine::new──► objects by path, bodies line by line
//! ```
//!
//! ```text
//! let read = read_bodies(alloc, &survey)?;
//! let machine = Machine::new(alloc, &survey, &read)?;
//! let value = machine.value_below(&device, *b"_UID");     // the constant that a Name has, or that a method returns
//! let device = machine.devices();                         // those without a condition
//! if let Some(found) = machine.found_by(body, line, name) { .. }     // the only object that a name may find
//! put_finding(&mut found, CheckId::SameId, &object, None, text)?;
//! ```
#![tactic(auto)]

mod bodies;
mod finding;
mod lines;
mod machine;
mod module_level;
mod terms;
mod tree;
mod values;

pub use acpi_check_ids::{CheckId, Level};
pub use bodies::{Body, ReadBody, read_bodies};
pub use finding::{Finding, put_finding, put_finding_at};
pub use lines::{Line, LineName};
pub use machine::{FoundObject, Machine, child_of};
pub use module_level::{ModuleTerm, module_path, module_terms};
pub use terms::{constant, is_data, name_read, package_of, terms_on_line};
pub use values::id_text;
