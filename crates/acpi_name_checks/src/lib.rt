//! Checks of names (ACPI 6.5, 5.3, 19.6 and 20.2.5): those that nothing declares, and those that methods declare for all
//! callers at once.
//!
//! ```text
//! let lost = names_nowhere(&survey, number, &terms, &names)?;   // in the body of a method, where no predicate shows them
//! let line = unserialized_line(flags, &terms)?;             // the first line that declares an object
//! let names = unlinked_names(&survey, number)?;             // of a field unit, a Create field or an Alias
//! let elements = elements_nowhere(&survey, number)?;        // of the package of a Name
//! ```
#![tactic(auto)]

mod forms;
mod guards;
mod name_set;
mod no_element;
mod no_link;
mod no_name;
mod not_serialized;
mod tried;

pub use no_element::elements_nowhere;
pub use no_link::{LostLinks, lost_links, unlinked_names};
pub use no_name::{NoName, names_nowhere};
pub use not_serialized::unserialized_line;
