//! All names that the tables of a survey use, and all objects that the bodies of its methods declare (ACPI 6.5, 5.3 and
//! 20.2.5).
//!
//! ```text
//! let bodies = bodies_of(&survey)?;                         // of acpi_entries: the body of each method, read once
//! let mut uses = uses_of_machine(&survey, &bodies)?;        // where each name stands, how, and where it may be found
//! sort_uses(&mut uses)?;                                    // by path
//! let objects = locals_of_machine(&survey, &bodies)?;       // what the bodies declare, by path
//! ```
#![tactic(auto)]

mod local_list;
mod machine;
mod order;
mod roles;
mod uses;

pub use local_list::locals_of_machine;
pub use machine::uses_of_machine;
pub use order::sort_uses;
pub use roles::{UseRole, use_role};
pub use uses::{Use, UseSite};
