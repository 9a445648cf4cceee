//! Names in terms of method bodies, each with its role; lines of a body, ways through it, and the names that predicates show to be
//! declared.
//!
//! ```text
//! Store(SRC0, DST0)               reads or calls SRC0, writes DST0
//! If (CondRefOf(NAM0)) { .. }     tests NAM0, which is shown to be declared inside
//! ```
#![tactic(auto)]

mod constant;
mod exits;
mod guards;
mod predicate;
mod role;
mod statements;
mod uses;

pub use constant::truth_of;
pub use exits::{Exits, exits_of};
pub use guards::{GuardStep, guard_steps};
pub use predicate::shown_names;
pub use role::{Role, role_at};
pub use statements::{LineUse, statements_of, uses_of_body};
pub use uses::{NameUse, add_connection, add_name, add_uses_in, add_uses_of, uses_in, uses_of};
