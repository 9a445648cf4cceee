//! Methods whose values calls read, in bodies and at module level (ACPI 6.5, 19.6.83 and 20.2.5.3).
//!
//! ```text
//! let reads = reads_of_names(&survey, &callables, &names)?;                  // of the names in a body, line by line
//! let reads = reads_of_table(&survey, &index, &callables, table)?;           // node by node
//! let gives_a_value = has_return(alloc, &terms)?;
//! ```
//!
//! A call counts where it means one method alone: it has one candidate, that is certain, and nothing else may be declared there.
#![tactic(auto)]

mod reads;

pub use reads::{MethodRead, has_return, reads_of_names, reads_of_table};
