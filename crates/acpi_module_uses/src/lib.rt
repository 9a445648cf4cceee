//! The names at module level, and where they may be found (ACPI 6.5, 5.3, 19.6 and 20.2.5).
//!
//! ```text
//! let index = index_of(&survey)?;                                        // of acpi_ranges: what is entered where
//! let callables = Callables::new(&survey)?;                              // of acpi_locals: what means a method
//! let names = names_of_table(&survey, &index, &callables, table)?;       // the names of a table, in byte order
//! ```
//!
//! A name is searched from the innermost scope around that is entered, as it is seen where control came by the way to
//! its node: into branches of Ifs and rounds of Whiles, within Scopes and containers, past Returns, Breaks and
//! Continues. The source of an Alias is where it was found when the Alias was read, and the name of a Scope its target.
#![tactic(auto)]

mod names;
mod nodes;
mod ways;

pub use names::ModuleName;
pub use nodes::names_of_table;
