//! Where in its table the code of each declared method stands (ACPI 6.5, 20.2.5.2 DefMethod).
//!
//! A load keeps the code of methods as bytes that are shared with the tables, and no offset of it. Here the items of
//! the tables are gone through once more:
//!
//! ```text
//! tables, their notes ──code_places──► the place of each method's code, by the method's path
//! ```
//!
//! ```text
//! let declared: Declared<TreeSpace<Object>> = declare_shared(alloc, dsdt, ssdts, depth)?;
//! let places = code_places(alloc, dsdt, ssdts, declared.notes(), depth)?;
//! if let Some(place) = places.get(&path) { .. }
//! ```
#![tactic(auto)]

mod items;
pub mod laws;
mod place;
mod tables;

pub use place::CodePlace;
pub use tables::code_places;
