//! Which range of a table's bytes is what, and the part of a table that declares an entry (ACPI 6.5, 5.2.6, 5.3 and
//! 20.2.5).
//!
//! ```text
//! let mut ranges = Spans::new(alloc, &table.nodes, table.code().len())?;  // what each byte of a code belongs to
//! let index = index_of(&survey)?;                                         // what is declared and refused at a place
//! let part = part_of(&survey, number);                                    // what declares the entry of that number
//! ```
#![tactic(auto)]

mod by_place;
mod entry_parts;
mod index;
pub mod laws;
mod lookup;
mod lost_ranges;
mod scopes;
mod sites;
mod spans;

pub use entry_parts::{entry_numbered, part_at, part_of, table_in};
pub use index::{PlaceIndex, index_of};
pub use lookup::node_at;
pub use lost_ranges::{
    LostRange, bytes_behind, bytes_between, name_front, package_front, range_lost, unsure_name,
};
pub use sites::{Site, byte_at, offset_of, site_at, site_of, table_at};
pub use spans::{ScopedSpan, Span, SpanContent, Spans};
