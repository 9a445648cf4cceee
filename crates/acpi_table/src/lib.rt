//! Definition blocks of ACPI 6.5 from the outside: a table is cut from bytes by its header, its bytes
//! sum to 0, and package lengths are read and written.
//!
//! What goes in is bytes that nobody vouches for. `split_table` gives a table only where the bytes hold
//! one, and otherwise the first fault there is; `read_pkg_length` gives the number that the bytes spell,
//! `write_pkg_length` the shortest spelling of a number. No call here takes memory but `read_table`, which cuts one
//! table from a source.
#![tactic(auto)]

mod lengths;
mod sources;
mod streams;
mod sums;
mod tables;

pub use lengths::{PkgBytes, PkgFault, package_length, read_pkg_length, write_pkg_length};
pub use sources::{FromRead, SliceSource, Source, SourceFault};
pub use streams::{ReadFault, read_table};
pub use sums::{byte_sum, checksum_for};
pub use tables::{HEADER_BYTES, Header, TABLE_LIMIT, Table, TableFault, split_table};
