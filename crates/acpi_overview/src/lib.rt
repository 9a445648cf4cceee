//! What the tables of a machine say of it, without running any of their code: its devices with their ids, addresses and
//! resources, the regions in which its code reads and writes, and the methods that an operating system runs by itself (ACPI 6.5).
//!
//! ```text
//! Facts ──► objects by path ──► devices and what is known of them ──► claims of addresses
//!                           ──► regions and their field units
//! ```
//!
//! ```text
//! let overview = overview_of(alloc, facts)?;
//! ```
//!
//! `Facts` are plain values, which `acpi_facts` makes of a survey of tables. `Lines` are what other commands print of one.
//! Nothing is guessed: what only running code tells is `Value::Method` with the size of its code, or `Value::Unknown`.
#![tactic(auto)]

mod addresses;
mod claims;
mod containers;
mod facts;
mod headers;
mod lines;
mod machine;
mod objects;
mod ospm_methods;
mod regions;
mod resources;
mod value;

pub use addresses::Address;
pub use claims::{Claim, Claims, Cover};
pub use containers::{
    Container, DeviceValues, MemberCounts, Tree, is_container, is_directly_in, is_within,
    last_segment,
};
pub use facts::{BoundTerm, CodeTemplate, Facts, RegionTerms, Table, TableState, WrittenBytes};
pub use headers::{TableHeader, header_of};
pub use lines::{ConditionLine, FoundLine, Lines};
pub use machine::{Overview, Totals, overview_of};
pub use objects::{Object, Site, objects_at};
pub use ospm_methods::{OSPM_KINDS, OspmKind, OspmMethod, ospm_kind, ospm_methods_of};
pub use regions::{Bound, Certainty, Region, UnitSource, kind_of};
pub use resources::{
    AddressKind, Resource, ResourceLists, ResourceSource, Resources, claimed_range,
};
pub use value::{Value, declared_values, integer_value};
