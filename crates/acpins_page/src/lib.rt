//! The page: the overview of one machine as a page of HTML that needs no other file and no script. It says what its tables
//! declare, and where they touch it, as far as that is known without running any of their code (ACPI 6.5).
//!
//! ```text
//! let page = html(&facts, &found, &map, &files)?;
//! ```
//!
//! Nothing here opens a file or reads an argument. Only an allocation failure is an error.
#![tactic(auto)]

mod address_map;
mod anchors;
mod code;
mod devices;
mod markup;
mod methods;
mod page;
mod parts;
mod regions;
mod rows;
mod style;
mod table_bytes;
mod users;
mod writer;

pub use page::html;
pub use style::HEAD;
