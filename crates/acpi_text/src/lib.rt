//! Printed forms: of paths, names and constants, of data, of the objects of a namespace with their links, and
//! of method bodies.
//!
//! Each call puts one form behind a text, which is bytes: characters of ASCII, since a string's other bytes
//! are written as digits. A contract says which bytes are put, by the definitions of `specs/`. A caller prints
//! a line for each object:
//!
//! ```text
//! let mut text = Text::new(alloc);
//! put_line(&mut text, &path, &object, links);    // \_SB_.PCI0._ADR Name Zero
//! put_terms(&mut text, &statements);             // Return(MTH2(0x01, 0x02))
//! let bytes = text.into_bytes()?;
//! ```
//!
//! No call here fails: a text remembers where a growth of memory was refused, and `into_bytes` answers that.
#![tactic(auto)]

mod bytes;
mod data;
mod declarations;
mod fields;
mod lines;
mod names;
mod numbers;
mod objects;
mod statements;
mod terms;

pub use bytes::{put_char, put_spaced};
pub use data::put_data;
pub use lines::{put_line, put_links};
pub use names::{put_name, put_path};
pub use numbers::{put_byte, put_decimal, put_int};
pub use objects::put_object;
pub use statements::{put_opaque, put_terms};
pub use terms::put_term;
