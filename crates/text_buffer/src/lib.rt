//! Texts that are put piece by piece, and remember that memory was refused: only their end can fail.
//!
//! ```text
//! let mut text = Text::new(alloc);
//! text.put("\\_SB");                 // contracts see what was put, whether or not memory was refused
//! text.put_one(b'\n');
//! let bytes = text.into_bytes()?;    // an error where a growth of memory was refused
//! ```
#![tactic(auto)]

mod said;
mod text;

pub use said::Spelled;
pub use text::{Spelling, Text};
