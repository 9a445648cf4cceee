//! What `diff` prints: what differs between two versions of the tables of a machine, in sections, of which those that hold
//! nothing are left out.
//!
//! ```text
//! table 0 DSDT: length 12040 -> 12055, sum good
//! 1 value changed, 1 body changed
//!
//! SEEN BY THE SYSTEM
//!   \_SB.PCI0.UAR1._UID: 1 -> 2
//!
//! METHOD BODIES
//!   \_SB.PCI0.UAR1._STA  (1 -> 2 lines)
//!      +UEN1 = 0
//!       Return (0x0F)
//! ```
#![tactic(auto)]

mod blocks;
mod bodies;
mod change_words;
mod clipping;
mod devices;
mod fields;
mod head;
mod moved;
mod paths;
mod seen;
mod stayed;
mod text;

pub use text::{DiffOptions, diff_text};
