//! The words of the command `acpins`: what those that follow the program's name ask for (docs/COMMAND.md).
//!
//! ```text
//! let request = read_words(alloc, &["show", "--hex", "\\_SB_.PCI0", "dsdt.hex"])?;
//! // request.command is Command::Show("\\_SB_.PCI0"); request.files is ["dsdt.hex"]
//! ```
//!
//! `arguments` has what the words of other commands over tables share with these.
//!
//! The forms are `clap`'s; what words ask for is `asked_of` of `specs/`, over `clap`'s own account of its forms.
#![tactic(auto)]

pub mod arguments;
mod fault;
mod words;

pub use fault::WordsFault;
pub use words::{Command, Request, read_words};
