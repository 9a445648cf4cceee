//! The arguments of the program `acpins-survey`: what those that follow its name ask for.
//!
//! ```text
//! let invocation = read_words(alloc, &["show", "--hex", "\\_SB_.PCI0", "dsdt.hex"])?;
//! // Invocation::Survey(request): request.command is Command::Show("\\_SB_.PCI0"); request.files is ["dsdt.hex"]
//! let text = fault_text(alloc, &["show", "--hex"])?;
//! // show: a PATH is missing (see acpins-survey --help)
//! ```
//!
//! `help_of` and `VERSION` are what `--help` and `--version` print. `fault_text` says why arguments ask for nothing.
#![tactic(auto)]

mod fault;
mod help;
mod words;

pub use fault::fault_text;
pub use help::{VERSION, help_of};
pub use words::{Command, Invocation, Request, Topic, read_words};
