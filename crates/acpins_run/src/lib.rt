//! One run of the command `acpins`, over any files and streams.
//!
//! ```text
//! words ── acpins_words ──► what they ask for
//! files by name (Files) ──► tables ── the load ──► text, whole or not at all ──► standard output
//!                                                   rewritten tables ───────────► a file
//!                                                   the line of a failure ──────► standard error
//! ```
//!
//! `run` is the whole program; the host's files are `HostFiles`:
//!
//! ```text
//! let mut files = HostFiles::new(rt);
//! let status = run(alloc, &["list", "a.dsdt"], &mut files, &mut rt.stdout(), &mut rt.stderr());
//! ```
//!
//! `laws` states what follows: runs over SSDTs that commute print the same for each order of them and refuse none, and
//! files that `rewrite` stored are listed as before and stay.
//!
//! `report_failure` says a failure alone, for a caller that never came to a run.
//! `output_of`, `add_tables` and `from_hex` are parts of a run, public so that callers and `test_calls` can have them by themselves.
#![tactic(auto)]

mod failure;
pub mod laws;
mod lines;
mod program;
mod rewriting;
mod tables;

pub use acpins_io::{
    FileFault, Files, HexFault, HostFile, HostFiles, PartWriter, UntilFailure, from_hex,
};
pub use acpins_output::Output;
pub use failure::Failure;
pub use program::{output_of, report_failure, run, run_telling};
pub use tables::add_tables;
