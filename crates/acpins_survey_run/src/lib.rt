//! One run of the command `acpins-survey`, over any files and streams.
//!
//! ```text
//! arguments ── acpins_survey_words ──► what they ask for
//! files (Files), folders (Folders) ──► tables ── Printer ──► text ──► standard output, or the file of a page
//!                                              the line of a failure ──► standard error
//! ```
//!
//! `run` is the whole program; what it prints of tables is the `Printer`'s. The host's files are `HostFiles`, its
//! folders `HostFolders`, its terminal `HostConsole`:
//!
//! ```text
//! let mut files = HostFiles::with_streams(rt);
//! let mut folders = HostFolders::new(rt);
//! let mut console = HostConsole::new(rt);
//! let words = ["list", "a.dsdt"];
//! let ending = run(alloc, &words, &printer, &mut files, &mut folders, &mut console, &mut rt.stdout(), &mut rt.stderr());
//! ```
//!
//! `report_failure` says a failure alone, for a caller that never came to a run.
#![tactic(auto)]

mod console;
mod failure;
mod folders;
mod host;
mod lines;
mod printing;
mod program;
mod sources;
mod tables;
mod writing;

pub use acpins_io::{
    FileFault, Files, HostFiles, OpenFile, PartWriter, StreamWriter, UntilFailure, WriteErrors,
};
pub use console::{Console, NoConsole};
pub use failure::{Failure, PrintFault, ReadCause};
pub use folders::Folders;
pub use host::{HostConsole, HostFolders, arguments};
pub use printing::{Output, Print, Printer};
pub use program::{Ending, output_of, report_failure, run, run_telling};
pub use tables::{FoundMachines, FoundTables, TableFile, tables_in};
