//! What the programs read and write: files by name, lines on a stream, hexadecimal text, and the text of `acpidump`.
//!
//! ```text
//! name ── Files::open ──► bytes         HostFiles: the files of the host; OpenFile: the failures to read one
//! bytes ─ write_file ───► a file
//! text ── from_hex ─────► bytes         HexDecoder: part by part
//! text ── tables_in_dump ► tables       of the text that acpidump writes
//! line ── PartWriter ───► a stream      UntilFailure: until a write fails; IntoText: into a `Text`
//! bytes ─ StreamWriter ─► a stream      WriteErrors: the errors of a writer
//! ```
#![tactic(auto)]

mod dump;
mod files;
mod hexadecimal;
mod host;
mod open_file;
mod parts;
mod streams;

pub use dump::{begins_as_tables, is_header, tables_in_dump};
pub use files::{FileFault, Files, write_file};
pub use hexadecimal::{HexDecoder, HexFault, from_hex};
pub use host::{HostFile, HostFiles, HostReader};
pub use open_file::OpenFile;
pub use parts::{IntoText, PartWriter, UntilFailure, put_number, put_text};
pub use streams::{StreamWriter, WriteErrors, Written, write_bytes, write_out, write_whole};
