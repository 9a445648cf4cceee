//! The files of a run that a page lends.

ghost use Rattle.std.specs.Prelude.{◌≡◌, None, option_map};
ghost use Rattle.std.specs.Option.{option_or};
ghost use Rattle.acpins_io.specs.Faults.{error_of};
ghost use Rattle.acpins_browser.specs.LentFiles.{bytes_in, written_in};

use crate::records::LentFile;
use acpins_io::begins_as_tables;
use acpins_survey_run::{FileFault, Files, OpenFile};
use std::alloc::{AllocError, Global};
use std::io::ErrorKind;

/// The bytes of the first file of that name.
#[tactic(auto, unfolding(crate::specs::LentFiles::bytes_in))]
pub(crate) fn bytes_in<'a>(files: &'a [LentFile<'a>], name: &[u8]) -> Option<&'a [u8]>
    ensures { option_map (λ bytes. bytes.now) result ≡ bytes_in files.now name.now }
{
    match files {
        [] => None,
        [file, rest @ ..] => {
            if file.name == name {
                Some(file.bytes)
            } else {
                bytes_in(rest, name)
            }
        }
    }
}

/// The files that a page lends, and one that a run writes.
#[derive(Drop)]
pub(crate) struct LentFiles<'a> {
    alloc: Global,
    files: &'a [LentFile<'a>],
    // The name of the file that was made last.
    made: Vec<u8>,
    // What was written to it, once it is whole.
    written: Option<Vec<u8>>,
    // The kind of the error with which opening or reading a file failed last.
    last_error: Option<ErrorKind>,
}

impl<'a> LentFiles<'a> {
    /// These files, and none that is written.
    pub(crate) fn new(alloc: Global, files: &'a [LentFile<'a>]) -> LentFiles<'a>
        ensures files { result.files ≡ files.entry }
        ensures none { result.written ≡ None }
    {
        LentFiles {
            alloc,
            files,
            made: Vec::new(alloc),
            written: None,
            last_error: None,
        }
    }
}

impl<'a> Files for LentFiles<'a> {
    ghost bytes_of = { λ s. bytes_in s.files.now };

    ghost written_to = { λ s. written_in (option_map (λ w. w.items) s.written) s.made.items };

    ghost was_made = { λ s name. (s.made.items ≡ name) × (s.written ≡ None) };

    ghost last_error = { λ s. s.last_error };

    type R = &'a [u8];

    type W = Vec<u8>;

    fn open(&mut self, name: &str) -> Result<&'a [u8], FileFault> {
        match bytes_in(self.files, name.as_bytes()) {
            Some(bytes) => Ok(bytes),
            None => {
                self.last_error = Some(ErrorKind::NotFound);
                Err(FileFault::Host(ErrorKind::NotFound))
            }
        }
    }

    fn end_reading(&mut self, file: OpenFile<&'a [u8]>)
        ensures error { self.new.last_error
            ≡ option_or (error_of file.entry.failures file.entry.error) self.old.last_error }
        ensures stays { bytes_in self.new.files.now ≡ bytes_in self.old.files.now }
        ensures others { written_in (option_map (λ w. w.items) self.new.written) self.new.made.items
            ≡ written_in (option_map (λ w. w.items) self.old.written) self.old.made.items }
    {
        self.last_error = file.last_error().or(self.last_error);
    }

    fn holds_tables(&mut self, name: &str) -> Result<bool, AllocError> {
        match bytes_in(self.files, name.as_bytes()) {
            Some(bytes) => Ok(begins_as_tables(bytes)),
            None => Ok(false),
        }
    }

    // A run writes one file at most.
    fn create(&mut self, name: &str) -> Result<Vec<u8>, FileFault> {
        if self.written.is_some() {
            return Err(FileFault::Host(ErrorKind::ResourceBusy));
        }
        self.made = Vec::from_slice(self.alloc, name.as_bytes())?;
        Ok(Vec::new(self.alloc))
    }

    fn close(&mut self, file: Vec<u8>) -> Result<(), FileFault> {
        self.written = Some(file);
        Ok(())
    }
}

impl<'a> LentFiles<'a> {
    /// What the run wrote to a file, if it did.
    pub(crate) fn into_written(self) -> Option<Vec<u8>>
        ensures { result ≡ self.entry.written }
    {
        self.written
    }
}
