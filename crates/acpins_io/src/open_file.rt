//! Files that are read.

ghost use Rattle.std.specs.Prelude.{◌≡◌, Some, IfErr, OnOk, OnErr};
ghost use Rattle.std.specs.Io.{ReadsAtMost};
ghost use Rattle.std.specs.Io.KnownBytes.{ReadConsumes};
ghost use Rattle.std.specs.IoError.{error_kind};
ghost use Rattle.acpi_table.specs.Sources.{one_more};
ghost use Rattle.acpins_io.specs.Faults.{error_of};

use acpi_table::{Source, SourceFault};
use std::io;
use std::io::{ErrorKind, Read};

/// A file that is open to be read. It counts the reads that fail, up to 2^64 - 1, and keeps the kind of the last error.
#[derive(Debug, Drop)]
pub struct OpenFile<R> {
    reader: R,
    failures: u64,
    error: ErrorKind,
}

impl<R: Read> OpenFile<R> {
    /// A file of which no read has failed.
    pub fn new(reader: R) -> Self
        ensures fresh { result.failures ≡ 0 }
        ensures same { result.reader ≡ reader }
    {
        OpenFile {
            reader,
            failures: 0,
            error: ErrorKind::Other,
        }
    }

    /// The kind of the error with which a read failed last; None where none has failed.
    pub fn last_error(&self) -> Option<ErrorKind>
        ensures { result ≡ error_of self.now.failures self.now.error }
    {
        if self.failures == 0 {
            return None;
        }
        Some(self.error)
    }
}

impl<R: Read> Read for OpenFile<R> {
    ghost remaining = { λ file. R.remaining file.reader };

    fn read(&mut self, bytes: &mut [u8]) -> io::Result<usize>
        ensures bound { ReadsAtMost result bytes.new }
        ensures bytes { ReadConsumes (R.remaining self.old.reader) (R.remaining self.new.reader)
            result bytes.new }
        ensures kept { OnOk result (self.new.failures ≡ self.old.failures) }
        ensures failed { OnErr result (self.new.failures ≡ one_more self.old.failures) }
        ensures error { IfErr result
            (λ e. error_of self.new.failures self.new.error ≡ Some (error_kind e)) }
    {
        match self.reader.read(bytes) {
            Ok(count) => Ok(count),
            Err(error) => {
                self.failures = self.failures.saturating_add(1);
                self.error = error.kind();
                Err(error)
            }
        }
    }
}

impl<R: Read> Source for OpenFile<R> {
    ghost coming = { λ file. R.remaining file.reader };

    ghost failures = { λ file. file.failures };

    fn read(&mut self, buf: &mut [u8]) -> Result<usize, SourceFault> {
        Read::read(self, buf).map_err(|_error| SourceFault)
    }
}
