//! The files that a run opens and makes.

ghost use Rattle.std.specs.Prelude.{◌≡◌, ◌≢◌, ℕ, List, [], Option, Some, None, IfOk, OnOk, IfErr, OnErr, IfSome, ⊤};
ghost use Rattle.std.specs.Io.KnownBytes.{Appends, Keeps};
ghost use Rattle.std.specs.Option.{option_or};
ghost use Rattle.std.specs.declared.io.ErrorKind.{ErrorKind};
ghost use Rattle.std.specs.IoError.{error_kind};
ghost use Rattle.acpins_io.specs.Dump.{begins_as_tables};
ghost use Rattle.acpins_io.specs.Faults.{IsLastError, error_of, fault_of};
ghost use Rattle.acpins_io.specs.FilesWritten.{Holds};
ghost use Rattle.acpins_io.specs.declared.files.FileFault.{FileFault};

use crate::open_file::OpenFile;
use std::alloc::{AllocError, AllocFailed};
use std::io;
use std::io::{ErrorKind, Read, Write};

/// Why a file can't be opened, made, read, written or ended.
#[derive(Clone, Copy, Debug, PartialEq, Eq)]
pub enum FileFault {
    /// The host refused it, with an error of this kind.
    Host(ErrorKind),
    /// A growth of memory was refused.
    Memory,
}

impl From<io::Error> for FileFault {
    ghost from_gives = { λ e f. f ≡ fault_of (error_kind e) };

    fn from(error: io::Error) -> FileFault {
        match error.kind() {
            ErrorKind::OutOfMemory => FileFault::Memory,
            kind => FileFault::Host(kind),
        }
    }
}

impl From<AllocError> for FileFault {
    ghost from_gives = { λ _ f. f ≡ FileFault.Memory };

    fn from(_error: AllocError) -> FileFault {
        FileFault::Memory
    }
}

impl<T: Drop> From<AllocFailed<T>> for FileFault {
    ghost from_gives = { λ _ f. f ≡ FileFault.Memory };

    fn from(_failed: AllocFailed<T>) -> FileFault {
        FileFault::Memory
    }
}

/// Files by name, as the words give it. Contracts see the bytes of the file of each name, and what was written to it
/// since the run began, where these are known; and the error with which a file failed last to be opened or read.
pub trait Files {
    // The bytes of each file before the run. Nothing is said of what making or ending a file does to them.
    ghost bytes_of: { Self → List ℕ → Option (List ℕ) } = { λ _ _. None };

    // What was written to each file that was ended; none to one that was never made.
    ghost written_to: { Self → List ℕ → Option (List ℕ) } = { λ _ _. None };

    // Whether the file that was made last was made under that name; any name may be it, where that is not known.
    ghost was_made: { Self → List ℕ → Type 0 } = { λ _ _. ⊤ };

    // The kind of the error with which opening or reading a file failed last.
    ghost last_error: { Self → Option ErrorKind };

    /// A file that is read.
    type R: Read + Drop;

    /// A file that is written.
    type W: Write + Drop;

    /// Opens the file to be read from its first byte.
    fn open(&mut self, name: &str) -> Result<Self::R, FileFault>
        ensures bytes { IfOk result (λ file. IfSome (bytes_of self.old name.now)
            (λ bytes. Self.R.remaining file ≡ Some bytes)) }
        ensures opened { OnOk result (last_error self.new ≡ last_error self.old) }
        ensures failed { IfErr result (λ fault. IsLastError fault (last_error self.new)) }
        ensures stays { bytes_of self.new ≡ bytes_of self.old }
        ensures others { written_to self.new ≡ written_to self.old };

    /// Ends reading a file. If a read of it failed, that error is the last one.
    fn end_reading(&mut self, file: OpenFile<Self::R>)
        ensures error { last_error self.new
            ≡ option_or (error_of file.failures file.error) (last_error self.old) }
        ensures stays { bytes_of self.new ≡ bytes_of self.old }
        ensures others { written_to self.new ≡ written_to self.old };

    /// Whether what stands under that name begins as tables do. Only a file that is no stream is looked at, since what is
    /// read of a pipe is gone; one that can't be opened or read is taken for none.
    fn holds_tables(&mut self, name: &str) -> Result<bool, AllocError>
        ensures begins { IfOk result (λ holds. IfSome (bytes_of self.old name.now)
            (λ bytes. holds ≡ begins_as_tables bytes)) }
        ensures stays { bytes_of self.new ≡ bytes_of self.old }
        ensures others { written_to self.new ≡ written_to self.old };

    /// Makes a file, which is to stand under that name once it is closed; what stands there stays until then. Files
    /// are made one at a time: the next one is made when this one was closed or given up.
    fn create(&mut self, name: &str) -> Result<Self::W, FileFault>
        ensures made { OnOk result (was_made self.new name.now) }
        ensures empty { IfOk result (λ file. IfSome (written_to self.old name.now)
            (λ _. Self.W.contents file ≡ Some [])) }
        ensures stays { written_to self.new ≡ written_to self.old };

    /// Ends the file that was made last, which was written whole. One that can't be ended is given up.
    fn close(&mut self, file: Self::W) -> Result<(), FileFault>
        ensures written { OnOk result ((name : List ℕ) → was_made self.old name
            → IfSome (written_to self.old name)
            (λ _. Keeps (Self.W.contents file) (written_to self.new name))) }
        ensures others { (name other : List ℕ) → was_made self.old name → other ≢ name
            → written_to self.new other ≡ written_to self.old other }
        ensures left { OnErr result (written_to self.new ≡ written_to self.old) };

    /// Gives up a file that was not written whole.
    fn abandon(&mut self, _file: Self::W)
        ensures stays { written_to self.new ≡ written_to self.old }
    {}
}

// Writes the bytes, and what the writer holds back of them.
fn write_and_flush<W: Write>(file: &mut W, bytes: &[u8]) -> io::Result<()>
    ensures { OnOk result (Appends (W.contents file.old) (W.contents file.new) bytes.now) }
{
    file.write_all(bytes)?;
    file.flush()
}

/// Makes the file of that name, and writes the bytes to it. Where that fails, what stands under the name stays.
pub fn write_file<F: Files>(files: &mut F, name: &str, bytes: &[u8]) -> Result<(), FileFault>
    ensures held { OnOk result (Holds (F.written_to files.old name.now)
        (F.written_to files.new name.now) bytes.now) }
    ensures others { (other : List ℕ) → other ≢ name.now
        → F.written_to files.new other ≡ F.written_to files.old other }
    ensures left { OnErr result (F.written_to files.new ≡ F.written_to files.old) }
{
    let mut file = files.create(name)?;
    if let Err(error) = write_and_flush(&mut file, bytes) {
        files.abandon(file);
        return Err(FileFault::from(error));
    }
    files.close(file)
}
