//! Bytes that are written to a stream.

ghost use Rattle.std.specs.Prelude.{◌≡◌, ℕ, List, Option, Some, None, IfErr, IsTrue};
ghost use Rattle.std.specs.Io.{WritesAtMost};
ghost use Rattle.std.specs.Io.KnownBytes.{Appends, Keeps, WriteAppends};
ghost use Rattle.std.specs.IoError.{error_kind};
ghost use Rattle.std.specs.declared.io.ErrorKind.{ErrorKind};
ghost use Rattle.acpins_io.specs.PartsWritten.{AppendsBeginning};

use std::io;
use std::io::{ErrorKind, Write};

/// How bytes are written to a stream. Contracts see the bytes that the stream holds, where they are known, and the kind
/// of the error with which writing failed last.
pub trait StreamWriter<E> {
    ghost contents: { E → Option (List ℕ) };

    ghost last_error: { Self → Option ErrorKind };

    /// Writes the first of the bytes, and answers how many.
    fn write(&mut self, stream: &mut E, bytes: &[u8]) -> io::Result<usize>
        ensures bound { WritesAtMost result bytes.now }
        ensures bytes { WriteAppends (contents stream.old) (contents stream.new) result bytes.now }
        ensures failed { IfErr result (λ e. last_error self.new ≡ Some (error_kind e)) };

    /// Brings the bytes that the stream holds back to where it leads.
    fn flush(&mut self, stream: &mut E) -> io::Result<()>
        ensures bytes { Keeps (contents stream.old) (contents stream.new) }
        ensures failed { IfErr result (λ e. last_error self.new ≡ Some (error_kind e)) };
}

/// Writes to a writer, and keeps the kind of the last error.
#[derive(Debug, Drop)]
pub struct WriteErrors {
    last: Option<ErrorKind>,
}

impl WriteErrors {
    /// No write has failed.
    pub fn new() -> WriteErrors
        ensures { result.last ≡ None }
    {
        WriteErrors { last: None }
    }
}

impl<E: Write> StreamWriter<E> for WriteErrors {
    ghost contents = { E.contents };

    ghost last_error = { λ errors. errors.last };

    fn write(&mut self, stream: &mut E, bytes: &[u8]) -> io::Result<usize> {
        match stream.write(bytes) {
            Ok(count) => Ok(count),
            Err(error) => {
                self.last = Some(error.kind());
                Err(error)
            }
        }
    }

    fn flush(&mut self, stream: &mut E) -> io::Result<()> {
        match stream.flush() {
            Ok(()) => Ok(()),
            Err(error) => {
                self.last = Some(error.kind());
                Err(error)
            }
        }
    }
}

/// What becomes of bytes that are written to a stream.
#[derive(Clone, Copy, Debug, PartialEq, Eq)]
pub enum Written {
    /// The stream has all of them.
    Whole,
    /// Nobody reads the stream any more: it has a beginning of them.
    Unread,
    /// A write failed for another reason: the stream has a beginning of them.
    Failed,
}

// What a write that failed comes to.
fn written_of(kind: ErrorKind) -> Written
    ensures part { result ≡ Written.Whole → ⊥ }
    ensures unread { result ≡ Written.Unread → kind ≡ ErrorKind.BrokenPipe }
{
    match kind {
        ErrorKind::BrokenPipe => Written::Unread,
        _ => Written::Failed,
    }
}

/// Writes the bytes until a write fails. A write that was interrupted is tried again.
pub fn write_bytes<E, W: StreamWriter<E>>(writer: &mut W, stream: &mut E, bytes: &[u8]) -> Written
    ensures whole { result ≡ Written.Whole
        → Appends (W.contents stream.old) (W.contents stream.new) bytes.now }
    ensures begins { AppendsBeginning bytes.now (W.contents stream.old) (W.contents stream.new) }
    // That nobody reads the stream is what its last error says.
    ensures unread { result ≡ Written.Unread
        → W.last_error writer.new ≡ Some ErrorKind.BrokenPipe }
{
    let mut written = 0;
    for _ in 0..u64::MAX {
        if written == bytes.len() {
            return Written::Whole;
        }
        match writer.write(stream, &bytes[written..]) {
            Ok(0) => return Written::Failed,
            Ok(count) => written = written + count,
            Err(error) if error.kind() == ErrorKind::Interrupted => {}
            Err(error) => return written_of(error.kind()),
        }
    }
    Written::Failed
}

/// The same, and then brings what the stream holds back to where it leads.
pub fn write_out<E, W: StreamWriter<E>>(writer: &mut W, stream: &mut E, bytes: &[u8]) -> Written
    ensures whole { result ≡ Written.Whole
        → Appends (W.contents stream.old) (W.contents stream.new) bytes.now }
    ensures begins { AppendsBeginning bytes.now (W.contents stream.old) (W.contents stream.new) }
    ensures unread { result ≡ Written.Unread
        → W.last_error writer.new ≡ Some ErrorKind.BrokenPipe }
{
    match write_bytes(writer, stream, bytes) {
        Written::Whole => {}
        failed => return failed,
    }
    match writer.flush(stream) {
        Ok(()) => Written::Whole,
        Err(error) => written_of(error.kind()),
    }
}

/// Writes the bytes to a writer until a write fails, and answers whether they were written whole.
pub fn write_whole<E: Write>(stream: &mut E, bytes: &[u8]) -> bool
    ensures whole { IsTrue result → Appends (E.contents stream.old)
        (E.contents stream.new) bytes.now }
    ensures begins { AppendsBeginning bytes.now (E.contents stream.old) (E.contents stream.new) }
{
    match write_bytes(&mut WriteErrors::new(), stream, bytes) {
        Written::Whole => true,
        Written::Unread | Written::Failed => false,
    }
}
