//! Parts of a line, written one after another to a stream.

ghost use Rattle.std.specs.Prelude.{◌≡◌, ℕ, List, Option, Some, Bool, true, false, decimal};
ghost use Rattle.acpins_io.specs.PartsWritten.{WritesUntilFailure};

use crate::streams::write_whole;
use std::io::Write;
use text_buffer::Text;

/// How the parts of a line are written to a stream. Contracts see the bytes that the stream holds, where they
/// are known, and whether a write has failed.
pub trait PartWriter<E> {
    ghost contents: { E → Option (List ℕ) };

    ghost failed: { Self → Bool };

    /// Writes the part, unless a write fails or one has failed.
    fn write_part(&mut self, stream: &mut E, part: &[u8])
        ensures { WritesUntilFailure part.now (failed self.old) (contents stream.old)
            (failed self.new) (contents stream.new) };
}

/// Writes parts to a writer until a write fails, and leaves out what comes after that.
#[derive(Debug, Drop)]
pub struct UntilFailure {
    failed: bool,
}

impl UntilFailure {
    /// No write has failed.
    pub fn new() -> UntilFailure
        ensures { result.failed ≡ false }
    {
        UntilFailure { failed: false }
    }
}

impl<E: Write> PartWriter<E> for UntilFailure {
    ghost contents = { E.contents };

    ghost failed = { λ parts. parts.failed };

    fn write_part(&mut self, stream: &mut E, part: &[u8]) {
        if !self.failed {
            self.failed = !write_whole(stream, part);
        }
    }
}

/// Puts parts behind a text, which remembers itself where memory was refused.
#[derive(Debug, Drop)]
pub struct IntoText;

impl PartWriter<Text> for IntoText {
    ghost contents = { λ text. Some text };

    ghost failed = { λ _. false };

    fn write_part(&mut self, stream: &mut Text, part: &[u8]) {
        stream.put_all(part)
    }
}

/// Writes a text.
pub fn put_text<E, P: PartWriter<E>>(parts: &mut P, err: &mut E, text: &str)
    ensures { WritesUntilFailure text.now (P.failed parts.old) (P.contents err.old)
        (P.failed parts.new) (P.contents err.new) }
{
    parts.write_part(err, text.as_bytes())
}

/// Writes a number's decimal digits: those of its tenth part, and the last one.
pub fn put_number<E, P: PartWriter<E>>(parts: &mut P, err: &mut E, n: usize)
    ensures { WritesUntilFailure (decimal n) (P.failed parts.old) (P.contents err.old)
        (P.failed parts.new) (P.contents err.new) }
{
    if n >= 10 {
        put_number(parts, err, n / 10);
        parts.write_part(err, &[b'0' + (n % 10) as u8])
    } else {
        parts.write_part(err, &[b'0' + n as u8])
    }
}
