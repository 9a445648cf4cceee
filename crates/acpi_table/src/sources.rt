//! Sources that bytes are read from, piece by piece.

ghost use Rattle.std.specs.Prelude.{◌≡◌, ◌≤◌, ◌<◌, ℕ, List, Option, Some, None, Ok, length, take, IfOk, OnOk, OnErr};
ghost use Rattle.std.specs.Io.KnownBytes.{Consumes, IsAtEnd};
ghost use Rattle.acpi_table.specs.Sources.{one_more};

use std::io::Read;
use std::marker::Model;
use thiserror::Error;

/// A read failed, for whatever cause.
#[derive(Debug, Clone, Copy, PartialEq, Eq, Error)]
#[error("a read failed")]
pub struct SourceFault;

/// What bytes are read from. Contracts see the bytes still to come, where a source tells them, and the
/// number of its failures, which stands still at 2^64 - 1.
pub trait Source {
    ghost coming: { Self → Option (List ℕ) };

    ghost failures: { Self → ℕ };

    /// Puts the next bytes first in the buffer, and says how many. None come only at the end of the
    /// input, or where the buffer is empty. After a fault nothing is said of the bytes still to come.
    fn read(&mut self, buf: &mut [u8]) -> Result<usize, SourceFault>
        ensures within { IfOk result (λ n. n ≤ length buf.new) }
        ensures taken { IfOk result (λ n. Consumes (coming self.old) (coming self.new)
            (take n buf.new)) }
        ensures ended { result ≡ Ok 0 → 0 < length buf.new → IsAtEnd (coming self.new) }
        ensures kept { OnOk result (failures self.new ≡ failures self.old) }
        ensures failed { OnErr result (failures self.new ≡ one_more (failures self.old)) };
}

/// The bytes of a slice, from the first to the last. Contracts see it as the bytes still to come.
#[derive(Debug, Drop)]
pub struct SliceSource<'a> {
    rest: &'a [u8],
}

impl<'a> Model for SliceSource<'a> {
    ghost use Rattle.std.specs.Prelude.{ℕ, List};

    ghost Value = { List ℕ };

    ghost view = { λ s. s.rest.now };
}

impl<'a> SliceSource<'a> {
    /// A source of these bytes.
    pub fn new(bytes: &'a [u8]) -> Self
        ensures { result ≡ bytes.now }
    {
        SliceSource { rest: bytes }
    }

    /// The bytes still to come.
    pub fn rest(&self) -> &'a [u8]
        ensures { result.now ≡ self.now }
    {
        self.rest
    }
}

impl<'a> Source for SliceSource<'a> {
    ghost coming = { λ s. Some s };

    ghost failures = { λ _. 0 };

    fn read(&mut self, buf: &mut [u8]) -> Result<usize, SourceFault> {
        let count = buf.len().min(self.rest.len());
        let (front, rest) = self.rest.split_at(count);
        buf[..count].copy_from_slice(front);
        self.rest = rest;
        Ok(count)
    }
}

/// A source of what a reader gives. It tells the bytes still to come where the reader does. A read that
/// fails for any cause, an interruption too, is one failure.
#[derive(Debug, Drop)]
pub struct FromRead<R> {
    reader: R,
    failed: u64,
}

impl<R: Read> FromRead<R> {
    /// A source of what this reader gives, with no failure yet.
    pub fn new(reader: R) -> Self
        ensures fresh { ⟦<FromRead<R> as Source>⟧.failures result ≡ 0 }
        ensures same { ⟦<FromRead<R> as Source>⟧.coming result ≡ R.remaining reader }
    {
        FromRead { reader, failed: 0 }
    }

    /// How many reads have failed, up to 2^64 - 1.
    pub fn failures(&self) -> u64
        ensures { result ≡ ⟦<FromRead<R> as Source>⟧.failures self.now }
    {
        self.failed
    }
}

impl<R: Read> Source for FromRead<R> {
    ghost coming = { λ s. R.remaining s.reader };

    ghost failures = { λ s. s.failed };

    fn read(&mut self, buf: &mut [u8]) -> Result<usize, SourceFault> {
        match self.reader.read(buf) {
            Ok(count) => Ok(count),
            Err(_) => {
                self.failed = self.failed.saturating_add(1);
                Err(SourceFault)
            }
        }
    }
}
