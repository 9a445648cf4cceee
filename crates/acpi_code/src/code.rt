//! The code of a table, as readers go through it.

ghost use Rattle.std.specs.Prelude.{◌≡◌, ◌-◌, ◌+◌, ◌≤◌, ◌==◌, [], length, take, drop, IfOk};
ghost use Rattle.acpi_code.specs.steps.Reading.{fault_at, no_level};

use crate::fault::{CodeFault, CodeReason};
use bytes::Bytes;
use std::alloc::{AllocError, Global};
use std::marker::Model;

/// What is left of a list of terms: all of the code, or what a package of it holds (ACPI 6.5, 20.2.4).
///
/// Each reader takes what stands at its front, and leaves what is behind it; after a fault it is known no longer
/// what is left. Places count bytes from the first byte of the code. A clause sees the bytes that are left, and
/// the place of their end.
#[derive(Drop)]
pub struct Code<'a> {
    left: &'a [u8],
    end: usize,
    // All of the code, where its bytes can be shared.
    shared: Option<&'a Bytes>,
}

impl<'a> Model for Code<'a> {
    ghost use Rattle.std.specs.Prelude.{option_map};
    ghost use Rattle.acpi_code.specs.steps.Remaining.{Remaining};
    ghost use Rattle.acpi_code.specs.steps.Within.{IsWithin};

    ghost Value = { Remaining };

    ghost view = { λ a. record { bytes = a.left.now; end = a.end } };

    ghost invariant = { λ a. IsWithin a.left.now a.end (option_map (λ b. b.now) a.shared) };
}

impl<'a> Code<'a> {
    /// All of the code. Shares of it are copies.
    pub fn new(code: &'a [u8]) -> Code<'a>
        ensures bytes { result.bytes ≡ code.now }
        ensures ends { result.end ≡ length code.now }
    {
        let end = code.len();
        Code {
            left: code,
            end,
            shared: None,
        }
    }

    /// All of the code, whose shares take no copy.
    pub fn shared(code: &'a Bytes) -> Code<'a>
        ensures bytes { result.bytes ≡ code.now }
        ensures ends { result.end ≡ length code.now }
    {
        let left = code.as_slice();
        Code {
            left,
            end: left.len(),
            shared: Some(code),
        }
    }

    /// The bytes that are left.
    pub fn left(&self) -> &'a [u8]
        ensures { result.now ≡ self.now.bytes }
    {
        self.left
    }

    /// The place of the next byte, or of the end: a number of bytes from the first byte of the code.
    pub fn place(&self) -> usize
        ensures { result ≡ self.now.end - length self.now.bytes }
    {
        self.end - self.left.len()
    }

    /// Whether nothing is left.
    pub fn is_empty(&self) -> bool
        ensures { result ≡ (length self.now.bytes == 0) }
    {
        self.left.is_empty()
    }

    /// Another one that stands where this one does, to look ahead or to come back to.
    pub fn fork(&self) -> Code<'a>
        ensures { result ≡ self.now }
    {
        Code {
            left: self.left,
            end: self.end,
            shared: self.shared,
        }
    }

    /// The bytes that are left: a share of the code where it was given to be shared, and else a copy.
    pub fn share(&self, alloc: Global) -> Result<Bytes, AllocError>
        ensures { IfOk result (λ b. b ≡ self.now.bytes) }
    {
        match self.shared {
            Some(code) => code.slice(self.place()..self.end),
            None => Bytes::copy_from_slice(alloc, self.left),
        }
    }

    /// Goes past so many bytes, which must be left.
    pub fn skip(&mut self, count: usize)
        requires { count ≤ length self.old.bytes }
        ensures bytes { self.new.bytes ≡ drop count self.old.bytes }
        ensures same { self.new.end ≡ self.old.end }
    {
        self.left = &self.left[count..];
    }

    /// Goes past so many bytes, which must be left, and answers what they are: a list of their own.
    pub fn split(&mut self, count: usize) -> Code<'a>
        requires { count ≤ length self.old.bytes }
        ensures bytes { result.bytes ≡ take count self.old.bytes }
        ensures ends { result.end ≡ self.old.end - length self.new.bytes }
        ensures behind { self.new.bytes ≡ drop count self.old.bytes }
        ensures same { self.new.end ≡ self.old.end }
    {
        let (inner, behind) = self.left.split_at(count);
        self.left = behind;
        Code {
            left: inner,
            end: self.end - behind.len(),
            shared: self.shared,
        }
    }

    /// The fault whose place is that of the next byte, or of the end.
    pub fn fault_here(&self, reason: CodeReason) -> CodeFault
        ensures { result ≡ fault_at self.now.end self.now.bytes reason }
    {
        CodeFault {
            reason,
            place: self.place(),
        }
    }

    /// The fault that the list ends where a byte is needed: `Cut` at the end.
    pub fn cut(&self) -> CodeFault
        ensures { result ≡ fault_at self.now.end [] CodeReason.Cut }
    {
        CodeFault {
            reason: CodeReason::Cut,
            place: self.end,
        }
    }

    /// The fault where a term must begin and no level is left for it: `TooDeep` at the next byte, or `Cut` where
    /// nothing is left.
    pub fn too_deep(&self) -> CodeFault
        ensures { result ≡ no_level self.now.end self.now.bytes }
    {
        match self.left {
            [] => self.cut(),
            _ => self.fault_here(CodeReason::TooDeep),
        }
    }
}
