//! A text that is put piece by piece.

ghost use Rattle.std.specs.Prelude.{◌≡◌, ◌≤◌, ◌-◌, [], ◌∷◌, ◌++◌, IfOk, length, take};
ghost use Rattle.std.specs.List.{flat_map};

use crate::said::{Said, Spelled};
use std::alloc::{AllocError, Global};
use std::marker::Model;

/// A text to which pieces are said one after another. Where a growth of memory is refused it remembers that, and keeps
/// no more of what is said: `into_bytes` tells it. Contracts see all that was said.
#[derive(Drop)]
pub struct Text {
    bytes: Vec<u8>,
    failed: bool,
    said: Said,
}

impl Model for Text {
    ghost use Rattle.std.specs.Prelude.{◌≡◌, ℕ, List, false};

    ghost Value = { List ℕ };

    ghost view = { λ t. t.said.bytes };

    ghost invariant = { λ t. t.failed ≡ false → t.bytes.items ≡ t.said.bytes };
}

impl Text {
    /// Nothing was said yet.
    pub fn new(alloc: Global) -> Text
        ensures { result ≡ [] }
    {
        Text {
            bytes: Vec::new(alloc),
            failed: false,
            said: Said::nothing(),
        }
    }

    /// Puts bytes behind the text.
    pub fn put_all(&mut self, bytes: &[u8])
        ensures { self.new ≡ self.old ++ bytes.now }
    {
        self.said.add(bytes);
        if !self.failed {
            self.failed = self.bytes.extend_from_slice(bytes).is_err();
        }
    }

    /// Puts characters behind the text.
    pub fn put(&mut self, characters: &str)
        ensures { self.new ≡ self.old ++ characters.now }
    {
        self.put_all(characters.as_bytes())
    }

    /// Puts a byte behind the text.
    pub fn put_one(&mut self, byte: u8)
        ensures { self.new ≡ self.old ++ byte ∷ [] }
    {
        self.put_all(&[byte])
    }

    /// Puts another text behind the text.
    pub fn put_text(&mut self, other: &Text)
        ensures { self.new ≡ self.old ++ other.now }
    {
        self.said.add_all(&other.said);
        if !self.failed {
            self.failed = other.failed || self.bytes.extend_from_slice(&other.bytes).is_err();
        }
    }

    /// Puts bytes, each as it is spelled.
    pub fn put_spelled<S: Spelling>(&mut self, bytes: &[u8])
        ensures { self.new ≡ self.old ++ flat_map S.spelled bytes.now }
    {
        put_each::<S>(self, bytes)
    }

    /// Puts what another text says, each byte as it is spelled.
    pub fn put_spelled_text<S: Spelling>(&mut self, other: &Text)
        ensures { self.new ≡ self.old ++ flat_map S.spelled other.now }
    {
        if other.failed {
            self.said.add_spelled::<S>(&other.said);
            self.failed = true;
        } else {
            put_each::<S>(self, &other.bytes);
        }
    }

    /// Takes back the last bytes of the text, that many.
    pub fn remove_last(&mut self, count: usize)
        requires { count ≤ length self.old }
        ensures { self.new ≡ take (length self.old - count) self.old }
    {
        self.said.remove_last(count);
        if !self.failed {
            self.bytes.truncate(self.bytes.len() - count);
        }
    }

    /// Takes back all.
    pub fn clear(&mut self)
        ensures { self.new ≡ [] }
    {
        self.said = Said::nothing();
        if !self.failed {
            self.bytes.clear();
        }
    }

    /// The allocator of the text.
    pub fn alloc(&self) -> Global {
        *self.bytes.allocator()
    }

    /// The bytes so far; an error where a growth of memory was refused.
    pub fn bytes(&self) -> Result<&[u8], AllocError>
        ensures { IfOk result (λ bytes. bytes.now ≡ self.now) }
    {
        if !self.failed {
            return Ok(&self.bytes);
        }
        Err(AllocError)
    }

    /// The whole text; an error where a growth of memory was refused.
    pub fn into_bytes(self) -> Result<Vec<u8>, AllocError>
        ensures { IfOk result (λ bytes. bytes.items ≡ self) }
    {
        if self.failed {
            Err(AllocError)
        } else {
            Ok(self.bytes)
        }
    }
}

/// How a byte of a text is spelled in another one, as between quotes.
pub trait Spelling: Spelled {
    /// Puts the spelling of a byte.
    fn spell(text: &mut Text, byte: u8)
        ensures { text.new ≡ text.old ++ Self.spelled byte };
}

// Puts the spelling of each byte.
fn put_each<S: Spelling>(text: &mut Text, bytes: &[u8])
    ensures { text.new ≡ text.old ++ flat_map S.spelled bytes.now }
{
    for byte in bytes {
        S::spell(text, *byte);
    }
}
