//! Files as hexadecimal text.

ghost use Rattle.std.specs.Prelude.{◌≡◌, ◌<◌, ◌∷◌, ◌++◌, ℕ, List, [], None, false, not, IfOk, IfErr, IfSome, IfNone, OnOk};
ghost use Rattle.std.specs.Option.{ForSome};
ghost use Rattle.hex.specs.Hex.{hex_digit_value};
ghost use Rattle.acpins_io.specs.Hexadecimal.{is_blank, SpellsInHex};

use std::alloc::Global;
use thiserror::Error;

/// Why a text gives no bytes.
#[derive(Clone, Copy, Debug, PartialEq, Eq, Error)]
pub enum HexFault {
    /// A character is no hexadecimal digit, or the digits are an odd number.
    #[error("H1 BadHex")]
    BadHex,
    /// A growth of memory was refused.
    #[error("H2 Memory")]
    Memory,
}

fn blank(b: u8) -> bool
    ensures { result ≡ is_blank b }
{
    b == b' ' || b == b'\t' || b == b'\r' || b == b'\n'
}

/// The value of a hexadecimal digit; None where the character is none.
pub(crate) fn digit_value(c: u8) -> Option<u8>
    ensures value { result ≡ hex_digit_value c }
    ensures small { IfSome result (λ value. value < 16) }
{
    match c {
        b'0'..=b'9' => Some(c - b'0'),
        b'a'..=b'f' => Some(c - b'a' + 10),
        b'A'..=b'F' => Some(c - b'A' + 10),
        _ => None,
    }
}

/// Decodes a text part by part: it keeps the bytes so far, and the value of a digit whose second one is to come.
#[derive(Debug, Drop)]
pub struct HexDecoder {
    bytes: Vec<u8>,
    high: Option<u8>,
    ghost in_range: { ForSome high (λ value. value < 16) },
}

impl HexDecoder {
    ghost use Rattle.acpins_io.specs.steps.HexDecoding.{IsDecoded, SpellsNothing};

    /// No text is read yet.
    pub fn new(alloc: Global) -> HexDecoder
        ensures { IsDecoded [] result }
    {
        HexDecoder {
            bytes: Vec::new(alloc),
            high: None,
        }
    }

    // Takes the text's next character.
    fn take(&mut self, c: u8) -> Result<(), HexFault>
        ensures ok { OnOk result ((text : List ℕ) → IsDecoded text self.old
            → IsDecoded (text ++ c ∷ []) self.new) }
        ensures bad { result ≡ Err HexFault.BadHex → SpellsNothing (c ∷ []) }
    {
        if blank(c) {
            return Ok(());
        }
        let Some(value) = digit_value(c) else {
            return Err(HexFault::BadHex);
        };
        let Some(high) = self.high else {
            self.high = Some(value);
            return Ok(());
        };
        let Ok(()) = self.bytes.push(high * 16 + value) else {
            return Err(HexFault::Memory);
        };
        self.high = None;
        Ok(())
    }

    /// Takes the text's next part, unless a character in it can stand in no text.
    pub fn take_part(&mut self, part: &[u8]) -> Result<(), HexFault>
        ensures ok { OnOk result ((text : List ℕ) → IsDecoded text self.old
            → IsDecoded (text ++ part.now) self.new) }
        ensures bad { result ≡ Err HexFault.BadHex → SpellsNothing part.now }
    {
        for c in part {
            self.take(*c)?;
        }
        Ok(())
    }

    /// The bytes of the whole text; None where its digits are an odd number.
    pub fn finish(self) -> Option<Vec<u8>>
        ensures found { (text : List ℕ) → IsDecoded text self
            → IfSome result (λ v. SpellsInHex v.items text) }
        ensures none { IfNone result ((text bytes : List ℕ) → IsDecoded text self
            → SpellsInHex bytes text → ⊥) }
    {
        match self.high {
            None => Some(self.bytes),
            Some(_) => None,
        }
    }
}

/// The bytes whose digits the text has, in either case; spaces, tabs, CR and LF are skipped.
pub fn from_hex(alloc: Global, text: &[u8]) -> Result<Vec<u8>, HexFault>
    ensures found { IfOk result (λ v. SpellsInHex v.items text.now) }
    ensures none { result ≡ Err HexFault.BadHex → (bytes : List ℕ) → SpellsInHex bytes text.now
        → ⊥ }
{
    let mut decoder = HexDecoder::new(alloc);
    decoder.take_part(text)?;
    decoder.finish().ok_or(HexFault::BadHex)
}
