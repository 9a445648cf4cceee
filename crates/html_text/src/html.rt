//! HTML that is written.

ghost use Rattle.std.specs.Prelude.{◌≡◌, ◌++◌, [], IfOk};
ghost use Rattle.html_text.specs.Escape.{entity_of, escaped};

use std::alloc::{AllocError, Global};
use std::marker::Model;
use text_buffer::{Spelled, Spelling, Text};

/// The spelling of data: entities for `<`, `>`, `&`, `"` and `'`.
struct Escaped;

impl Spelled for Escaped {
    ghost spelled = { entity_of };
}

impl Spelling for Escaped {
    fn spell(text: &mut Text, byte: u8) {
        match byte {
            b'<' => text.put("&lt;"),
            b'>' => text.put("&gt;"),
            b'&' => text.put("&amp;"),
            b'"' => text.put("&quot;"),
            b'\'' => text.put("&#39;"),
            _ => text.put_one(byte),
        }
    }
}

/// HTML that is written, seen as its bytes.
#[derive(Drop)]
pub struct Html {
    written: Text,
}

impl Model for Html {
    ghost use Rattle.std.specs.Prelude.{List, ℕ};

    ghost Value = { List ℕ };

    ghost view = { λ h. h.written };
}

impl Html {
    /// Nothing is written.
    pub fn new(alloc: Global) -> Html
        ensures { result ≡ [] }
    {
        Html {
            written: Text::new(alloc),
        }
    }

    /// Puts markup behind what is written.
    pub fn markup(&mut self, markup: &'static str)
        ensures { self.new ≡ self.old ++ markup.now }
    {
        self.written.put(markup)
    }

    /// Puts data behind what is written, in content or in an attribute's value between quotes: `<`, `>`, `&`, `"` and
    /// `'` as entities, other bytes as they are.
    pub fn text(&mut self, bytes: &[u8])
        ensures { self.new ≡ self.old ++ escaped bytes.now }
    {
        self.written.put_spelled::<Escaped>(bytes)
    }

    /// Puts what a text says as data.
    pub fn text_of(&mut self, text: &Text)
        ensures { self.new ≡ self.old ++ escaped text.now }
    {
        self.written.put_spelled_text::<Escaped>(text)
    }

    /// The bytes; an error where a growth of memory was refused.
    pub fn into_bytes(self) -> Result<Vec<u8>, AllocError>
        ensures { IfOk result (λ bytes. bytes.items ≡ self) }
    {
        self.written.into_bytes()
    }
}
