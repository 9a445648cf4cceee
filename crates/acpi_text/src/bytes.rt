//! Strings and bytes.

ghost use Rattle.std.specs.Prelude.{◌≡◌, ◌++◌, codes};
ghost use Rattle.acpi_text.specs.Constants.{hex_digits, is_plain, char_text, string_text, separated, bytes_text};

use crate::numbers::put_byte;
use text_buffer::Text;

// A printable character of ASCII, but no quote and no backslash.
fn plain(b: u8) -> bool
    ensures { result ≡ is_plain b }
{
    (0x20..=0x7E).contains(&b) && b != b'"' && b != b'\\'
}

/// Puts a character of a string: itself, or `\x` and two digits where it is no printable one of ASCII, a quote or a
/// backslash.
pub fn put_char(text: &mut Text, b: u8)
    ensures { text.new ≡ text.old ++ char_text b }
{
    if plain(b) {
        text.put_one(b)
    } else {
        text.put("\\x");
        put_byte(text, b)
    }
}

// A string between quotes.
pub(crate) fn put_string(text: &mut Text, bytes: &[u8])
    ensures { text.new ≡ text.old ++ string_text bytes.now }
{
    text.put("\"");
    for b in bytes {
        put_char(text, *b);
    }
    text.put("\"")
}

/// Puts the two hexadecimal digits of each byte, with a blank between each two.
pub fn put_spaced(text: &mut Text, bytes: &[u8])
    ensures { text.new ≡ text.old ++ separated (codes " ") (hex_digits 2) bytes.now }
{
    match bytes {
        [] => {}
        [first, rest @ ..] => {
            put_byte(text, *first);
            for b in rest {
                text.put(" ");
                put_byte(text, *b);
            }
        }
    }
}

// Bytes in braces, two digits each.
pub(crate) fn put_bytes(text: &mut Text, bytes: &[u8])
    ensures { text.new ≡ text.old ++ bytes_text bytes.now }
{
    text.put("{");
    put_spaced(text, bytes);
    text.put("}")
}
