//! Numbers and constants.

ghost use Rattle.std.specs.Prelude.{◌≡◌, ◌<◌, ◌++◌, true, decimal, codes};
ghost use Rattle.std.specs.Fmt.{digit_glyph};
ghost use Rattle.acpi_text.specs.Constants.{hex_digits, int_text};
ghost use Rattle.acpi_text.specs.Terms.{raw_text};

use acpi_tree::Int;
use text_buffer::Text;

// A hexadecimal digit, a capital from 10 on.
fn digit(n: u8) -> u8
    requires { n < 16 }
    ensures { result ≡ digit_glyph true n }
{
    if n < 10 { b'0' + n } else { b'A' + (n - 10) }
}

/// Puts the two hexadecimal digits of a byte, in capitals.
pub fn put_byte(text: &mut Text, n: u8)
    ensures { text.new ≡ text.old ++ hex_digits 2 n }
{
    text.put_all(&[digit(n / 16), digit(n % 16)])
}

pub(crate) fn put_word(text: &mut Text, n: u16)
    ensures { text.new ≡ text.old ++ hex_digits 4 n }
{
    put_byte(text, (n / 256) as u8);
    put_byte(text, (n % 256) as u8)
}

pub(crate) fn put_dword(text: &mut Text, n: u32)
    ensures { text.new ≡ text.old ++ hex_digits 8 n }
{
    put_word(text, (n / 0x1_0000) as u16);
    put_word(text, (n % 0x1_0000) as u16)
}

fn put_qword(text: &mut Text, n: u64)
    ensures { text.new ≡ text.old ++ hex_digits 16 n }
{
    put_dword(text, (n / 0x1_0000_0000) as u32);
    put_dword(text, (n % 0x1_0000_0000) as u32)
}

// What stands before a byte that is no constant, and the byte: `0x` and its two digits.
pub(crate) fn put_raw(text: &mut Text, before: &str, n: u8)
    ensures { text.new ≡ text.old ++ (before.now ++ raw_text 1 n) }
{
    text.put(before);
    text.put("0x");
    put_byte(text, n)
}

/// Puts a number's decimal digits: those of its tenth part, and the last one.
pub fn put_decimal(text: &mut Text, n: u64)
    ensures { text.new ≡ text.old ++ decimal n }
{
    if n >= 10 {
        put_decimal(text, n / 10);
    }
    text.put_one(b'0' + (n % 10) as u8)
}

// What stands before a decimal number, and the number.
pub(crate) fn put_number(text: &mut Text, before: &str, n: u64)
    ensures { text.new ≡ text.old ++ (before.now ++ decimal n) }
{
    text.put(before);
    put_decimal(text, n)
}

/// Puts a constant in the form in which it was written (ACPI 6.5, 20.2.3): a word, or `0x` and 2, 4, 8 or
/// 16 digits.
pub fn put_int(text: &mut Text, int: Int)
    ensures { text.new ≡ text.old ++ int_text int }
{
    match int {
        Int::Zero => text.put("Zero"),
        Int::One => text.put("One"),
        Int::Ones => text.put("Ones"),
        Int::Revision => text.put("Revision"),
        Int::Byte(n) => {
            text.put("0x");
            put_byte(text, n)
        }
        Int::Word(n) => {
            text.put("0x");
            put_word(text, n)
        }
        Int::DWord(n) => {
            text.put("0x");
            put_dword(text, n)
        }
        Int::QWord(n) => {
            text.put("0x");
            put_qword(text, n)
        }
    }
}
