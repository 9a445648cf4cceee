//! Pieces of texts.

use acpi_overview_text::put_hex;
use acpi_text::{put_char, put_decimal};
use text_buffer::Text;

/// Puts the decimal digits of a number of 67 bits at most.
pub(crate) fn put_large(text: &mut Text, n: u128) {
    if n >= 10 {
        put_decimal(text, u64::try_from(n / 10).unwrap_or(u64::MAX));
    }
    text.put_one(b'0' + (n % 10) as u8)
}

/// Puts the hexadecimal digits of a number, in capitals.
pub(crate) fn put_large_hex(text: &mut Text, n: u128) {
    let low = (n % (1 << 64)) as u64;
    match u64::try_from(n / (1 << 64)) {
        Ok(high) if high != 0 => {
            put_hex(text, high, 1);
            put_hex(text, low, 16);
        }
        _ => put_hex(text, low, 1),
    }
}

/// Puts bytes of a table as characters of ASCII: others as `\x` and two digits.
pub(crate) fn put_escaped(text: &mut Text, bytes: &[u8]) {
    for b in bytes {
        put_char(text, *b);
    }
}

/// Puts an `s` where there isn't one of something.
pub(crate) fn put_plural(text: &mut Text, count: usize) {
    if count != 1 {
        text.put("s");
    }
}
