//! Numbers, ranges and words that hold together.

use acpi_infix::put_constant;
use acpi_overview_text::{put_count, put_hex};
use acpi_text::put_decimal;
use text_buffer::Text;

/// A byte in a text of this crate that is a blank at which no line is broken. No other byte above 7E stands in one.
pub const NO_BREAK: u8 = 0xA0;

/// The most bytes of words that hold together on one line.
const SHORT: usize = 30;

/// Puts words that hold together.
pub fn put_joined(text: &mut Text, words: &[u8]) {
    for byte in words {
        text.put_one(if *byte == b' ' { NO_BREAK } else { *byte });
    }
}

/// Puts words, which hold together where they are short.
pub fn put_short_joined(text: &mut Text, words: &[u8]) {
    if words.len() < SHORT {
        put_joined(text, words)
    } else {
        text.put_all(words)
    }
}

/// Puts the first and the last of some numbers, or the only one.
pub fn put_span(text: &mut Text, from: u64, last: u64) {
    put_constant(text, from);
    if last != from {
        text.put("-");
        put_constant(text, last);
    }
}

/// Puts decimal numbers, those that count up as one: `3-6 10-12`. They stand in order.
pub fn put_decimal_runs(text: &mut Text, numbers: &[u64]) {
    let mut before: Option<u64> = None;
    let mut is_run = false;
    for number in numbers {
        let follows = before.and_then(|b| b.checked_add(1)) == Some(*number);
        match before {
            Some(last) if !follows => {
                if is_run {
                    text.put("-");
                    put_decimal(text, last);
                }
                text.put(" ");
                put_decimal(text, *number);
            }
            None => put_decimal(text, *number),
            _ => {}
        }
        is_run = follows;
        before = Some(*number);
    }
    if let (true, Some(last)) = (is_run, before) {
        text.put("-");
        put_decimal(text, last);
    }
}

/// Puts a number of things and what they are called, by one word for one of them and another for more.
pub fn put_number_of(text: &mut Text, count: usize, one: &str, more: &str) {
    put_count(text, count as u64);
    text.put(" ");
    text.put(if count == 1 { one } else { more })
}

/// The number of a function on a PCI bus: eight for each device.
pub fn function_number(device: u16, function: u16) -> u64 {
    (u64::from(device) << 3).saturating_add(u64::from(function % 8))
}

/// Puts a device and a function of a PCI bus: `1F.0`, and `1F.*` for all functions.
pub fn put_function(text: &mut Text, device: u16, function: u16) {
    put_hex(text, u64::from(device), 2);
    text.put(".");
    if function == 0xFFFF {
        text.put("*")
    } else {
        put_hex(text, u64::from(function), 1)
    }
}

/// Puts a UUID in its usual form: the first three numbers have their least byte first.
pub fn put_uuid(text: &mut Text, bytes: &[u8; 16]) {
    const ORDER: [usize; 16] = [3, 2, 1, 0, 5, 4, 7, 6, 8, 9, 10, 11, 12, 13, 14, 15];
    for (place, from) in ORDER.iter().enumerate() {
        if matches!(place, 4 | 6 | 8 | 10) {
            text.put("-");
        }
        if let Some(byte) = bytes.get(*from) {
            put_hex(text, u64::from(*byte), 2);
        }
    }
}
