//! Words of the report: paths, numbers and sizes as an engineer writes them.

use acpi_name::{Path, Seg};
use acpi_text::{put_char, put_decimal};
use text_buffer::Text;

// ---- what a text has

/// Whether a text has nothing yet; not where a growth of memory was refused.
pub fn is_empty(text: &Text) -> bool {
    match text.bytes() {
        Ok(bytes) => bytes.is_empty(),
        Err(_) => false,
    }
}

/// How many bytes a text has; none where a growth of memory was refused.
pub fn length_of(text: &Text) -> usize {
    match text.bytes() {
        Ok(bytes) => bytes.len(),
        Err(_) => 0,
    }
}

/// Puts what stands between two words, where the text has a word.
pub fn put_between(text: &mut Text, separator: &str) {
    if !is_empty(text) {
        text.put(separator);
    }
}

// ---- numbers

fn digit(n: u64) -> u8 {
    let n = (n % 16) as u8;
    if n < 10 { b'0' + n } else { b'A' + (n - 10) }
}

/// Puts the hexadecimal digits of a number in capitals, as many as it has but at least so many.
pub fn put_hex(text: &mut Text, n: u64, digits: u32) {
    for i in 0..16u32 {
        let place = 15 - i;
        let rest = n >> (place * 4);
        if rest != 0 || place < digits {
            text.put_one(digit(rest));
        }
    }
}

// Puts three digits.
fn put_three(text: &mut Text, n: u64) {
    let n = n % 1000;
    text.put_one(b'0' + (n / 100) as u8);
    text.put_one(b'0' + (n / 10 % 10) as u8);
    text.put_one(b'0' + (n % 10) as u8)
}

/// Puts a decimal number with a comma before each three digits: `14,511`. From a billion on it has none.
pub fn put_count(text: &mut Text, n: u64) {
    if n < 1_000 || n >= 1_000_000_000 {
        return put_decimal(text, n);
    }
    if n >= 1_000_000 {
        put_decimal(text, n / 1_000_000);
        text.put(",");
        put_three(text, n / 1_000);
    } else {
        put_decimal(text, n / 1_000);
    }
    text.put(",");
    put_three(text, n)
}

/// Puts a number of things and what they are, with an `s` where there isn't one of them: `2 tables`.
pub fn put_counted(text: &mut Text, n: usize, thing: &str) {
    put_count(text, n as u64);
    text.put(" ");
    text.put(thing);
    if n != 1 {
        text.put("s");
    }
}

// The units of numbers of bytes.
const UNITS: [(u64, &str); 4] = [
    (1 << 40, " T"),
    (1 << 30, " G"),
    (1 << 20, " M"),
    (1 << 10, " K"),
];

/// Puts a number of bytes: `16 K`, `64 M`, `256`.
pub fn put_size(text: &mut Text, n: u64) {
    for (unit, word) in &UNITS {
        if n != 0 && n % *unit == 0 {
            put_count(text, n / *unit);
            return text.put(word);
        }
    }
    put_count(text, n)
}

/// Puts how many bytes the code of a method has: `14 B`.
pub fn put_code_size(text: &mut Text, code: usize) {
    put_decimal(text, code as u64);
    text.put(" B")
}

// ---- names

// Puts a segment without the `_` at its end, as ASL has it (ACPI 6.5, 19.2.2).
fn put_short_segment(text: &mut Text, segment: Seg) {
    let bytes = segment.bytes();
    match bytes {
        [first, b'_', b'_', b'_'] => text.put_one(first),
        [_, _, b'_', b'_'] => text.put_all(&bytes[..2]),
        [_, _, _, b'_'] => text.put_all(&bytes[..3]),
        _ => text.put_all(&bytes),
    }
}

// Puts a backslash, and segments as ASL has them with dots between them.
fn put_short_segments(text: &mut Text, segments: &[Seg]) {
    text.put("\\");
    let mut separator = "";
    for segment in segments {
        text.put(separator);
        separator = ".";
        put_short_segment(text, *segment);
    }
}

/// Puts the path around a path: `\_SB.PCI0` for `\_SB.PCI0.EC`, and a backslash for the root.
pub fn put_path_around(text: &mut Text, path: &Path) {
    match path.segs() {
        [] => put_short_segments(text, &[]),
        [around @ .., _] => put_short_segments(text, around),
    }
}

/// Puts bytes of a table as characters of ASCII: others as `\x` and two digits.
pub fn put_escaped(text: &mut Text, bytes: &[u8]) {
    for b in bytes {
        put_char(text, *b);
    }
}
