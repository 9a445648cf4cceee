//! Changes of objects in words.

use crate::clipping::{put_both, put_value};
use crate::text::DiffOptions;
use acpi_diff::{Change, ChangeKind};
use acpi_name::Seg;
use text_buffer::Text;

/// The names that a system looks at without running code, and the methods that it runs by itself (ACPI 6.5, 5.6, 5.7, 6 and 7).
const SEEN: [&[u8; 4]; 33] = [
    b"_HID", b"_CID", b"_UID", b"_ADR", b"_CRS", b"_PRS", b"_STA", b"_PRW", b"_PRT", b"_BBN",
    b"_SEG", b"_CCA", b"_DSD", b"_DEP", b"_PLD", b"_UPC", b"_SUN", b"_CLS", b"_SUB", b"_GPE",
    b"_PR0", b"_PR1", b"_PR2", b"_PR3", b"_PS0", b"_PS3", b"_OSC", b"_DSM", b"_CRT", b"_HOT",
    b"_PSV", b"_TMP", b"_INI",
];

fn is_hex_digit(byte: u8) -> bool {
    byte.is_ascii_digit() || (b'A'..=b'F').contains(&byte)
}

/// Whether a system looks at what has this name by itself: ids, resources, status, wake, sleep states, routing and events.
pub(crate) fn is_seen(segment: Seg) -> bool {
    let bytes = segment.bytes();
    match bytes {
        [b'_', b'S', b'0'..=b'5', b'_'] => true,
        [b'_', b'L' | b'E' | b'Q', high, low] => is_hex_digit(high) && is_hex_digit(low),
        _ => SEEN.iter().any(|name| **name == bytes),
    }
}

fn put_resources(text: &mut Text, change: &Change, options: DiffOptions) {
    text.put("resources");
    if change.old.is_empty() && change.new.is_empty() {
        return text.put(" in another order");
    }
    if !change.old.is_empty() {
        text.put(" - ");
        put_value(text, &change.old, options);
    }
    if !change.new.is_empty() {
        text.put(" + ");
        put_value(text, &change.new, options);
    }
}

// A condition; an object without one is always there.
fn condition_words(condition: &[u8]) -> &[u8] {
    if condition.is_empty() {
        b"always"
    } else {
        condition
    }
}

/// Puts what differs of an object.
pub(crate) fn put_change(text: &mut Text, change: &Change, options: DiffOptions) {
    match change.kind {
        ChangeKind::Gone => {
            text.put("- ");
            put_value(text, &change.old, options)
        }
        ChangeKind::New => {
            text.put("+ ");
            put_value(text, &change.new, options)
        }
        ChangeKind::Value => put_both(text, &change.old, &change.new, options),
        ChangeKind::Resources => put_resources(text, change, options),
        ChangeKind::Condition => {
            text.put("condition ");
            let (old, new) = (condition_words(&change.old), condition_words(&change.new));
            put_both(text, old, new, options)
        }
        ChangeKind::Body => text.put("code changed, which can't be read"),
    }
}
