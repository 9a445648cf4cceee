//! Paths without the `_` that fill their segments up, as source code has them (ACPI 6.5, 19.2.2 and 20.2.2): `\_SB.PCI0.EC`.
#![tactic(auto)]

use acpi_name::{NameRef, Path, Seg};
use text_buffer::Text;

/// Puts a segment without the `_` at its end; one of `_` alone as it is.
pub fn put_trimmed_segment(text: &mut Text, segment: Seg) {
    let bytes = segment.bytes();
    match bytes {
        [b'_', b'_', b'_', b'_'] => text.put_all(&bytes),
        [first, b'_', b'_', b'_'] => text.put_one(first),
        [_, _, b'_', b'_'] => text.put_all(&bytes[..2]),
        [_, _, _, b'_'] => text.put_all(&bytes[..3]),
        _ => text.put_all(&bytes),
    }
}

/// Puts a backslash, and the segments of a path with dots between them, each without the `_` at its end.
pub fn put_trimmed_path(text: &mut Text, path: &Path) {
    text.put("\\");
    let mut separator = "";
    for segment in path.segs() {
        text.put(separator);
        separator = ".";
        put_trimmed_segment(text, *segment);
    }
}

/// Puts a name as it is spelled, its segments without the `_` at their ends; the name without anything is `.`.
pub fn put_trimmed_name(text: &mut Text, name: NameRef<'_>) {
    if !name.rooted() && name.parents() == 0 && name.is_empty() {
        return text.put(".");
    }
    if name.rooted() {
        text.put("\\");
    }
    for _ in 0..name.parents() {
        text.put("^");
    }
    let mut separator = "";
    for i in 0..name.len() {
        text.put(separator);
        separator = ".";
        put_trimmed_segment(text, name.seg(i));
    }
}
