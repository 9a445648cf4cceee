//! Long texts cut short.

use crate::text::DiffOptions;
use text_buffer::Text;

/// The most characters of a value.
const MOST_CHARACTERS: usize = 110;

/// How many characters of what two values have in common stand before what differs.
const BEFORE: usize = 16;

/// Puts bytes, as many as are shown.
pub(crate) fn put_clipped(text: &mut Text, bytes: &[u8], most: usize, options: DiffOptions) {
    match bytes.get(..most) {
        Some(front) if !options.is_verbose && bytes.len() > most => {
            text.put_all(front);
            text.put(" ..")
        }
        _ => text.put_all(bytes),
    }
}

// How many bytes two texts have in common at their beginning.
fn common_count(one: &[u8], other: &[u8]) -> usize {
    one.iter()
        .zip(other.iter())
        .take_while(|pair| *pair.0 == *pair.1)
        .count()
}

// .. and at their end.
fn common_behind(one: &[u8], other: &[u8]) -> usize {
    one.iter()
        .rev()
        .zip(other.iter().rev())
        .take_while(|pair| *pair.0 == *pair.1)
        .count()
}

// What of a text is left behind what it has in common with another.
fn part_of(text: &[u8], before: usize, behind: usize) -> &[u8] {
    let end = text.len().saturating_sub(behind).max(before);
    text.get(before..end).unwrap_or(text)
}

/// Puts two values: where they are long, only the part in which they differ.
pub(crate) fn put_both(text: &mut Text, old: &[u8], new: &[u8], options: DiffOptions) {
    if options.is_verbose || (old.len() < MOST_CHARACTERS / 2 && new.len() < MOST_CHARACTERS / 2) {
        text.put_all(old);
        text.put(" -> ");
        return text.put_all(new);
    }
    let common = common_count(old, new);
    let before = common.saturating_sub(BEFORE);
    let rest = old.len().min(new.len()).saturating_sub(common);
    let behind = common_behind(old, new).min(rest);
    if before > 0 {
        text.put(".. ");
    }
    put_clipped(text, part_of(old, before, behind), MOST_CHARACTERS, options);
    text.put(" -> ");
    put_clipped(text, part_of(new, before, behind), MOST_CHARACTERS, options);
    if behind > 0 {
        text.put(" ..");
    }
}

/// Puts a value that only one version has.
pub(crate) fn put_value(text: &mut Text, value: &[u8], options: DiffOptions) {
    put_clipped(text, value, MOST_CHARACTERS, options)
}
