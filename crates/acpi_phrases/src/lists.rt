//! Lists of names: those in a run as one, and long ones cut behind a few.

use crate::numbers::NO_BREAK;
use acpi_text::put_decimal;
use std::alloc::{AllocError, Global};
use text_buffer::Text;

/// By what a name follows another in a run.
#[derive(Debug, Clone, Copy, PartialEq, Eq)]
pub struct Steps {
    /// By its decimal number at the end.
    decimal: bool,
    /// By its last two hexadecimal digits.
    hexadecimal: bool,
    /// By its last letter.
    letter: bool,
}

impl Steps {
    /// Of a run of one name.
    pub const ANY: Steps = Steps {
        decimal: true,
        hexadecimal: true,
        letter: true,
    };

    /// Those by which a run with these steps goes on from its last name to another; None where it doesn't.
    pub fn onward(self, last: &[u8], name: &[u8]) -> Option<Steps> {
        let steps = Steps {
            decimal: self.decimal && is_next_decimal(last, name),
            hexadecimal: self.hexadecimal && is_next_hexadecimal(last, name),
            letter: self.letter && is_next_letter(last, name),
        };
        if steps.decimal || steps.hexadecimal || steps.letter {
            Some(steps)
        } else {
            None
        }
    }
}

// The number of decimal digits, nine at the most.
fn decimal_value(digits: &[u8]) -> Option<u64> {
    if digits.is_empty() || digits.len() > 9 {
        return None;
    }
    let mut value = 0u64;
    for digit in digits {
        let digit = u64::from(digit.saturating_sub(b'0'));
        value = value.saturating_mul(10).saturating_add(digit);
    }
    Some(value)
}

fn split_digits(name: &[u8]) -> (&[u8], &[u8]) {
    let count = name.iter().rev().take_while(|b| b.is_ascii_digit()).count();
    name.split_at(name.len().saturating_sub(count))
}

fn is_next_decimal(last: &[u8], name: &[u8]) -> bool {
    let (head, digits) = split_digits(last);
    let (other_head, other_digits) = split_digits(name);
    match (decimal_value(digits), decimal_value(other_digits)) {
        (Some(before), Some(next)) => {
            head == other_head
                && digits.len() == other_digits.len()
                && before.checked_add(1) == Some(next)
        }
        _ => false,
    }
}

fn hexadecimal_value(digit: u8) -> Option<u64> {
    match digit {
        b'0'..=b'9' => Some(u64::from(digit - b'0')),
        b'A'..=b'F' => Some(u64::from(digit - b'A') + 10),
        _ => None,
    }
}

// What stands before the last two digits of a name, and their number.
fn hexadecimal_end(name: &[u8]) -> Option<(&[u8], u64)> {
    match name {
        [head @ .., high, low] => {
            let high = hexadecimal_value(*high)?.saturating_mul(16);
            Some((head, high.saturating_add(hexadecimal_value(*low)?)))
        }
        _ => None,
    }
}

fn is_next_hexadecimal(last: &[u8], name: &[u8]) -> bool {
    match (hexadecimal_end(last), hexadecimal_end(name)) {
        (Some((head, before)), Some((other_head, next))) => {
            head == other_head && before.checked_add(1) == Some(next)
        }
        _ => false,
    }
}

fn is_next_letter(last: &[u8], name: &[u8]) -> bool {
    match (last, name) {
        ([head @ .., before], [other_head @ .., next]) => {
            head == other_head
                && before.is_ascii_uppercase()
                && next.is_ascii_uppercase()
                && before.saturating_add(1) == *next
        }
        _ => false,
    }
}

// Puts the names of a run.
fn put_run(alloc: Global, folded: &mut Vec<Vec<u8>>, names: &[Vec<u8>]) -> Result<(), AllocError> {
    match names {
        [] => Ok(()),
        [first, _, .., last] => {
            let mut name = Text::new(alloc);
            name.put_all(first);
            name.put("-");
            name.put_all(last);
            folded.push(name.into_bytes()?)?;
            Ok(())
        }
        _ => {
            for name in names {
                folded.push(Vec::from_slice(alloc, name)?)?;
            }
            Ok(())
        }
    }
}

/// Names, of which three and more in a run are one: `C000-C003`.
pub fn folded_names(alloc: Global, names: &[Vec<u8>]) -> Result<Vec<Vec<u8>>, AllocError> {
    let mut folded = Vec::new(alloc);
    let mut first = 0usize;
    let mut steps = Steps::ANY;
    for place in 1..names.len() {
        let next = match (names.get(place - 1), names.get(place)) {
            (Some(last), Some(name)) => steps.onward(last, name),
            _ => None,
        };
        match next {
            Some(next) => steps = next,
            None => {
                if let Some(run) = names.get(first..place) {
                    put_run(alloc, &mut folded, run)?;
                }
                first = place;
                steps = Steps::ANY;
            }
        }
    }
    if let Some(run) = names.get(first..) {
        put_run(alloc, &mut folded, run)?;
    }
    Ok(folded)
}

// Puts how many there are more.
fn put_more(text: &mut Text, count: usize) {
    text.put(" and ");
    put_decimal(text, count as u64);
    text.put_one(NO_BREAK);
    text.put("more")
}

/// Puts words with blanks between them; behind so many, how many there are more, unless it is one.
pub fn put_list(text: &mut Text, words: &[Vec<u8>], most: Option<usize>) {
    let shown = match most {
        Some(most) if words.len() > most.saturating_add(1) => most,
        _ => words.len(),
    };
    let mut is_first = true;
    for word in words.iter().take(shown) {
        if !is_first {
            text.put(" ");
        }
        is_first = false;
        text.put_all(word);
    }
    if shown < words.len() {
        put_more(text, words.len().saturating_sub(shown))
    }
}

/// Puts names, those in a run as one, as `put_list` does.
pub fn put_names(
    text: &mut Text,
    names: &[Vec<u8>],
    most: Option<usize>,
) -> Result<(), AllocError> {
    let folded = folded_names(text.alloc(), names)?;
    put_list(text, &folded, most);
    Ok(())
}

/// Puts a piece of a row, behind a separator where the row has pieces.
pub fn put_piece(row: &mut Text, separator: &str, piece: &[u8]) {
    acpi_overview_text::put_between(row, separator);
    row.put_all(piece)
}
