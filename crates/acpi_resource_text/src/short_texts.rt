//! The resources of devices in a few words: by kind, ranges that meet as one.

use crate::resources::{KINDS, ResourceKind, ResourceText};
use acpi_phrases::{NO_BREAK, put_joined, put_list, put_span};
use acpi_text::put_decimal;
use std::alloc::{AllocError, Global};
use text_buffer::Text;

/// The most ranges and numbers of a kind that are told.
const MOST: usize = 3;

/// The most windows of a bridge.
const MOST_WINDOWS: usize = 8;

/// The resources of a device, and those between which it has a choice.
#[derive(Debug, Drop)]
pub struct ResourceTexts {
    /// What `_CRS` gives.
    pub current: Vec<ResourceText>,
    /// What `_PRS` gives.
    pub possible: Vec<ResourceText>,
}

/// Whether two lists say the same.
pub fn are_equal(one: &[ResourceText], other: &[ResourceText]) -> bool {
    one.len() == other.len() && one.iter().zip(other.iter()).all(|(a, b)| a.full == b.full)
}

impl ResourceKind {
    // Whether ranges of it that meet are told as one.
    fn has_ranges(self) -> bool {
        matches!(
            self,
            ResourceKind::Bus | ResourceKind::Ports | ResourceKind::Memory
        )
    }
}

// The short texts of resources that code doesn't set, ranges that meet as one.
fn merged(alloc: Global, list: &[&ResourceText]) -> Result<Vec<Vec<u8>>, AllocError> {
    let mut words: Vec<Vec<u8>> = Vec::new(alloc);
    let mut before: Option<(u64, u64)> = None;
    for text in list {
        let mut range = text.range.filter(|_| text.kind.has_ranges());
        if let (Some((from, last)), Some((first, end))) = (range, before) {
            if end.checked_add(1) == Some(from) {
                range = Some((first, last));
                words.pop();
            }
        }
        let mut word = Text::new(alloc);
        match range {
            Some((from, last)) => put_span(&mut word, from, last),
            None => word.put_all(&text.short),
        }
        words.push(word.into_bytes()?)?;
        before = range;
    }
    Ok(words)
}

// `window ` or `windows ` before what a bridge passes on.
fn window_word(list: &[&ResourceText]) -> &'static str {
    match list {
        [first] if first.is_window => "window ",
        [first, ..] if first.is_window => "windows ",
        _ => "",
    }
}

// Puts words of one kind that are all the same and no numbers: `vendor`, `2 vendor`.
fn put_same(text: &mut Text, word: &[u8], count: usize) {
    if count > 1 {
        put_decimal(text, count as u64);
        text.put_one(NO_BREAK);
    }
    put_joined(text, word)
}

// Puts how many of so many are by code, where some are.
fn put_by_code(text: &mut Text, count: usize, has_others: bool) {
    if count == 0 {
        return;
    }
    if has_others {
        text.put(" and");
        text.put_one(NO_BREAK);
        put_decimal(text, count as u64);
        text.put_one(NO_BREAK);
    }
    put_joined(text, b"by code")
}

// The words of resources of one kind.
fn words_of(
    alloc: Global,
    kind: ResourceKind,
    list: &[&ResourceText],
) -> Result<Vec<u8>, AllocError> {
    let mut text = Text::new(alloc);
    let mut known: Vec<&ResourceText> = Vec::new(alloc);
    for item in list {
        if !item.is_by_code {
            known.push(*item)?;
        }
    }
    let words = merged(alloc, &known)?;
    let is_word = matches!(kind, ResourceKind::Other | ResourceKind::Uart);
    if let (true, [first, rest @ ..]) = (is_word, words.as_slice()) {
        if rest.iter().all(|w| w == first) {
            let word = if first.is_empty() {
                kind.word().as_bytes()
            } else {
                first.as_slice()
            };
            put_same(&mut text, word, words.len());
            return text.into_bytes();
        }
    }
    let window = window_word(list);
    text.put(window);
    text.put(kind.word());
    text.put(" ");
    let most = if window.is_empty() {
        MOST
    } else {
        MOST_WINDOWS
    };
    put_list(&mut text, &words, Some(most));
    put_by_code(
        &mut text,
        list.len().saturating_sub(known.len()),
        !words.is_empty(),
    );
    text.into_bytes()
}

// The last segment of a controller's path.
fn last_part(controller: &[u8]) -> &[u8] {
    let count = controller
        .iter()
        .rev()
        .take_while(|b| **b != b'.' && **b != b'\\')
        .count();
    &controller[controller.len().saturating_sub(count)..]
}

// Puts the GPIO pins, by their controllers.
fn put_pins(
    alloc: Global,
    list: &[&ResourceText],
    found: &mut Vec<Vec<u8>>,
) -> Result<(), AllocError> {
    for (place, item) in list.iter().enumerate() {
        let is_known = list
            .iter()
            .take(place)
            .any(|o| o.controller == item.controller);
        if is_known {
            continue;
        }
        let mut pins = Vec::new(alloc);
        for other in list {
            if other.controller == item.controller {
                pins.push(Vec::from_slice(alloc, &other.short)?)?;
            }
        }
        let mut text = Text::new(alloc);
        text.put("gpio ");
        put_list(&mut text, &pins, Some(MOST));
        text.put(" of ");
        text.put_all(last_part(&item.controller));
        found.push(text.into_bytes()?)?;
    }
    Ok(())
}

// Puts the words of a list of resources, those that a bridge passes on behind the others of their kind.
fn put_words(
    alloc: Global,
    list: &[ResourceText],
    before: &str,
    found: &mut Vec<Vec<u8>>,
) -> Result<(), AllocError> {
    for kind in &KINDS {
        for is_window in &[false, true] {
            let mut items: Vec<&ResourceText> = Vec::new(alloc);
            for item in list {
                if item.kind == *kind && item.is_window == *is_window {
                    items.push(item)?;
                }
            }
            if items.is_empty() {
                continue;
            }
            if *kind == ResourceKind::Gpio {
                put_pins(alloc, &items, found)?;
                continue;
            }
            let mut text = Text::new(alloc);
            text.put(before);
            text.put_all(&words_of(alloc, *kind, &items)?);
            found.push(text.into_bytes()?)?;
        }
    }
    Ok(())
}

// Puts the interrupts of devices that have one each, counting up.
fn put_counting(
    alloc: Global,
    first: &ResourceTexts,
    last: &ResourceTexts,
    found: &mut Vec<Vec<u8>>,
) -> Result<(), AllocError> {
    let is_irq = |t: &&ResourceText| t.kind == ResourceKind::Irq;
    let (Some(one), Some(other)) = (
        first.current.iter().find(is_irq),
        last.current.iter().find(is_irq),
    ) else {
        return Ok(());
    };
    let mut text = Text::new(alloc);
    text.put("irq ");
    text.put_all(&one.short);
    text.put("-");
    text.put_all(&other.short);
    put_joined(&mut text, b", one each");
    found.push(text.into_bytes()?)?;
    Ok(())
}

/// The resources of a device in a few words, or of some that are alike, of which the first and the last are given; of the others
/// only their interrupts may differ.
pub fn short_resources(
    alloc: Global,
    first: &ResourceTexts,
    last: &ResourceTexts,
) -> Result<Vec<Vec<u8>>, AllocError> {
    let mut found = Vec::new(alloc);
    if are_equal(&first.current, &last.current) {
        put_words(alloc, &first.current, "", &mut found)?;
    } else {
        put_counting(alloc, first, last, &mut found)?;
    }
    if !are_equal(&first.possible, &first.current) {
        put_words(alloc, &first.possible, "choices ", &mut found)?;
    }
    Ok(found)
}
