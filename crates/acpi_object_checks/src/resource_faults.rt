//! Faults of resource templates (ACPI 6.5, 6.4).

use crate::resource_reader::{Item, ItemKind, Padded};
use std::alloc::{AllocError, Global};

/// What is wrong with a descriptor, or with a template.
#[derive(Debug, Clone, Copy)]
pub(crate) enum FaultReason<'a> {
    /// It is cut.
    Cut,
    /// It is of no known kind, by its tag.
    Unknown(u8),
    /// Its minimum is above its maximum.
    Above { low: u64, high: u64 },
    /// Its ends are fixed, and its length is another.
    Fixed { low: u64, high: u64, length: u64 },
    /// It ends beyond its space, at its last address.
    Beyond(u128),
    /// It has this source, which has to find an object.
    Source(&'a [u8]),
    /// The template has no end tag.
    NoEnd,
}

/// Something wrong in a template.
#[derive(Debug, Clone, Copy)]
pub(crate) struct ResourceFault<'a> {
    /// Where the descriptor begins.
    pub place: usize,
    /// What is wrong.
    pub reason: FaultReason<'a>,
}

/// A range of addresses, as a descriptor has it.
#[derive(Debug, Clone, Copy)]
struct Window {
    low: u64,
    high: u64,
    // Whether both ends are fixed.
    is_fixed: bool,
    length: u64,
    // How many addresses there are.
    space: u128,
}

impl Window {
    // What is wrong with it; a maximum or a length of 0 is not set.
    fn fault(&self) -> Option<FaultReason<'static>> {
        let (low, high, length) = (self.low, self.high, self.length);
        if low > high && high != 0 {
            return Some(FaultReason::Above { low, high });
        }
        if length == 0 {
            return None;
        }
        if self.is_fixed && high != 0 && u128::from(length) != self.span() {
            return Some(FaultReason::Fixed { low, high, length });
        }
        let end = u128::from(low).saturating_add(u128::from(length));
        if end > self.space {
            Some(FaultReason::Beyond(end.saturating_sub(1)))
        } else {
            None
        }
    }

    // How many addresses stand from its minimum to its maximum.
    fn span(&self) -> u128 {
        u128::from(self.high.saturating_sub(self.low)).saturating_add(1)
    }
}

// Ports of a small descriptor (6.4.2.5 and 6.4.2.6).
fn port_window(bytes: &Padded<'_>, low: usize, high: usize, length: usize) -> Window {
    Window {
        low: bytes.number(low, 2),
        high: bytes.number(high, 2),
        is_fixed: false,
        length: u64::from(bytes.byte(length)),
        space: 1 << 16,
    }
}

// Memory of 32 bits (6.4.3.3 and 6.4.3.4).
fn memory_window(bytes: &Padded<'_>, low: usize, high: usize, length: usize) -> Window {
    Window {
        low: bytes.number(low, 4),
        high: bytes.number(high, 4),
        is_fixed: false,
        length: bytes.number(length, 4),
        space: 1 << 32,
    }
}

// Addresses of so many bytes (6.4.3.5): granularity, minimum, maximum, translation and length from a place on.
fn address_window(bytes: &Padded<'_>, item: &Item, first: usize, width: usize) -> Window {
    let low = item.at(first).saturating_add(width);
    let high = low.saturating_add(width);
    let length = high.saturating_add(width).saturating_add(width);
    Window {
        low: bytes.number(low, width),
        high: bytes.number(high, width),
        is_fixed: bytes.byte(item.at(1)) & 0x0C == 0x0C,
        length: bytes.number(length, width),
        space: match width {
            2 => 1 << 16,
            4 => 1 << 32,
            _ => 1 << 64,
        },
    }
}

// How many bytes an address of a large item has (6.4.3.5.1 to 6.4.3.5.4).
fn address_width(kind: u8) -> usize {
    match kind {
        7 => 4,
        8 => 2,
        _ => 8,
    }
}

// The addresses that a descriptor has.
fn window_of(bytes: &Padded<'_>, item: &Item) -> Option<Window> {
    match item.kind {
        ItemKind::Small(8) => Some(port_window(bytes, item.at(1), item.at(3), item.at(6))),
        ItemKind::Small(9) => Some(port_window(bytes, item.at(0), item.at(0), item.at(2))),
        ItemKind::Large(5) => Some(memory_window(bytes, item.at(1), item.at(5), item.at(13))),
        ItemKind::Large(6) => Some(memory_window(bytes, item.at(1), item.at(1), item.at(5))),
        ItemKind::Large(kind @ (7 | 8 | 10)) => {
            Some(address_window(bytes, item, 3, address_width(kind)))
        }
        ItemKind::Large(11) => Some(address_window(bytes, item, 5, 8)),
        _ => None,
    }
}

// Where the source of a descriptor begins, if it has one: behind its other fields, or where its offset says.
fn source_place(bytes: &Padded<'_>, item: &Item) -> Option<usize> {
    match item.kind {
        ItemKind::Large(kind @ (7 | 8 | 10)) => item.inside(
            address_width(kind).saturating_mul(5).saturating_add(4),
        ),
        ItemKind::Large(9) => {
            let interrupts = bytes.byte(item.at(1)) as usize;
            item.inside(interrupts.saturating_mul(4).saturating_add(3))
        }
        ItemKind::Large(12) => Some(item.place.saturating_add(bytes.word(item.at(14)))),
        ItemKind::Large(14) => Some(item.at(bytes.word(item.at(7)).saturating_add(9))),
        _ => None,
    }
}

// Puts a fault of a descriptor behind others.
fn put<'a>(
    faults: &mut Vec<ResourceFault<'a>>,
    item: &Item,
    reason: FaultReason<'a>,
) -> Result<(), AllocError> {
    faults.push(ResourceFault {
        place: item.place,
        reason,
    })?;
    Ok(())
}

// Puts the faults of a descriptor that has all its fields behind others.
fn put_of_item<'a>(
    faults: &mut Vec<ResourceFault<'a>>,
    bytes: &Padded<'a>,
    item: &Item,
) -> Result<(), AllocError> {
    let window = window_of(bytes, item);
    if let Some(reason) = window.and_then(|w| w.fault()) {
        put(faults, item, reason)?;
    }
    if let Some(place) = source_place(bytes, item) {
        let source = bytes.text(place, item.end);
        if !source.is_empty() {
            put(faults, item, FaultReason::Source(source))?;
        }
    }
    Ok(())
}

// Comes by the item at a place: the place behind it, or none where reading ends.
fn next<'a>(
    faults: &mut Vec<ResourceFault<'a>>,
    bytes: &Padded<'a>,
    place: usize,
) -> Result<Option<usize>, AllocError> {
    let item = bytes.item(place);
    if place >= bytes.len {
        put(faults, &item, FaultReason::NoEnd)?;
        return Ok(None);
    }
    if item.end > bytes.len {
        put(faults, &item, FaultReason::Cut)?;
        return Ok(None);
    }
    let Some(least) = item.kind.least() else {
        put(faults, &item, FaultReason::Unknown(bytes.byte(place)))?;
        return Ok(None);
    };
    if item.length() < least {
        put(faults, &item, FaultReason::Cut)?;
    } else if item.kind == ItemKind::Small(15) {
        return Ok(None);
    } else {
        put_of_item(faults, bytes, &item)?;
    }
    Ok(Some(item.end))
}

/// What is wrong in a template, and its sources, in the order of its descriptors.
pub(crate) fn faults_of<'a>(
    alloc: Global,
    bytes: &Padded<'a>,
) -> Result<Vec<ResourceFault<'a>>, AllocError> {
    let mut faults = Vec::new(alloc);
    let mut place = 0;
    // Each item has a byte, and one that begins behind those that are given is of no known kind.
    for _ in 0..bytes.bytes.len().saturating_add(2) {
        match next(&mut faults, bytes, place)? {
            Some(end) => place = end,
            None => return Ok(faults),
        }
    }
    Ok(faults)
}
