//! Items of resource templates, whatever their bytes are (ACPI 6.5, 6.4).

/// The bytes of a buffer: those that are given, and zeros up to its size.
#[derive(Debug, Clone, Copy)]
pub(crate) struct Padded<'a> {
    /// The bytes that are given.
    pub bytes: &'a [u8],
    /// How many it has.
    pub len: usize,
}

/// An item of a template.
#[derive(Debug, Clone, Copy)]
pub(crate) struct Item {
    /// Where it begins.
    pub place: usize,
    /// Where its fields begin, behind its tag and its length.
    pub body: usize,
    /// The first byte behind it.
    pub end: usize,
    /// Its kind.
    pub kind: ItemKind,
}

/// The kind of an item: the number of its type.
#[derive(Debug, Clone, Copy, PartialEq, Eq)]
pub(crate) enum ItemKind {
    /// A small item (6.4.2).
    Small(u8),
    /// A large item (6.4.3).
    Large(u8),
}

impl Item {
    /// The place so many bytes behind the first of its fields.
    pub(crate) fn at(&self, count: usize) -> usize {
        self.body.saturating_add(count)
    }

    /// That place, where it is one of the item's.
    pub(crate) fn inside(&self, count: usize) -> Option<usize> {
        let place = self.at(count);
        if place < self.end { Some(place) } else { None }
    }

    /// How many bytes its fields have.
    pub(crate) fn length(&self) -> usize {
        self.end.saturating_sub(self.body)
    }
}

impl ItemKind {
    /// The fewest bytes that the fields of an item of the kind have; none of an unknown kind.
    pub(crate) fn least(self) -> Option<usize> {
        match self {
            ItemKind::Small(kind) => least_small(kind),
            ItemKind::Large(kind) => least_large(kind),
        }
    }
}

// ACPI 6.5, 6.4.2, table of small items.
fn least_small(kind: u8) -> Option<usize> {
    match kind {
        4 | 5 => Some(2),
        6 | 7 | 14 => Some(0),
        8 => Some(7),
        9 => Some(3),
        10 => Some(5),
        15 => Some(1),
        _ => None,
    }
}

// ACPI 6.5, 6.4.3, table of large items.
fn least_large(kind: u8) -> Option<usize> {
    match kind {
        4 | 13 | 15 | 16 | 17 | 18 => Some(0),
        1 | 6 | 14 => Some(9),
        2 => Some(12),
        5 => Some(17),
        7 => Some(23),
        8 => Some(13),
        9 => Some(6),
        10 => Some(43),
        11 => Some(53),
        12 => Some(20),
        _ => None,
    }
}

impl<'a> Padded<'a> {
    /// The byte at a place; 0 where none is given.
    pub(crate) fn byte(&self, place: usize) -> u8 {
        match self.bytes.get(place) {
            Some(byte) => *byte,
            None => 0,
        }
    }

    /// The number of so many bytes at a place, the least first.
    pub(crate) fn number(&self, place: usize, count: usize) -> u64 {
        let mut number = 0u64;
        for i in 0..count {
            let from_end = count.saturating_sub(i).saturating_sub(1);
            let byte = self.byte(place.saturating_add(from_end));
            number = number.wrapping_mul(256) | u64::from(byte);
        }
        number
    }

    /// The number of two bytes at a place.
    pub(crate) fn word(&self, place: usize) -> usize {
        u16::from_le_bytes([self.byte(place), self.byte(place.saturating_add(1))]) as usize
    }

    /// The text between two places, up to its first 00.
    pub(crate) fn text(&self, from: usize, to: usize) -> &'a [u8] {
        let text = self
            .bytes
            .get(from..to.min(self.bytes.len()))
            .unwrap_or(&[]);
        let end = text.iter().position(|b| *b == 0).unwrap_or(text.len());
        text.get(..end).unwrap_or(text)
    }

    /// The item at a place, whether or not the bytes have all of it.
    pub(crate) fn item(&self, place: usize) -> Item {
        let tag = self.byte(place);
        let (head, length, kind) = if tag >= 0x80 {
            let length = self.word(place.saturating_add(1));
            (3, length, ItemKind::Large(tag % 0x80))
        } else {
            (1, (tag % 8) as usize, ItemKind::Small(tag / 8))
        };
        let body = place.saturating_add(head);
        Item {
            place,
            body,
            end: body.saturating_add(length),
            kind,
        }
    }
}
