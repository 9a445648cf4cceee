//! Connections to GPIO pins and serial buses as people write them (ACPI 6.5, 6.4.3.8).

use crate::resources::{Draft, ResourceKind, put_numbers};
use acpi_infix::put_constant;
use acpi_overview_text::put_escaped;
use acpi_resources::{BusKind, Gpio, SerialBus};
use acpi_text::put_decimal;
use std::alloc::{AllocError, Global};
use text_buffer::Text;

/// How many bytes of a GPIO connection stand before the numbers of its pins: its tail begins there (6.4.3.8.1).
const PINS: usize = 23;

// The bytes of a tail from one place in the descriptor up to another.
fn between(tail: &[u8], from: u16, to: usize) -> &[u8] {
    let start = (from as usize).saturating_sub(PINS).min(tail.len());
    let end = to.saturating_sub(PINS).min(tail.len());
    if start <= end { &tail[start..end] } else { &[] }
}

// Puts bytes that may be a path: as they are if all may stand in one, else escaped.
fn put_path_bytes(text: &mut Text, bytes: &[u8]) {
    let is_path = bytes.iter().all(
        |b| matches!(*b, b'A'..=b'Z' | b'0'..=b'9' | b'_' | b'.' | b'\\' | b'^'),
    );
    if is_path {
        text.put_all(bytes)
    } else {
        put_escaped(text, bytes)
    }
}

// Puts the name of a controller, which ends before a byte 0.
fn put_controller(draft: &mut Draft, name: &[u8]) {
    let count = name.iter().take_while(|b| **b != 0).count().min(name.len());
    if count > 0 {
        put_path_bytes(&mut draft.controller, &name[..count]);
        draft.full.put(" of ");
        put_path_bytes(&mut draft.full, &name[..count])
    }
}

fn pins_of(alloc: Global, bytes: &[u8]) -> Result<Vec<u64>, AllocError> {
    let mut pins = Vec::new(alloc);
    for pair in bytes.as_chunks::<2>().0 {
        pins.push(u64::from(u16::from_le_bytes(*pair)))?;
    }
    Ok(pins)
}

/// The texts of a connection to GPIO pins (6.4.3.8.1).
pub(crate) fn gpio_draft(alloc: Global, gpio: &Gpio<'_>) -> Result<Draft, AllocError> {
    let pins = pins_of(
        alloc,
        between(gpio.tail, gpio.pins_place, gpio.source_place as usize),
    )?;
    let mut draft = Draft::new(alloc, ResourceKind::Gpio);
    draft.full.put(if gpio.kind == 0 {
        "gpio interrupt pin"
    } else {
        "gpio in or out pin"
    });
    draft.full.put(if pins.len() == 1 { " " } else { "s " });
    put_numbers(&mut draft, &pins, false);
    put_controller(
        &mut draft,
        between(gpio.tail, gpio.source_place, usize::MAX),
    );
    if gpio.kind == 0 {
        draft.full.put(if gpio.pin_flags % 2 == 1 {
            ", edge"
        } else {
            ", level"
        });
        draft.full.put(match gpio.pin_flags / 2 % 4 {
            0 => ", active high",
            1 => ", active low",
            _ => ", active both",
        });
        if gpio.pin_flags / 16 % 2 == 1 {
            draft.full.put(", wakes");
        }
    }
    if gpio.pin_flags / 8 % 2 == 1 {
        draft.full.put(", shared");
    }
    Ok(draft)
}

// The number of four bytes at the front of the data of a bus.
fn speed_of(data: &[u8]) -> Option<u64> {
    match data {
        [a, b, c, d, ..] => Some(u64::from(u32::from_le_bytes([*a, *b, *c, *d]))),
        _ => None,
    }
}

// The number of two bytes at a place in the data of a bus.
fn word_at(data: &[u8], at: usize) -> Option<u64> {
    let low = *data.get(at)?;
    let high = *data.get(at.saturating_add(1))?;
    Some(u64::from(u16::from_le_bytes([low, high])))
}

/// The texts of a connection to a serial bus (6.4.3.8.2).
pub(crate) fn bus_draft(alloc: Global, bus: &SerialBus<'_>) -> Draft {
    let (data, source) = bus
        .tail
        .split_at((bus.data_length as usize).min(bus.tail.len()));
    let (kind, word, address, unit) = match bus.bus() {
        BusKind::I2c => (ResourceKind::I2c, "i2c address ", word_at(data, 4), " Hz"),
        BusKind::Spi => (ResourceKind::Spi, "spi select ", word_at(data, 7), " Hz"),
        BusKind::Uart => (ResourceKind::Uart, "uart", None, " baud"),
        _ => (ResourceKind::Other, "serial bus", None, ""),
    };
    let mut draft = Draft::new(alloc, kind);
    draft.full.put(word);
    if let Some(address) = address {
        put_constant(&mut draft.full, address);
        put_constant(&mut draft.short, address);
        draft.full.put(",");
    }
    if let (Some(speed), false) = (speed_of(data), unit.is_empty()) {
        draft.full.put(" ");
        put_decimal(&mut draft.full, speed);
        draft.full.put(unit);
    }
    if kind == ResourceKind::Other {
        draft.short.put("serial bus");
    }
    put_controller(&mut draft, source);
    draft
}
