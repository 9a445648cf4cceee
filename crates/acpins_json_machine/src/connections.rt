//! Connections to GPIO pins and serial buses in JSON (ACPI 6.5, 6.4.3.8).

use crate::resources::{Extent, put_front};
use crate::values::put_null_member;
use acpi_overview_text::put_escaped;
use acpi_resources::{BusKind, Gpio, SerialBus};
use acpi_text::put_decimal;
use acpins_survey_json::{
    put_boolean_member, put_element_start, put_form_member, put_member, put_number_member,
    put_word_member,
};
use text_buffer::Text;

/// How many bytes of a GPIO connection stand before the numbers of its pins: its tail begins there (6.4.3.8.1).
const PINS: usize = 23;

// The bytes of a tail from one place in the descriptor up to another.
fn between(tail: &[u8], from: u16, to: usize) -> &[u8] {
    let start = (from as usize).saturating_sub(PINS).min(tail.len());
    let end = to.saturating_sub(PINS).min(tail.len());
    if start <= end { &tail[start..end] } else { &[] }
}

// Puts the member of the controller, whose name ends with a byte 0; null where there is none.
fn put_controller(text: &mut Text, name: &[u8]) {
    let end = name.iter().position(|b| *b == 0).unwrap_or(name.len());
    let name = &name[..end.min(name.len())];
    if name.is_empty() {
        return put_null_member(text, "controller");
    }
    let mut form = Text::new(text.alloc());
    put_escaped(&mut form, name);
    put_form_member(text, ",", "controller", &form)
}

// ---- GPIO

fn put_pins(text: &mut Text, pins: &[u8]) {
    put_member(text, ",", "pins");
    text.put("[");
    let mut is_first = true;
    for pin in pins.as_chunks::<2>().0 {
        put_element_start(text, is_first);
        put_decimal(text, u64::from(u16::from_le_bytes(*pin)));
        is_first = false;
    }
    text.put("]")
}

// Puts how the interrupt of pins is signalled: by both edges where that bit is set.
fn put_pin_mode(text: &mut Text, flags: u16) {
    let is_edge = flags % 2 == 1;
    put_word_member(
        text,
        ",",
        "triggering",
        if is_edge { "edge" } else { "level" },
    );
    let polarity = match flags / 2 % 4 {
        0 => "high",
        1 => "low",
        _ => "both",
    };
    put_word_member(text, ",", "polarity", polarity)
}

/// Puts a connection to GPIO pins.
pub(crate) fn put_gpio(text: &mut Text, is_first: bool, gpio: &Gpio<'_>, bytes: &[u8]) {
    put_front(text, is_first, Extent::of_kind("gpio"), bytes);
    if gpio.kind == 0 {
        put_pin_mode(text, gpio.pin_flags);
    }
    put_boolean_member(text, ",", "shared", gpio.pin_flags / 8 % 2 == 1);
    put_pins(
        text,
        between(gpio.tail, gpio.pins_place, gpio.source_place as usize),
    );
    put_controller(text, between(gpio.tail, gpio.source_place, usize::MAX));
    text.put("}")
}

// ---- serial buses

fn bus_word(kind: BusKind) -> &'static str {
    match kind {
        BusKind::I2c => "i2c",
        BusKind::Spi => "spi",
        BusKind::Uart => "uart",
        _ => "other",
    }
}

// Puts the member of a number of two bytes at a place in the data of a bus; null where the data ends before.
fn put_word_at(text: &mut Text, name: &str, data: &[u8], at: usize) {
    match (data.get(at), data.get(at.saturating_add(1))) {
        (Some(low), Some(high)) => {
            let number = u16::from_le_bytes([*low, *high]);
            put_number_member(text, ",", name, u64::from(number))
        }
        _ => put_null_member(text, name),
    }
}

// Puts the member of the first four bytes of the data of a bus: the speed in Hz, or of a UART in bits a second.
fn put_speed(text: &mut Text, data: &[u8]) {
    match data {
        [a, b, c, d, ..] => {
            let speed = u32::from_le_bytes([*a, *b, *c, *d]);
            put_number_member(text, ",", "speed", u64::from(speed))
        }
        _ => put_null_member(text, "speed"),
    }
}

/// Puts a connection to a serial bus (6.4.3.8.2): the controller, the address of an I2C device or the line that selects
/// an SPI device, and the speed.
pub(crate) fn put_serial_bus(text: &mut Text, is_first: bool, bus: &SerialBus<'_>, bytes: &[u8]) {
    let count = (bus.data_length as usize).min(bus.tail.len());
    let (data, source) = bus.tail.split_at(count);
    put_front(text, is_first, Extent::of_kind(bus_word(bus.bus())), bytes);
    put_controller(text, source);
    match bus.bus() {
        BusKind::I2c => {
            put_word_at(text, "address", data, 4);
            put_speed(text, data)
        }
        BusKind::Spi => {
            put_word_at(text, "address", data, 7);
            put_speed(text, data)
        }
        BusKind::Uart => put_speed(text, data),
        _ => {}
    }
    text.put("}")
}
