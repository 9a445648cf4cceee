//! The trip points of thermal zones in words (ACPI 6.5, 11.4).

use acpi_check_machine::Machine;
use acpi_kinds::ObjectKind;
use acpi_overview::{Object, Overview, Value};
use acpi_overview_text::put_counted;
use acpi_phrases::{put_code, put_expressions};
use acpi_power::{TripKind, TripPoint, trips_of};
use acpi_text::put_decimal;
use std::alloc::AllocError;
use text_buffer::Text;

/// Freezing, in tenths of a kelvin, as tables round it.
const FREEZING: u64 = 2732;

// Puts a number of tenths.
fn put_tenths(text: &mut Text, number: u64, has_point: bool) {
    put_decimal(text, number / 10);
    if has_point || number % 10 != 0 {
        text.put(".");
        put_decimal(text, number % 10);
    }
}

// Puts a temperature in degrees Celsius, of tenths of a kelvin.
fn put_temperature(text: &mut Text, number: u64) {
    match number.checked_sub(FREEZING) {
        Some(above) => put_tenths(text, above, true),
        None => {
            text.put("-");
            put_tenths(text, FREEZING - number, true)
        }
    }
    text.put(" C")
}

// Puts how large the code of a method is, or what it does where it is one statement.
fn put_by_code(
    text: &mut Text,
    machine: &Machine<'_>,
    trip: &TripPoint<'_>,
) -> Result<(), AllocError> {
    let is_single = match machine.body(trip.object.number) {
        Some(body) => body.terms.len() == 1,
        None => true,
    };
    if is_single || !matches!(trip.object.kind, ObjectKind::Method(_)) {
        return put_code(text, machine, &trip.object);
    }
    text.put("by code (");
    put_counted(text, trip.object.code, "byte");
    text.put(")");
    Ok(())
}

fn put_trip(
    text: &mut Text,
    machine: &Machine<'_>,
    trip: &TripPoint<'_>,
) -> Result<(), AllocError> {
    match trip.kind {
        TripKind::Critical => text.put("critical "),
        TripKind::Hot => text.put("hot "),
        TripKind::Passive => text.put("passive "),
        TripKind::Active(number) => {
            text.put("active ");
            put_decimal(text, u64::from(number));
            text.put(" ");
        }
        _ => {}
    }
    match trip.value {
        Value::Number(number) => put_temperature(text, number),
        _ => put_by_code(text, machine, trip)?,
    }
    if !trip.devices.is_empty() {
        text.put(", turns on ");
        put_expressions(text, " ", trip.devices)?;
    }
    Ok(())
}

fn put_interval(text: &mut Text, word: &str, number: u64) {
    text.put(word);
    if number == 0 {
        return text.put(" never");
    }
    text.put(" every ");
    put_tenths(text, number, false);
    text.put(" s")
}

// Puts an object of a zone; nothing of an interval or a constant that isn't known.
fn put_kind(
    text: &mut Text,
    machine: &Machine<'_>,
    trip: &TripPoint<'_>,
) -> Result<(), AllocError> {
    match (trip.kind, trip.value) {
        (TripKind::Sampled, Value::Number(number)) => put_interval(text, "sampled", number),
        (TripKind::Polled, Value::Number(number)) => put_interval(text, "polled", number),
        (TripKind::FirstConstant, Value::Number(number)) => {
            text.put("_TC1 ");
            put_decimal(text, number)
        }
        (TripKind::SecondConstant, Value::Number(number)) => {
            text.put("_TC2 ");
            put_decimal(text, number)
        }
        (
            TripKind::Sampled
            | TripKind::Polled
            | TripKind::FirstConstant
            | TripKind::SecondConstant,
            _,
        ) => {}
        _ => return put_trip(text, machine, trip),
    }
    Ok(())
}

/// The trip points of a zone, each in words.
pub fn trip_texts<'a>(
    machine: &Machine<'a>,
    overview: &Overview<'a>,
    zone: &Object<'a>,
) -> Result<Vec<Vec<u8>>, AllocError> {
    let mut texts = Vec::new(machine.alloc);
    for trip in &trips_of(machine, overview, zone)? {
        let mut text = Text::new(machine.alloc);
        put_kind(&mut text, machine, trip)?;
        let words = text.into_bytes()?;
        if !words.is_empty() {
            texts.push(words)?;
        }
    }
    Ok(texts)
}
