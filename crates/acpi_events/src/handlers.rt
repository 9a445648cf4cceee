//! The methods that serve events, by their names (ACPI 6.5, 5.6.4.1).

use acpi_check_machine::{Machine, child_of};
use acpi_kinds::ObjectKind;
use acpi_name::{Path, Seg};
use acpi_overview::{Object, last_segment};
use std::alloc::AllocError;

/// Which event a method serves, by its name.
#[derive(Debug, Clone, Copy, PartialEq, Eq)]
pub enum EventNumber {
    /// `_Lxx`: a level-triggered general-purpose event.
    Level(u8),
    /// `_Exx`: an edge-triggered general-purpose event.
    Edge(u8),
    /// `_Qxx`: a query of an embedded controller.
    Query(u8),
}

fn digit_number(digit: u8) -> Option<u8> {
    match digit {
        b'0'..=b'9' => Some(digit - b'0'),
        b'A'..=b'F' => Some(digit - b'A' + 10),
        _ => None,
    }
}

/// The event that a method serves, by its name: of a method of `\_GPE` or of an embedded controller.
pub fn event_number(object: &Object<'_>) -> Option<EventNumber> {
    let ObjectKind::Method(_) = object.kind else {
        return None;
    };
    let [first, second, high, low] = last_segment(object.path);
    if first != b'_' {
        return None;
    }
    let number = (digit_number(high)? << 4) | digit_number(low)?;
    match second {
        b'L' => Some(EventNumber::Level(number)),
        b'E' => Some(EventNumber::Edge(number)),
        b'Q' => Some(EventNumber::Query(number)),
        _ => None,
    }
}

// The digit of a number below 16.
fn digit(number: u8) -> u8 {
    let number = number % 16;
    if number < 10 {
        b'0' + number
    } else {
        b'A' + (number - 10)
    }
}

/// The method that serves a general-purpose event of `\_GPE`, if there is one.
pub fn handler_of<'a>(machine: &Machine<'a>, event: u64) -> Result<Option<Object<'a>>, AllocError> {
    let Ok(number) = u8::try_from(event) else {
        return Ok(None);
    };
    let mut scope = Path::root(machine.alloc);
    if let Some(segment) = Seg::new(*b"_GPE") {
        scope.push(segment)?;
    }
    for letter in [b'L', b'E'] {
        let path = child_of(&scope, [b'_', letter, digit(number / 16), digit(number)])?;
        if let [object, ..] = machine.at(&path) {
            return Ok(Some(*object));
        }
    }
    Ok(None)
}
