//! The trip points of thermal zones (ACPI 6.5, 11.4).

use crate::power::value_below;
use acpi_check_machine::Machine;
use acpi_overview::{Object, Overview, Value};
use acpi_tree::Term;
use std::alloc::AllocError;

/// What an object of a thermal zone says.
#[derive(Debug, Clone, Copy, PartialEq, Eq)]
pub enum TripKind {
    /// `_CRT`: the system shuts down, in tenths of a kelvin.
    Critical,
    /// `_HOT`: the system goes to sleep, in tenths of a kelvin.
    Hot,
    /// `_PSV`: processors slow down, in tenths of a kelvin.
    Passive,
    /// `_ACx`: a fan turns on, in tenths of a kelvin.
    Active(u8),
    /// `_TSP`: how often the temperature is looked at for passive cooling, in tenths of a second.
    Sampled,
    /// `_TZP`: how often the zone is polled, in tenths of a second.
    Polled,
    /// `_TC1`: a constant of passive cooling.
    FirstConstant,
    /// `_TC2`: another one.
    SecondConstant,
}

/// An object of a thermal zone.
#[derive(Debug, Clone, Copy)]
pub struct TripPoint<'a> {
    /// What it says.
    pub kind: TripKind,
    /// The object.
    pub object: Object<'a>,
    /// What is known of its value.
    pub value: Value<'a>,
    /// Of a fan's trip point, the devices that turn on, where they are constant.
    pub devices: &'a [Term],
}

// The names of the objects and what they say, in the order in which they are told, but for `_ACx`.
const FIRST: [([u8; 4], TripKind); 3] = [
    (*b"_CRT", TripKind::Critical),
    (*b"_HOT", TripKind::Hot),
    (*b"_PSV", TripKind::Passive),
];

const LAST: [([u8; 4], TripKind); 4] = [
    (*b"_TSP", TripKind::Sampled),
    (*b"_TZP", TripKind::Polled),
    (*b"_TC1", TripKind::FirstConstant),
    (*b"_TC2", TripKind::SecondConstant),
];

// Puts the object of that name in a zone.
fn put<'a>(
    machine: &Machine<'a>,
    overview: &Overview<'a>,
    zone: &Object<'a>,
    (name, kind): ([u8; 4], TripKind),
    found: &mut Vec<TripPoint<'a>>,
) -> Result<(), AllocError> {
    let [object, ..] = machine.below(zone, name) else {
        return Ok(());
    };
    let mut devices: &[Term] = &[];
    if let TripKind::Active(_) = kind {
        let [_, _, _, number] = name;
        let list = value_below(machine, overview, zone, [b'_', b'A', b'L', number])?;
        if let Value::Package(elements) = list {
            devices = elements;
        }
    }
    found.push(TripPoint {
        kind,
        object: *object,
        value: value_below(machine, overview, zone, name)?,
        devices,
    })?;
    Ok(())
}

/// The objects of a thermal zone.
pub fn trips_of<'a>(
    machine: &Machine<'a>,
    overview: &Overview<'a>,
    zone: &Object<'a>,
) -> Result<Vec<TripPoint<'a>>, AllocError> {
    let mut found = Vec::new(machine.alloc);
    for row in &FIRST {
        put(machine, overview, zone, *row, &mut found)?;
    }
    for number in 0..10u8 {
        let name = [b'_', b'A', b'C', b'0' + number];
        let kind = TripKind::Active(number);
        put(machine, overview, zone, (name, kind), &mut found)?;
    }
    for row in &LAST {
        put(machine, overview, zone, *row, &mut found)?;
    }
    Ok(found)
}
