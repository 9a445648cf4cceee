//! Interrupt routing as tables: devices with the same four pins in one row (ACPI 6.5, 6.2.13).

use crate::section_rows::{Section, SectionRows};
use acpi_device_text::put_form;
use acpi_machine_facts::MachineFacts;
use acpi_overview_text::{put_between, put_hex};
use acpi_phrases::{Steps, around, put_expression, put_list};
use acpi_routes::{RouteSource, RouteTable, Routing, RoutingForm, routes_in};
use acpi_text::put_decimal;
use acpi_trimmed::{put_trimmed_name, put_trimmed_path};
use std::alloc::{AllocError, Global};
use std::collections::BTreeMap;
use text_buffer::Text;

// How many pins a device has.
const PINS: usize = 4;

/// The pins of a device: what each leads to, nothing where it has none.
type Pins = Vec<Vec<u8>>;

fn no_pins(alloc: Global) -> Result<Pins, AllocError> {
    let mut pins = Vec::new(alloc);
    for _ in 0..PINS {
        pins.push(Vec::new(alloc))?;
    }
    Ok(pins)
}

fn source_text(alloc: Global, source: RouteSource<'_>) -> Result<Vec<u8>, AllocError> {
    let mut text = Text::new(alloc);
    match source {
        RouteSource::Interrupt(number) => put_decimal(&mut text, number),
        RouteSource::Link(name) => put_trimmed_name(&mut text, name.view()),
        RouteSource::Computed(term) => put_expression(&mut text, term)?,
    }
    text.into_bytes()
}

// The device of an address, with its function where that isn't all of them.
fn device_text(alloc: Global, address: u64) -> Result<Vec<u8>, AllocError> {
    let mut text = Text::new(alloc);
    put_hex(&mut text, address / 0x1_0000, 2);
    if address % 0x1_0000 != 0xFFFF {
        text.put(".");
        put_hex(&mut text, address % 0x1_0000, 1);
    }
    text.into_bytes()
}

/// The devices of a package with the same pins.
#[derive(Drop)]
struct Group {
    pins: Pins,
    devices: Vec<u64>,
}

// The devices of a package, those with the same pins together, in the order of the package.
fn groups_of(alloc: Global, table: &RouteTable<'_>) -> Result<Vec<Group>, AllocError> {
    let mut numbers: BTreeMap<u64, usize> = BTreeMap::new(alloc);
    let mut devices: Vec<(u64, Pins)> = Vec::new(alloc);
    for route in &routes_in(alloc, table.entries)? {
        let number = match numbers.get(&route.address) {
            Some(number) => *number,
            None => {
                numbers.insert(route.address, devices.len())?;
                devices.push((route.address, no_pins(alloc)?))?;
                devices.len().saturating_sub(1)
            }
        };
        let text = source_text(alloc, route.source)?;
        if let Some(device) = devices.get_mut(number) {
            if let Some(pin) = device.1.get_mut(route.pin as usize) {
                *pin = text;
            }
        }
    }
    let mut groups: Vec<Group> = Vec::new(alloc);
    for (address, pins) in devices {
        match groups.iter().position(|g| g.pins == pins) {
            Some(place) => {
                if let Some(group) = groups.get_mut(place) {
                    group.devices.push(address)?;
                }
            }
            None => {
                let mut devices = Vec::new(alloc);
                devices.push(address)?;
                groups.push(Group { pins, devices })?;
            }
        }
    }
    Ok(groups)
}

// Which devices have the pins of a row.
fn devices_text(alloc: Global, group: &Group, is_only: bool) -> Result<Text, AllocError> {
    let mut text = Text::new(alloc);
    let mut names = Vec::new(alloc);
    let mut sorted = group.devices.clone()?;
    sorted.sort_unstable();
    if let ([0xFFFF], true) = (sorted.as_slice(), is_only) {
        text.put("any device");
        return Ok(text);
    }
    let mut before: Option<u64> = None;
    let mut first: Option<u64> = None;
    for address in &sorted {
        let is_all = address % 0x1_0000 == 0xFFFF;
        let follows = is_all && before.and_then(|b| b.checked_add(0x1_0000)) == Some(*address);
        if !follows {
            put_run(alloc, &mut names, first, before)?;
            first = Some(*address);
        }
        before = Some(*address);
    }
    put_run(alloc, &mut names, first, before)?;
    text.put(if sorted.len() > 1 {
        "devices "
    } else {
        "device "
    });
    put_list(&mut text, &names, None);
    Ok(text)
}

// Puts devices that follow one another.
fn put_run(
    alloc: Global,
    names: &mut Vec<Vec<u8>>,
    first: Option<u64>,
    last: Option<u64>,
) -> Result<(), AllocError> {
    let (Some(first), Some(last)) = (first, last) else {
        return Ok(());
    };
    let mut name = Text::new(alloc);
    name.put_all(&device_text(alloc, first)?);
    if first != last {
        name.put("-");
        name.put_all(&device_text(alloc, last)?);
    }
    names.push(name.into_bytes()?)?;
    Ok(())
}

// What the pin of that number and letter leads to.
fn pin_text(alloc: Global, group: &Group, letter: u8, number: usize) -> Text {
    let mut text = Text::new(alloc);
    text.put_one(letter);
    text.put(" ");
    match group.pins.get(number) {
        Some(pin) if !pin.is_empty() => text.put_all(pin),
        _ => text.put("-"),
    }
    text
}

// Puts the rows of a package.
fn put_table(
    rows: &mut SectionRows,
    alloc: Global,
    table: &RouteTable<'_>,
) -> Result<(), AllocError> {
    if let Some(name) = table.name {
        let mut text = Text::new(alloc);
        put_trimmed_name(&mut text, name.view());
        rows.put(1, &[], text)?;
    }
    let groups = groups_of(alloc, table)?;
    let is_only = groups.len() == 1;
    for group in &groups {
        let a = pin_text(alloc, group, b'A', 0);
        let b = pin_text(alloc, group, b'B', 1);
        let c = pin_text(alloc, group, b'C', 2);
        let d = pin_text(alloc, group, b'D', 3);
        let devices = devices_text(alloc, group, is_only)?;
        rows.put(2, &[&a, &b, &c, &d], devices)?;
    }
    Ok(())
}

// The names of the packages of a routing.
fn tables_text(alloc: Global, routing: &Routing<'_>) -> Result<Vec<u8>, AllocError> {
    let mut text = Text::new(alloc);
    for table in &routing.tables {
        put_between(&mut text, " ");
        if let Some(name) = table.name {
            put_trimmed_name(&mut text, name.view());
        }
    }
    text.into_bytes()
}

/// Routings of one form and the same packages.
#[derive(Drop)]
struct Alike {
    form: Vec<u8>,
    tables: Vec<u8>,
    // The number of the first one.
    number: usize,
    paths: Vec<Vec<u8>>,
}

fn alike_routings(facts: &MachineFacts<'_, '_>) -> Result<Vec<Alike>, AllocError> {
    let alloc = facts.machine.alloc;
    let mut groups: Vec<Alike> = Vec::new(alloc);
    for (number, routing) in facts.routings.iter().enumerate() {
        let mut form = Text::new(alloc);
        if let RoutingForm::Returned(_) = routing.form {
            form.put("by code: ");
        }
        put_form(&mut form, routing)?;
        let form = form.into_bytes()?;
        let tables = tables_text(alloc, routing)?;
        let mut path = Text::new(alloc);
        put_trimmed_path(&mut path, &around(routing.object.path)?);
        let path = path.into_bytes()?;
        let shared = if tables.is_empty() {
            None
        } else {
            groups
                .iter()
                .position(|g| g.form == form && g.tables == tables)
        };
        if let Some(place) = shared {
            if let Some(group) = groups.get_mut(place) {
                group.paths.push(path)?;
            }
            continue;
        }
        let mut paths = Vec::new(alloc);
        paths.push(path)?;
        groups.push(Alike {
            form,
            tables,
            number,
            paths,
        })?;
    }
    Ok(groups)
}

// Puts the first of some paths in a run, and the last segment of the last.
fn put_run_of(text: &mut Text, first: &[u8], last: &[u8], count: usize) {
    put_between(text, " ");
    text.put_all(first);
    if count == 1 {
        return;
    }
    text.put(if count == 2 { " " } else { " to " });
    let segment = last
        .iter()
        .rev()
        .take_while(|b| **b != b'.' && **b != b'\\')
        .count();
    text.put_all(&last[last.len().saturating_sub(segment)..])
}

// Puts paths, those in a run as the first and the last.
fn put_paths(text: &mut Text, paths: &[Vec<u8>]) {
    let mut first = 0usize;
    let mut steps = Steps::ANY;
    for place in 1..paths.len().saturating_add(1) {
        let (Some(begin), Some(last)) = (paths.get(first), paths.get(place - 1)) else {
            return;
        };
        match paths.get(place).and_then(|p| steps.onward(last, p)) {
            Some(next) => steps = next,
            None => {
                put_run_of(text, begin, last, place.saturating_sub(first));
                first = place;
                steps = Steps::ANY;
            }
        }
    }
}

/// Interrupt routing as tables.
pub(crate) fn routing_section(facts: &MachineFacts<'_, '_>) -> Result<Section, AllocError> {
    let alloc = facts.machine.alloc;
    let mut rows = SectionRows::new(alloc);
    for group in &alike_routings(facts)? {
        let mut text = Text::new(alloc);
        put_paths(&mut text, &group.paths);
        text.put(": ");
        text.put_all(&group.form);
        rows.put(0, &[], text)?;
        if let Some(routing) = facts.routings.get(group.number) {
            for table in &routing.tables {
                put_table(&mut rows, alloc, table)?;
            }
        }
    }
    Ok(Section {
        heading: "ROUTING OF PCI INTERRUPTS",
        legend: "Of the devices on a bus, by pin A to D (_PRT). A number is a global interrupt, a name an interrupt link device.",
        rows: rows.rows,
    })
}
