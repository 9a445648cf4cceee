//! Faults of the entries of a routing table (ACPI 6.5, 6.2.13).

use crate::routing::Routes;
use acpi_check_machine::{Finding, Machine, constant, package_of};
use acpi_conditions::Candidates;
use acpi_kinds::ObjectKind;
use acpi_name::{Name, Path};
use acpi_overview_text::put_hex;
use acpi_text::{put_decimal, put_name};
use acpi_tree::Term;
use std::alloc::{AllocError, Global};
use std::collections::BTreeSet;
use text_buffer::Text;

/// An entry of a routing table: its number, and what its elements are.
#[derive(Debug, Clone, Copy)]
struct Entry<'a> {
    number: usize,
    address: &'a Term,
    pin: &'a Term,
    source: &'a Term,
}

// `entry 3 `, and a word.
fn begin(alloc: Global, number: usize, word: &str) -> Text {
    let mut text = Text::new(alloc);
    text.put("entry ");
    put_decimal(&mut text, number as u64);
    text.put(word);
    text
}

fn count_text(alloc: Global, number: usize, count: usize) -> Text {
    let mut text = begin(alloc, number, " has ");
    put_decimal(&mut text, count as u64);
    text.put(" elements, not 4 (Linux refuses it)");
    text
}

fn address_text(alloc: Global, number: usize, address: u64) -> Text {
    let mut text = begin(alloc, number, " has the address ");
    put_hex(&mut text, address, 8);
    text.put(", whose function isn't FFFF (Linux never finds it)");
    text
}

fn pin_text(alloc: Global, number: usize, pin: u64) -> Text {
    let mut text = begin(alloc, number, " has the pin ");
    put_decimal(&mut text, pin);
    text.put(" (Linux never finds it)");
    text
}

fn again_text(alloc: Global, number: usize, address: u64, pin: u64) -> Text {
    let mut text = begin(alloc, number, " has the address ");
    put_hex(&mut text, address, 8);
    text.put(" and pin ");
    put_decimal(&mut text, pin);
    text.put(" of one before (Linux never finds it)");
    text
}

fn source_text(alloc: Global, number: usize, source: &Name) -> Text {
    let mut text = begin(alloc, number, " has the source ");
    put_name(&mut text, source.view());
    text.put(", which is no device (Linux routes no interrupt)");
    text
}

// Puts the faults of an address and a pin, which begin none of the entries before.
fn check_place(
    alloc: Global,
    routes: &Routes<'_>,
    entry: &Entry<'_>,
    seen: &mut BTreeSet<(u64, u64)>,
    found: &mut Vec<Finding>,
) -> Result<(), AllocError> {
    let (address, pin) = (constant(entry.address), constant(entry.pin));
    if let Some(address) = address {
        if address % 0x1_0000 != 0xFFFF {
            routes.put_finding(found, address_text(alloc, entry.number, address))?;
        }
    }
    if let Some(pin) = pin {
        if pin > 3 {
            routes.put_finding(found, pin_text(alloc, entry.number, pin))?;
        }
    }
    if let (Some(address), Some(pin)) = (address, pin) {
        if !seen.insert((address, pin))? {
            routes.put_finding(found, again_text(alloc, entry.number, address, pin))?;
        }
    }
    Ok(())
}

// Where the name of a source may be found: from the scope of a Name's term, or of the path of a method.
fn search(
    machine: &Machine<'_>,
    routes: &Routes<'_>,
    name: &Name,
) -> Result<Option<Candidates>, AllocError> {
    let object = &routes.object;
    match routes.line {
        Some(_) => machine.search_from(object, object.path, name.view()),
        None => machine.search(object, name.view()),
    }
}

// Whether some object at a path may be a device, or another name for one.
fn may_be_device(
    machine: &Machine<'_>,
    routes: &Routes<'_>,
    path: &Path,
) -> Result<bool, AllocError> {
    let seen = machine.seen_at(&routes.object, path)?;
    Ok(seen.iter().any(|o| matches!(o.kind, ObjectKind::Device | ObjectKind::Alias)))
}

// Puts a finding of a source that finds something, and no device.
fn check_source(
    machine: &Machine<'_>,
    routes: &Routes<'_>,
    entry: &Entry<'_>,
    found: &mut Vec<Finding>,
) -> Result<(), AllocError> {
    let Term::Ref(name) = entry.source else {
        return Ok(());
    };
    let Some(candidates) = search(machine, routes, name)? else {
        return Ok(());
    };
    if candidates.paths.is_empty() {
        return Ok(());
    }
    for path in &candidates.paths {
        if may_be_device(machine, routes, path)? {
            return Ok(());
        }
    }
    routes.put_finding(found, source_text(machine.alloc, entry.number, name))
}

/// Puts the faults of a routing table behind what was found.
pub(crate) fn check_routes(
    machine: &Machine<'_>,
    routes: &Routes<'_>,
    found: &mut Vec<Finding>,
) -> Result<(), AllocError> {
    let Some(entries) = package_of(routes.package) else {
        return Ok(());
    };
    if entries.is_empty() {
        let mut text = Text::new(machine.alloc);
        text.put("no entry (Linux routes no interrupt)");
        return routes.put_finding(found, text);
    }
    let mut seen: BTreeSet<(u64, u64)> = BTreeSet::new(machine.alloc);
    for number in 0..entries.len() {
        match package_of(&entries[number]) {
            Some([address, pin, source, _]) => {
                let entry = Entry {
                    number,
                    address,
                    pin,
                    source,
                };
                check_place(machine.alloc, routes, &entry, &mut seen, found)?;
                check_source(machine, routes, &entry, found)?;
            }
            Some(elements) => {
                routes.put_finding(found, count_text(machine.alloc, number, elements.len()))?
            }
            None => {}
        }
    }
    Ok(())
}
