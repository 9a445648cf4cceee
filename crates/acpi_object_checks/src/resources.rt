//! Faults of constant resources of devices (ACPI 6.5, 6.2.2, 6.2.12 and 6.4).

use crate::resource_faults::{FaultReason, ResourceFault, faults_of};
use crate::resource_reader::Padded;
use crate::sources::spelling_of;
use crate::texts::{put_escaped, put_large_hex};
use acpi_check_machine::{CheckId, Finding, Machine, constant, put_finding};
use acpi_name::{Path, read_name};
use acpi_overview::{Object, last_segment};
use acpi_overview_text::put_hex;
use acpi_text::{put_byte, put_decimal};
use acpi_tree::Term;
use std::alloc::{AllocError, Global};
use text_buffer::Text;

// The most bytes that a buffer of resources is taken to have.
const MOST_BYTES: usize = 0x10_0000;

// The bytes of a value that is a buffer of constant size.
fn bytes_of(value: &Term) -> Option<Padded<'_>> {
    let Term::Buffer(size, bytes) = value else {
        return None;
    };
    let size = usize::try_from(constant(size)?).unwrap_or(MOST_BYTES);
    Some(Padded {
        bytes,
        len: size.min(MOST_BYTES).max(bytes.len()),
    })
}

// Whether the text of a source finds some object from the scope of a device.
fn finds_object(
    machine: &Machine<'_>,
    object: &Object<'_>,
    source: &[u8],
) -> Result<bool, AllocError> {
    let Some(spelling) = spelling_of(machine.alloc, source)? else {
        return Ok(false);
    };
    let Ok((name, _)) = read_name(&spelling) else {
        return Ok(false);
    };
    let mut scope: Path = object.path.copy()?;
    scope.pop();
    match machine.search_from(object, &scope, name)? {
        Some(candidates) => Ok(!candidates.paths.is_empty()),
        None => Ok(false),
    }
}

fn put_fixed(text: &mut Text, low: u64, high: u64, length: u64) {
    text.put(" is fixed at ");
    put_hex(text, low, 1);
    text.put("-");
    put_hex(text, high, 1);
    text.put(" with the length ");
    put_hex(text, length, 1);
    text.put(" (Linux drops it)")
}

fn put_above(text: &mut Text, low: u64, high: u64) {
    text.put(" has its minimum ");
    put_hex(text, low, 1);
    text.put(" above its maximum ");
    put_hex(text, high, 1);
    text.put(" (Linux drops it)")
}

// Puts what is wrong with a descriptor.
fn put_reason(text: &mut Text, reason: FaultReason<'_>) {
    match reason {
        FaultReason::Cut => text.put(" is cut (Linux takes none)"),
        FaultReason::Unknown(tag) => {
            text.put(" is of no known kind ");
            put_byte(text, tag);
            text.put(" (Linux takes none)")
        }
        FaultReason::Above { low, high } => put_above(text, low, high),
        FaultReason::Fixed { low, high, length } => put_fixed(text, low, high, length),
        FaultReason::Beyond(last) => {
            text.put(" ends at ");
            put_large_hex(text, last);
            text.put(", beyond its space (Linux drops it)")
        }
        FaultReason::Source(source) => {
            text.put(" has the source \"");
            put_escaped(text, source);
            text.put("\", which is declared nowhere (its device is never set up)")
        }
        FaultReason::NoEnd => {}
    }
}

// `the descriptor at 0 is cut (Linux takes none)`.
fn text_of(alloc: Global, fault: &ResourceFault<'_>) -> Text {
    let mut text = Text::new(alloc);
    if let FaultReason::NoEnd = fault.reason {
        text.put("no end tag (Linux takes none)");
        return text;
    }
    text.put("the descriptor at ");
    put_decimal(&mut text, fault.place as u64);
    put_reason(&mut text, fault.reason);
    text
}

// Puts what is wrong with an object's resources: of its sources those that find nothing.
fn check(
    machine: &Machine<'_>,
    object: &Object<'_>,
    bytes: &Padded<'_>,
    found: &mut Vec<Finding>,
) -> Result<(), AllocError> {
    for fault in &faults_of(machine.alloc, bytes)? {
        if let FaultReason::Source(source) = fault.reason {
            if finds_object(machine, object, source)? {
                continue;
            }
        }
        let text = text_of(machine.alloc, fault);
        put_finding(found, CheckId::Resource, object, None, text)?;
    }
    Ok(())
}

/// Faults of each constant `_CRS` or `_PRS` without a condition.
pub(crate) fn resources(machine: &Machine<'_>, found: &mut Vec<Finding>) -> Result<(), AllocError> {
    for object in &machine.objects {
        let name = last_segment(object.path);
        if object.is_conditional || name != *b"_CRS" && name != *b"_PRS" {
            continue;
        }
        let value = machine.value_of(object);
        if let Some(bytes) = value.and_then(|v| bytes_of(v)) {
            check(machine, object, &bytes, found)?;
        }
    }
    Ok(())
}
