//! Methods of events (ACPI 6.5, 5.6.4).

use acpi_check_machine::{CheckId, Finding, Machine, child_of, put_finding};
use acpi_kinds::ObjectKind;
use acpi_name::Path;
use acpi_overview::{Object, last_segment};
use std::alloc::{AllocError, Global};
use text_buffer::Text;

fn is_hexadecimal(b: u8) -> bool {
    (b'0' <= b && b <= b'9') || (b'A' <= b && b <= b'F')
}

// The two digits of a name of that letter: `0A` of `_Q0A`.
fn digits_of(name: [u8; 4], letter: u8) -> Option<[u8; 2]> {
    let [blank, kind, high, low] = name;
    if blank == b'_' && kind == letter && is_hexadecimal(high) && is_hexadecimal(low) {
        Some([high, low])
    } else {
        None
    }
}

fn is_method(object: &Object<'_>) -> bool {
    matches!(object.kind, ObjectKind::Method(_))
}

fn is_in_gpe(path: &Path) -> bool {
    match path.segs() {
        [scope, _] => scope.bytes() == *b"_GPE",
        _ => false,
    }
}

// The path around a path.
fn above(path: &Path) -> Result<Path, AllocError> {
    let mut path = path.copy()?;
    path.pop();
    Ok(path)
}

// `_L02 stands beside it (Linux takes one of them)`, of an edge event beside a level event of its number.
fn beside_level(machine: &Machine<'_>, object: &Object<'_>) -> Result<Option<Text>, AllocError> {
    let Some(digits) = digits_of(last_segment(object.path), b'E') else {
        return Ok(None);
    };
    let [high, low] = digits;
    if !is_in_gpe(object.path) {
        return Ok(None);
    }
    let other = [b'_', b'L', high, low];
    let path = child_of(&above(object.path)?, other)?;
    let Some(level) = machine.fixed(&path) else {
        return Ok(None);
    };
    if !is_method(level) {
        return Ok(None);
    }
    let mut text = Text::new(machine.alloc);
    text.put_all(&other);
    text.put(" stands beside it (Linux takes one of them)");
    Ok(Some(text))
}

// Whether ids are those of an embedded controller or of a host controller of SMBus (ACPI 6.5, 12.11 and 13.1).
fn has_controller(ids: &[Vec<u8>]) -> bool {
    ids.iter().any(|id| matches!(id.as_slice(), b"PNP0C09" | b"ACPI0001" | b"ACPI0005"))
}

// Whether what stands at a path is no device, or a device of constant ids that are those of no embedded controller.
fn is_no_controller(machine: &Machine<'_>, path: &Path) -> Result<bool, AllocError> {
    let objects = machine.at(path);
    let Some(first) = objects.first() else {
        return Ok(true);
    };
    let hids = machine.ids(first, *b"_HID")?;
    let cids = machine.ids(first, *b"_CID")?;
    let (Some(hids), Some(cids)) = (hids, cids) else {
        return Ok(false);
    };
    let is_device = objects.iter().any(|o| matches!(o.kind, ObjectKind::Device));
    Ok(!is_device || !has_controller(&hids) && !has_controller(&cids))
}

// `stands in no embedded controller (Linux never calls it)`, of a query.
fn outside_controller(
    machine: &Machine<'_>,
    object: &Object<'_>,
) -> Result<Option<Text>, AllocError> {
    if digits_of(last_segment(object.path), b'Q').is_none() {
        return Ok(None);
    }
    if !is_no_controller(machine, &above(object.path)?)? {
        return Ok(None);
    }
    let mut text = Text::new(machine.alloc);
    text.put("stands in no embedded controller (Linux never calls it)");
    Ok(Some(text))
}

/// Edge events beside level events of their number in `\_GPE`, and queries outside of embedded controllers.
pub(crate) fn events(machine: &Machine<'_>, found: &mut Vec<Finding>) -> Result<(), AllocError> {
    for object in &machine.objects {
        if object.is_conditional || !is_method(object) {
            continue;
        }
        if let Some(text) = beside_level(machine, object)? {
            put_finding(found, CheckId::Event, object, None, text)?;
        }
        if let Some(text) = outside_controller(machine, object)? {
            put_finding(found, CheckId::Event, object, None, text)?;
        }
    }
    Ok(())
}
