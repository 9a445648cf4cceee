//! Ids of devices in no known form (ACPI 6.5, 6.1.2 and 6.1.5).

use crate::texts::put_escaped;
use acpi_check_machine::{CheckId, Finding, Machine, package_of, put_finding};
use acpi_kinds::ObjectKind;
use acpi_overview::{Object, last_segment};
use acpi_tree::Term;
use std::alloc::{AllocError, Global};
use std::slice::from_ref;
use text_buffer::Text;

fn is_capital(b: u8) -> bool {
    b'A' <= b && b <= b'Z'
}

fn is_decimal(b: u8) -> bool {
    b'0' <= b && b <= b'9'
}

fn is_hexadecimal(b: u8) -> bool {
    is_decimal(b) || (b'A' <= b && b <= b'F')
}

// Three capitals, or four capitals and digits, and four hexadecimal digits.
fn has_known_form(id: &[u8]) -> bool {
    match id {
        [a, b, c, digits @ ..] if digits.len() == 4 => {
            is_capital(*a)
                && is_capital(*b)
                && is_capital(*c)
                && digits.iter().all(|d| is_hexadecimal(*d))
        }
        [_, _, _, _, digits @ ..] if digits.len() == 4 => {
            id.iter().take(4).all(|b| is_capital(*b) || is_decimal(*b))
                && digits.iter().all(|d| is_hexadecimal(*d))
        }
        _ => false,
    }
}

// A compatible id of a bus, or of Microsoft's generation counter of virtual machines.
fn is_other_cid(id: &[u8]) -> bool {
    id.starts_with(b"PCI\\") || id.starts_with(b"USB\\") || id == b"VM_Gen_Counter".as_slice()
}

fn text_of(alloc: Global, id: &[u8]) -> Text {
    let mut text = Text::new(alloc);
    text.put("\"");
    put_escaped(&mut text, id);
    text.put("\" is no id of the form AAA#### or NNNN####");
    text
}

// Puts a finding of an id of an object, where it is a string of no known form.
fn check(
    alloc: Global,
    object: &Object<'_>,
    id: &Term,
    found: &mut Vec<Finding>,
) -> Result<(), AllocError> {
    let Term::Str(id) = id else {
        return Ok(());
    };
    let is_cid = last_segment(object.path) == *b"_CID";
    if has_known_form(id) || is_cid && is_other_cid(id) {
        return Ok(());
    }
    put_finding(found, CheckId::Id, object, None, text_of(alloc, id))
}

// Whether it is a `_HID` or a `_CID` without a condition.
fn has_ids(object: &Object<'_>) -> bool {
    let name = last_segment(object.path);
    !object.is_conditional
        && (name == *b"_HID" || name == *b"_CID")
        && matches!(object.kind, ObjectKind::Name(_) | ObjectKind::Method(_))
}

/// Strings of `_HID` and `_CID` in no known form.
pub(crate) fn id_forms(machine: &Machine<'_>, found: &mut Vec<Finding>) -> Result<(), AllocError> {
    for object in &machine.objects {
        if !has_ids(object) {
            continue;
        }
        let Some(value) = machine.value_of(object) else {
            continue;
        };
        for id in package_of(value).unwrap_or(from_ref(value)) {
            check(machine.alloc, object, id, found)?;
        }
    }
    Ok(())
}
