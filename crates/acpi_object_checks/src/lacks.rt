//! Devices, power resources and thermal zones that lack what their class needs.

use crate::classes::{ACTIVE_NEEDS, DEVICE_NEEDS, Need, PASSIVE_NEEDS, POWER_NEEDS, ZONE_NEEDS};
use acpi_check_machine::{CheckId, Finding, Machine, put_finding};
use acpi_kinds::ObjectKind;
use acpi_overview::Object;
use std::alloc::{AllocError, Global};
use text_buffer::Text;

// Whether one of these names may be declared in an object.
fn has_one<'a>(machine: &Machine<'a>, object: &Object<'a>, names: &[&'static [u8; 4]]) -> bool {
    for name in names {
        if machine.has(object, **name) {
            return true;
        }
    }
    false
}

// `PNP0C0A without _BIF or _BIX`.
fn text_of(alloc: Global, need: &Need) -> Text {
    let mut text = Text::new(alloc);
    text.put(need.0);
    let mut separator = " without ";
    for name in need.1 {
        text.put(separator);
        separator = " or ";
        text.put_all(name.as_slice());
    }
    text
}

// Puts a finding of an object that lacks what it needs.
fn check_need<'a>(
    machine: &Machine<'a>,
    object: &Object<'a>,
    need: &Need,
    found: &mut Vec<Finding>,
) -> Result<(), AllocError> {
    if has_one(machine, object, need.1) {
        return Ok(());
    }
    put_finding(
        found,
        CheckId::Lacks,
        object,
        None,
        text_of(machine.alloc, need),
    )
}

fn check_needs<'a>(
    machine: &Machine<'a>,
    object: &Object<'a>,
    needs: &[Need],
    found: &mut Vec<Finding>,
) -> Result<(), AllocError> {
    for need in needs {
        check_need(machine, object, need, found)?;
    }
    Ok(())
}

// Whether two need the same.
fn are_alike(one: &Need, other: &Need) -> bool {
    one.1.len() == other.1.len() && one.1.iter().zip(other.1.iter()).all(|(a, b)| **a == **b)
}

// The ids of a device, those of `_HID` first.
fn ids_of<'a>(machine: &Machine<'a>, device: &Object<'a>) -> Result<Vec<Vec<u8>>, AllocError> {
    let mut ids = Vec::new(machine.alloc);
    for segment in [*b"_HID", *b"_CID"] {
        if let Some(found) = machine.ids(device, segment)? {
            for id in found {
                ids.push(id)?;
            }
        }
    }
    Ok(ids)
}

fn is_among(needs: &[Need], need: &Need) -> bool {
    for other in needs {
        if are_alike(other, need) {
            return true;
        }
    }
    false
}

// What a device of these ids must have, each thing once.
fn needs_of(alloc: Global, ids: &[Vec<u8>]) -> Result<Vec<Need>, AllocError> {
    let mut needs: Vec<Need> = Vec::new(alloc);
    for id in ids {
        for need in &DEVICE_NEEDS {
            if need.0.as_bytes() == id.as_slice() && !is_among(&needs, need) {
                needs.push(*need)?;
            }
        }
    }
    Ok(needs)
}

fn check_zone<'a>(
    machine: &Machine<'a>,
    zone: &Object<'a>,
    found: &mut Vec<Finding>,
) -> Result<(), AllocError> {
    check_needs(machine, zone, &ZONE_NEEDS, found)?;
    if machine.has(zone, *b"_PSV") {
        check_needs(machine, zone, &PASSIVE_NEEDS, found)?;
    }
    for need in &ACTIVE_NEEDS {
        if let [limit] = need.0.as_bytes().as_chunks::<4>().0 {
            if machine.has(zone, *limit) {
                check_need(machine, zone, need, found)?;
            }
        }
    }
    Ok(())
}

/// Devices, power resources and thermal zones without a condition that lack what their class needs.
pub(crate) fn lacks(machine: &Machine<'_>, found: &mut Vec<Finding>) -> Result<(), AllocError> {
    for object in &machine.objects {
        if object.is_conditional {
            continue;
        }
        match object.kind {
            ObjectKind::Device => {
                let ids = ids_of(machine, object)?;
                let needs = needs_of(machine.alloc, &ids)?;
                check_needs(machine, object, &needs, found)?;
            }
            ObjectKind::Power { .. } => check_needs(machine, object, &POWER_NEEDS, found)?,
            ObjectKind::Thermal => check_zone(machine, object, found)?,
            _ => {}
        }
    }
    Ok(())
}
