//! Devices with one `_HID` and `_UID` (ACPI 6.5, 6.1.5 and 6.1.12).

use crate::texts::put_escaped;
use acpi_check_machine::{CheckId, Finding, Machine, constant, put_finding};
use acpi_name::Path;
use acpi_overview::Object;
use acpi_text::put_decimal;
use acpi_tree::Term;
use acpi_trimmed::put_trimmed_path;
use std::alloc::{AllocError, Global};
use std::collections::BTreeMap;
use text_buffer::Text;

/// The ids of a device as texts.
#[derive(Debug, Drop)]
struct Ids {
    hid: Vec<u8>,
    uid: Option<Vec<u8>>,
}

// Whether many devices may have the id: those that claim resources of a board.
fn is_shared(hid: &[u8]) -> bool {
    matches!(hid, b"PNP0C01" | b"PNP0C02")
}

// A `_UID` as text: a number as its decimal digits.
fn uid_text(alloc: Global, value: &Term) -> Result<Option<Vec<u8>>, AllocError> {
    if let Term::Str(bytes) = value {
        return Ok(Some(Vec::from_slice(alloc, bytes)?));
    }
    match constant(value) {
        Some(number) => {
            let mut text = Text::new(alloc);
            put_decimal(&mut text, number);
            Ok(Some(text.into_bytes()?))
        }
        None => Ok(None),
    }
}

// The ids of a device, where they are constants.
fn ids_of<'a>(machine: &Machine<'a>, device: &Object<'a>) -> Result<Option<Ids>, AllocError> {
    let Some(hid) = machine.hid(device)? else {
        return Ok(None);
    };
    if is_shared(&hid) {
        return Ok(None);
    }
    if !machine.has(device, *b"_UID") {
        return Ok(Some(Ids { hid, uid: None }));
    }
    let Some(value) = machine.value_below(device, *b"_UID") else {
        return Ok(None);
    };
    match uid_text(machine.alloc, value)? {
        Some(uid) => Ok(Some(Ids {
            hid,
            uid: Some(uid),
        })),
        None => Ok(None),
    }
}

// Bytes that are the same where the ids are.
fn key_of(alloc: Global, ids: &Ids) -> Result<Vec<u8>, AllocError> {
    let mut key = Vec::from_slice(alloc, &(ids.hid.len() as u64).to_be_bytes())?;
    key.extend_from_slice(&ids.hid)?;
    if let Some(uid) = &ids.uid {
        key.push(0)?;
        key.extend_from_slice(uid)?;
    }
    Ok(key)
}

// `PNP0C0A, as \BAT0, both with the _UID 1 (Windows drops one)`.
fn text_of(alloc: Global, ids: &Ids, first: &Path) -> Text {
    let mut text = Text::new(alloc);
    put_escaped(&mut text, &ids.hid);
    text.put(", as ");
    put_trimmed_path(&mut text, first);
    match &ids.uid {
        Some(uid) => {
            text.put(", both with the _UID ");
            put_escaped(&mut text, uid);
        }
        None => text.put(", neither with a _UID"),
    }
    text.put(" (Windows drops one)");
    text
}

// Puts a finding of a device, where one before has its ids.
fn check<'a>(
    machine: &Machine<'a>,
    device: &Object<'a>,
    seen: &mut BTreeMap<Vec<u8>, &'a Path>,
    found: &mut Vec<Finding>,
) -> Result<(), AllocError> {
    let Some(ids) = ids_of(machine, device)? else {
        return Ok(());
    };
    let key = key_of(machine.alloc, &ids)?;
    match seen.get(key.as_slice()) {
        Some(first) => {
            let text = text_of(machine.alloc, &ids, first);
            put_finding(found, CheckId::SameId, device, None, text)
        }
        None => {
            seen.insert(key, device.path)?;
            Ok(())
        }
    }
}

/// Devices with the `_HID` and the `_UID` of one before, or with its `_HID` and neither a `_UID`.
pub(crate) fn same_ids(machine: &Machine<'_>, found: &mut Vec<Finding>) -> Result<(), AllocError> {
    let mut seen: BTreeMap<Vec<u8>, &Path> = BTreeMap::new(machine.alloc);
    for device in &machine.devices()? {
        check(machine, device, &mut seen, found)?;
    }
    Ok(())
}
