//! Devices with one `_ADR` (ACPI 6.5, 6.1.1).

use acpi_check_machine::{CheckId, Finding, Machine, constant, put_finding};
use acpi_name::Path;
use acpi_overview::Object;
use acpi_overview_text::put_hex;
use acpi_trimmed::put_trimmed_path;
use std::alloc::{AllocError, Global};
use std::collections::BTreeMap;
use text_buffer::Text;

// Bytes that are the same where the scope of a path and an address are.
fn key_of(alloc: Global, path: &Path, address: u64) -> Result<Vec<u8>, AllocError> {
    let mut key = Vec::new(alloc);
    if let [around @ .., _] = path.segs() {
        for segment in around {
            key.extend_from_slice(&segment.bytes())?;
        }
    }
    key.extend_from_slice(&address.to_be_bytes())?;
    Ok(key)
}

// `_ADR 10000, as \PCI0.DEV0`.
fn text_of(alloc: Global, address: u64, first: &Path) -> Text {
    let mut text = Text::new(alloc);
    text.put("_ADR ");
    put_hex(&mut text, address, 1);
    text.put(", as ");
    put_trimmed_path(&mut text, first);
    text
}

// The address of a device without a `_HID`.
fn address_of<'a>(machine: &Machine<'a>, device: &Object<'a>) -> Option<u64> {
    if machine.has(device, *b"_HID") {
        return None;
    }
    constant(machine.value_below(device, *b"_ADR")?)
}

// Puts a finding of a device, where one before has its address.
fn check<'a>(
    machine: &Machine<'a>,
    device: &Object<'a>,
    seen: &mut BTreeMap<Vec<u8>, &'a Path>,
    found: &mut Vec<Finding>,
) -> Result<(), AllocError> {
    let Some(address) = address_of(machine, device) else {
        return Ok(());
    };
    let key = key_of(machine.alloc, device.path, address)?;
    match seen.get(key.as_slice()) {
        Some(first) => {
            let text = text_of(machine.alloc, address, first);
            put_finding(found, CheckId::SameAddress, device, None, text)
        }
        None => {
            seen.insert(key, device.path)?;
            Ok(())
        }
    }
}

/// Devices with the `_ADR` of one before in their scope, both without a `_HID`.
pub(crate) fn same_addresses(
    machine: &Machine<'_>,
    found: &mut Vec<Finding>,
) -> Result<(), AllocError> {
    let mut seen: BTreeMap<Vec<u8>, &Path> = BTreeMap::new(machine.alloc);
    for device in &machine.devices()? {
        check(machine, device, &mut seen, found)?;
    }
    Ok(())
}
