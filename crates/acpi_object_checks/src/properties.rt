//! Device properties of `_DSD` (ACPI 6.5, 6.2.5).

use crate::texts::put_escaped;
use acpi_check_machine::{CheckId, Finding, Machine, package_of, put_finding};
use acpi_overview::{Object, last_segment};
use acpi_text::put_decimal;
use acpi_tree::Term;
use std::alloc::{AllocError, Global};
use std::collections::BTreeSet;
use text_buffer::Text;

// daffd814-6eba-4d8c-8a91-bc9bbf4aa301, the UUID of device properties, as ToUUID has it.
const PROPERTIES: [u8; 16] = [
    0x14, 0xD8, 0xFF, 0xDA, 0xBA, 0x6E, 0x8C, 0x4D, 0x8A, 0x91, 0xBC, 0x9B, 0xBF, 0x4A, 0xA3, 0x01,
];

fn pair_text(alloc: Global, number: usize) -> Text {
    let mut text = Text::new(alloc);
    text.put("property ");
    put_decimal(&mut text, number as u64);
    text.put(" is no pair of a string and a value (Linux drops all)");
    text
}

fn key_text(alloc: Global, key: &[u8]) -> Text {
    let mut text = Text::new(alloc);
    text.put("property \"");
    put_escaped(&mut text, key);
    text.put("\" twice (the second is never found)");
    text
}

// The key of a property: a pair of a string and a value.
fn key_of(property: &Term) -> Option<&[u8]> {
    match package_of(property)? {
        [Term::Str(key), _] => Some(key),
        _ => None,
    }
}

// The properties behind a UUID, where it is that of device properties.
fn properties_in<'a>(uuid: &Term, value: &'a Term) -> Option<&'a [Term]> {
    match uuid {
        Term::Buffer(_, bytes) if bytes.as_slice() == PROPERTIES.as_slice() => package_of(value),
        _ => None,
    }
}

fn check(
    alloc: Global,
    object: &Object<'_>,
    properties: &[Term],
    found: &mut Vec<Finding>,
) -> Result<(), AllocError> {
    let mut keys: BTreeSet<&[u8]> = BTreeSet::new(alloc);
    for number in 0..properties.len() {
        let text = match key_of(&properties[number]) {
            None => Some(pair_text(alloc, number)),
            Some(key) => {
                if keys.insert(key)? {
                    None
                } else {
                    Some(key_text(alloc, key))
                }
            }
        };
        if let Some(text) = text {
            put_finding(found, CheckId::Properties, object, None, text)?;
        }
    }
    Ok(())
}

/// Properties of `_DSD` that are no pairs of a string and a value, and keys that stand twice.
pub(crate) fn properties(
    machine: &Machine<'_>,
    found: &mut Vec<Finding>,
) -> Result<(), AllocError> {
    for object in &machine.objects {
        if object.is_conditional || last_segment(object.path) != *b"_DSD" {
            continue;
        }
        let value = machine.value_of(object).and_then(|v| package_of(v));
        for pair in value.unwrap_or(&[]).chunks_exact(2) {
            if let [uuid, value] = pair {
                if let Some(properties) = properties_in(uuid, value) {
                    check(machine.alloc, object, properties, found)?;
                }
            }
        }
    }
    Ok(())
}
