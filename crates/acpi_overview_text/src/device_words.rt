//! Texts of what is known of a device.

use crate::words::{put_between, put_code_size, put_escaped, put_hex};
use acpi_kinds::ObjectKind;
use acpi_overview::{Address, Container, Value, integer_value};
use acpi_resources::{eisa_id, name_of};
use acpi_text::put_decimal;
use acpi_tree::Term;
use std::alloc::{AllocError, Global};
use text_buffer::Text;

// Puts that a method gives a value, and the size of its code.
fn put_method(text: &mut Text, code: usize) {
    text.put("method ");
    put_code_size(text, code)
}

// Puts an id by its number: that of an EISA id, or any other.
fn put_number_id(text: &mut Text, number: u64) {
    if number < 0x1_0000_0000 {
        if let Some(id) = eisa_id(number as u32) {
            return text.put_all(&id);
        }
    }
    text.put("0x");
    put_hex(text, number, 2)
}

// Puts the ids of a package with blanks between them.
fn put_ids(text: &mut Text, elements: &[Term]) {
    let mut separator = "";
    for element in elements {
        text.put(separator);
        separator = " ";
        put_single_id(text, &Value::of_term(element));
    }
}

fn put_single_id(text: &mut Text, value: &Value<'_>) {
    match value {
        Value::Number(number) => put_number_id(text, *number),
        Value::Text(bytes) => put_escaped(text, bytes),
        _ => text.put("?"),
    }
}

/// Puts an id of a device (ACPI 6.5, 6.1.2 and 6.1.5), or the ids of a package; nothing where there is none.
pub fn put_id(text: &mut Text, value: &Value<'_>) {
    match value {
        Value::Missing => {}
        Value::Package(elements) => put_ids(text, elements),
        Value::Method(code) => put_method(text, *code),
        _ => put_single_id(text, value),
    }
}

// The name of an id, if it has one.
fn known_name(alloc: Global, value: &Value<'_>) -> Result<Option<&'static str>, AllocError> {
    match value {
        Value::Number(_) | Value::Text(_) => {
            let mut id = Text::new(alloc);
            put_single_id(&mut id, value);
            Ok(name_of(id.bytes()?))
        }
        _ => Ok(None),
    }
}

// The name of the first id of a package that has one.
fn known_name_in(alloc: Global, elements: &[Term]) -> Result<Option<&'static str>, AllocError> {
    for element in elements {
        if let Some(name) = known_name(alloc, &Value::of_term(element))? {
            return Ok(Some(name));
        }
    }
    Ok(None)
}

/// What a device is, by its ids or by its object: `PCI bus`, `processor`.
pub fn what_of(
    alloc: Global,
    container: &Container<'_>,
) -> Result<Option<&'static str>, AllocError> {
    match container.object.kind {
        ObjectKind::Processor { .. } => return Ok(Some("processor")),
        ObjectKind::Power { .. } => return Ok(Some("power resource")),
        ObjectKind::Thermal => return Ok(Some("thermal zone")),
        _ => {}
    }
    if let Some(name) = known_name(alloc, &container.values.hid)? {
        return Ok(Some(name));
    }
    match container.values.cid {
        Value::Package(elements) => known_name_in(alloc, elements),
        _ => known_name(alloc, &container.values.cid),
    }
}

/// Puts where a device stands on its parent's bus: `1F.0`, or another address; nothing where it has none.
pub fn put_address(text: &mut Text, address: Address) {
    match address {
        Address::Missing => {}
        Address::Pci { device, function } => {
            put_hex(text, u64::from(device), 2);
            text.put(".");
            if function == 0xFFFF {
                text.put("*")
            } else {
                put_hex(text, u64::from(function), 1)
            }
        }
        Address::Other(number) => {
            text.put("adr ");
            put_hex(text, number, 1)
        }
        Address::Method(code) => {
            text.put("_ADR ");
            put_code_size(text, code)
        }
        Address::Unknown => text.put("_ADR ?"),
    }
}

/// Puts a value that tells devices apart, with a word before it; nothing where there is none.
pub fn put_mark(text: &mut Text, word: &str, value: &Value<'_>) {
    if value.is_missing() {
        return;
    }
    put_between(text, " ");
    text.put(word);
    match value {
        Value::Number(number) => put_hex(text, *number, 1),
        Value::Text(bytes) => put_escaped(text, bytes),
        Value::Method(code) => put_method(text, *code),
        _ => text.put("?"),
    }
}
