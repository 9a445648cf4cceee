//! Words of a device.

use acpi_check_machine::{Machine, child_of};
use acpi_infix::put_constant;
use acpi_machine_facts::{Device, DeviceState, Role};
use acpi_overview::{Address, Container, Value};
use acpi_overview_text::{put_between, put_escaped};
use acpi_phrases::{NO_BREAK, put_code, put_expression, put_function, put_number_of};
use acpi_power::{Wake, WakeEvent};
use acpi_text::put_decimal;
use std::alloc::{AllocError, Global};
use text_buffer::Text;

/// The most bytes of a `_UID` in the column of places.
const SHORT_UID: usize = 8;

/// What the column of places tells of a device.
#[derive(Debug, Clone, Copy, PartialEq, Eq)]
pub enum PlaceKind {
    /// A device and a function on a PCI bus.
    Function(u16, u16),
    /// What tells it apart from others with its id.
    Uid,
    /// Its address on another bus.
    Address(u64),
    /// Nothing.
    Nothing,
}

/// The text of a `_UID` that is constant; nothing of another.
pub fn uid_text(alloc: Global, container: &Container<'_>) -> Result<Vec<u8>, AllocError> {
    let mut text = Text::new(alloc);
    match container.values.uid {
        Value::Number(number) => put_constant(&mut text, number),
        Value::Text(bytes) => {
            text.put("\"");
            put_escaped(&mut text, bytes);
            text.put("\"")
        }
        _ => {}
    }
    text.into_bytes()
}

/// Whether the text of a `_UID` stands in the column of places.
pub fn is_short_uid(uid: &[u8]) -> bool {
    !uid.is_empty() && uid.len() <= SHORT_UID
}

/// What the column of places tells of a device with the text of its `_UID`.
pub fn place_kind(container: &Container<'_>, uid: &[u8]) -> PlaceKind {
    match container.address {
        Address::Pci { device, function } => return PlaceKind::Function(device, function),
        _ => {}
    }
    if is_short_uid(uid) {
        return PlaceKind::Uid;
    }
    match container.address {
        Address::Other(number) => PlaceKind::Address(number),
        _ => PlaceKind::Nothing,
    }
}

/// Puts the column of places of a device.
pub fn put_place(text: &mut Text, container: &Container<'_>, uid: &[u8]) {
    match place_kind(container, uid) {
        PlaceKind::Function(device, function) => put_function(text, device, function),
        PlaceKind::Uid => {
            text.put("uid ");
            text.put_all(uid)
        }
        PlaceKind::Address(number) => {
            text.put("adr ");
            put_constant(text, number)
        }
        PlaceKind::Nothing => {}
    }
}

/// The word for what a device is for sure, without a known id.
pub fn role_word(role: Role) -> &'static str {
    match role {
        Role::PciBridge => "PCI bridge",
        Role::Display => "display adapter",
        Role::Unknown => "",
    }
}

/// Puts whether a device is there; nothing where it says nothing else.
pub fn put_state(text: &mut Text, state: &DeviceState) {
    match state {
        DeviceState::Present => {}
        DeviceState::Hidden => text.put("hidden"),
        DeviceState::Absent => text.put("never there (_STA 0)"),
        DeviceState::Status(number) => {
            text.put("_STA ");
            put_constant(text, *number)
        }
        DeviceState::AnyOf(numbers) => {
            let mut before = "_STA ";
            for number in numbers {
                text.put(before);
                before = " or ";
                put_constant(text, *number);
            }
        }
        DeviceState::Code => text.put("_STA by code"),
    }
}

// Puts `GPE` and the number of a general-purpose event.
pub fn put_general_event(text: &mut Text, number: u64) {
    text.put("GPE");
    text.put_one(NO_BREAK);
    put_constant(text, number)
}

/// Puts an event by which a machine wakes.
pub(crate) fn put_wake_event(text: &mut Text, event: &WakeEvent<'_>) -> Result<(), AllocError> {
    match event {
        WakeEvent::General(number) => put_general_event(text, *number),
        WakeEvent::OfBlock(number, block) => {
            text.put("event ");
            put_constant(text, *number);
            text.put(" of ");
            put_expression(text, block)?;
        }
        WakeEvent::Computed(term) => {
            text.put("event ");
            put_expression(text, term)?;
        }
    }
    Ok(())
}

/// Puts an event, and the deepest sleep state from which it wakes: `GPE 0x18 down to S3`.
pub fn put_wake(text: &mut Text, wake: &Wake<'_>) -> Result<(), AllocError> {
    put_wake_event(text, &wake.event)?;
    if let Some(state) = wake.state {
        text.put(" down to S");
        put_decimal(text, state);
    }
    Ok(())
}

/// Puts what the code of the method `_PRW` of a device does.
pub fn put_wake_code(
    text: &mut Text,
    machine: &Machine<'_>,
    container: &Container<'_>,
) -> Result<(), AllocError> {
    let path = child_of(container.object.path, *b"_PRW")?;
    match machine.at(&path) {
        [object, ..] => put_code(text, machine, object),
        [] => Ok(()),
    }
}

/// Puts by which event a device wakes the machine; nothing where it doesn't.
pub fn put_device_wake(
    text: &mut Text,
    machine: &Machine<'_>,
    container: &Container<'_>,
    device: &Device<'_>,
) -> Result<(), AllocError> {
    match &device.wake {
        Some(wake) => {
            text.put("wakes by ");
            put_wake(text, wake)
        }
        None if container.values.prw.is_missing() => Ok(()),
        None => {
            text.put("wakes (by code: ");
            put_wake_code(text, machine, container)?;
            text.put(")");
            Ok(())
        }
    }
}

/// Puts how many methods and field units a device has: `4 methods, 42 fields`, each of some that are alike.
pub fn put_counts(text: &mut Text, container: &Container<'_>, is_each: bool) {
    let each = if is_each { " each" } else { "" };
    let counts = &container.counts;
    if counts.methods > 0 {
        put_number_of(text, counts.methods, "method", "methods");
        text.put(each);
    }
    if counts.units > 0 {
        put_between(text, ", ");
        put_number_of(text, counts.units, "field", "fields");
        text.put(each);
    }
}

/// Puts how many methods, field units, regions and names a device has.
pub fn put_all_counts(text: &mut Text, container: &Container<'_>) {
    put_counts(text, container, false);
    let counts = &container.counts;
    if counts.regions > 0 {
        put_between(text, ", ");
        put_number_of(text, counts.regions, "region", "regions");
    }
    if counts.names > 0 {
        put_between(text, ", ");
        put_number_of(text, counts.names, "name", "names");
    }
}
