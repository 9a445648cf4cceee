//! Devices in JSON.

use crate::ids::{put_cids_member, put_id_member, put_uid_member};
use crate::resources::{put_choices_member, put_resources_member};
use crate::values::{put_null_member, put_some_u64_member};
use crate::wake::put_wake_member;
use acpi_kinds::ObjectKind;
use acpi_machine_facts::{Device, MachineFacts, Role};
use acpi_overview::{Address, Container, Value};
use acpi_overview_text::{put_address, put_escaped};
use acpins_survey_json::{
    put_boolean_member, put_element_start, put_form_member, put_line_start, put_lines_end,
    put_member, put_number_member, put_path_member, put_text_member, put_word_member,
};
use std::alloc::AllocError;
use text_buffer::Text;

// Puts where a device stands on a PCI bus, or null.
fn put_pci(text: &mut Text, address: Address) {
    let Address::Pci { .. } = address else {
        return put_null_member(text, "pci");
    };
    let mut form = Text::new(text.alloc());
    put_address(&mut form, address);
    put_form_member(text, ",", "pci", &form)
}

// Puts whether a device is there (ACPI 6.5, 6.3.7).
fn put_status(text: &mut Text, sta: &Value<'_>) {
    match sta {
        Value::Missing => put_word_member(text, ",", "status", "always"),
        Value::Number(0) => put_word_member(text, ",", "status", "never"),
        Value::Number(number) => put_number_member(text, ",", "status", *number),
        Value::Method(_) => put_word_member(text, ",", "status", "method"),
        _ => put_null_member(text, "status"),
    }
}

fn put_what(text: &mut Text, what: Option<&'static str>) {
    match what {
        Some(what) => put_word_member(text, ",", "what", what),
        None => put_null_member(text, "what"),
    }
}

// Puts what its maker calls a device, its other resources, and what else is known of it.
fn put_known(text: &mut Text, container: &Container<'_>, device: &Device<'_>) {
    match device.called {
        Some(called) => {
            let mut form = Text::new(text.alloc());
            put_escaped(&mut form, called);
            put_form_member(text, ",", "called", &form)
        }
        None => put_null_member(text, "called"),
    }
    let role = match device.role {
        Role::PciBridge => Some("PCI bridge"),
        Role::Display => Some("display adapter"),
        Role::Unknown => None,
    };
    match role {
        Some(role) => put_word_member(text, ",", "role", role),
        None => put_null_member(text, "role"),
    }
    put_choices_member(text, &container.values.prs);
    put_some_u64_member(text, "event", device.event);
    put_boolean_member(text, ",", "ejectable", device.is_ejectable);
    put_member(text, ",", "power");
    text.put("[");
    let mut is_first = true;
    for object in &device.power {
        put_element_start(text, is_first);
        is_first = false;
        put_text_member(text, "{", "name", &object.name);
        put_some_u64_member(text, "value", object.value.number());
        text.put("}");
    }
    text.put("]")
}

fn put_device(
    text: &mut Text,
    container: &Container<'_>,
    device: &Device<'_>,
) -> Result<(), AllocError> {
    let values = &container.values;
    put_path_member(text, "{", "path", container.object.path);
    put_id_member(text, ",", "hid", &values.hid);
    put_cids_member(text, &values.cid);
    put_uid_member(text, &values.uid);
    put_what(text, device.what);
    put_some_u64_member(text, "address", values.adr.number());
    put_pci(text, container.address);
    put_status(text, &values.sta);
    put_boolean_member(text, ",", "conditional", container.object.is_conditional);
    put_resources_member(text, &values.crs);
    put_wake_member(text, &values.prw)?;
    put_known(text, container, device);
    text.put("}");
    Ok(())
}

/// Puts an array of the devices, in the order of their paths, each on a line. What several terms declare at one path is
/// one device.
pub fn put_devices(text: &mut Text, facts: &MachineFacts<'_, '_>) -> Result<(), AllocError> {
    text.put("[");
    let mut is_first = true;
    for (number, container) in facts.overview.tree.containers.iter().enumerate() {
        if let (ObjectKind::Device, Some(device)) = (container.object.kind, facts.device(number)) {
            put_line_start(text, is_first);
            put_device(text, container, device)?;
            is_first = false;
        }
    }
    put_lines_end(text, is_first);
    Ok(())
}
