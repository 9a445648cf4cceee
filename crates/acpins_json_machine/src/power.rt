//! Sleep states, power resources and thermal zones in JSON (ACPI 6.5, 7 and 11).

use crate::values::{put_null_member, put_some_u64_member};
use acpi_kinds::ObjectKind;
use acpi_machine_facts::MachineFacts;
use acpi_overview::{Value, last_segment};
use acpi_power::trips_of;
use acpi_tree::Term;
use acpins_survey_json::{
    put_boolean_member, put_element_start, put_line_start, put_lines_end, put_member,
    put_number_member, put_path_member, put_path_text, put_text_member, put_value_member,
};
use std::alloc::AllocError;
use text_buffer::Text;

// Puts the member of the element of a package of that number; null where there is none.
fn put_element_member(text: &mut Text, name: &str, elements: &[Term], number: usize) {
    match elements.get(number) {
        Some(term) => put_value_member(text, ",", name, term),
        None => put_null_member(text, name),
    }
}

/// Puts an array of the sleep states, from S0 on: the two types go into SLP_TYP of the registers PM1a and PM1b.
pub fn put_sleep_states(text: &mut Text, facts: &MachineFacts<'_, '_>) {
    text.put("[");
    let mut is_first = true;
    for state in &facts.sleep_states {
        put_line_start(text, is_first);
        put_number_member(text, "{", "state", u64::from(state.number));
        put_element_member(text, "type_a", state.types, 0);
        put_element_member(text, "type_b", state.types, 1);
        put_boolean_member(text, ",", "conditional", state.object.is_conditional);
        text.put("}");
        is_first = false;
    }
    put_lines_end(text, is_first)
}

/// Puts an array of the power resources, by path, each with the devices that need it.
pub fn put_power_resources(text: &mut Text, facts: &MachineFacts<'_, '_>) {
    text.put("[");
    let mut is_first = true;
    for resource in &facts.power_resources {
        put_line_start(text, is_first);
        put_path_member(text, "{", "path", resource.object.path);
        put_number_member(text, ",", "level", u64::from(resource.level));
        put_number_member(text, ",", "order", u64::from(resource.order));
        put_member(text, ",", "users");
        text.put("[");
        let mut is_first_user = true;
        for user in &resource.users {
            if let Some(container) = facts.overview.tree.containers.get(*user) {
                put_element_start(text, is_first_user);
                put_path_text(text, container.object.path);
                is_first_user = false;
            }
        }
        text.put("]}");
        is_first = false;
    }
    put_lines_end(text, is_first)
}

/// Puts an array of the thermal zones, by path, each with its objects: temperatures in tenths of a kelvin, times in tenths of a
/// second, null where code tells them.
pub fn put_thermal_zones(text: &mut Text, facts: &MachineFacts<'_, '_>) -> Result<(), AllocError> {
    text.put("[");
    let mut is_first = true;
    for container in &facts.overview.tree.containers {
        let ObjectKind::Thermal = container.object.kind else {
            continue;
        };
        put_line_start(text, is_first);
        is_first = false;
        put_path_member(text, "{", "path", container.object.path);
        put_member(text, ",", "trips");
        text.put("[");
        let mut is_first_trip = true;
        for trip in &trips_of(facts.machine, facts.overview, &container.object)? {
            put_element_start(text, is_first_trip);
            is_first_trip = false;
            put_text_member(text, "{", "name", &last_segment(trip.object.path));
            let number = match trip.value {
                Value::Number(number) => Some(number),
                _ => None,
            };
            put_some_u64_member(text, "value", number);
            text.put("}");
        }
        text.put("]}");
    }
    put_lines_end(text, is_first);
    Ok(())
}
