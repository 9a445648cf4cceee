//! Which interrupts the pins of PCI devices have, in JSON (ACPI 6.5, 6.2.13).

use crate::values::put_some_u64_member;
use acpi_machine_facts::MachineFacts;
use acpi_phrases::put_expression;
use acpi_routes::{Route, RouteSource, RouteTable, routes_in};
use acpins_survey_json::{
    put_element_start, put_form_member, put_line_start, put_lines_end, put_member, put_name_member,
    put_number_member, put_path_member,
};
use std::alloc::AllocError;
use text_buffer::Text;

// Puts a route: the address of the device, the pin, and the interrupt or the link device, or the term that gives it.
fn put_route(text: &mut Text, route: &Route<'_>) -> Result<(), AllocError> {
    put_number_member(text, "{", "address", route.address);
    put_number_member(text, ",", "pin", route.pin);
    match route.source {
        RouteSource::Interrupt(number) => put_some_u64_member(text, "interrupt", Some(number)),
        RouteSource::Link(name) => put_name_member(text, ",", "link", name),
        RouteSource::Computed(term) => {
            let mut form = Text::new(text.alloc());
            put_expression(&mut form, term)?;
            put_form_member(text, ",", "expression", &form);
        }
    }
    text.put("}");
    Ok(())
}

fn put_table(text: &mut Text, table: &RouteTable<'_>) -> Result<(), AllocError> {
    match table.name {
        Some(name) => put_name_member(text, "{", "name", name),
        None => {
            put_member(text, "{", "name");
            text.put("null");
        }
    }
    put_member(text, ",", "routes");
    text.put("[");
    let mut is_first = true;
    for route in &routes_in(text.alloc(), table.entries)? {
        put_element_start(text, is_first);
        is_first = false;
        put_route(text, route)?;
    }
    text.put("]}");
    Ok(())
}

/// Puts an array of the routings, by path, each with the packages between which code may choose.
pub fn put_routings(text: &mut Text, facts: &MachineFacts<'_, '_>) -> Result<(), AllocError> {
    text.put("[");
    let mut is_first = true;
    for routing in &facts.routings {
        put_line_start(text, is_first);
        is_first = false;
        put_path_member(text, "{", "path", routing.object.path);
        put_member(text, ",", "tables");
        text.put("[");
        let mut is_first_table = true;
        for table in &routing.tables {
            put_element_start(text, is_first_table);
            is_first_table = false;
            put_table(text, table)?;
        }
        text.put("]}");
    }
    put_lines_end(text, is_first);
    Ok(())
}
