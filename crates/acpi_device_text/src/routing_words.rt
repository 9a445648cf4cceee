//! What chooses between the packages of a `_PRT` (ACPI 6.5, 6.2.13).

use acpi_overview_text::put_counted;
use acpi_phrases::{put_expression, put_number_of};
use acpi_routes::{RouteTable, Routing, RoutingForm};
use acpi_text::put_decimal;
use acpi_trimmed::put_trimmed_name;
use std::alloc::AllocError;
use text_buffer::Text;

fn put_entries(text: &mut Text, table: &RouteTable<'_>) {
    put_number_of(text, table.entries.len(), "entry", "entries")
}

fn put_name(text: &mut Text, table: &RouteTable<'_>) {
    if let Some(name) = table.name {
        put_trimmed_name(text, name.view());
        text.put(" ");
    }
}

/// Puts what chooses between the packages of a `_PRT`.
pub fn put_form(text: &mut Text, routing: &Routing<'_>) -> Result<(), AllocError> {
    match (&routing.form, routing.tables.as_slice()) {
        (RoutingForm::Constant, _) => text.put("constant"),
        (RoutingForm::Either(test), [first, second]) => {
            put_name(text, first);
            text.put("(");
            put_entries(text, first);
            text.put(") if ");
            put_expression(text, test)?;
            text.put(", else ");
            put_name(text, second);
            text.put("(");
            put_decimal(text, second.entries.len() as u64);
            text.put(")");
        }
        (RoutingForm::Either(test), _) => put_expression(text, test)?,
        (RoutingForm::Returned(value), _) => put_expression(text, value)?,
        (RoutingForm::Code(code), _) => {
            text.put("by code (");
            put_counted(text, *code, "byte");
            text.put(")");
        }
    }
    if let [table] = routing.tables.as_slice() {
        text.put(", ");
        put_entries(text, table);
    }
    Ok(())
}
