//! By which event a device wakes the machine, in JSON.

use crate::values::{put_null_member, put_some_u64_member};
use acpi_overview::Value;
use acpi_phrases::put_expression;
use acpi_tree::Term;
use acpins_survey_json::{put_form_member, put_member};
use std::alloc::AllocError;
use text_buffer::Text;

fn number_of(term: &Term) -> Option<u64> {
    Value::of_term(term).number()
}

// Puts the number of an event, and the device that has it: null where that is the machine itself.
fn put_event(text: &mut Text, event: &Term) -> Result<(), AllocError> {
    put_member(text, "{", "event");
    match Value::of_term(event) {
        Value::Package([block, number]) => {
            put_number(text, number_of(number));
            let mut form = Text::new(text.alloc());
            put_expression(&mut form, block)?;
            put_form_member(text, ",", "block", &form);
        }
        _ => {
            put_number(text, number_of(event));
            put_null_member(text, "block");
        }
    }
    Ok(())
}

fn put_number(text: &mut Text, number: Option<u64>) {
    match number {
        Some(number) => acpins_survey_json::put_number(text, number),
        None => text.put("null"),
    }
}

/// Puts the member of what wakes the machine (ACPI 6.5, 7.3.13): the event, the device that has it, and the lowest state
/// from which it does; null without a constant package.
pub(crate) fn put_wake_member(text: &mut Text, prw: &Value<'_>) -> Result<(), AllocError> {
    match prw {
        Value::Package([event, state, ..]) => {
            put_member(text, ",", "wake");
            put_event(text, event)?;
            put_some_u64_member(text, "state", number_of(state));
            text.put("}");
        }
        _ => put_null_member(text, "wake"),
    }
    Ok(())
}
