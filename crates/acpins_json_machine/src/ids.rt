//! Ids of devices in JSON.

use crate::values::put_null_member;
use acpi_overview::Value;
use acpi_overview_text::{put_escaped, put_id};
use acpi_text::put_decimal;
use acpi_tree::Term;
use acpins_survey_json::{put_element_start, put_form, put_form_member, put_member};
use text_buffer::Text;

/// Puts the member of an id (ACPI 6.5, 6.1.5): its text, or null where it is no constant.
pub(crate) fn put_id_member(text: &mut Text, start: &str, name: &str, id: &Value<'_>) {
    put_member(text, start, name);
    put_id_text(text, id)
}

// Puts an id as a text, or null where it is no constant.
fn put_id_text(text: &mut Text, id: &Value<'_>) {
    match id {
        Value::Number(_) | Value::Text(_) => {
            let mut form = Text::new(text.alloc());
            put_id(&mut form, id);
            put_form(text, &form)
        }
        _ => text.put("null"),
    }
}

// Puts an array of the ids of a package.
fn put_id_list(text: &mut Text, elements: &[Term]) {
    text.put("[");
    let mut is_first = true;
    for element in elements {
        put_element_start(text, is_first);
        put_id_text(text, &Value::of_term(element));
        is_first = false;
    }
    text.put("]")
}

/// Puts the member of the ids of compatible devices (6.1.2): null where only running code tells them.
pub(crate) fn put_cids_member(text: &mut Text, ids: &Value<'_>) {
    put_member(text, ",", "cids");
    match ids {
        Value::Missing => text.put("[]"),
        Value::Package(elements) => put_id_list(text, elements),
        Value::Number(_) | Value::Text(_) => {
            text.put("[");
            put_id_text(text, ids);
            text.put("]")
        }
        _ => text.put("null"),
    }
}

/// Puts the member of what tells devices of one id apart (6.1.12): a string, the digits of a number, or null where it is
/// neither.
pub(crate) fn put_uid_member(text: &mut Text, uid: &Value<'_>) {
    let mut form = Text::new(text.alloc());
    match uid {
        Value::Number(number) => put_decimal(&mut form, *number),
        Value::Text(bytes) => put_escaped(&mut form, bytes),
        _ => return put_null_member(text, "uid"),
    }
    put_form_member(text, ",", "uid", &form)
}
