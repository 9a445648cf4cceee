//! Events and what is asked for, in JSON (ACPI 6.5, 5.6, 5.7.2 and 9.1.1).

use crate::values::put_null_member;
use acpi_asked::uuid_name;
use acpi_events::{EventNumber, Notification, NotifyTarget, event_number, notifications_of};
use acpi_machine_facts::MachineFacts;
use acpi_name::Path;
use acpi_overview_text::put_escaped;
use acpi_phrases::{put_expression, put_uuid};
use acpi_text::put_name;
use acpins_survey_json::{
    put_element_start, put_form_member, put_line_start, put_lines_end, put_member,
    put_number_member, put_path_member, put_path_text, put_value_member, put_word_member,
};
use std::alloc::AllocError;
use text_buffer::Text;

// Puts the member of paths.
fn put_paths(text: &mut Text, name: &str, paths: &[&Path]) {
    put_member(text, ",", name);
    text.put("[");
    let mut is_first = true;
    for path in paths {
        put_element_start(text, is_first);
        put_path_text(text, *path);
        is_first = false;
    }
    text.put("]")
}

// Puts who is notified: by the path of what is declared, by the name that nothing declares, or by the term that gives it.
fn put_target(text: &mut Text, target: NotifyTarget<'_, '_>) -> Result<(), AllocError> {
    let mut form = Text::new(text.alloc());
    match target {
        NotifyTarget::At(path) => {
            put_path_member(text, "{", "target", path);
            return Ok(());
        }
        NotifyTarget::Nowhere(name) => put_name(&mut form, name.view()),
        NotifyTarget::Computed(term) => put_expression(&mut form, term)?,
    }
    put_member(text, "{", "target");
    text.put("null");
    put_form_member(text, ",", "term", &form);
    Ok(())
}

fn put_notification(
    text: &mut Text,
    notification: &Notification<'_, '_>,
) -> Result<(), AllocError> {
    put_target(text, notification.target)?;
    put_value_member(text, ",", "value", notification.value);
    put_paths(text, "through", &notification.through);
    text.put("}");
    Ok(())
}

/// Puts an array of the methods that serve events, by path, each with whom it notifies.
pub fn put_events(text: &mut Text, facts: &MachineFacts<'_, '_>) -> Result<(), AllocError> {
    text.put("[");
    let mut is_first = true;
    for object in &facts.machine.objects {
        let (kind, number) = match event_number(object) {
            Some(EventNumber::Level(number)) => ("level", number),
            Some(EventNumber::Edge(number)) => ("edge", number),
            Some(EventNumber::Query(number)) => ("query", number),
            None => continue,
        };
        put_line_start(text, is_first);
        is_first = false;
        put_path_member(text, "{", "method", object.path);
        put_word_member(text, ",", "kind", kind);
        put_number_member(text, ",", "number", u64::from(number));
        put_member(text, ",", "notifies");
        text.put("[");
        let mut is_first_target = true;
        for notification in &notifications_of(facts.machine, object)? {
            put_element_start(text, is_first_target);
            is_first_target = false;
            put_notification(text, notification)?;
        }
        text.put("]}");
    }
    put_lines_end(text, is_first);
    Ok(())
}

/// Puts an array of the strings that methods ask of `_OSI`, each with the methods.
pub fn put_interfaces(text: &mut Text, facts: &MachineFacts<'_, '_>) {
    text.put("[");
    let mut is_first = true;
    for interface in &facts.interfaces {
        put_line_start(text, is_first);
        is_first = false;
        let mut form = Text::new(text.alloc());
        put_escaped(&mut form, interface.name);
        put_form_member(text, "{", "name", &form);
        put_paths(text, "methods", &interface.methods);
        text.put("}");
    }
    put_lines_end(text, is_first)
}

/// Puts an array of the UUIDs with which methods compare their first argument, each with what calls with it are of, where that
/// is known, and the methods.
pub fn put_uuids(text: &mut Text, facts: &MachineFacts<'_, '_>) {
    text.put("[");
    let mut is_first = true;
    for uuid in &facts.uuids {
        put_line_start(text, is_first);
        is_first = false;
        let mut form = Text::new(text.alloc());
        put_uuid(&mut form, &uuid.bytes);
        put_form_member(text, "{", "uuid", &form);
        match uuid_name(&uuid.bytes) {
            Some(name) => put_word_member(text, ",", "name", name),
            None => put_null_member(text, "name"),
        }
        put_paths(text, "methods", &uuid.methods);
        text.put("}");
    }
    put_lines_end(text, is_first)
}
