//! Reserved names with other arguments or values than the specification has (ACPI 6.5, 5.6.8).

use crate::texts::put_plural;
use acpi_check_machine::{CheckId, Finding, Machine, put_finding};
use acpi_kinds::ObjectKind;
use acpi_overview::{Object, last_segment};
use acpi_reserved::{DataType, Due, Rule, rule_of, type_of};
use acpi_text::put_decimal;
use std::alloc::{AllocError, Global};
use text_buffer::Text;

// `_STA has 1 argument, the specification 0 (Linux warns)`.
fn count_text(alloc: Global, name: &[u8], count: u8, will_do: &[u8]) -> Text {
    let mut text = Text::new(alloc);
    text.put_all(name);
    text.put(" has ");
    put_decimal(&mut text, u64::from(count));
    text.put(" argument");
    put_plural(&mut text, count as usize);
    text.put(", the specification ");
    let mut separator = "";
    for number in will_do {
        text.put(separator);
        separator = " or ";
        put_decimal(&mut text, u64::from(*number));
    }
    text.put(" (Linux warns)");
    text
}

// `_SRS must be a method (Linux warns)`.
fn method_text(alloc: Global, name: &[u8]) -> Text {
    let mut text = Text::new(alloc);
    text.put_all(name);
    text.put(" must be a method (Linux warns)");
    text
}

// `_CRS is a number, the specification has a buffer (Linux warns or ignores it)`.
fn type_text(alloc: Global, name: &[u8], kind: DataType, due: Due) -> Text {
    let mut text = Text::new(alloc);
    text.put_all(name);
    text.put(" is ");
    text.put(kind.text());
    text.put(", the specification has ");
    text.put(due.text());
    text.put(" (Linux warns or ignores it)");
    text
}

// What is wrong with the arguments of an object of a reserved name.
fn wrong_arguments(alloc: Global, object: &Object<'_>, name: &[u8], rule: Rule) -> Option<Text> {
    match object.kind {
        ObjectKind::Method(flags) => {
            let count = flags % 8;
            if rule.arguments.contains(&count) {
                return None;
            }
            Some(count_text(alloc, name, count, rule.arguments))
        }
        _ => {
            if rule.due != Due::Nothing && rule.arguments.iter().all(|n| *n == 0) {
                return None;
            }
            Some(method_text(alloc, name))
        }
    }
}

// What is wrong with the value of an object of a reserved name, where that is constant.
fn wrong_value<'a>(
    machine: &Machine<'a>,
    object: &Object<'a>,
    name: &[u8],
    due: Due,
) -> Option<Text> {
    if object.is_conditional {
        return None;
    }
    let kind = type_of(machine.value_of(object)?)?;
    if due.takes(kind) {
        return None;
    }
    Some(type_text(machine.alloc, name, kind, due))
}

// What is wrong with an object of a reserved name.
fn wrong<'a>(machine: &Machine<'a>, object: &Object<'a>) -> Option<Text> {
    let name = last_segment(object.path);
    let rule = rule_of(name)?;
    match wrong_arguments(machine.alloc, object, &name, rule) {
        Some(text) => Some(text),
        None => wrong_value(machine, object, &name, rule.due),
    }
}

/// Reserved names that are methods with another number of arguments, no methods where arguments or no value are due, or
/// constants of another type.
pub(crate) fn arguments(machine: &Machine<'_>, found: &mut Vec<Finding>) -> Result<(), AllocError> {
    for object in &machine.objects {
        if !matches!(object.kind, ObjectKind::Method(_) | ObjectKind::Name(_)) {
            continue;
        }
        if let Some(text) = wrong(machine, object) {
            put_finding(found, CheckId::Arguments, object, None, text)?;
        }
    }
    Ok(())
}
