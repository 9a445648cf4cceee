//! Methods: each opens to its code.

use crate::anchors::{method_id, methods_of};
use crate::code::put_statements;
use crate::devices::put_method_link;
use crate::markup::{AttributeName, Element};
use crate::parts::with_text;
use crate::rows::put_linked;
use crate::table_bytes::TableMap;
use crate::users::Users;
use crate::writer::Page;
use acpi_machine_facts::MachineFacts;
use acpi_overview::Object;
use acpi_overview_text::put_counted;
use acpi_trimmed::put_trimmed_path;
use std::alloc::AllocError;

// Puts a method.
fn put_method<'a>(
    page: &mut Page,
    map: &TableMap<'_>,
    facts: &MachineFacts<'_, 'a>,
    users: &Users,
    method: &Object<'a>,
) -> Result<(), AllocError> {
    page.open(Element::Details, &[]);
    page.open(Element::Summary, &[]);
    page.open_class(Element::Span, "n");
    put_trimmed_path(&mut page.text, method.path);
    page.close(Element::Span);
    page.text.put(" ");
    page.open_class(Element::Span, "mut");
    put_counted(&mut page.text, method.code, "byte");
    page.close(Element::Span);
    page.close(Element::Summary);
    let id = method_id(facts, method);
    page.open(Element::Div, &[with_text(AttributeName::Id, &id)]);
    let callers = users.of(facts, method.path)?;
    if !callers.is_empty() {
        page.open_class(Element::P, "lg");
        page.text.put("used by ");
        for caller in &callers {
            put_method_link(page, &method_id(facts, caller), caller);
        }
        page.close(Element::P);
    }
    match facts.machine.body(method.number) {
        Some(body) => {
            page.open(Element::Pre, &[]);
            put_statements(page, body.terms)?;
            page.close(Element::Pre);
        }
        None => page.element(Element::P, "Its code is not read."),
    }
    put_linked(page, map, method.site, b"its bytes");
    page.close(Element::Div);
    page.close_line(Element::Details);
    Ok(())
}

/// Puts the methods, by path, if there are any.
pub(crate) fn put_methods<'a>(
    page: &mut Page,
    map: &TableMap<'_>,
    facts: &MachineFacts<'_, 'a>,
    users: &Users,
) -> Result<(), AllocError> {
    let methods = methods_of(facts)?;
    if methods.is_empty() {
        return Ok(());
    }
    page.open_section(
        "methods",
        "Methods",
        b"Nothing was run. Lines are counted as in findings.",
    );
    page.open_class(Element::Div, "methods");
    page.end_line();
    for method in &methods {
        put_method(page, map, facts, users, method)?;
    }
    page.close(Element::Div);
    page.close_line(Element::Section);
    Ok(())
}
