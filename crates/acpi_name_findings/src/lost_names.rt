//! Names that are declared nowhere.

use acpi_check_machine::{CheckId, Finding, Machine, put_finding, put_finding_at};
use acpi_kinds::ObjectKind;
use acpi_name::Name;
use acpi_name_checks::{LostLinks, elements_nowhere, lost_links, names_nowhere};
use acpi_overview::Site;
use acpi_text::{put_decimal, put_name};
use std::alloc::{AllocError, Global};
use text_buffer::Text;

// Puts names with a comma between each two.
fn put_names(text: &mut Text, names: &[&Name]) {
    let mut separator = "";
    for name in names {
        text.put(separator);
        separator = ", ";
        put_name(text, name.view());
    }
}

fn put_units(text: &mut Text, count: usize) {
    text.put(", ");
    put_decimal(text, count as u64);
    text.put(if count == 1 { " unit" } else { " units" });
    text.put(" (Linux drops the field: AE_NOT_FOUND)");
}

// What is said of links that lead nowhere.
fn text_of_links(alloc: Global, lost: &LostLinks<'_>) -> Text {
    let mut text = Text::new(alloc);
    put_names(&mut text, &lost.names);
    text.put(" is declared nowhere");
    match lost.units {
        Some(count) => put_units(&mut text, count),
        None => text.put(" (Linux drops it: AE_NOT_FOUND)"),
    }
    text
}

/// Field units, Create fields and Aliases whose names are declared nowhere (ACPI 6.5, 20.2.5.2): of the units of a field form one
/// finding.
pub(crate) fn no_link(machine: &Machine<'_>, found: &mut Vec<Finding>) -> Result<(), AllocError> {
    for lost in &lost_links(machine.survey)? {
        if let Some(entry) = machine.survey.entry(lost.entry) {
            let site = Site {
                table: lost.site.table,
                offset: lost.site.offset,
            };
            let text = text_of_links(machine.alloc, lost);
            put_finding_at(found, CheckId::NoLink, &entry.path, site, None, text)?;
        }
    }
    Ok(())
}

/// Names in bodies that are declared nowhere (ACPI 6.5, 5.3): each at the first line where an interpreter gives up for it.
pub(crate) fn no_name(machine: &Machine<'_>, found: &mut Vec<Finding>) -> Result<(), AllocError> {
    for body in &machine.bodies {
        for lost in &names_nowhere(machine.survey, body.object.number, body.terms, &body.names)? {
            let mut text = Text::new(machine.alloc);
            put_name(&mut text, lost.name.view());
            text.put(" is declared nowhere (Linux aborts the method: AE_NOT_FOUND)");
            put_finding(found, CheckId::NoName, &body.object, Some(lost.line), text)?;
        }
    }
    Ok(())
}

/// Elements of packages that are declared nowhere (ACPI 6.5, 19.6.102).
pub(crate) fn no_element(
    machine: &Machine<'_>,
    found: &mut Vec<Finding>,
) -> Result<(), AllocError> {
    for object in &machine.objects {
        if let ObjectKind::Name(_) = object.kind {
            for name in elements_nowhere(machine.survey, object.number)? {
                let mut text = Text::new(machine.alloc);
                text.put("element ");
                put_name(&mut text, name.view());
                text.put(" is declared nowhere (Linux leaves it empty)");
                put_finding(found, CheckId::NoElement, object, None, text)?;
            }
        }
    }
    Ok(())
}
