//! Operation regions: each opens to its fields and to the methods that use it.

use crate::anchors::{method_id, region_id};
use crate::devices::put_method_link;
use crate::markup::{AttributeName, Element};
use crate::parts::{with_text, with_words};
use crate::rows::put_linked;
use crate::table_bytes::TableMap;
use crate::users::Users;
use crate::writer::Page;
use acpi_machine_facts::{MachineFacts, RegionFact};
use acpi_overview_text::{put_between, space_word};
use acpi_region_rows::{RegionRow, region_rows, unit_texts};
use std::alloc::AllocError;
use text_buffer::Text;

// Puts the columns of a row.
fn put_columns(page: &mut Page, row: &RegionRow) {
    page.open_class(Element::Span, "n");
    page.text.put(row.mark);
    page.text.put(" ");
    page.put_words(&row.address);
    page.close(Element::Span);
    page.open_class(Element::Span, "n");
    page.put_words(&row.size);
    page.close(Element::Span);
    page.open(Element::Span, &[]);
    page.put_words(&row.about);
    page.close(Element::Span)
}

// Puts the fields of a region of a table of that number, and the methods that use it.
fn put_facts(
    page: &mut Page,
    map: &TableMap<'_>,
    facts: &MachineFacts<'_, '_>,
    users: &Users,
    region: &RegionFact<'_, '_>,
    number: usize,
) -> Result<(), AllocError> {
    let id = region_id(facts, &region.object);
    page.open(
        Element::Dl,
        &[
            with_words(AttributeName::Class, "facts"),
            with_text(AttributeName::Id, &id),
        ],
    );
    page.end_line();
    let mut units = Text::new(page.alloc());
    for unit in &unit_texts(facts, number)? {
        put_between(&mut units, ", ");
        units.put_all(unit);
    }
    page.element(Element::Dt, "fields");
    page.open(Element::Dd, &[]);
    page.put_words(units.bytes()?);
    page.close_line(Element::Dd);
    page.element(Element::Dt, "used by");
    page.open(Element::Dd, &[]);
    for method in &users.of_region(facts, number, region.path)? {
        put_method_link(page, &method_id(facts, method), method);
    }
    page.close_line(Element::Dd);
    page.element(Element::Dt, "bytes");
    page.open(Element::Dd, &[]);
    put_linked(page, map, region.object.site, b"where it is declared");
    page.close_line(Element::Dd);
    page.close_line(Element::Dl);
    Ok(())
}

// Puts a region.
fn put_region(
    page: &mut Page,
    map: &TableMap<'_>,
    facts: &MachineFacts<'_, '_>,
    users: &Users,
    row: &RegionRow,
) -> Result<(), AllocError> {
    let Some(number) = row.numbers.first().copied() else {
        return Ok(());
    };
    let Some(region) = facts.regions.get(number) else {
        return Ok(());
    };
    page.open(Element::Details, &[]);
    page.open_class(Element::Summary, "reg");
    put_columns(page, row);
    page.close(Element::Summary);
    if region.is_local {
        page.open_class(Element::P, "facts");
        page.text.put("declared by ");
        put_method_link(page, &method_id(facts, &region.object), &region.object);
        page.close(Element::P);
    } else {
        put_facts(page, map, facts, users, region, number)?;
    }
    page.close_line(Element::Details);
    Ok(())
}

/// Puts the regions by space and address, if there are any.
pub(crate) fn put_regions(
    page: &mut Page,
    map: &TableMap<'_>,
    facts: &MachineFacts<'_, '_>,
    users: &Users,
) -> Result<(), AllocError> {
    if facts.regions.is_empty() {
        return Ok(());
    }
    page.open_section(
        "regions",
        "Regions",
        b"= bounds are constants, ~ named constants that nothing stores to, ? known only at run time.",
    );
    let mut before: Option<u8> = None;
    for row in &region_rows(facts, true)? {
        if before != Some(row.space) {
            page.element(Element::P, space_word(row.space));
        }
        before = Some(row.space);
        put_region(page, map, facts, users, row)?;
    }
    page.close_line(Element::Section);
    Ok(())
}
