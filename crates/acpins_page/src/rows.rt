//! Sections with rows: findings, what the machine is, events, routing and conditions.

use crate::anchors::bytes_id;
use crate::markup::{AttributeName, Element};
use crate::parts::{with_text, with_words};
use crate::table_bytes::TableMap;
use crate::writer::Page;
use acpi_finding_rows::{FindingLevel, FoundRows};
use acpi_machine_facts::MachineFacts;
use acpi_machine_rows::machine_rows;
use acpi_overview::Site;
use acpi_overview_text::put_between;
use acpi_region_rows::unclaimed_rows;
use acpi_section_rows::{Section, condition_rows};
use acpi_trimmed::put_trimmed_path;
use std::alloc::AllocError;
use text_buffer::Text;

/// Puts words, which lead to the bytes at a site.
pub(crate) fn put_linked(page: &mut Page, map: &TableMap<'_>, site: Option<Site>, words: &[u8]) {
    let anchor = site.and_then(|s| map.anchor(s));
    let Some(anchor) = anchor else {
        return page.put_words(words);
    };
    let id = bytes_id(page.alloc(), anchor);
    page.open(Element::A, &[with_text(AttributeName::Href, &id)]);
    page.put_words(words);
    page.close(Element::A)
}

/// Puts what was found, each finding with a link to its bytes.
pub(crate) fn put_findings(
    page: &mut Page,
    map: &TableMap<'_>,
    found: &FoundRows,
) -> Result<(), AllocError> {
    if found.rows.is_empty() {
        return Ok(());
    }
    let mut legend = Text::new(page.alloc());
    for level in &FindingLevel::ALL {
        if found.rows.iter().any(|r| r.level == *level) {
            put_between(&mut legend, "; ");
            legend.put(level.word());
            legend.put(": ");
            legend.put(level.meaning());
        }
    }
    page.open_section("findings", "Findings", legend.bytes()?);
    page.open(Element::Ul, &[]);
    page.end_line();
    for row in &found.rows {
        page.open(Element::Li, &[]);
        page.open(
            Element::Span,
            &[with_words(AttributeName::Class, class_of(row.level))],
        );
        page.text.put(row.level.word());
        page.close(Element::Span);
        put_linked(page, map, row.site, &row.text);
        page.close_line(Element::Li);
    }
    page.close_line(Element::Ul);
    page.close_line(Element::Section);
    Ok(())
}

fn class_of(level: FindingLevel) -> &'static str {
    match level {
        FindingLevel::Problem => "k problem",
        FindingLevel::Error => "k error",
        FindingLevel::Warning => "k warning",
        FindingLevel::Remark => "k remark",
        FindingLevel::Note => "k note",
    }
}

/// Puts what the machine is.
pub(crate) fn put_machine(page: &mut Page, facts: &MachineFacts<'_, '_>) -> Result<(), AllocError> {
    page.open_section("machine", "Machine", b"");
    page.open(Element::Dl, &[]);
    page.end_line();
    let mut last = "";
    for row in &machine_rows(facts, true)? {
        page.element(Element::Dt, if row.word == last { "" } else { row.word });
        last = row.word;
        page.open(Element::Dd, &[]);
        page.put_words(&row.text);
        page.close_line(Element::Dd);
    }
    page.close_line(Element::Dl);
    page.close_line(Element::Section);
    Ok(())
}

fn put_section(page: &mut Page, section: &Section) {
    let (id, heading) = section_names(section.heading);
    page.open_section(id, heading, section.legend.as_bytes());
    page.open_class(Element::Div, "scroll");
    page.open(Element::Table, &[]);
    page.end_line();
    for row in &section.rows {
        page.open(Element::Tr, &[]);
        for column in &row.columns {
            page.open_class(Element::Td, "n");
            page.put_words(column);
            page.close(Element::Td);
        }
        page.open(Element::Td, &[]);
        page.put_words(&row.text);
        page.close(Element::Td);
        page.close_line(Element::Tr);
    }
    page.close(Element::Table);
    page.close(Element::Div);
    page.close_line(Element::Section)
}

/// The `id` of a section by its heading, and its heading on a page.
pub(crate) fn section_names(heading: &str) -> (&'static str, &'static str) {
    match heading {
        "SLEEP STATES" => ("sleep", "Sleep states"),
        "WAKE" => ("wake", "Wake"),
        "EVENTS" => ("events", "Events"),
        "ENTRY POINTS" => ("entry", "Entry points"),
        "ASKED FOR" => ("asked", "Asked for"),
        _ => ("routing", "Interrupt routing"),
    }
}

/// Puts the sections of all that is known.
pub(crate) fn put_sections(page: &mut Page, all: &[Section]) {
    for section in all {
        put_section(page, section);
    }
}

/// Puts the regions that no device claims, if there are any.
pub(crate) fn put_unclaimed(
    page: &mut Page,
    facts: &MachineFacts<'_, '_>,
) -> Result<(), AllocError> {
    let rows = unclaimed_rows(facts)?;
    if rows.is_empty() {
        return Ok(());
    }
    page.open_section(
        "unclaimed",
        "Claimed by no constant _CRS",
        b"Often normal: a _CRS that is made by code may claim them.",
    );
    page.open(Element::Ul, &[]);
    for row in &rows {
        page.open_class(Element::Li, "n");
        page.put_words(row);
        page.close_line(Element::Li);
    }
    page.close_line(Element::Ul);
    page.close_line(Element::Section);
    Ok(())
}

/// Puts the objects that have a condition, if there are any.
pub(crate) fn put_conditions(
    page: &mut Page,
    map: &TableMap<'_>,
    facts: &MachineFacts<'_, '_>,
) -> Result<(), AllocError> {
    let rows = condition_rows(facts, true)?;
    if rows.is_empty() {
        return Ok(());
    }
    page.open_section(
        "conditional",
        "Conditional",
        b"An object exists only if what stands behind \"if\" holds.",
    );
    page.open(Element::Ul, &[]);
    for (object, condition) in &rows {
        page.open(Element::Li, &[]);
        let mut path = Text::new(page.alloc());
        put_trimmed_path(&mut path, object.path);
        put_linked(page, map, object.site, path.bytes()?);
        page.text.put(" if ");
        page.put_words(condition);
        page.close_line(Element::Li);
    }
    page.close_line(Element::Ul);
    page.close_line(Element::Section);
    Ok(())
}
