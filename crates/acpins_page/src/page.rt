//! The page: what a machine is, as one file of HTML.

ghost use Rattle.std.specs.Prelude.{IfOk};
ghost use Rattle.acpins_page.specs.Page.{IsPage};

use crate::address_map::put_address_map;
use crate::devices::put_devices;
use crate::markup::{AttributeName, Element};
use crate::methods::put_methods;
use crate::parts::with_words;
use crate::regions::put_regions;
use crate::rows::{
    put_conditions, put_findings, put_machine, put_sections, put_unclaimed, section_names,
};
use crate::style::HEAD;
use crate::table_bytes::{TableMap, put_bytes};
use crate::users::Users;
use crate::writer::Page;
use acpi_finding_rows::{FoundRows, extent, table_row, title};
use acpi_machine_facts::MachineFacts;
use acpi_section_rows::{Section, sections};
use acpi_text::put_decimal;
use std::alloc::AllocError;

// Puts the title, how much was read, and the tables.
fn put_head(
    page: &mut Page,
    facts: &MachineFacts<'_, '_>,
    found: &FoundRows,
    files: &[&str],
) -> Result<(), AllocError> {
    let title = title(facts, found.counts)?;
    page.open(Element::Title, &[]);
    page.put_words(&title);
    page.close_line(Element::Title);
    page.open(Element::Body, &[]);
    page.open(Element::Header, &[]);
    page.open(Element::H1, &[]);
    page.put_words(&title);
    page.close_line(Element::H1);
    page.open(Element::P, &[]);
    page.put_words(&extent(facts, found.lost)?);
    page.close_line(Element::P);
    for (number, table) in facts.overview.tables.iter().enumerate() {
        page.open_class(Element::P, "mut");
        put_decimal(&mut page.text, number as u64);
        page.text.put(" ");
        let row = table_row(page.alloc(), table, files.get(number).copied())?;
        page.put_words(&row);
        page.close_line(Element::P);
    }
    page.close_line(Element::Header);
    Ok(())
}

// Puts a link to a section.
fn put_link(page: &mut Page, id: &str, words: &str) {
    page.open(Element::A, &[with_words(AttributeName::Href, id)]);
    page.text.put(words);
    page.close_line(Element::A)
}

// Puts links to the sections.
fn put_contents(page: &mut Page, facts: &MachineFacts<'_, '_>, found: &FoundRows, all: &[Section]) {
    page.open(Element::Nav, &[]);
    page.end_line();
    if !found.rows.is_empty() {
        put_link(page, "findings", "Findings");
    }
    put_link(page, "machine", "Machine");
    for section in all {
        let (id, heading) = section_names(section.heading);
        put_link(page, id, heading);
    }
    if facts.devices.iter().any(|d| d.is_some()) {
        put_link(page, "devices", "Devices");
    }
    if !facts.regions.is_empty() {
        put_link(page, "regions", "Regions");
    }
    if facts.overview.totals.methods > 0 {
        put_link(page, "methods", "Methods");
    }
    put_link(page, "bytes", "Bytes");
    page.close_line(Element::Nav)
}

/// What a machine is, of which that was found in the tables of these files, with this map of their bytes, as one page that
/// needs no other file and no script. Only an allocation failure is an error. Behind a head that is always the same the page
/// is tags of some elements, which run and fetch nothing, with some attributes, and text: all that comes from tables and names
/// of files is escaped.
pub fn html(
    facts: &MachineFacts<'_, '_>,
    found: &FoundRows,
    map: &[u8],
    files: &[&str],
) -> Result<Vec<u8>, AllocError>
    ensures { IfOk result (λ page. IsPage HEAD.now page.items) }
{
    let map = TableMap::new(facts.machine.alloc, map)?;
    let mut page = Page::new(facts.machine.alloc);
    put_head(&mut page, facts, found, files)?;
    put_main(&mut page, facts, found, &map, files)?;
    page.close_line(Element::Body);
    page.close_line(Element::Html);
    page.into_bytes()
}

// Puts the contents and the sections.
fn put_main(
    page: &mut Page,
    facts: &MachineFacts<'_, '_>,
    found: &FoundRows,
    map: &TableMap<'_>,
    files: &[&str],
) -> Result<(), AllocError> {
    let all = sections(facts)?;
    let users = Users::new(facts)?;
    put_contents(page, facts, found, &all);
    page.open(Element::Main, &[]);
    page.end_line();
    put_findings(page, map, found)?;
    put_machine(page, facts)?;
    put_sections(page, &all);
    put_devices(page, map, facts)?;
    put_regions(page, map, facts, &users)?;
    put_unclaimed(page, facts)?;
    put_address_map(page, facts)?;
    put_methods(page, map, facts, &users)?;
    put_conditions(page, map, facts)?;
    put_bytes(page, &facts.overview.tables, map, files)?;
    page.close_line(Element::Main);
    page.open(Element::Footer, &[]);
    page.text
        .put("Made by acpins-survey. No code of the tables was run.");
    page.close_line(Element::Footer);
    Ok(())
}
