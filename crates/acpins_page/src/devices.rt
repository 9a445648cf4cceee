//! The tree of devices: each opens to all that is told of it.

use crate::anchors::{device_id, method_id, region_id};
use crate::markup::{AttributeName, Element};
use crate::parts::{with_text, with_words};
use crate::rows::put_linked;
use crate::table_bytes::TableMap;
use crate::writer::Page;
use acpi_device_rows::{Children, DeviceRow, device_details, device_rows};
use acpi_kinds::ObjectKind;
use acpi_machine_facts::MachineFacts;
use acpi_overview::Object;
use acpi_trimmed::put_trimmed_segment;
use std::alloc::AllocError;
use text_buffer::Text;

/// A blank as wide as half a letter is high.
pub(crate) const EN_SPACE: &str = "\u{2002}";

// Puts the columns of a row.
fn put_summary(page: &mut Page, row: &DeviceRow<'_>) {
    page.open_class(Element::Summary, "row");
    page.open_class(Element::Span, "n");
    for _ in 1..row.depth.min(32) {
        page.text.put(EN_SPACE);
    }
    page.text.put_all(&row.name);
    page.close(Element::Span);
    for cell in [&row.place, &row.id] {
        page.open_class(Element::Span, "n");
        page.put_words(cell);
        page.close(Element::Span);
    }
    page.open(Element::Span, &[]);
    page.put_words(&row.about);
    page.close(Element::Span);
    page.close(Element::Summary)
}

/// Puts the name of an object, which leads to what is told of it.
pub(crate) fn put_object_link(page: &mut Page, id: &Text, object: &Object<'_>) {
    page.open(Element::A, &[with_text(AttributeName::Href, id)]);
    if let Some(segment) = object.path.segs().last() {
        put_trimmed_segment(&mut page.text, *segment);
    }
    page.close(Element::A);
    page.text.put(" ")
}

/// Puts the name of a method with that of what is around it, which leads to its code.
pub(crate) fn put_method_link(page: &mut Page, id: &Text, method: &Object<'_>) {
    page.open(Element::A, &[with_text(AttributeName::Href, id)]);
    if let [.., around, _] = method.path.segs() {
        put_trimmed_segment(&mut page.text, *around);
        page.text.put(".");
    }
    if let Some(segment) = method.path.segs().last() {
        put_trimmed_segment(&mut page.text, *segment);
    }
    page.close(Element::A);
    page.text.put(" ")
}

/// What stands in each container, by places among the objects.
#[derive(Drop)]
struct Members {
    places: Vec<Vec<usize>>,
}

impl Members {
    fn new(facts: &MachineFacts<'_, '_>) -> Result<Members, AllocError> {
        let alloc = facts.machine.alloc;
        let mut places: Vec<Vec<usize>> = Vec::new(alloc);
        for _ in &facts.overview.tree.containers {
            places.push(Vec::new(alloc))?;
        }
        for (place, around) in facts.overview.tree.around.iter().enumerate() {
            if let Some(list) = around.and_then(|number| places.get_mut(number)) {
                list.push(place)?;
            }
        }
        Ok(Members { places })
    }

    // Puts the methods, or the regions, of the device that the container of that number is.
    fn put(&self, page: &mut Page, facts: &MachineFacts<'_, '_>, number: usize, is_method: bool) {
        let Some(places) = self.places.get(number) else {
            return;
        };
        for place in places {
            let Some(object) = facts.overview.objects.get(*place) else {
                continue;
            };
            if object.site.is_none() {
                continue;
            }
            match object.kind {
                ObjectKind::Method(_) if is_method => {
                    put_object_link(page, &method_id(facts, object), object)
                }
                ObjectKind::Region { .. } if !is_method => {
                    put_object_link(page, &region_id(facts, object), object)
                }
                _ => {}
            }
        }
    }
}

// Puts a word of a list, and what it stands for.
fn put_term(page: &mut Page, word: &str, text: &[u8]) {
    page.element(Element::Dt, word);
    page.open(Element::Dd, &[]);
    page.put_words(text);
    page.close_line(Element::Dd)
}

// Puts all that is told of a device.
fn put_device(
    page: &mut Page,
    map: &TableMap<'_>,
    facts: &MachineFacts<'_, '_>,
    members: &Members,
    row: &DeviceRow<'_>,
    number: usize,
) -> Result<(), AllocError> {
    let (Some(details), Some(container)) = (
        device_details(facts, number)?,
        facts.overview.tree.containers.get(number),
    ) else {
        return Ok(());
    };
    page.open(Element::Details, &[]);
    put_summary(page, row);
    let id = device_id(page.alloc(), row.path);
    page.open(
        Element::Dl,
        &[
            with_words(AttributeName::Class, "facts"),
            with_text(AttributeName::Id, &id),
        ],
    );
    page.end_line();
    for detail in &details.details {
        put_term(page, detail.label, &detail.text);
    }
    if container.counts.methods > 0 {
        page.element(Element::Dt, "methods");
        page.open(Element::Dd, &[]);
        members.put(page, facts, number, true);
        page.close_line(Element::Dd);
    }
    if container.counts.regions > 0 {
        page.element(Element::Dt, "regions");
        page.open(Element::Dd, &[]);
        members.put(page, facts, number, false);
        page.close_line(Element::Dd);
    }
    page.element(Element::Dt, "bytes");
    page.open(Element::Dd, &[]);
    put_linked(page, map, container.object.site, b"where it is declared");
    page.close_line(Element::Dd);
    page.close(Element::Dl);
    page.close_line(Element::Details);
    Ok(())
}

/// Puts the tree of devices, if there are any.
pub(crate) fn put_devices(
    page: &mut Page,
    map: &TableMap<'_>,
    facts: &MachineFacts<'_, '_>,
) -> Result<(), AllocError> {
    let children = Children::new(facts)?;
    if children.tops().is_empty() {
        return Ok(());
    }
    page.open_section(
        "devices",
        "Devices",
        b"1F.0: PCI device 0x1F, function 0; adr: address on another bus; no _STA: there if its parent is",
    );
    let members = Members::new(facts)?;
    for row in &device_rows(facts, &children, false)? {
        match row.numbers.first() {
            Some(number) => put_device(page, map, facts, &members, row, *number)?,
            None => {
                page.open_class(Element::P, "n");
                page.text.put_all(&row.name);
                page.close_line(Element::P);
            }
        }
    }
    page.close_line(Element::Section);
    Ok(())
}
