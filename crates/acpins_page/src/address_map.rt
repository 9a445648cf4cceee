//! The map of the addresses of memory and ports that devices claim and regions lie at.

use crate::devices::EN_SPACE;
use crate::markup::Element;
use crate::writer::Page;
use acpi_machine_facts::MachineFacts;
use acpi_overview::Certainty;
use acpi_overview_text::put_size;
use acpi_phrases::put_span;
use acpi_resource_text::{ResourceKind, resource_texts};
use acpi_trimmed::put_trimmed_path;
use std::alloc::AllocError;
use text_buffer::Text;

/// A range of addresses: those around stand before those in them.
#[derive(Debug, Drop)]
struct Range {
    from: u64,
    last: u64,
    class: &'static str,
    words: Vec<u8>,
}

// Puts the ranges of one kind that devices claim.
fn put_claimed(
    facts: &MachineFacts<'_, '_>,
    kind: ResourceKind,
    ranges: &mut Vec<Range>,
) -> Result<(), AllocError> {
    let alloc = facts.machine.alloc;
    for (container, resources) in facts
        .overview
        .tree
        .containers
        .iter()
        .zip(facts.overview.resources.current.iter())
    {
        for text in resource_texts(alloc, resources, container.is_host_bridge())? {
            let (true, Some((from, last))) = (text.kind == kind, text.range) else {
                continue;
            };
            let mut words = Text::new(alloc);
            put_trimmed_path(&mut words, container.object.path);
            if text.is_window {
                words.put(" passes it on");
            }
            ranges.push(Range {
                from,
                last,
                class: if text.is_window { "win" } else { "dev" },
                words: words.into_bytes()?,
            })?;
        }
    }
    Ok(())
}

// Puts the regions of one space whose bounds are known.
fn put_known(
    facts: &MachineFacts<'_, '_>,
    space: u8,
    ranges: &mut Vec<Range>,
) -> Result<(), AllocError> {
    for region in &facts.regions {
        let (true, Some((from, last))) = (region.space == space, region.ends()) else {
            continue;
        };
        let mut words = Text::new(facts.machine.alloc);
        put_trimmed_path(&mut words, region.path);
        ranges.push(Range {
            from,
            last,
            class: if region.mark() == Certainty::Named {
                "named"
            } else {
                "reg1"
            },
            words: words.into_bytes()?,
        })?;
    }
    Ok(())
}

// Puts the ranges in order, each as deep as it stands in others, if there are any.
fn put_ranges(page: &mut Page, word: &str, ranges: &mut Vec<Range>) -> Result<(), AllocError> {
    if ranges.is_empty() {
        return Ok(());
    }
    page.element(Element::P, word);
    ranges.sort_by(|one, other| one.from.cmp(&other.from).then(other.last.cmp(&one.last)))?;
    let mut open: Vec<u64> = Vec::new(page.alloc());
    page.open_class(Element::Ol, "map");
    for range in ranges.iter() {
        for _ in 0..open.len() {
            match open.last() {
                Some(last) if *last < range.from => {
                    open.pop();
                }
                _ => break,
            }
        }
        page.open_class(Element::Li, range.class);
        for _ in 0..open.len().min(16) {
            page.text.put(EN_SPACE);
        }
        put_span(&mut page.text, range.from, range.last);
        page.text.put(" (");
        let count = range.last.saturating_sub(range.from).saturating_add(1);
        put_size(&mut page.text, count);
        page.text.put(") ");
        page.text.put_all(&range.words);
        page.close_line(Element::Li);
        open.push(range.last)?;
    }
    page.close_line(Element::Ol);
    Ok(())
}

/// Puts the map, with what its colours mean.
pub(crate) fn put_address_map(
    page: &mut Page,
    facts: &MachineFacts<'_, '_>,
) -> Result<(), AllocError> {
    let mut memory = Vec::new(page.alloc());
    put_claimed(facts, ResourceKind::Memory, &mut memory)?;
    put_known(facts, 0, &mut memory)?;
    let mut ports = Vec::new(page.alloc());
    put_claimed(facts, ResourceKind::Ports, &mut ports)?;
    put_known(facts, 1, &mut ports)?;
    if memory.is_empty() && ports.is_empty() {
        return Ok(());
    }
    page.open_section("map", "Address map", b"What code sets isn't on it.");
    page.open_class(Element::P, "key");
    for (class, word) in &[
        ("win", "window of a bridge"),
        ("dev", "claimed by a device"),
        ("reg1", "region"),
        ("named", "region whose bounds are named constants"),
    ] {
        page.open_class(Element::Span, *class);
        page.text.put(*word);
        page.close(Element::Span);
    }
    page.close_line(Element::P);
    put_ranges(page, "Memory", &mut memory)?;
    put_ranges(page, "Ports", &mut ports)?;
    page.close_line(Element::Section);
    Ok(())
}
