//! Operation regions in JSON (ACPI 6.5, 5.5.2.4).

use crate::values::{put_null_member, put_some_u64_member};
use acpi_machine_facts::{MachineFacts, OddBounds, RegionFact};
use acpi_overview::Bound;
use acpi_overview_text::put_hex;
use acpi_phrases::put_expression;
use acpi_text::put_name;
use acpins_survey_json::{
    put_element_start, put_form_member, put_line_start, put_lines_end, put_member,
    put_number_member, put_path_member, put_path_text, put_word_member,
};
use std::alloc::AllocError;
use text_buffer::Text;

// Puts what gives a bound.
fn put_bound(text: &mut Text, bound: &Bound<'_>) -> Result<(), AllocError> {
    match bound {
        Bound::Constant(number) => {
            text.put("0x");
            put_hex(text, *number, 1);
        }
        Bound::Named(_, name) => put_name(text, name.view()),
        Bound::Read(term) => return put_expression(text, term),
    }
    Ok(())
}

// Puts what gives the bounds of a region; null where both are constants.
fn put_bounds(text: &mut Text, region: &RegionFact<'_, '_>) -> Result<(), AllocError> {
    if let (Bound::Constant(_), Bound::Constant(_)) = (region.offset, region.length) {
        put_null_member(text, "expression");
        return Ok(());
    }
    let mut form = Text::new(text.alloc());
    put_bound(&mut form, &region.offset)?;
    form.put(" +");
    put_bound(&mut form, &region.length)?;
    put_form_member(text, ",", "expression", &form);
    Ok(())
}

// Puts the devices whose constant resources claim a region of memory or ports.
fn put_claims(text: &mut Text, facts: &MachineFacts<'_, '_>, region: &RegionFact<'_, '_>) {
    put_member(text, ",", "claimed_by");
    text.put("[");
    let mut is_first = true;
    for number in &region.claimed_by {
        if let Some(container) = facts.overview.tree.containers.get(*number) {
            put_element_start(text, is_first);
            put_path_text(text, container.object.path);
            is_first = false;
        }
    }
    text.put("]")
}

fn put_region(
    text: &mut Text,
    facts: &MachineFacts<'_, '_>,
    region: &RegionFact<'_, '_>,
) -> Result<(), AllocError> {
    let ends = region.ends();
    put_path_member(text, "{", "path", region.path);
    if region.is_local {
        put_path_member(text, ",", "method", region.object.path);
    } else {
        put_null_member(text, "method");
    }
    put_number_member(text, ",", "space", u64::from(region.space));
    put_some_u64_member(text, "from", region.offset.number());
    put_some_u64_member(text, "to", ends.map(|e| e.1));
    put_bounds(text, region)?;
    put_number_member(text, ",", "units", region.units as u64);
    put_claims(text, facts, region);
    match region.odd() {
        Some(OddBounds::Empty) => put_word_member(text, ",", "odd", "empty"),
        Some(OddBounds::Above(_)) => put_word_member(text, ",", "odd", "above"),
        None => put_null_member(text, "odd"),
    }
    text.put("}");
    Ok(())
}

/// Puts an array of the operation regions, each on a line: those of entries in the order of their paths, and then those
/// that methods declare.
pub fn put_regions(text: &mut Text, facts: &MachineFacts<'_, '_>) -> Result<(), AllocError> {
    text.put("[");
    let mut is_first = true;
    for region in &facts.regions {
        put_line_start(text, is_first);
        put_region(text, facts, region)?;
        is_first = false;
    }
    put_lines_end(text, is_first);
    Ok(())
}
