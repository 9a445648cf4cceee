//! Words of a region: how far its bounds are known, its addresses, its size, and what else is told of it (ACPI 6.5, 5.5.2.4).

use acpi_infix::put_constant;
use acpi_machine_facts::{MachineFacts, OddBounds, RegionFact};
use acpi_overview::{Address, Bound, Certainty, UnitSource};
use acpi_overview_text::{put_size, space_word};
use acpi_phrases::{put_expression, put_function, put_last, put_span};
use acpi_text::put_decimal;
use acpi_trimmed::put_trimmed_name;
use std::alloc::AllocError;
use text_buffer::Text;

/// The sign of how far bounds are known.
pub fn mark_of(region: &RegionFact<'_, '_>) -> &'static str {
    match region.mark() {
        Certainty::Constant => "=",
        Certainty::Named => "~",
        Certainty::Read => "?",
    }
}

/// Puts a bound, or the term that gives it.
pub(crate) fn put_bound(text: &mut Text, bound: &Bound<'_>) -> Result<(), AllocError> {
    match bound {
        Bound::Constant(number) | Bound::Named(number, _) => put_constant(text, *number),
        Bound::Read(term) => return put_expression(text, term),
    }
    Ok(())
}

/// Puts the first and the last byte of a region, as they are where it ends above its space.
pub(crate) fn put_ends(text: &mut Text, from: u64, count: u64) {
    match count.checked_sub(1) {
        None => {
            put_constant(text, from);
            text.put(", empty")
        }
        Some(rest) => match from.checked_add(rest) {
            Some(last) => put_span(text, from, last),
            None => {
                put_constant(text, from);
                text.put(" and on")
            }
        },
    }
}

/// Puts the addresses of a region: with the function of PCI configuration space the first and the last, or what gives them.
pub fn put_addresses(text: &mut Text, region: &RegionFact<'_, '_>) -> Result<(), AllocError> {
    if let (Some(from), Some(count)) = (region.offset.number(), region.length.number()) {
        if let (2, Address::Pci { device, function }) = (region.space, region.device) {
            put_function(text, device, function);
            text.put(" ");
        }
        put_ends(text, from, count);
        return Ok(());
    }
    put_bound(text, &region.offset)?;
    if region.length.number().is_none() {
        text.put(", size ");
        put_bound(text, &region.length)?;
    }
    Ok(())
}

/// Puts how many bytes a region has; `?` where only a run tells.
pub fn put_length(text: &mut Text, region: &RegionFact<'_, '_>) {
    match region.length.number() {
        Some(length) => put_size(text, length),
        None => text.put("?"),
    }
}

/// Puts what is odd of the bounds of a region.
pub fn put_odd(text: &mut Text, odd: OddBounds) {
    match odd {
        OddBounds::Empty => text.put("length 0"),
        OddBounds::Above(last) => {
            text.put("ends above ");
            if last == u64::MAX {
                text.put("2^64")
            } else {
                put_constant(text, last)
            }
        }
    }
}

// Puts the names that give the bounds.
fn put_bound_names(text: &mut Text, region: &RegionFact<'_, '_>) {
    let mut before = "; bounds ";
    for bound in [&region.offset, &region.length] {
        if let Bound::Named(_, name) = bound {
            text.put(before);
            before = " ";
            put_trimmed_name(text, name.view());
        }
    }
}

// Where the region of a field unit begins in PCI configuration space, in bits.
fn base_of(facts: &MachineFacts<'_, '_>, source: &UnitSource<'_>) -> u64 {
    if source.space != 2 {
        return 0;
    }
    let region = facts.regions.iter().find(|r| *r.path == *source.region);
    match region.and_then(|r| r.offset.number()) {
        Some(from) => from.saturating_mul(8),
        None => 0,
    }
}

// Puts a register by its first bit, and its bits where it isn't whole bytes.
fn put_register(text: &mut Text, bit: u64, bits: u64) {
    text.put("register ");
    if bit % 8 == 0 && bits % 8 == 0 {
        put_constant(text, bit / 8);
        if bits != 32 {
            text.put(", ");
            put_decimal(text, bits);
            text.put(" bits");
        }
        return;
    }
    let register = bit / 32 * 4;
    let first = bit % 32;
    put_constant(text, register);
    text.put(" bits ");
    put_decimal(text, first);
    text.put("-");
    put_decimal(text, first.saturating_add(bits).saturating_sub(1))
}

// Puts the field unit from which the first byte is read: `ASLS is config 02.0 register 0xFC`.
fn put_source(text: &mut Text, facts: &MachineFacts<'_, '_>, source: &UnitSource<'_>) {
    text.put("; ");
    put_last(text, source.unit);
    text.put(" is ");
    match (source.space, source.device) {
        (2, Address::Pci { device, function }) => {
            text.put("config ");
            put_function(text, device, function)
        }
        (2, _) => text.put("config"),
        (space, _) => {
            text.put(space_word(space));
            text.put(" ");
            put_last(text, source.region)
        }
    }
    text.put(" ");
    let bit = source.offset.saturating_add(base_of(facts, source));
    put_register(text, bit, u64::from(source.bits))
}

/// Puts what is told of a region behind its path and its fields.
pub(crate) fn put_rest(text: &mut Text, facts: &MachineFacts<'_, '_>, region: &RegionFact<'_, '_>) {
    put_bound_names(text, region);
    if let Some(source) = &region.source {
        put_source(text, facts, source);
    }
    let mut before = "; claimed by ";
    for number in &region.claimed_by {
        if let Some(container) = facts.overview.tree.containers.get(*number) {
            text.put(before);
            before = " ";
            put_last(text, container.object.path);
        }
    }
    if let Some(to) = region.claimed_to {
        text.put(" up to ");
        put_constant(text, to.saturating_sub(1));
    }
    if let Some(odd) = region.odd() {
        text.put("; ");
        put_odd(text, odd);
    }
}
