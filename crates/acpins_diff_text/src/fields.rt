//! What differs of field lists.

use crate::blocks::Blocks;
use crate::paths::{put_more, put_paths};
use crate::text::DiffOptions;
use acpi_diff::{Diff, RegionChange, Unit, UnitPair};
use acpi_overview_text::put_hex;
use acpi_text::put_decimal;
use acpi_trimmed::put_trimmed_segment;
use std::alloc::{AllocError, Global};
use text_buffer::Text;

/// The most units of a list.
const MOST_UNITS: usize = 8;

/// From how many on units that moved alike are told by the first and the last.
const ALIKE: usize = 4;

// Puts where a unit stands: byte, bit and width, `4.2:1`.
fn put_place(text: &mut Text, unit: &Unit) {
    put_hex(text, unit.offset / 8, 1);
    if unit.offset % 8 != 0 {
        text.put(".");
        put_decimal(text, unit.offset % 8);
    }
    text.put(":");
    put_decimal(text, u64::from(unit.bits))
}

fn most(count: usize, options: DiffOptions) -> usize {
    if options.is_verbose {
        count
    } else {
        MOST_UNITS
    }
}

// Puts a line of units that only one version has.
fn put_units(text: &mut Text, word: &str, units: &[Unit], options: DiffOptions) {
    if units.is_empty() {
        return;
    }
    let most = most(units.len(), options);
    let mut is_first = true;
    for unit in units.iter().take(most) {
        text.put(if is_first { word } else { ", " });
        is_first = false;
        put_trimmed_segment(text, unit.name);
        text.put(" ");
        put_place(text, unit);
    }
    put_more(text, units.len().saturating_sub(most));
    text.put("\n")
}

fn put_renamed(text: &mut Text, pairs: &[UnitPair], options: DiffOptions) {
    if pairs.is_empty() {
        return;
    }
    let most = most(pairs.len(), options);
    let mut is_first = true;
    for pair in pairs.iter().take(most) {
        text.put(if is_first { "      renamed " } else { ", " });
        is_first = false;
        put_trimmed_segment(text, pair.old.name);
        text.put(" -> ");
        put_trimmed_segment(text, pair.new.name);
        text.put(" ");
        put_place(text, &pair.new);
    }
    put_more(text, pairs.len().saturating_sub(most));
    text.put("\n")
}

// By how many bits a unit of one width moved, and whether up.
fn shift_of(pair: &UnitPair) -> Option<(bool, u64)> {
    if pair.old.bits != pair.new.bits || pair.old.offset == pair.new.offset {
        return None;
    }
    Some((
        pair.new.offset > pair.old.offset,
        pair.new.offset.abs_diff(pair.old.offset),
    ))
}

// Puts by how much units moved: in bytes, and else in bits.
fn put_shift(text: &mut Text, (is_up, bits): (bool, u64)) {
    text.put("      moved by ");
    text.put(if is_up { "+" } else { "-" });
    if bits % 8 == 0 {
        put_decimal(text, bits / 8);
        text.put(if bits == 8 { " byte: " } else { " bytes: " })
    } else {
        put_decimal(text, bits);
        text.put(if bits == 1 { " bit: " } else { " bits: " })
    }
}

// Puts units that moved by the same number of bits.
fn put_shifted(text: &mut Text, pairs: &[&UnitPair], options: DiffOptions) {
    if let [first, .., last] = pairs {
        if pairs.len() >= ALIKE && !options.is_verbose {
            put_trimmed_segment(text, first.new.name);
            text.put(" .. ");
            put_trimmed_segment(text, last.new.name);
            text.put(" (");
            put_decimal(text, pairs.len() as u64);
            return text.put(")\n");
        }
    }
    let mut separator = "";
    for pair in pairs {
        text.put(separator);
        separator = ", ";
        put_trimmed_segment(text, pair.new.name);
    }
    text.put("\n")
}

// Puts a line for each number of bits by which units moved one behind another.
fn put_shifts(text: &mut Text, pairs: &[UnitPair], options: DiffOptions) -> Result<(), AllocError> {
    let alloc = text.alloc();
    let mut shift = None;
    let mut run: Vec<&UnitPair> = Vec::new(alloc);
    for pair in pairs {
        let Some(own) = shift_of(pair) else {
            continue;
        };
        if shift != Some(own) {
            put_run(text, shift, &run, options);
            run = Vec::new(alloc);
            shift = Some(own);
        }
        run.push(pair)?;
    }
    put_run(text, shift, &run, options);
    Ok(())
}

fn put_run(text: &mut Text, shift: Option<(bool, u64)>, run: &[&UnitPair], options: DiffOptions) {
    if let Some(shift) = shift {
        put_shift(text, shift);
        put_shifted(text, run, options)
    }
}

// Puts a line of the units of another width.
fn put_widths(text: &mut Text, pairs: &[UnitPair], options: DiffOptions) {
    let count = pairs.iter().filter(|p| p.old.bits != p.new.bits).count();
    let most = most(count, options);
    let mut is_first = true;
    for pair in pairs.iter().filter(|p| p.old.bits != p.new.bits).take(most) {
        text.put(if is_first { "      width " } else { ", " });
        is_first = false;
        put_trimmed_segment(text, pair.new.name);
        text.put(" ");
        put_place(text, &pair.old);
        text.put(" -> ");
        put_place(text, &pair.new);
    }
    if count > 0 {
        put_more(text, count.saturating_sub(most));
        text.put("\n")
    }
}

// Puts a line of the units with other flags.
fn put_flags(text: &mut Text, pairs: &[UnitPair], options: DiffOptions) {
    let count = pairs.iter().filter(|p| p.old.flags != p.new.flags).count();
    let most = most(count, options);
    let mut is_first = true;
    for pair in pairs
        .iter()
        .filter(|p| p.old.flags != p.new.flags)
        .take(most)
    {
        text.put(if is_first {
            "      access or lock "
        } else {
            ", "
        });
        is_first = false;
        put_trimmed_segment(text, pair.new.name);
        text.put(" ");
        put_hex(text, u64::from(pair.old.flags), 2);
        text.put(" -> ");
        put_hex(text, u64::from(pair.new.flags), 2);
    }
    if count > 0 {
        put_more(text, count.saturating_sub(most));
        text.put("\n")
    }
}

// The lines of a region.
fn text_of(
    alloc: Global,
    region: &RegionChange,
    options: DiffOptions,
) -> Result<Vec<u8>, AllocError> {
    let mut text = Text::new(alloc);
    put_units(&mut text, "      - ", &region.gone, options);
    put_units(&mut text, "      + ", &region.new, options);
    put_renamed(&mut text, &region.renamed, options);
    put_shifts(&mut text, &region.changed, options)?;
    put_widths(&mut text, &region.changed, options);
    put_flags(&mut text, &region.changed, options);
    text.into_bytes()
}

/// Puts the section of field units, by region; regions with the same changes are told once.
pub(crate) fn put_fields(
    text: &mut Text,
    diff: &Diff<'_>,
    options: DiffOptions,
) -> Result<(), AllocError> {
    if diff.regions.is_empty() {
        return Ok(());
    }
    let alloc = text.alloc();
    let mut blocks = Blocks::new(alloc);
    for region in &diff.regions {
        blocks.put(text_of(alloc, region, options)?, &region.path)?;
    }
    text.put("\nFIELDS  (byte[.bit]:bits)\n");
    for block in &blocks.blocks {
        text.put("  ");
        put_paths(text, &block.paths, options)?;
        text.put("\n");
        text.put_all(&block.text);
    }
    Ok(())
}
