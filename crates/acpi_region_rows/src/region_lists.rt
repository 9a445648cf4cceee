//! Lists of regions: those that no device claims, and the field units of one (ACPI 6.5, 5.5.2.4).

use crate::region_words::put_addresses;
use acpi_kinds::ObjectKind;
use acpi_machine_facts::MachineFacts;
use acpi_overview_text::{put_hex, space_word};
use acpi_phrases::{NO_BREAK, put_last, put_piece};
use acpi_text::put_decimal;
use acpi_trimmed::put_trimmed_path;
use std::alloc::AllocError;
use text_buffer::Text;

/// The regions of memory and ports that the constant resources of no device claim, each with its addresses.
pub fn unclaimed_rows(facts: &MachineFacts<'_, '_>) -> Result<Vec<Vec<u8>>, AllocError> {
    let mut rows = Vec::new(facts.machine.alloc);
    for region in &facts.regions {
        if !region.is_unclaimed {
            continue;
        }
        let mut text = Text::new(facts.machine.alloc);
        put_trimmed_path(&mut text, region.path);
        text.put(" ");
        text.put(space_word(region.space));
        text.put(" ");
        put_addresses(&mut text, region)?;
        rows.push(text.into_bytes()?)?;
    }
    Ok(rows)
}

/// The regions of memory and ports that the constant resources of no device claim, in one line.
pub fn unclaimed_text(facts: &MachineFacts<'_, '_>) -> Result<Vec<u8>, AllocError> {
    let mut text = Text::new(facts.machine.alloc);
    for region in &facts.regions {
        if !region.is_unclaimed {
            continue;
        }
        let mut words = Text::new(facts.machine.alloc);
        if region.is_local {
            put_last(&mut words, region.path);
            words.put(" in ");
            put_trimmed_path(&mut words, region.object.path);
        } else {
            put_trimmed_path(&mut words, region.path);
        }
        put_piece(&mut text, " ", words.bytes()?);
    }
    text.into_bytes()
}

// Puts where a field unit lies in its region: `0x38.7` is byte 0x38, bit 7.
fn put_unit_place(text: &mut Text, bit: u64, bits: u32) {
    text.put("0x");
    put_hex(text, bit / 8, 2);
    let is_aligned = bit % 8 == 0;
    if bits == 8 && is_aligned {
        return;
    }
    if !is_aligned || bits == 1 {
        text.put(".");
        put_decimal(text, bit % 8);
    }
    if bits != 1 {
        text.put_one(NO_BREAK);
        put_decimal(text, u64::from(bits));
        text.put_one(NO_BREAK);
        text.put("bits");
    }
}

/// The field units of a region of a table, each with its place.
pub fn unit_texts(facts: &MachineFacts<'_, '_>, number: usize) -> Result<Vec<Vec<u8>>, AllocError> {
    let alloc = facts.machine.alloc;
    let base = match facts.regions.get(number) {
        Some(region) if region.space == 2 => region.offset.number().unwrap_or(0).saturating_mul(8),
        _ => 0,
    };
    let mut texts = Vec::new(alloc);
    for place in facts.units_in(number) {
        let Some(object) = facts.overview.objects.get(*place) else {
            continue;
        };
        if let ObjectKind::Field { offset, bits, .. } = object.kind {
            let mut text = Text::new(alloc);
            put_unit_place(&mut text, offset.saturating_add(base), bits);
            text.put_one(NO_BREAK);
            put_last(&mut text, object.path);
            texts.push(text.into_bytes()?)?;
        }
    }
    Ok(texts)
}
