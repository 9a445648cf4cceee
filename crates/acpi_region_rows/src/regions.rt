//! Operation regions, row by row (ACPI 6.5, 5.5.2.4).

use crate::alike_regions::{Group, addend, groups_of};
use crate::region_words::{mark_of, put_addresses, put_ends, put_length, put_rest};
use acpi_infix::put_constant;
use acpi_machine_facts::{MachineFacts, RegionFact};
use acpi_overview::{Address, Certainty};
use acpi_overview_text::put_count;
use acpi_phrases::{
    NO_BREAK, function_number, put_function, put_last, put_last_two, put_number_of,
};
use acpi_text::put_decimal;
use acpi_trimmed::put_trimmed_path;
use std::alloc::AllocError;
use text_buffer::Text;

/// A row of one region, or of some that are alike.
#[derive(Debug, Drop)]
pub struct RegionRow {
    /// The numbers of the regions.
    pub numbers: Vec<usize>,
    /// RegionSpace.
    pub space: u8,
    /// `=` constant bounds, `~` named constants that nothing stores to, `?` known only at run time.
    pub mark: &'static str,
    /// Its first and last byte, or what gives the first.
    pub address: Vec<u8>,
    /// How many bytes it has.
    pub size: Vec<u8>,
    /// Its path, and what is told of it.
    pub about: Vec<u8>,
}

// ---- what is told of a region

// Puts how many fields are in a region.
fn put_units(text: &mut Text, units: usize, is_each: bool) {
    text.put(", ");
    if units == 0 {
        return text.put("no field");
    }
    put_number_of(text, units, "field", "fields");
    if is_each {
        text.put(" each");
    }
}

// Puts the path of a region, or its name and the methods that declare it.
fn put_head(
    text: &mut Text,
    facts: &MachineFacts<'_, '_>,
    numbers: &[usize],
) -> Result<(), AllocError> {
    let (Some(first), Some(last)) = (
        numbers.first().and_then(|n| facts.regions.get(*n)),
        numbers.last().and_then(|n| facts.regions.get(*n)),
    ) else {
        return Ok(());
    };
    if !first.is_local {
        put_trimmed_path(text, first.path);
        if numbers.len() > 1 {
            text.put(" to ");
            put_last_two(text, last.path);
            text.put(" (");
            put_decimal(text, numbers.len() as u64);
            text.put(")");
        }
        return Ok(());
    }
    put_last(text, first.path);
    text.put(" in ");
    put_trimmed_path(text, first.object.path);
    for number in numbers.iter().skip(1) {
        if let Some(region) = facts.regions.get(*number) {
            text.put(" ");
            put_last(text, region.object.path);
        }
    }
    Ok(())
}

// ---- rows

fn space_order(space: u8) -> u8 {
    match space {
        0 => 0,
        1 => 1,
        3 => 2,
        2 => 3,
        _ => 9,
    }
}

fn mark_order(mark: Certainty) -> u8 {
    match mark {
        Certainty::Constant => 0,
        Certainty::Named => 1,
        Certainty::Read => 2,
    }
}

// By what rows are ordered: the space, how far the bounds are known, and the address; in configuration space the function.
fn order_of(region: &RegionFact<'_, '_>, place: usize) -> (u8, u8, bool, u64, usize) {
    let space = space_order(region.space);
    if let (2, Address::Pci { device, function }) = (region.space, region.device) {
        let function = function_number(device, function);
        return (space, 0, false, function, place);
    }
    let from = region.offset.number().unwrap_or(0);
    (
        space,
        mark_order(region.mark()),
        region.is_local,
        from,
        place,
    )
}

// Whether functions stand one behind another: those of one device, or one of each.
fn is_run(functions: &[u64]) -> bool {
    functions
        .windows(2)
        .all(|w| matches!(w, [a, b] if a.checked_add(1) == Some(*b)))
        || functions
            .windows(2)
            .all(|w| matches!(w, [a, b] if a.checked_add(8) == Some(*b)))
}

// The PCI functions of regions.
fn functions_of(facts: &MachineFacts<'_, '_>, numbers: &[usize]) -> Result<Vec<u64>, AllocError> {
    let mut functions = Vec::new(facts.machine.alloc);
    for number in numbers {
        let device = facts.regions.get(*number).map(|r| r.device);
        if let Some(Address::Pci { device, function }) = device {
            functions.push(function_number(device, function))?;
        }
    }
    Ok(functions)
}

// Puts what gives the first bytes of regions that are alike.
fn put_terms(
    text: &mut Text,
    first: &RegionFact<'_, '_>,
    last: &RegionFact<'_, '_>,
) -> Result<(), AllocError> {
    put_addresses(text, first)?;
    if let (Some(from), Some(to)) = (addend(&first.offset), addend(&last.offset)) {
        if from != to {
            text.put(" to ");
            put_constant(text, to);
        }
    }
    Ok(())
}

// Puts the addresses of regions of configuration space that are alike.
fn put_config(
    text: &mut Text,
    facts: &MachineFacts<'_, '_>,
    numbers: &[usize],
    first: &RegionFact<'_, '_>,
    last: &RegionFact<'_, '_>,
) -> Result<(), AllocError> {
    let (
        Some(from),
        Some(count),
        Address::Pci { device, function },
        Address::Pci {
            device: last_device,
            function: last_function,
        },
    ) = (
        first.offset.number(),
        first.length.number(),
        first.device,
        last.device,
    )
    else {
        return put_terms(text, first, last);
    };
    let functions = functions_of(facts, numbers)?;
    if functions.len() == numbers.len() && is_run(&functions) {
        put_function(text, device, function);
        text.put("-");
        put_function(text, last_device, last_function);
        text.put(" ");
        put_ends(text, from, count);
    } else {
        put_ends(text, from, count);
        text.put(" of ");
        put_number_of(text, numbers.len(), "function", "functions");
    }
    Ok(())
}

// Puts the addresses of regions that are alike.
fn put_all_addresses(
    text: &mut Text,
    facts: &MachineFacts<'_, '_>,
    numbers: &[usize],
    first: &RegionFact<'_, '_>,
    last: &RegionFact<'_, '_>,
) -> Result<(), AllocError> {
    if first.is_local || numbers.len() < 2 {
        put_addresses(text, first)
    } else if first.space == 2 {
        put_config(text, facts, numbers, first, last)
    } else {
        put_terms(text, first, last)
    }
}

// The row of regions that are alike.
fn row_of(
    facts: &MachineFacts<'_, '_>,
    numbers: Vec<usize>,
) -> Result<Option<RegionRow>, AllocError> {
    let alloc = facts.machine.alloc;
    let (Some(first), Some(last)) = (
        numbers.first().and_then(|n| facts.regions.get(*n)),
        numbers.last().and_then(|n| facts.regions.get(*n)),
    ) else {
        return Ok(None);
    };
    let mut address = Text::new(alloc);
    put_all_addresses(&mut address, facts, &numbers, first, last)?;
    let mut size = Text::new(alloc);
    put_length(&mut size, first);
    let mut about = Text::new(alloc);
    put_head(&mut about, facts, &numbers)?;
    put_units(&mut about, first.units, numbers.len() > 1);
    put_rest(&mut about, facts, first);
    Ok(Some(RegionRow {
        space: first.space,
        mark: mark_of(first),
        address: address.into_bytes()?,
        size: size.into_bytes()?,
        about: about.into_bytes()?,
        numbers,
    }))
}

// Whether regions are the whole configuration space of one function.
fn is_whole_config(facts: &MachineFacts<'_, '_>, group: &Group) -> bool {
    let [number] = group.numbers.as_slice() else {
        return false;
    };
    match facts.regions.get(*number) {
        Some(region) => {
            region.space == 2
                && !region.is_local
                && region.offset.number() == Some(0)
                && region.length.number() == Some(256)
        }
        None => false,
    }
}

// Puts a function whose whole configuration space is a region: `MCHC.MCHP (00.0, 13 fields)`.
fn put_whole(text: &mut Text, region: &RegionFact<'_, '_>, is_first: bool) {
    if !is_first {
        text.put(", ");
    }
    put_last_two(text, region.path);
    text.put_one(NO_BREAK);
    text.put("(");
    if let Address::Pci { device, function } = region.device {
        put_function(text, device, function);
        text.put(",");
        text.put_one(NO_BREAK);
    }
    put_count(text, region.units as u64);
    if is_first {
        text.put_one(NO_BREAK);
        text.put(if region.units == 1 { "field" } else { "fields" });
    }
    text.put(")")
}

// The row of some whole configuration spaces.
fn whole_row(facts: &MachineFacts<'_, '_>, numbers: Vec<usize>) -> Result<RegionRow, AllocError> {
    let alloc = facts.machine.alloc;
    let mut address = Text::new(alloc);
    address.put("0-0xFF of ");
    put_number_of(&mut address, numbers.len(), "function", "functions");
    let mut about = Text::new(alloc);
    let mut is_first = true;
    for number in &numbers {
        if let Some(region) = facts.regions.get(*number) {
            put_whole(&mut about, region, is_first);
            is_first = false;
        }
    }
    Ok(RegionRow {
        numbers,
        space: 2,
        mark: "=",
        address: address.into_bytes()?,
        size: Vec::from_slice(alloc, b"256")?,
        about: about.into_bytes()?,
    })
}

// The groups in the order of their rows.
fn in_order(facts: &MachineFacts<'_, '_>, groups: Vec<Group>) -> Result<Vec<Group>, AllocError> {
    let alloc = facts.machine.alloc;
    let mut order: Vec<((u8, u8, bool, u64, usize), usize)> = Vec::new(alloc);
    let mut slots: Vec<Option<Group>> = Vec::new(alloc);
    for (place, group) in groups.into_iter().enumerate() {
        if let Some(region) = group.numbers.first().and_then(|n| facts.regions.get(*n)) {
            order.push((order_of(region, place), place))?;
        }
        slots.push(Some(group))?;
    }
    order.sort()?;
    let mut sorted = Vec::new(alloc);
    for (_, place) in &order {
        if let Some(slot) = slots.get_mut(*place) {
            if let Some(group) = slot.take() {
                sorted.push(group)?;
            }
        }
    }
    Ok(sorted)
}

/// The regions by space and address, alike ones in one row, or each in its own.
pub fn region_rows(
    facts: &MachineFacts<'_, '_>,
    is_whole: bool,
) -> Result<Vec<RegionRow>, AllocError> {
    let alloc = facts.machine.alloc;
    let groups = in_order(facts, groups_of(facts, is_whole)?)?;
    let mut configs: Vec<usize> = Vec::new(alloc);
    if !is_whole {
        for group in &groups {
            if is_whole_config(facts, group) {
                configs.extend_from_slice(&group.numbers)?;
            }
        }
    }
    let mut rows = Vec::new(alloc);
    let has_config_row = configs.len() > 2;
    let mut is_put = false;
    for group in groups {
        if has_config_row && is_whole_config(facts, &group) {
            if !is_put {
                rows.push(whole_row(facts, configs.clone()?)?)?;
                is_put = true;
            }
            continue;
        }
        if let Some(row) = row_of(facts, group.numbers)? {
            rows.push(row)?;
        }
    }
    Ok(rows)
}
