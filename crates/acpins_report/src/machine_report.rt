//! The report of a machine.

use crate::devices::{put_details, put_devices};
use crate::regions::put_regions;
use crate::sections::{put_conditions, put_sections};
use crate::sheet::{Sheet, Style, put_column};
use acpi_device_rows::Children;
use acpi_finding_rows::{FindingLevel, FoundRows, extent, table_row, title};
use acpi_machine_facts::{DeviceState, MachineFacts};
use acpi_machine_rows::machine_rows;
use acpi_overview::Address;
use acpi_overview_text::put_between;
use acpi_text::put_decimal;
use std::alloc::AllocError;

/// How the report looks.
#[derive(Debug, Clone, Copy)]
pub struct ReportOptions {
    /// The most characters of a line.
    pub width: usize,
    /// Whether headings and findings have colours.
    pub is_coloured: bool,
    /// Whether all is told: nothing is folded, and no list is cut.
    pub is_verbose: bool,
}

// ---- the head

// Puts the title, how much was read, and the tables.
fn put_head(
    sheet: &mut Sheet,
    facts: &MachineFacts<'_, '_>,
    found: &FoundRows,
    files: &[&str],
) -> Result<(), AllocError> {
    let alloc = facts.machine.alloc;
    sheet.put_row(b"", &title(facts, found.counts)?, 2);
    sheet.put_row(b"  ", &extent(facts, found.lost)?, 2);
    for (number, table) in facts.overview.tables.iter().enumerate() {
        let mut before = sheet.text();
        before.put("  ");
        put_decimal(&mut before, number as u64);
        before.put("  ");
        let row = table_row(alloc, table, files.get(number).copied())?;
        sheet.put_row(before.bytes()?, &row, 5);
    }
    Ok(())
}

// ---- findings

fn style_of(level: FindingLevel) -> Style {
    match level {
        FindingLevel::Problem | FindingLevel::Error => Style::Fault,
        FindingLevel::Warning => Style::Doubt,
        _ => Style::Plain,
    }
}

fn put_findings(sheet: &mut Sheet, found: &FoundRows) -> Result<(), AllocError> {
    if found.rows.is_empty() {
        return Ok(());
    }
    let mut legend = sheet.text();
    for level in &FindingLevel::ALL {
        if found.rows.iter().any(|r| r.level == *level) {
            put_between(&mut legend, "; ");
            legend.put(level.word());
            legend.put(": ");
            legend.put(level.meaning());
        }
    }
    sheet.put_heading("FINDINGS", legend.bytes()?);
    for row in &found.rows {
        let mut before = sheet.text();
        before.put("  ");
        put_column(&mut before, row.level.word().as_bytes(), 9);
        sheet.put_marked_row(before.bytes()?, &row.text, 11, style_of(row.level));
    }
    Ok(())
}

// ---- the machine

fn put_machine(
    sheet: &mut Sheet,
    facts: &MachineFacts<'_, '_>,
    is_verbose: bool,
) -> Result<(), AllocError> {
    let rows = machine_rows(facts, is_verbose)?;
    if rows.is_empty() {
        return Ok(());
    }
    sheet.put_heading("MACHINE", b"");
    let mut last = "";
    for row in &rows {
        let word = if row.word == last { "" } else { row.word };
        let mut before = sheet.text();
        before.put("  ");
        put_column(&mut before, word.as_bytes(), 10);
        sheet.put_row(before.bytes()?, &row.text, 12);
        last = row.word;
    }
    Ok(())
}

// ---- devices

/// What the abbreviations of devices mean that occur.
fn put_device_heading(sheet: &mut Sheet, facts: &MachineFacts<'_, '_>) -> Result<(), AllocError> {
    let mut legend = sheet.text();
    let containers = &facts.overview.tree.containers;
    if containers
        .iter()
        .any(|c| matches!(c.address, Address::Pci { .. }))
    {
        legend.put("1F.0: PCI device 0x1F, function 0");
    }
    let has_address = containers.iter().any(|c| {
        matches!(c.address, Address::Other(_)) && c.values.hid.is_missing()
    });
    if has_address {
        put_between(&mut legend, "; ");
        legend.put("adr: address on another bus");
    }
    let is_hidden = (0..containers.len()).any(|n| match facts.device(n) {
        Some(device) => matches!(device.state, DeviceState::Hidden),
        None => false,
    });
    if is_hidden {
        put_between(&mut legend, "; ");
        legend.put("hidden: _STA 0xB");
    }
    put_between(&mut legend, "; ");
    legend.put("no _STA: there if its parent is");
    sheet.put_heading("DEVICES", legend.bytes()?);
    Ok(())
}

/// The report of a machine, of which that was found in the tables of these files. Only an allocation failure is an error.
pub fn report(
    facts: &MachineFacts<'_, '_>,
    found: &FoundRows,
    files: &[&str],
    options: ReportOptions,
) -> Result<Vec<u8>, AllocError> {
    let mut sheet = Sheet::new(
        facts.machine.alloc,
        options.width.max(60),
        options.is_coloured,
    );
    put_head(&mut sheet, facts, found, files)?;
    put_findings(&mut sheet, found)?;
    put_machine(&mut sheet, facts, options.is_verbose)?;
    if options.is_verbose {
        put_sections(&mut sheet, facts)?;
    }
    let children = Children::new(facts)?;
    if !children.tops().is_empty() {
        put_device_heading(&mut sheet, facts)?;
        if options.is_verbose {
            put_details(&mut sheet, facts, &children)?;
        } else {
            put_devices(&mut sheet, facts, &children)?;
        }
    }
    put_regions(&mut sheet, facts, options.is_verbose)?;
    put_conditions(&mut sheet, facts, options.is_verbose)?;
    if !options.is_verbose {
        sheet.put_empty();
        let more =
            "More: report -v, all of it; show PATH, an object and its code; html OUT, a page with all of this.";
        sheet.put_row(b"", more.as_bytes(), 2);
    }
    sheet.into_bytes()
}
