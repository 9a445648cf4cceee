//! Operation regions.

use crate::sheet::{Sheet, put_blanks, put_column, put_right};
use acpi_machine_facts::MachineFacts;
use acpi_overview_text::{put_between, space_word};
use acpi_region_rows::{RegionRow, region_rows, unclaimed_rows, unclaimed_text, unit_texts};
use std::alloc::AllocError;
use text_buffer::Text;

/// What the signs mean.
const LEGEND: &str =
    "= bounds are constants, ~ named constants that nothing stores to, ? known only at run time.";

/// How many columns addresses and sizes need.
#[derive(Drop)]
struct Columns {
    address: usize,
    size: usize,
}

impl Columns {
    fn of(rows: &[RegionRow], width: usize) -> Columns {
        let most = if width >= 90 { 34 } else { 22 };
        let mut columns = Columns {
            address: 0,
            size: 0,
        };
        for row in rows {
            columns.address = columns.address.max(row.address.len().min(most));
            columns.size = columns.size.max(row.size.len());
        }
        columns
    }
}

// Puts a region, or some that are alike.
fn put_region(sheet: &mut Sheet, row: &RegionRow, columns: &Columns) -> Result<(), AllocError> {
    let mut before = sheet.text();
    before.put("  ");
    before.put(row.mark);
    before.put(" ");
    if row.address.len() > columns.address {
        sheet.put_row(before.bytes()?, &row.address, 6);
        before.clear();
        put_blanks(&mut before, columns.address.saturating_add(4));
    } else {
        put_column(&mut before, &row.address, columns.address);
    }
    before.put("  ");
    put_right(&mut before, &row.size, columns.size);
    if sheet.width() < 80 {
        sheet.put_row(before.bytes()?, b"", 7);
        sheet.put_row(b"       ", &row.about, 7);
        return Ok(());
    }
    before.put("  ");
    let column = columns
        .address
        .saturating_add(columns.size)
        .saturating_add(8);
    sheet.put_row(before.bytes()?, &row.about, column);
    Ok(())
}

// Puts the fields of a region.
fn put_units(
    sheet: &mut Sheet,
    facts: &MachineFacts<'_, '_>,
    row: &RegionRow,
) -> Result<(), AllocError> {
    let [number] = row.numbers.as_slice() else {
        return Ok(());
    };
    let mut text: Text = sheet.text();
    for unit in &unit_texts(facts, *number)? {
        put_between(&mut text, ", ");
        text.put_all(unit);
    }
    if !text.bytes()?.is_empty() {
        sheet.put_row(b"        ", text.bytes()?, 8);
    }
    Ok(())
}

// Puts the regions that no device claims.
fn put_unclaimed(
    sheet: &mut Sheet,
    facts: &MachineFacts<'_, '_>,
    is_verbose: bool,
) -> Result<(), AllocError> {
    let rows = unclaimed_rows(facts)?;
    if rows.is_empty() {
        return Ok(());
    }
    if is_verbose {
        sheet.put_heading(
            "CLAIMED BY NO CONSTANT _CRS",
            b"Often normal: a _CRS that is made by code may claim them.",
        );
        for row in &rows {
            sheet.put_row(b"  ", row, 4);
        }
        return Ok(());
    }
    let mut text = sheet.text();
    text.put("Claimed by no constant _CRS (often normal): ");
    text.put_all(&unclaimed_text(facts)?);
    sheet.put_row(b"  ", text.bytes()?, 4);
    Ok(())
}

/// Puts the regions by space and address, if there are any.
pub(crate) fn put_regions(
    sheet: &mut Sheet,
    facts: &MachineFacts<'_, '_>,
    is_verbose: bool,
) -> Result<(), AllocError> {
    if facts.regions.is_empty() {
        return Ok(());
    }
    let rows = region_rows(facts, is_verbose)?;
    let columns = Columns::of(&rows, sheet.width());
    sheet.put_heading("REGIONS", LEGEND.as_bytes());
    let mut before: Option<u8> = None;
    for row in &rows {
        if before != Some(row.space) {
            sheet.put_row(b"  ", space_word(row.space).as_bytes(), 4);
        }
        before = Some(row.space);
        put_region(sheet, row, &columns)?;
        if is_verbose {
            put_units(sheet, facts, row)?;
        }
    }
    put_unclaimed(sheet, facts, is_verbose)
}
