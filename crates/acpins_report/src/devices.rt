//! The tree of devices.

use crate::sheet::{Sheet, put_blanks, put_column};
use acpi_device_rows::{Children, DeviceRow, device_details, device_rows};
use acpi_machine_facts::MachineFacts;
use acpi_phrases::NO_BREAK;
use std::alloc::AllocError;
use text_buffer::Text;

/// From how many columns on devices have columns.
const WIDE: usize = 80;

/// The most columns of places.
const PLACES: usize = 18;

/// How many columns the rows of the tree need.
#[derive(Drop)]
struct Columns {
    name: usize,
    place: usize,
    id: usize,
}

impl Columns {
    fn of(rows: &[DeviceRow<'_>]) -> Columns {
        let mut columns = Columns {
            name: 0,
            place: 0,
            id: 0,
        };
        for row in rows {
            if !row.numbers.is_empty() {
                let name = row.name.len().saturating_add(row.depth);
                columns.name = columns.name.max(name.saturating_add(2));
                columns.id = columns.id.max(row.id.len().saturating_add(2));
                let place = row.place.len().min(PLACES);
                columns.place = columns.place.max(place.saturating_add(2));
            }
        }
        columns
    }

    // Where the text of a row begins.
    fn text(&self) -> usize {
        self.name.saturating_add(self.place).saturating_add(self.id)
    }
}

// The text of a row, with its counts where they fit on the line.
fn text_of(sheet: &Sheet, row: &DeviceRow<'_>, columns: &Columns) -> Text {
    let mut text = sheet.text();
    text.put_all(&row.about);
    let length = columns
        .text()
        .saturating_add(row.about.len())
        .saturating_add(row.counts.len());
    if sheet.width() >= WIDE && length <= sheet.width() {
        text.put_all(&row.counts);
    }
    text
}

// Puts a row of columns.
fn put_wide(sheet: &mut Sheet, row: &DeviceRow<'_>, columns: &Columns) -> Result<(), AllocError> {
    let text = text_of(sheet, row, columns);
    let mut before = sheet.text();
    put_blanks(&mut before, row.depth);
    put_column(
        &mut before,
        &row.name,
        columns.name.saturating_sub(row.depth),
    );
    if row.place.len().saturating_add(2) <= columns.place {
        put_column(&mut before, &row.place, columns.place);
        put_column(&mut before, &row.id, columns.id);
        sheet.put_row(before.bytes()?, text.bytes()?, columns.text());
        return Ok(());
    }
    // A long place has the line for itself.
    sheet.put_row(before.bytes()?, &row.place, columns.name);
    if !row.id.is_empty() || !text.bytes()?.is_empty() {
        before.clear();
        put_blanks(&mut before, columns.name.saturating_add(columns.place));
        put_column(&mut before, &row.id, columns.id);
        sheet.put_row(before.bytes()?, text.bytes()?, columns.text());
    }
    Ok(())
}

// Puts a row without columns but that of the name.
fn put_narrow(sheet: &mut Sheet, row: &DeviceRow<'_>, columns: &Columns) -> Result<(), AllocError> {
    let mut before = sheet.text();
    put_blanks(&mut before, row.depth);
    put_column(
        &mut before,
        &row.name,
        columns.name.saturating_sub(row.depth),
    );
    let mut text = sheet.text();
    for byte in &row.place {
        text.put_one(if *byte == b' ' && row.place.len() < 24 {
            NO_BREAK
        } else {
            *byte
        });
    }
    if !row.place.is_empty() && (!row.id.is_empty() || !row.about.is_empty()) {
        text.put(", ");
    }
    text.put_all(&row.id);
    if !row.id.is_empty() && !row.about.is_empty() {
        text.put(" ");
    }
    text.put_all(&row.about);
    sheet.put_row(before.bytes()?, text.bytes()?, columns.name);
    Ok(())
}

/// Puts the tree, siblings that are alike in one row.
pub(crate) fn put_devices(
    sheet: &mut Sheet,
    facts: &MachineFacts<'_, '_>,
    children: &Children,
) -> Result<(), AllocError> {
    let rows = device_rows(facts, children, true)?;
    let columns = Columns::of(&rows);
    for row in &rows {
        if row.numbers.is_empty() {
            sheet.put_row(b"", &row.name, 2);
        } else if sheet.width() >= WIDE {
            put_wide(sheet, row, &columns)?;
        } else {
            put_narrow(sheet, row, &columns)?;
        }
    }
    Ok(())
}

// Puts all that is told of a device.
fn put_device(
    sheet: &mut Sheet,
    facts: &MachineFacts<'_, '_>,
    row: &DeviceRow<'_>,
    number: usize,
) -> Result<(), AllocError> {
    let Some(details) = device_details(facts, number)? else {
        return Ok(());
    };
    let mut before = sheet.text();
    put_blanks(&mut before, row.depth);
    before.put_all(&row.name);
    let mut head = sheet.text();
    for words in &details.head {
        before.put("  ");
        head.put_text(&before);
        before.clear();
        head.put_all(words);
    }
    head.put_text(&before);
    sheet.put_row(b"", head.bytes()?, row.depth.saturating_add(4));
    for detail in &details.details {
        let mut before = sheet.text();
        put_blanks(&mut before, row.depth.saturating_add(4));
        put_column(&mut before, detail.label.as_bytes(), 12);
        sheet.put_row(before.bytes()?, &detail.text, row.depth.saturating_add(16));
    }
    Ok(())
}

/// Puts the tree with all that is told of each device.
pub(crate) fn put_details(
    sheet: &mut Sheet,
    facts: &MachineFacts<'_, '_>,
    children: &Children,
) -> Result<(), AllocError> {
    for row in &device_rows(facts, children, false)? {
        match row.numbers.first() {
            Some(number) => put_device(sheet, facts, row, *number)?,
            None => sheet.put_row(b"", &row.name, 2),
        }
    }
    Ok(())
}
