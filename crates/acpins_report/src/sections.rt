//! Sections with rows of columns.

use crate::sheet::{Sheet, put_blanks, put_column};
use acpi_machine_facts::MachineFacts;
use acpi_section_rows::{Section, SectionRow, condition_rows, sections};
use acpi_trimmed::put_trimmed_path;
use std::alloc::AllocError;
use text_buffer::Text;

/// How many columns a section may have.
const MOST: usize = 4;

// How wide each column of some rows is.
fn widths_of(rows: &[SectionRow]) -> [usize; MOST] {
    let mut widths = [0usize; MOST];
    for row in rows {
        for (number, column) in row.columns.iter().enumerate() {
            if let Some(width) = widths.get_mut(number) {
                *width = (*width).max(column.len());
            }
        }
    }
    widths
}

// Puts a row whose columns are so wide.
fn put_columns(sheet: &mut Sheet, row: &SectionRow, widths: &[usize]) -> Result<(), AllocError> {
    let mut before: Text = sheet.text();
    put_blanks(&mut before, row.depth.saturating_mul(2).saturating_add(2));
    for (width, column) in widths.iter().zip(row.columns.iter()) {
        put_column(&mut before, column, *width);
        before.put("  ");
    }
    let column = if row.columns.len() > 1 {
        before.bytes()?.len().min(44)
    } else {
        row.depth.saturating_mul(2).saturating_add(4)
    };
    sheet.put_row(before.bytes()?, &row.text, column);
    Ok(())
}

fn put_section(sheet: &mut Sheet, section: &Section) -> Result<(), AllocError> {
    sheet.put_heading(section.heading, section.legend.as_bytes());
    let mut rest = section.rows.as_slice();
    for _ in 0..section.rows.len() {
        let Some(first) = rest.first() else {
            break;
        };
        // Rows of one depth that follow one another have the same columns.
        let count = rest.iter().take_while(|r| r.depth == first.depth).count();
        let (rows, behind) = rest.split_at(count.min(rest.len()));
        let widths = widths_of(rows);
        for row in rows {
            put_columns(sheet, row, &widths)?;
        }
        rest = behind;
    }
    Ok(())
}

/// Puts the sections of all that is known.
pub(crate) fn put_sections(
    sheet: &mut Sheet,
    facts: &MachineFacts<'_, '_>,
) -> Result<(), AllocError> {
    for section in &sections(facts)? {
        put_section(sheet, section)?;
    }
    Ok(())
}

/// Puts the objects that have a condition, if there are any; without `is_verbose` no sleep states, which are told elsewhere.
pub(crate) fn put_conditions(
    sheet: &mut Sheet,
    facts: &MachineFacts<'_, '_>,
    is_verbose: bool,
) -> Result<(), AllocError> {
    let rows = condition_rows(facts, is_verbose)?;
    if rows.is_empty() {
        return Ok(());
    }
    sheet.put_heading(
        "CONDITIONAL",
        b"An object exists only if what stands behind \"if\" holds.",
    );
    let mut paths = Vec::new(facts.machine.alloc);
    let mut width = 0usize;
    for (object, _) in &rows {
        let mut path = sheet.text();
        put_trimmed_path(&mut path, object.path);
        let path = path.into_bytes()?;
        width = width.max(path.len());
        paths.push(path)?;
    }
    let width = width.min(40);
    for (path, (_, condition)) in paths.iter().zip(rows.iter()) {
        let mut before = sheet.text();
        before.put("  ");
        put_column(&mut before, path, width);
        before.put("  if ");
        sheet.put_row(before.bytes()?, condition, width.saturating_add(4));
    }
    Ok(())
}
