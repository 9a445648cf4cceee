//! The bytes of tables beside what they belong to.

use crate::anchors::bytes_id;
use crate::markup::{AttributeName, Element};
use crate::parts::{with_text, with_words};
use crate::writer::Page;
use acpi_finding_rows::table_row;
use acpi_overview::{Site, Table};
use acpi_overview_text::put_hex;
use acpi_text::put_spaced;
use std::alloc::{AllocError, Global};

/// A blank as wide as half a letter is high.
const EN_SPACE: &str = "\u{2002}";

/// A line of the map of tables: what a range of bytes belongs to.
#[derive(Debug, Clone, Copy)]
struct MapLine<'a> {
    /// In how many others it stands.
    depth: usize,
    /// The number of the table.
    table: usize,
    /// The first byte.
    from: usize,
    /// The first behind the last.
    to: usize,
    /// What stands there.
    what: &'a [u8],
}

// The number that the digits at the front spell, and what stands behind them and one more character.
fn number_at(text: &[u8]) -> Option<(usize, &[u8])> {
    let count = text.iter().take_while(|b| b.is_ascii_digit()).count();
    let mut number = 0usize;
    for b in text.iter().take(count) {
        number = number
            .saturating_mul(10)
            .saturating_add(b.saturating_sub(b'0') as usize);
    }
    if count == 0 || count >= text.len() {
        return None;
    }
    Some((number, &text[count + 1..]))
}

// The parts of a line of the map: `TABLE FROM-TO WHAT` behind two blanks for each range around.
fn map_line(line: &[u8]) -> Option<MapLine<'_>> {
    let blanks = line.iter().take_while(|b| **b == b' ').count();
    let (table, rest) = number_at(&line[blanks.min(line.len())..])?;
    let (from, rest) = number_at(rest)?;
    let (to, what) = number_at(rest)?;
    Some(MapLine {
        depth: blanks / 2,
        table,
        from,
        to,
        what,
    })
}

/// The map of the bytes of tables: its lines, by the tables and by where their ranges begin.
#[derive(Drop)]
pub(crate) struct TableMap<'a> {
    lines: Vec<MapLine<'a>>,
}

impl<'a> TableMap<'a> {
    /// The map whose text this is. Only an allocation failure is an error.
    pub(crate) fn new(alloc: Global, text: &'a [u8]) -> Result<TableMap<'a>, AllocError> {
        let mut lines = Vec::new(alloc);
        for line in text.split(|b| *b == b'\n') {
            if let Some(line) = map_line(line) {
                lines.push(line)?;
            }
        }
        Ok(TableMap { lines })
    }

    /// The beginning of the range in which a site lies.
    pub(crate) fn anchor(&self, site: Site) -> Option<Site> {
        let count = self.lines.partition_point(|l| {
            l.table < site.table || l.table == site.table && l.from <= site.offset
        });
        let line = self.lines.get(count.checked_sub(1)?)?;
        if line.table == site.table {
            Some(line.begin())
        } else {
            None
        }
    }

    // The lines of a table.
    fn lines_of(&self, table: usize) -> &[MapLine<'a>] {
        let from = self.lines.partition_point(|l| l.table < table);
        let to = self.lines.partition_point(|l| l.table <= table);
        if from <= to {
            &self.lines[from..to]
        } else {
            &[]
        }
    }
}

impl MapLine<'_> {
    // Where the range begins.
    fn begin(&self) -> Site {
        Site {
            table: self.table,
            offset: self.from,
        }
    }
}

// The bytes between two offsets, as far as the table has them.
fn bytes_between(bytes: &[u8], from: usize, to: usize) -> &[u8] {
    let to = to.min(bytes.len());
    if from <= to { &bytes[from..to] } else { &[] }
}

// Opens a range; the first of those that begin at one byte has an `id`.
fn open_range(page: &mut Page, line: &MapLine<'_>, is_first: bool) {
    if !is_first {
        return page.open_class(Element::Div, "x");
    }
    let id = bytes_id(page.alloc(), line.begin());
    page.open(
        Element::Div,
        &[
            with_words(AttributeName::Class, "x"),
            with_text(AttributeName::Id, &id),
        ],
    )
}

// Puts a range: its first byte, its bytes up to the next range, and what it is, as deep as it stands.
fn put_range(page: &mut Page, line: &MapLine<'_>, bytes: &[u8], is_first: bool) {
    open_range(page, line, is_first);
    page.open_class(Element::Span, "o");
    page.text.put("0x");
    put_hex(&mut page.text, line.from as u64, 1);
    page.close(Element::Span);
    page.open_class(Element::Span, "h");
    put_spaced(&mut page.text, bytes);
    page.close(Element::Span);
    page.open_class(Element::Span, "v");
    for _ in 0..line.depth.min(32) {
        page.text.put(EN_SPACE);
    }
    page.text.put_all(line.what);
    page.close(Element::Span);
    page.close_line(Element::Div)
}

// Where the bytes of a line end that belong to no line behind it.
fn own_end(line: &MapLine<'_>, next: Option<&MapLine<'_>>) -> usize {
    match next {
        Some(next) => line.to.min(next.from),
        None => line.to,
    }
}

// Puts the ranges of a table that has these bytes.
fn put_ranges(page: &mut Page, lines: &[MapLine<'_>], bytes: &[u8]) {
    let mut before: Option<usize> = None;
    for (place, line) in lines.iter().enumerate() {
        let end = own_end(line, lines.get(place + 1));
        let is_first = before != Some(line.from);
        before = Some(line.from);
        put_range(page, line, bytes_between(bytes, line.from, end), is_first);
    }
}

/// Puts the bytes of each table beside what they belong to, one click away.
pub(crate) fn put_bytes(
    page: &mut Page,
    tables: &[Table<'_>],
    map: &TableMap<'_>,
    files: &[&str],
) -> Result<(), AllocError> {
    page.open_section("bytes", "Bytes", b"offset, bytes, what they belong to");
    for (number, table) in tables.iter().enumerate() {
        page.open_class(Element::Details, "bytes");
        page.open_class(Element::Summary, "m");
        let row = table_row(page.alloc(), table, files.get(number).copied())?;
        page.put_words(&row);
        page.close(Element::Summary);
        page.open(Element::Div, &[]);
        page.end_line();
        put_ranges(page, map.lines_of(number), table.bytes);
        page.close(Element::Div);
        page.close_line(Element::Details);
    }
    page.close_line(Element::Section);
    Ok(())
}
