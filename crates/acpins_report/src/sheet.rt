//! Text in lines of a width.

use acpi_overview_text::{is_empty, length_of};
use acpi_phrases::NO_BREAK;
use std::alloc::{AllocError, Global};
use text_buffer::Text;

/// How words look where colours are asked for.
#[derive(Debug, Clone, Copy, PartialEq, Eq)]
pub(crate) enum Style {
    /// As any others.
    Plain,
    /// Bold, for the heading of a section.
    Heading,
    /// Dim, for what abbreviations mean.
    Legend,
    /// Red, for what is lost or stops a method.
    Fault,
    /// Yellow, for what is probably a mistake.
    Doubt,
}

// What turns the colour of a style on; nothing where words look as any others.
fn colour(style: Style) -> &'static str {
    match style {
        Style::Plain => "",
        Style::Heading => "\x1b[1m",
        Style::Legend => "\x1b[2m",
        Style::Fault => "\x1b[31m",
        Style::Doubt => "\x1b[33m",
    }
}

/// Text in lines of a width. A line is broken at blanks alone.
#[derive(Drop)]
pub(crate) struct Sheet {
    lines: Text,
    width: usize,
    is_coloured: bool,
}

/// Puts blanks.
pub(crate) fn put_blanks(text: &mut Text, count: usize) {
    for _ in 0..count {
        text.put(" ");
    }
}

/// Puts words, and blanks up to so many columns.
pub(crate) fn put_column(text: &mut Text, words: &[u8], columns: usize) {
    text.put_all(words);
    put_blanks(text, columns.saturating_sub(words.len()))
}

/// Puts words and blanks before them in so many columns.
pub(crate) fn put_right(text: &mut Text, words: &[u8], columns: usize) {
    put_blanks(text, columns.saturating_sub(words.len()));
    text.put_all(words)
}

impl Sheet {
    /// Nothing is written.
    pub(crate) fn new(alloc: Global, width: usize, is_coloured: bool) -> Sheet {
        Sheet {
            lines: Text::new(alloc),
            width,
            is_coloured,
        }
    }

    /// The width.
    pub(crate) fn width(&self) -> usize {
        self.width
    }

    /// An empty text.
    pub(crate) fn text(&self) -> Text {
        Text::new(self.lines.alloc())
    }

    /// Whether nothing is written.
    pub(crate) fn is_empty(&self) -> bool {
        is_empty(&self.lines)
    }

    // Puts bytes of a line: a blank for one at which no line is broken.
    fn put_bytes(&mut self, bytes: &[u8]) {
        for byte in bytes {
            self.lines
                .put_one(if *byte == NO_BREAK { b' ' } else { *byte });
        }
    }

    // Puts a line, whose first bytes have a style, without blanks at its end.
    fn put_line(&mut self, line: &Text, style: Style, styled: usize) {
        let Ok(bytes) = line.bytes() else {
            return self.lines.put_text(line);
        };
        let bytes = bytes.trim_ascii_end();
        let (front, rest) = bytes.split_at(styled.min(bytes.len()));
        let has_colour = self.is_coloured && style != Style::Plain && !front.is_empty();
        if has_colour {
            self.lines.put(colour(style));
        }
        self.put_bytes(front);
        if has_colour {
            self.lines.put("\x1b[0m");
        }
        self.put_bytes(rest);
        self.lines.put("\n")
    }

    // Puts words behind what stands before them; what is longer than the width goes on in lines that begin at a column. The first
    // bytes of the first line have a style, and of the others as many.
    fn put_lines(
        &mut self,
        before: &[u8],
        words: &[u8],
        column: usize,
        (style, styled): (Style, usize),
    ) {
        let mut line = self.text();
        line.put_all(before);
        let mut is_first = true;
        for word in words.split(|b| *b == b' ') {
            let length = length_of(&line);
            let end = length.saturating_add(1).saturating_add(word.len());
            if !is_first && end > self.width && length > column {
                self.put_line(&line, style, styled);
                line.clear();
                put_blanks(&mut line, column);
            } else if !is_first {
                line.put(" ");
            }
            line.put_all(word);
            is_first = false;
        }
        self.put_line(&line, style, styled)
    }

    /// Puts words behind what stands before them; lines behind the first begin at a column.
    pub(crate) fn put_row(&mut self, before: &[u8], words: &[u8], column: usize) {
        self.put_lines(before, words, column, (Style::Plain, 0))
    }

    /// Puts words behind what stands before them, which has a style.
    pub(crate) fn put_marked_row(
        &mut self,
        before: &[u8],
        words: &[u8],
        column: usize,
        style: Style,
    ) {
        let styled = before.trim_ascii_end().len();
        self.put_lines(before, words, column, (style, styled))
    }

    /// Puts the heading of a section behind an empty line, and what its abbreviations mean.
    pub(crate) fn put_heading(&mut self, heading: &str, legend: &[u8]) {
        if !self.is_empty() {
            self.lines.put("\n");
        }
        let all = self.width;
        self.put_lines(&[], heading.as_bytes(), 0, (Style::Heading, all));
        if !legend.is_empty() {
            self.put_lines(b"  ", legend, 2, (Style::Legend, all));
        }
    }

    /// Puts an empty line.
    pub(crate) fn put_empty(&mut self) {
        self.lines.put("\n")
    }

    /// The lines; an error where a growth of memory was refused.
    pub(crate) fn into_bytes(self) -> Result<Vec<u8>, AllocError> {
        self.lines.into_bytes()
    }
}
