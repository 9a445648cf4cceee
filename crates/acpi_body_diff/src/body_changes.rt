//! What differs of the bodies of methods.

use crate::bodies::{BodyLine, lines_of_body};
use crate::line_match::match_lines;
use acpi_check_machine::Body;
use acpi_entries::body_of;
use acpi_name::Path;
use acpi_versions::{Pair, Side, path_around};
use std::alloc::{AllocError, Global};
use std::collections::BTreeMap;

/// How many lines that stay stand before and behind those that differ.
const CONTEXT: usize = 2;

/// What a line of a difference is.
#[derive(Debug, Clone, Copy, PartialEq, Eq)]
pub enum LineMark {
    /// Both versions have it.
    Both,
    /// Only the old version has it.
    Gone,
    /// Only the new version has it.
    New,
    /// Lines that both have are left out here.
    LeftOut,
}

/// A line of a difference.
#[derive(Debug, Drop)]
pub struct DiffLine {
    /// What it is.
    pub mark: LineMark,
    /// The line.
    pub text: Vec<u8>,
}

/// What differs of a body.
#[derive(Debug, Drop)]
pub struct BodyChange {
    /// The path of the method in the new version.
    pub path: Path,
    /// How many lines the old body has.
    pub old_count: usize,
    /// How many lines the new body has.
    pub new_count: usize,
    /// The lines that differ, with two around.
    pub lines: Vec<DiffLine>,
}

/// What is found of two bodies.
#[derive(Debug, Drop)]
pub enum BodyResult {
    /// Their lines differ.
    Lines(BodyChange),
    /// Their lines are alike, but for the numbers of Locals, the spelling of constants and names, and the forms of stores.
    Alike,
    /// One of them can't be read, and their bytes differ.
    Bytes,
    /// Nothing differs.
    Same,
}

/// The numbers of lines: equal ones have one number.
#[derive(Drop)]
struct Numbers {
    by_line: BTreeMap<Vec<u8>, usize>,
}

impl Numbers {
    fn number(&mut self, alloc: Global, line: &[u8]) -> Result<usize, AllocError> {
        if let Some(number) = self.by_line.get(line) {
            return Ok(*number);
        }
        let number = self.by_line.len();
        let line = Vec::from_slice(alloc, line)?;
        self.by_line.insert(line, number)?;
        Ok(number)
    }

    fn numbers(&mut self, alloc: Global, lines: &[BodyLine]) -> Result<Vec<usize>, AllocError> {
        let mut numbers = Vec::new(alloc);
        for line in lines {
            numbers.push(self.number(alloc, &line.exact)?)?;
        }
        Ok(numbers)
    }
}

// The lines from a place up to another.
fn lines_between(lines: &[BodyLine], from: usize, to: usize) -> &[BodyLine] {
    match lines.get(from..to) {
        Some(found) => found,
        None => &[],
    }
}

/// Two bodies while the lines that differ are put one behind another.
#[derive(Drop)]
struct Writing<'l> {
    alloc: Global,
    old: &'l [BodyLine],
    new: &'l [BodyLine],
    lines: Vec<DiffLine>,
}

impl<'l> Writing<'l> {
    // The text of a line as it is printed; as it is compared where the other version has a line that is printed so.
    fn text(&self, line: &BodyLine, is_exact: bool) -> Result<Vec<u8>, AllocError> {
        let bytes = if is_exact { &line.exact } else { &line.shown };
        Vec::from_slice(self.alloc, bytes)
    }

    fn put_range(
        &mut self,
        mark: LineMark,
        lines: &[BodyLine],
        is_exact: bool,
    ) -> Result<(), AllocError> {
        for line in lines {
            let text = self.text(line, is_exact)?;
            self.lines.push(DiffLine { mark, text })?;
        }
        Ok(())
    }

    // Puts lines that differ: those of the old body, then those of the new one.
    fn put_differing(&mut self, old: &[BodyLine], new: &[BodyLine]) -> Result<(), AllocError> {
        let is_exact = old.len() == new.len()
            && old
                .iter()
                .zip(new.iter())
                .all(|(one, other)| one.shown == other.shown);
        self.put_range(LineMark::Gone, old, is_exact)?;
        self.put_range(LineMark::New, new, is_exact)
    }

    // Puts lines that both have: the first ones where something stands before them, and the last ones where something follows.
    fn put_same(
        &mut self,
        lines: &[BodyLine],
        is_first: bool,
        is_last: bool,
    ) -> Result<(), AllocError> {
        let before = if is_first { 0 } else { CONTEXT };
        let behind = if is_last { 0 } else { CONTEXT };
        if lines.len() <= before.saturating_add(behind) {
            return self.put_range(LineMark::Both, lines, false);
        }
        let last = lines.len().saturating_sub(behind);
        self.put_range(LineMark::Both, lines.get(..before).unwrap_or(lines), false)?;
        if !is_first && !is_last {
            self.lines.push(DiffLine {
                mark: LineMark::LeftOut,
                text: Vec::new(self.alloc),
            })?;
        }
        self.put_range(LineMark::Both, lines.get(last..).unwrap_or(lines), false)
    }

    // Puts all, by the places of the lines that both have.
    fn put_all(&mut self, matches: &[(usize, usize)]) -> Result<(), AllocError> {
        let mut from = (0usize, 0usize);
        let mut kept = (0usize, 0usize);
        for (old, new) in matches {
            if (*old, *new) != kept {
                self.put_block(from, kept, (*old, *new))?;
                from = (*old, *new);
            }
            kept = (old.saturating_add(1), new.saturating_add(1));
        }
        let end = (self.old.len(), self.new.len());
        if kept != end {
            return self.put_block(from, kept, end);
        }
        let same = lines_between(self.new, from.1, end.1);
        self.put_same(same, from == (0, 0), true)
    }

    // Puts lines that both have, up to a place, and then lines that differ, up to another.
    fn put_block(
        &mut self,
        from: (usize, usize),
        kept: (usize, usize),
        to: (usize, usize),
    ) -> Result<(), AllocError> {
        let same = lines_between(self.new, from.1, kept.1);
        self.put_same(same, from == (0, 0), false)?;
        let old = lines_between(self.old, kept.0, to.0);
        let new = lines_between(self.new, kept.1, to.1);
        self.put_differing(old, new)
    }
}

fn have_same_lines(old: &[BodyLine], new: &[BodyLine]) -> bool {
    old.len() == new.len()
        && old
            .iter()
            .zip(new.iter())
            .all(|(one, other)| one.exact == other.exact)
}

// The lines as one text, with Locals by the order in which they come.
fn renumbered(alloc: Global, lines: &[BodyLine]) -> Result<Vec<u8>, AllocError> {
    let mut seen: Vec<u8> = Vec::new(alloc);
    let mut text = Vec::new(alloc);
    for line in lines {
        for byte in &line.exact {
            let is_local = text.ends_with(b"Local");
            match seen.iter().position(|digit| digit == byte) {
                Some(place) if is_local => text.push(b'0'.saturating_add(place.min(9) as u8))?,
                None if is_local && byte.is_ascii_digit() => {
                    text.push(b'0'.saturating_add(seen.len().min(9) as u8))?;
                    seen.push(*byte)?;
                }
                _ => text.push(*byte)?,
            }
        }
        text.push(b'\n')?;
    }
    Ok(text)
}

// What differs of two bodies by their lines.
fn compare_lines<'l>(
    alloc: Global,
    path: &Path,
    old: &'l [BodyLine],
    new: &'l [BodyLine],
) -> Result<BodyResult, AllocError> {
    if have_same_lines(old, new) {
        return Ok(BodyResult::Alike);
    }
    if old.len() == new.len() && renumbered(alloc, old)? == renumbered(alloc, new)? {
        return Ok(BodyResult::Alike);
    }
    let mut numbers = Numbers {
        by_line: BTreeMap::new(alloc),
    };
    let old_numbers = numbers.numbers(alloc, old)?;
    let matches = match_lines(alloc, &old_numbers, &numbers.numbers(alloc, new)?)?;
    let mut writing = Writing {
        alloc,
        old,
        new,
        lines: Vec::new(alloc),
    };
    writing.put_all(&matches)?;
    Ok(BodyResult::Lines(BodyChange {
        path: path.copy()?,
        old_count: old.len(),
        new_count: new.len(),
        lines: writing.lines,
    }))
}

// The body of the object of a version, if it is a method that is read.
fn body_in<'m, 'a>(side: Side<'m, 'a>, number: usize) -> Option<&'m Body<'a>> {
    side.machine.body(number)
}

// What differs of two methods by their bytes.
fn compare_bytes<'m, 'a>(
    old: (Side<'m, 'a>, usize),
    new: (Side<'m, 'a>, usize),
) -> Result<BodyResult, AllocError> {
    let from = body_of(old.0.machine.survey, old.1)?;
    let to = body_of(new.0.machine.survey, new.1)?;
    let (Some(one), Some(other)) = (from, to) else {
        return Ok(BodyResult::Same);
    };
    if one.code == other.code {
        Ok(BodyResult::Same)
    } else {
        Ok(BodyResult::Bytes)
    }
}

/// What differs of the bodies of the methods at a path, of which both versions have one.
pub fn compare_bodies<'m, 'a>(
    old: Side<'m, 'a>,
    new: Side<'m, 'a>,
    pair: &Pair<'m, 'a>,
) -> Result<BodyResult, AllocError> {
    let (Some(one), Some(other)) = (pair.old, pair.new) else {
        return Ok(BodyResult::Same);
    };
    let (Some(from), Some(to)) = (body_in(old, one.number), body_in(new, other.number)) else {
        return compare_bytes((old, one.number), (new, other.number));
    };
    if from.terms == to.terms {
        return Ok(BodyResult::Same);
    }
    let around = path_around(&pair.path)?;
    let old_lines = lines_of_body(old, from, &pair.path, &around)?;
    let new_lines = lines_of_body(new, to, &pair.path, &around)?;
    compare_lines(new.machine.alloc, &pair.path, &old_lines, &new_lines)
}
