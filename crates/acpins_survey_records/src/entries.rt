//! The records of entries.

use crate::literals::number_or_none;
use crate::numbers::{computed_bits, kind_number, numbers_of};
use crate::parts::Parts;
use crate::places::{next_parent, place_of};
use crate::records::{EntryRecord, TargetRecord};
use acpi_condition_list::{ConditionedEntry, Conditions};
use acpi_entries::{Link, condition_of, links_in};
use acpi_name::Path;
use acpi_objects::{ObjectKind, object_kind};
use acpi_outline::{Fixed, Node};
use acpi_ranges::{Site, Span, SpanContent, offset_of, part_of, site_of};
use acpi_survey::Survey;
use acpins_lent::NONE;
use acpins_survey_output::put_entry;
use std::alloc::{AllocError, Global};
use text_buffer::Text;

// Where a term stands, and how many bytes it has.
#[derive(Clone, Copy)]
struct TermPlace {
    table: u64,
    place: u64,
    length: u64,
}

// Where the term of the entry of that number stands, which is this part of a table.
fn place_in(survey: &Survey, number: usize, part: Option<&Span<'_>>) -> TermPlace {
    let nowhere = TermPlace {
        table: NONE,
        place: 0,
        length: 0,
    };
    let (Some(part), Some(entry)) = (part, survey.entry(number)) else {
        return nowhere;
    };
    let place = entry.term.place;
    let Site { table, offset } = site_of(place);
    TermPlace {
        table: table as u64,
        place: offset as u64,
        length: offset_of(part.to).saturating_sub(offset) as u64,
    }
}

// Where the code of a method begins and how many bytes it has, of the part that is its term.
fn code_in(part: Option<&Span<'_>>) -> (u64, u64) {
    let Some(part) = part else {
        return (0, 0);
    };
    match part.what {
        SpanContent::Node(Node::Closed(Fixed::Method(_, _), code)) => {
            let begin = part.to.saturating_sub(code.len());
            (offset_of(begin) as u64, code.len() as u64)
        }
        _ => (0, 0),
    }
}

// Puts what the links of an entry may find behind other targets.
fn put_targets(
    targets: &mut Vec<TargetRecord>,
    entries: &[ConditionedEntry<'_>],
    links: &[Link<'_>],
) -> Result<(), AllocError> {
    let mut number = 0u64;
    for link in links {
        for path in &link.paths {
            targets.push(TargetRecord {
                entry: place_of(entries, path.segs()),
                link: number,
                is_certain: u64::from(link.is_certain),
            })?;
        }
        number = number.saturating_add(1);
    }
    Ok(())
}

// Puts the data of a Name behind other data; its place.
fn put_value(parts: &mut Parts, kind: &ObjectKind<'_>) -> Result<u64, AllocError> {
    let ObjectKind::Name(Some(value)) = kind else {
        return Ok(NONE);
    };
    let place = parts.parts.len() as u64;
    parts.put_data(value)?;
    Ok(place)
}

// How many bytes the text of a path has: a backslash, and segments of four characters with a dot between two.
fn path_length(path: &Path) -> u64 {
    match path.len() {
        0 => 1,
        segments => (segments as u64).saturating_mul(5),
    }
}

/// The records of entries so far, what their links may find, their data, and their lines.
#[derive(Drop)]
pub(crate) struct EntryRecords {
    pub entries: Vec<EntryRecord>,
    pub targets: Vec<TargetRecord>,
    pub parts: Parts,
    pub text: Text,
}

impl EntryRecords {
    /// None.
    pub(crate) fn new(alloc: Global) -> EntryRecords {
        EntryRecords {
            entries: Vec::new(alloc),
            targets: Vec::new(alloc),
            parts: Parts::new(alloc),
            text: Text::new(alloc),
        }
    }

    // Puts the line of an entry; where it begins, and how many bytes it has.
    fn put_line(
        &mut self,
        survey: &Survey,
        entry: &ConditionedEntry<'_>,
        kind: &ObjectKind<'_>,
        links: &[Link<'_>],
    ) -> Result<(u64, u64), AllocError> {
        let begin = self.text.bytes()?.len();
        let condition = condition_of(survey, entry.number)?;
        put_entry(&mut self.text, entry.path, kind, links, &condition);
        let length = self.text.bytes()?.len().saturating_sub(begin);
        Ok((begin as u64, length as u64))
    }

    // Puts the record of an entry behind others.
    fn put(
        &mut self,
        survey: &Survey,
        entries: &[ConditionedEntry<'_>],
        entry: &ConditionedEntry<'_>,
    ) -> Result<(), AllocError> {
        let part = part_of(survey, entry.number);
        let kind = object_kind(part, entry.number);
        let links = links_in(survey, entry.number, part)?;
        let (line, line_length) = self.put_line(survey, entry, &kind, &links)?;
        let target = self.targets.len() as u64;
        put_targets(&mut self.targets, entries, &links)?;
        let term = place_in(survey, entry.number, part.as_ref());
        let (code_place, code_length) = code_in(part.as_ref());
        let record = EntryRecord {
            kind: kind_number(&kind),
            line,
            line_length,
            path_length: path_length(entry.path),
            target,
            targets: (self.targets.len() as u64).saturating_sub(target),
            numbers: numbers_of(&kind),
            is_computed: computed_bits(&kind),
            parent: next_parent(entries, &self.entries, entry.path.segs()),
            part: put_value(&mut self.parts, &kind)?,
            condition: number_or_none(entry.condition),
            table: term.table,
            place: term.place,
            length: term.length,
            code_place,
            code_length,
        };
        self.entries.push(record)?;
        Ok(())
    }

    /// Puts the records of all entries.
    pub(crate) fn put_all(
        &mut self,
        survey: &Survey,
        conditions: &Conditions<'_>,
    ) -> Result<(), AllocError> {
        for entry in &conditions.entries {
            self.put(survey, &conditions.entries, entry)?;
        }
        Ok(())
    }
}
