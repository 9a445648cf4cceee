//! The body of the method of an entry.

ghost use Rattle.std.specs.Prelude.{◌≡◌, IfOk};
ghost use Rattle.std.specs.Option.{option_map, option_and_then};
ghost use Rattle.acpi_entries.specs.steps.MethodBodies.{method_grammar};
ghost use Rattle.acpi_survey.specs.SurveyOrder.{AllTile};
ghost use Rattle.acpi_entries.specs.EntryBodies.{IsBodyReading, IsBodyOf, method_code};
ghost use Rattle.acpi_ranges.specs.Lookup.{found_of};

use crate::method_bodies::{Methods, terms_of};
use acpi_body::{BodyError, BodyReason};
use acpi_code::Depth;
use acpi_conditions::{Entries, Entry};
use acpi_name::Name;
use acpi_outline::{Fixed, LostReason, Node};
use acpi_ranges::{Span, SpanContent, entry_numbered, offset_of, part_of, table_in, unsure_name};
use acpi_survey::{Survey, SurveyedTable};
use acpi_tree::Term;
use std::alloc::AllocError;

/// What the code of a method is read as.
#[derive(Debug, Drop)]
pub enum BodyReading {
    /// The terms that it spells.
    Terms(Vec<Term>),
    /// Nothing: it can't be read.
    Opaque {
        /// What is wrong at the place.
        reason: BodyReason,
        /// Where, in bytes from the code's first.
        place: usize,
        /// The name of which it isn't sure how many values follow it, where that is the reason.
        name: Option<Name>,
    },
}

/// The code of the method of an entry, and what it is read as (ACPI 6.5, 20.2.5.2).
#[derive(Debug, Drop)]
pub struct MethodBody<'a> {
    /// The code of the method, its TermList.
    pub code: &'a [u8],
    /// Where it begins, in bytes from the table's first, the header included.
    pub offset: usize,
    /// What it is read as.
    pub reading: BodyReading,
}

/// The code of a method, and where it begins in the table.
#[derive(Debug, Clone, Copy)]
struct MethodCode<'a> {
    code: &'a [u8],
    offset: usize,
}

fn code_in<'a>(part: &Span<'a>) -> Option<MethodCode<'a>>
    ensures { option_map (λ m. (m.offset, m.code.now)) result
        ≡ option_and_then method_code (found_of part.now) }
{
    match part.what {
        SpanContent::Node(Node::Closed(Fixed::Method(_, _), code)) => Some(MethodCode {
            code,
            offset: offset_of(part.to.saturating_sub(code.len())),
        }),
        _ => None,
    }
}

// What the code of the method of an entry is read as.
fn read_body(
    methods: &Methods<'_>,
    entry: &Entry,
    code: &[u8],
    depth: Depth,
) -> Result<BodyReading, AllocError>
    ensures { IfOk result (λ r. IsBodyReading (method_grammar methods.now entry.now) entry.now.path
        depth code.now r) }
{
    match terms_of(methods, entry, code, depth) {
        Ok(terms) => Ok(BodyReading::Terms(terms)),
        Err(BodyError::Fault(fault)) => Ok(BodyReading::Opaque {
            reason: fault.reason,
            place: fault.place,
            name: unsure_name(
                methods.alloc,
                code,
                fault.place,
                LostReason::Term(fault.reason),
            )?,
        }),
        Err(BodyError::Memory) => Err(AllocError),
    }
}

// What bodies of the methods of a table are read against.
fn methods_of<'a>(survey: &'a Survey, entries: Entries<'a>, table: &'a SurveyedTable) -> Methods<'a>
    ensures entries { result.entries ≡ entries.entry }
    ensures counts { result.counts.now ≡ survey.now.reading.counts }
    ensures expected { result.expected.now ≡ table.now.expected }
{
    Methods {
        alloc: survey.memory(),
        entries,
        counts: survey.counts(),
        expected: &table.expected,
    }
}

/// The body of the entry of that number, if it is a method of a table.
pub fn body_of(survey: &Survey, number: usize) -> Result<Option<MethodBody<'_>>, AllocError>
    ensures { AllTile survey.now.tables.items → IfOk result (λ b. IsBodyOf
        survey.now.reading.walk.entries survey.now.reading.counts survey.now.tables.items
        survey.now.depth number b) }
{
    let entries = survey.entries();
    let Some(entry) = entry_numbered(entries, number) else {
        return Ok(None);
    };
    let Some(part) = part_of(survey, number) else {
        return Ok(None);
    };
    let (Some(table), Some(found)) = (table_in(survey, entry.term.place), code_in(&part)) else {
        return Ok(None);
    };
    let methods = methods_of(survey, entries, table);
    Ok(Some(MethodBody {
        code: found.code,
        offset: found.offset,
        reading: read_body(&methods, entry, found.code, survey.depth)?,
    }))
}
