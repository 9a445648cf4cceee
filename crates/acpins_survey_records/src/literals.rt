//! The literals of conditions.

use crate::records::LiteralRecord;
use acpi_condition_list::{ConditionStep, literal_of};
use acpi_entries::{Literal, PlacedLiteral};
use acpi_survey::Survey;
use acpins_lent::NONE;
use acpins_survey_output::put_literal;
use std::alloc::AllocError;
use text_buffer::Text;

// What a literal says.
fn literal_kind(literal: &Literal<'_>) -> u64 {
    match literal {
        Literal::If(_) => 0,
        Literal::Not(_) => 1,
        Literal::While(_) => 2,
        Literal::Past => 3,
        Literal::Has(_) => 4,
        Literal::No(_) => 5,
        Literal::Needs(_) => 6,
    }
}

/// The number, or `NONE`.
pub(crate) fn number_or_none(number: Option<usize>) -> u64 {
    match number {
        Some(number) => number as u64,
        None => NONE,
    }
}

// The record of a literal behind the one before it, whose text is put behind a text.
fn literal_record(
    text: &mut Text,
    before: Option<usize>,
    placed: &PlacedLiteral<'_>,
) -> Result<LiteralRecord, AllocError> {
    let begin = text.bytes()?.len();
    put_literal(text, placed);
    Ok(LiteralRecord {
        kind: literal_kind(&placed.literal),
        before: number_or_none(before),
        table: placed.site.table as u64,
        place: placed.site.offset as u64,
        text: begin as u64,
        text_length: text.bytes()?.len().saturating_sub(begin) as u64,
    })
}

// The record of a literal of which nothing is known.
fn unknown_record(before: Option<usize>) -> LiteralRecord {
    LiteralRecord {
        kind: 0,
        before: number_or_none(before),
        table: NONE,
        place: 0,
        text: 0,
        text_length: 0,
    }
}

/// Puts the record of each literal behind others, and its text behind a text.
pub(crate) fn put_literals(
    literals: &mut Vec<LiteralRecord>,
    text: &mut Text,
    survey: &Survey,
    steps: &[ConditionStep],
) -> Result<(), AllocError> {
    for step in steps {
        let placed = literal_of(survey, step.source)?;
        let record = match &placed {
            Some(placed) => literal_record(text, step.before, placed)?,
            None => unknown_record(step.before),
        };
        literals.push(record)?;
    }
    Ok(())
}
