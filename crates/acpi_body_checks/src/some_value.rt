//! Methods whose value is read, and that control can leave without a Return.

use acpi_check_machine::{Body, CheckId, Finding, Machine, put_finding};
use acpi_reserved::gives_value;
use acpi_text::put_decimal;
use acpi_tree::{Op, Term};
use acpi_uses::exits_of;
use std::alloc::{AllocError, Global};
use text_buffer::Text;

// What is said behind what asks for the value.
const WAY_OUT: &str = ", and control can come to its end without a Return";

// How often a number is among numbers in their order.
fn count_of(numbers: &[usize], number: usize) -> usize {
    let from = numbers.partition_point(|n| *n < number);
    let to = numbers.partition_point(|n| *n <= number);
    to.saturating_sub(from)
}

fn returns(body: &Body<'_>) -> bool {
    body.lines
        .iter()
        .any(|l| matches!(l.statement, Term::Op(Op::Return, _)))
}

// Whether the name of a method is one that must give a value.
fn must_give(body: &Body<'_>) -> bool {
    match body.object.path.segs().last() {
        Some(segment) => gives_value(segment.bytes()),
        None => false,
    }
}

// What asks for the value of a method, if something does.
fn asking(alloc: Global, body: &Body<'_>, read: &[usize]) -> Option<Text> {
    let mut text = Text::new(alloc);
    if must_give(body) {
        text.put("must give a value");
        return Some(text);
    }
    let count = count_of(read, body.object.number);
    if count == 0 || !returns(body) {
        return None;
    }
    put_decimal(&mut text, count as u64);
    text.put(if count == 1 {
        " term reads its value"
    } else {
        " terms read its value"
    });
    Some(text)
}

/// Methods that have a Return and whose value is read, or whose names must give a value, where control can come to the end of
/// the body (ACPI 6.5, 19.6.121). The methods whose values calls read are given by the numbers of their entries, one for each
/// call.
pub(crate) fn some_value(
    machine: &Machine<'_>,
    reads: &[usize],
    found: &mut Vec<Finding>,
) -> Result<(), AllocError> {
    let mut read = Vec::from_slice(machine.alloc, reads)?;
    read.sort()?;
    for body in &machine.bodies {
        if exits_of(body.terms).end {
            if let Some(mut text) = asking(machine.alloc, body, &read) {
                text.put(WAY_OUT);
                put_finding(found, CheckId::SomeValue, &body.object, None, text)?;
            }
        }
    }
    Ok(())
}
