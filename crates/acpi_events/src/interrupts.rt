//! Notifications by the interrupts of an event device (ACPI 6.5, 5.6.9).

use crate::notifications::{Notification, notification_on, notify_of};
use acpi_check_machine::{Body, Machine, constant};
use acpi_overview::Object;
use acpi_tree::{Op, Operand, Term};
use std::alloc::AllocError;

/// Whom an event device notifies at an interrupt.
#[derive(Debug, Drop)]
pub struct InterruptNotifications<'m, 'a> {
    /// The interrupt.
    pub interrupt: u64,
    /// The notifications.
    pub notifications: Vec<Notification<'m, 'a>>,
}

// The number that Arg0 has, where a test asks for one.
fn interrupt_asked(test: &Term) -> Option<u64> {
    let Term::Op(Op::LEqual, operands) = test else {
        return None;
    };
    match operands.as_slice() {
        [Operand::Term(Term::Arg(0)), Operand::Term(value)] => constant(value),
        [Operand::Term(value), Operand::Term(Term::Arg(0))] => constant(value),
        _ => None,
    }
}

// The interrupt and the statements behind an If that asks for it, where each of them is a Notify.
fn asked_and_notified(term: &Term) -> Option<(u64, usize)> {
    match term {
        Term::If(test, statements, None) => {
            let interrupt = interrupt_asked(test)?;
            if statements.iter().all(|s| notify_of(s).is_some()) {
                Some((interrupt, statements.len()))
            } else {
                None
            }
        }
        _ => None,
    }
}

// The notifications on so many lines of a body, behind the first.
fn on_lines<'m, 'a>(
    machine: &Machine<'a>,
    body: &'m Body<'a>,
    first: usize,
    count: usize,
) -> Result<Vec<Notification<'m, 'a>>, AllocError> {
    let mut found = Vec::new(machine.alloc);
    for line in body.lines.iter().skip(first).take(count) {
        if let Some(notification) = notification_on(machine, line, &[])? {
            found.push(notification)?;
        }
    }
    Ok(found)
}

/// Whom a method notifies at each interrupt, where it does nothing but ask which one there is, and notify; None of any other.
pub fn interrupt_notifications<'m, 'a>(
    machine: &'m Machine<'a>,
    method: &Object<'a>,
) -> Result<Option<Vec<InterruptNotifications<'m, 'a>>>, AllocError> {
    let Some(body) = machine.body(method.number) else {
        return Ok(None);
    };
    let mut found = Vec::new(machine.alloc);
    let mut line = 0usize;
    for term in body.terms {
        let Some((interrupt, count)) = asked_and_notified(term) else {
            return Ok(None);
        };
        let notifications = on_lines(machine, body, line.saturating_add(1), count)?;
        line = line.saturating_add(1).saturating_add(count);
        found.push(InterruptNotifications {
            interrupt,
            notifications,
        })?;
    }
    if found.is_empty() {
        return Ok(None);
    }
    Ok(Some(found))
}
