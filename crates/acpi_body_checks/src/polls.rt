//! Loops that wait without a limit.

use crate::lines_behind::lines_behind;
use crate::units::means_unit;
use crate::visits::Visits;
use acpi_check_machine::{
    Body, CheckId, Finding, Line, LineName, Machine, put_finding, terms_on_line,
};
use acpi_name::{Name, Path};
use acpi_text::put_name;
use acpi_tree::{Op, Operand, Term};
use acpi_uses::{Role, exits_of, role_at};
use std::alloc::AllocError;
use std::collections::BTreeSet;
use text_buffer::Text;

// A While and the lines in it.
#[derive(Clone, Copy)]
struct Loop<'m, 'a> {
    machine: &'m Machine<'a>,
    body: &'m Body<'a>,
    line: &'m Line<'a>,
    inside: &'m [Line<'a>],
}

// What lines store to Locals.
#[derive(Clone, Copy)]
enum Stored<'a> {
    // Nothing.
    Nothing,
    // Terms of field units and constants; the first unit of the first.
    Units(&'a Name),
    // Something else.
    Others,
}

impl<'a> Stored<'a> {
    // With a term of field units and constants behind it, whose first unit is this.
    fn or(self, unit: &'a Name) -> Stored<'a> {
        match self {
            Stored::Nothing => Stored::Units(unit),
            stored => stored,
        }
    }
}

fn is_local(term: &Term, number: u8) -> bool {
    match term {
        Term::Local(local) => *local == number,
        _ => false,
    }
}

// Whether an operator stores to a Local.
fn stores_to(op: Op, operands: &[Operand], number: u8) -> bool {
    operands.iter().zip(op.operands().iter()).any(|(operand, kind)| match operand {
        Operand::Term(term) => role_at(op, *kind) == Role::Write && is_local(term, number),
        _ => false,
    })
}

fn has_call(line: &Line<'_>) -> bool {
    line.names.iter().any(|n| n.role == Role::Call)
}

// Whether a name may be found at one of the paths.
fn is_written<'m>(name: &'m LineName<'_>, written: &BTreeSet<&'m Path>) -> bool {
    for path in &name.paths {
        if written.contains(&path) {
            return true;
        }
    }
    false
}

impl<'m, 'a> Loop<'m, 'a> {
    fn means_unit(self, line: &Line<'a>, name: &Name) -> bool {
        match line.name(name) {
            Some(found) => means_unit(self.machine, self.body, line.number, found),
            None => false,
        }
    }

    // The first unit of a value that is stored, and whether it is of field units and constants alone.
    fn units_in(
        self,
        line: &Line<'a>,
        value: &'a Term,
    ) -> Result<(Option<&'a Name>, bool), AllocError> {
        let mut first = None;
        for term in &terms_on_line(self.machine.alloc, value)? {
            match term {
                Term::Local(_) | Term::Arg(_) | Term::Ref(_) => return Ok((None, false)),
                Term::Call(name, values) => {
                    if !values.is_empty() || !self.means_unit(line, name) {
                        return Ok((None, false));
                    }
                    first = first.or(Some(name));
                }
                _ => {}
            }
        }
        Ok((first, true))
    }

    // The first unit of what an operator stores, where it is made of field units and constants.
    fn unit_stored(
        self,
        line: &Line<'a>,
        op: Op,
        operands: &'a [Operand],
    ) -> Result<Option<&'a Name>, AllocError> {
        let mut first = None;
        for (operand, kind) in operands.iter().zip(op.operands().iter()) {
            if let (Operand::Term(value), false) = (operand, role_at(op, *kind) == Role::Write) {
                let (unit, is_of_units) = self.units_in(line, value)?;
                if !is_of_units {
                    return Ok(None);
                }
                first = first.or(unit);
            }
        }
        Ok(first)
    }

    // What the lines in it store to a Local.
    fn stored_to(self, number: u8) -> Result<Stored<'a>, AllocError> {
        let mut stored = Stored::Nothing;
        for line in self.inside {
            for term in &terms_on_line(self.machine.alloc, line.statement)? {
                match term {
                    Term::Op(op, operands) if stores_to(*op, operands, number) => {
                        match self.unit_stored(line, *op, operands)? {
                            Some(unit) => stored = stored.or(unit),
                            None => return Ok(Stored::Others),
                        }
                    }
                    _ => {}
                }
            }
        }
        Ok(stored)
    }

    // The paths that the lines in it store to.
    fn written(self) -> Result<BTreeSet<&'m Path>, AllocError> {
        let mut written = BTreeSet::new(self.machine.alloc);
        for line in self.inside {
            for name in line.names.iter().filter(|n| n.role == Role::Write) {
                for path in &name.paths {
                    written.insert(path)?;
                }
            }
        }
        Ok(written)
    }

    // Whether a name in its predicate means something that the lines in it store to.
    fn stores_what_it_reads(self) -> Result<bool, AllocError> {
        let written = self.written()?;
        let line = self.line;
        for name in &line.names {
            if is_written(name, &written) {
                return Ok(true);
            }
        }
        Ok(false)
    }

    // What the lines in it store to the Locals that its predicate reads.
    fn stored_to_locals(self) -> Result<Stored<'a>, AllocError> {
        let terms = terms_on_line(self.machine.alloc, self.line.statement)?;
        let mut stored = Stored::Nothing;
        for number in 0..8u8 {
            if terms.iter().any(|t| is_local(t, number)) {
                match self.stored_to(number)? {
                    Stored::Nothing => {}
                    Stored::Units(unit) => stored = stored.or(unit),
                    Stored::Others => return Ok(Stored::Others),
                }
            }
        }
        Ok(stored)
    }

    // The first field unit that its predicate reads.
    fn unit_read(self) -> Option<&'a Name> {
        let read = self.line.names.iter().find(|n| means_unit(
            self.machine,
            self.body,
            self.line.number,
            n,
        ))?;
        Some(read.name)
    }

    // The field unit for which it waits, where nothing else ends it.
    fn polled(self) -> Result<Option<&'a Name>, AllocError> {
        if has_call(self.line) || self.inside.iter().any(|l| has_call(l)) {
            return Ok(None);
        }
        if self.stores_what_it_reads()? {
            return Ok(None);
        }
        match self.stored_to_locals()? {
            Stored::Nothing => Ok(self.unit_read()),
            Stored::Units(unit) => Ok(self.unit_read().or(Some(unit))),
            Stored::Others => Ok(None),
        }
    }

    fn put_finding(self, name: &Name, found: &mut Vec<Finding>) -> Result<(), AllocError> {
        let mut text = Text::new(self.machine.alloc);
        text.put("waits for ");
        put_name(&mut text, name.view());
        text.put(" without a limit");
        let line = Some(self.line.number);
        put_finding(found, CheckId::Polls, &self.body.object, line, text)
    }
}

// The lines in the While of a line, by the lines behind those of its body.
fn lines_inside<'m, 'a>(body: &'m Body<'a>, line: usize, lines_behind: &[usize]) -> &'m [Line<'a>] {
    let lines = body.lines.as_slice();
    let behind = lines_behind.get(line).copied().unwrap_or(0);
    let from = line.min(lines.len());
    let to = behind.saturating_sub(1).min(lines.len()).max(from);
    &lines[from..to]
}

// Puts what is said of a line that is a While, if neither a Break nor a Return ends it.
fn check_loop<'a>(
    waiting: Loop<'_, 'a>,
    terms: &[Term],
    found: &mut Vec<Finding>,
) -> Result<(), AllocError> {
    let exits = exits_of(terms);
    if exits.by_break || exits.by_return {
        return Ok(());
    }
    match waiting.polled()? {
        Some(name) => waiting.put_finding(name, found),
        None => Ok(()),
    }
}

fn polls_in<'m, 'a>(
    machine: &'m Machine<'a>,
    body: &'m Body<'a>,
    visits: &mut Visits,
    found: &mut Vec<Finding>,
) -> Result<(), AllocError> {
    let lines_behind = lines_behind(machine.alloc, body.terms)?;
    for line in &body.lines {
        if let Term::While(_, terms) = line.statement {
            let inside = lines_inside(body, line.number, &lines_behind);
            let waiting = Loop {
                machine,
                body,
                line,
                inside,
            };
            if visits.take(inside.len()) {
                check_loop(waiting, terms, found)?;
            }
        }
    }
    Ok(())
}

/// Whiles that wait for field units, which nothing in them stores to, and that nothing else ends.
pub(crate) fn polls(machine: &Machine<'_>, found: &mut Vec<Finding>) -> Result<(), AllocError> {
    let mut visits = Visits::new();
    for body in &machine.bodies {
        if body
            .lines
            .iter()
            .any(|l| matches!(l.statement, Term::While(_, _)))
        {
            polls_in(machine, body, &mut visits, found)?;
        }
    }
    Ok(())
}
