//! Mutexes that are acquired and not released on some way.

use crate::graph::{Graph, Way, Ways};
use crate::reach::{Reached, lines_after};
use crate::visits::Visits;
use acpi_check_machine::{Body, CheckId, Finding, Line, Machine, constant, put_finding};
use acpi_name::Name;
use acpi_text::put_name;
use acpi_tree::{Op, Operand, Term};
use acpi_trimmed::put_trimmed_path;
use std::alloc::{AllocError, Global};
use text_buffer::Text;

// ---- what lines do with mutexes

// What a line does with a mutex.
#[derive(Debug, Clone, Copy, PartialEq, Eq, PartialOrd, Ord)]
enum Change {
    // Acquires it where control takes the way of this value.
    Acquire(Option<bool>),
    // Releases it.
    Release,
}

// A line that acquires or releases a mutex, by the words that tell of the mutex.
#[derive(PartialEq, Eq, PartialOrd, Ord, Drop)]
struct MutexLine {
    mutex: Vec<u8>,
    line: usize,
    change: Change,
}

impl MutexLine {
    fn is_release(&self) -> bool {
        self.change == Change::Release
    }
}

// What is found in a predicate, where that is compared with a number: with 0 it is negated.
fn compared_with(found: Option<(&Term, bool)>, number: u64) -> Option<(&Term, bool)> {
    let (mutex, value) = found?;
    Some((mutex, value != (number == 0)))
}

// Where a predicate acquires a mutex: its term, and the value of the predicate that says so. Acquire is true where its time
// is out (ACPI 6.5, 19.6.2).
#[cycle(acquired)]
fn acquired(predicate: &Term) -> Option<(&Term, bool)> {
    let Term::Op(op, operands) = predicate else {
        return None;
    };
    match (op, operands.as_slice()) {
        (Op::Acquire, [Operand::Term(mutex), ..]) => Some((mutex, false)),
        (Op::LNot, [Operand::Term(inner)]) => compared_with(acquired(inner), 0),
        (Op::LEqual, [Operand::Term(first), Operand::Term(second)]) => {
            match (constant(second), constant(first)) {
                (Some(number), _) => compared_with(acquired(first), number),
                (None, Some(number)) => compared_with(acquired(second), number),
                (None, None) => None,
            }
        }
        _ => None,
    }
}

// The term of a mutex that a line acquires or releases.
fn change_of(statement: &Term) -> Option<(&Term, Change)> {
    let found = match statement {
        Term::Op(Op::Release, operands) => match operands.as_slice() {
            [Operand::Term(mutex), ..] => return Some((mutex, Change::Release)),
            _ => return None,
        },
        Term::Op(Op::Acquire, operands) => match operands.as_slice() {
            [Operand::Term(mutex), ..] => return Some((mutex, Change::Acquire(None))),
            _ => return None,
        },
        Term::If(predicate, _, _) => acquired(predicate),
        Term::While(predicate, _) => acquired(predicate),
        _ => None,
    };
    found.map(|(mutex, value)| (mutex, Change::Acquire(Some(value))))
}

// What is said of a mutex: the last path at which it may be found, or its name.
fn mutex_words(alloc: Global, line: &Line<'_>, name: &Name) -> Result<Vec<u8>, AllocError> {
    let mut text = Text::new(alloc);
    match line.name(name).and_then(|n| n.paths.last()) {
        Some(path) => put_trimmed_path(&mut text, path),
        None => put_name(&mut text, name.view()),
    }
    text.into_bytes()
}

// The lines of a body that acquire or release a mutex, by the mutexes.
fn mutex_lines(alloc: Global, body: &Body<'_>) -> Result<Vec<MutexLine>, AllocError> {
    let mut lines = Vec::new(alloc);
    for line in &body.lines {
        if let Some((Term::Ref(name), change)) = change_of(line.statement) {
            lines.push(MutexLine {
                mutex: mutex_words(alloc, line, name)?,
                line: line.number,
                change,
            })?;
        }
    }
    lines.sort()?;
    Ok(lines)
}

// ---- where a mutex is held

// Where one mutex may be held.
#[derive(Drop)]
struct Holding {
    reached: Reached,
    at_end: bool,
    returns: Vec<usize>,
}

impl Holding {
    // Control takes a way with the mutex held.
    fn take(&mut self, way: Option<Way>) -> Result<(), AllocError> {
        match way {
            Some(way) => {
                self.at_end = self.at_end || way.to.is_none();
                self.reached.take(way)
            }
            None => Ok(()),
        }
    }

    // Control goes on from a line that acquires the mutex.
    fn acquire(&mut self, ways: Ways, change: Change) -> Result<(), AllocError> {
        let Change::Acquire(value) = change else {
            return Ok(());
        };
        self.take(ways.first.filter(|w| w.value == value))?;
        self.take(ways.second.filter(|w| w.value == value))
    }

    // Goes on from a line to which control comes with the mutex held.
    fn pass(&mut self, line: usize, statement: &Term, ways: Ways) -> Result<(), AllocError> {
        match statement {
            Term::Op(Op::Return, _) => {
                self.returns.push(line)?;
                Ok(())
            }
            Term::Op(Op::Fatal, _) => Ok(()),
            _ => {
                self.take(ways.first)?;
                self.take(ways.second)
            }
        }
    }
}

// A body in which mutexes are acquired.
#[derive(Drop)]
struct Locking<'b, 'a> {
    alloc: Global,
    body: &'b Body<'a>,
    graph: Graph,
    live: Reached,
}

impl<'b, 'a> Locking<'b, 'a> {
    fn statement(&self, line: usize) -> Option<&'a Term> {
        let line = self.body.lines.get(line.checked_sub(1)?)?;
        Some(line.statement)
    }

    // Where a mutex may be held, which these lines acquire or release.
    fn holding(&self, mutex: &[MutexLine]) -> Result<Holding, AllocError> {
        let mut holding = Holding {
            reached: Reached::new(self.alloc, &self.graph)?,
            at_end: false,
            returns: Vec::new(self.alloc),
        };
        for line in mutex {
            if self.live.contains(line.line) {
                holding.acquire(self.graph.ways(line.line), line.change)?;
            }
        }
        for _ in 0..self.graph.len() {
            let Some(line) = holding.reached.next() else {
                return Ok(holding);
            };
            let place = mutex.binary_search_by_key(&line, |m| m.line);
            let is_released = place.is_ok_and(|p| mutex.get(p).is_some_and(|m| m.is_release()));
            if let (false, Some(statement)) = (is_released, self.statement(line)) {
                holding.pass(line, statement, self.graph.ways(line))?;
            }
        }
        Ok(holding)
    }

    fn put_finding(
        &self,
        found: &mut Vec<Finding>,
        line: Option<usize>,
        mutex: &[u8],
    ) -> Result<(), AllocError> {
        let mut text = Text::new(self.alloc);
        text.put(if line.is_some() {
            "returns with "
        } else {
            "ends with "
        });
        text.put_all(mutex);
        text.put(" acquired (who waits for it waits on)");
        put_finding(found, CheckId::Held, &self.body.object, line, text)
    }

    // Puts a finding where a mutex is held when control leaves the body, which these lines acquire or release.
    fn check_mutex(&self, mutex: &[MutexLine], found: &mut Vec<Finding>) -> Result<(), AllocError> {
        let Some(first) = mutex.first() else {
            return Ok(());
        };
        let holding = self.holding(mutex)?;
        for line in &holding.returns {
            self.put_finding(found, Some(*line), &first.mutex)?;
        }
        if holding.at_end && mutex.iter().any(|m| m.is_release()) {
            self.put_finding(found, None, &first.mutex)?;
        }
        Ok(())
    }
}

// Puts what is said of the mutexes of a body that these lines acquire or release.
fn held_in(
    alloc: Global,
    body: &Body<'_>,
    lines: &[MutexLine],
    visits: &mut Visits,
    found: &mut Vec<Finding>,
) -> Result<(), AllocError> {
    let graph = Graph::new(alloc, body.terms)?;
    let locking = Locking {
        alloc,
        body,
        live: lines_after(alloc, &graph, &[0])?,
        graph,
    };
    for mutex in lines.chunk_by(|a, b| a.mutex == b.mutex) {
        if visits.take(locking.graph.len()) {
            locking.check_mutex(mutex, found)?;
        }
    }
    Ok(())
}

/// Where control leaves a body with a mutex acquired (ACPI 6.5, 19.6.2 and 19.6.117): by a Return, or at its end where the
/// body releases it.
pub(crate) fn held(machine: &Machine<'_>, found: &mut Vec<Finding>) -> Result<(), AllocError> {
    let mut visits = Visits::new();
    for body in &machine.bodies {
        let lines = mutex_lines(machine.alloc, body)?;
        if lines.iter().any(|l| !l.is_release()) {
            held_in(machine.alloc, body, &lines, &mut visits, found)?;
        }
    }
    Ok(())
}
