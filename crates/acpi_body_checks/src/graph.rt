//! How control goes from line to line of a body.

use crate::lines_behind::lines_behind;
use acpi_tree::{Op, Term};
use acpi_uses::truth_of;
use std::alloc::{AllocError, Global};

/// A way that control takes from a line.
#[derive(Debug, Clone, Copy)]
pub(crate) struct Way {
    /// The line that it leads to; none where it leads out of the body.
    pub(crate) to: Option<usize>,
    /// The value of the line's predicate with which control takes it; none where the line has no predicate.
    pub(crate) value: Option<bool>,
}

/// The ways from a line: one at most, or one for each value of its predicate.
#[derive(Debug, Clone, Copy)]
pub(crate) struct Ways {
    pub(crate) first: Option<Way>,
    pub(crate) second: Option<Way>,
}

// Of a line whose ways aren't known yet.
const NONE: Ways = Ways {
    first: None,
    second: None,
};

// Where control goes from the statements of a list: none where it leaves the body.
#[derive(Clone, Copy)]
struct Around {
    behind: Option<usize>,
    on_break: Option<usize>,
    on_continue: Option<usize>,
}

impl Around {
    // Where a statement that is no If and no While leads to.
    fn target(self, statement: &Term) -> Option<usize> {
        match statement {
            Term::Op(op, _) => match op {
                Op::Return => None,
                Op::Fatal => None,
                Op::Break => self.on_break,
                Op::Continue => self.on_continue,
                _ => self.behind,
            },
            _ => self.behind,
        }
    }
}

fn way_on(to: Option<usize>) -> Ways {
    Ways {
        first: Some(Way { to, value: None }),
        second: None,
    }
}

// The ways by a predicate; a constant chooses one.
fn ways_by(predicate: &Term, taken: Option<usize>, skipped: Option<usize>) -> Ways {
    let taken = Way {
        to: taken,
        value: Some(true),
    };
    let skipped = Way {
        to: skipped,
        value: Some(false),
    };
    let value = truth_of(predicate);
    Ways {
        first: if value != Some(false) {
            Some(taken)
        } else {
            None
        },
        second: if value != Some(true) {
            Some(skipped)
        } else {
            None
        },
    }
}

// The ways from the lines that are put so far, and for each line of the body the line behind all that stands in it.
#[derive(Drop)]
struct GraphWalk<'l> {
    ways: Vec<Ways>,
    behind: &'l [usize],
}

impl<'l> GraphWalk<'l> {
    // Where control comes to a list whose first line is the next.
    fn first_of(&self, terms: &[Term], behind: Option<usize>) -> Option<usize> {
        if terms.is_empty() {
            behind
        } else {
            Some(self.ways.len())
        }
    }

    fn set(&mut self, line: usize, ways: Ways) {
        if let Some(place) = self.ways.get_mut(line) {
            *place = ways;
        }
    }

    // The line behind the statement that is put next.
    fn line_behind(&self) -> Option<usize> {
        self.behind.get(self.ways.len()).copied()
    }

    #[cycle(graph)]
    fn put_list(&mut self, terms: &[Term], around: Around) -> Result<(), AllocError> {
        'each: for i in 0..terms.len() {
            let is_last = i + 1 == terms.len();
            let behind = if is_last {
                around.behind
            } else {
                self.line_behind()
            };
            self.put(&terms[i], Around { behind, ..around })?;
        }
        Ok(())
    }

    #[cycle(graph)]
    fn put(&mut self, term: &Term, around: Around) -> Result<(), AllocError> {
        let line = self.ways.len();
        match term {
            Term::If(predicate, then, None) => {
                self.ways.push(NONE)?;
                let taken = self.first_of(then, around.behind);
                self.put_list(then, around)?;
                self.set(line, ways_by(predicate, taken, around.behind));
            }
            Term::If(predicate, then, Some(other)) => {
                self.ways.push(NONE)?;
                let taken = self.first_of(then, around.behind);
                self.put_list(then, around)?;
                let skipped = self.first_of(other, around.behind);
                self.put_list(other, around)?;
                self.set(line, ways_by(predicate, taken, skipped));
            }
            Term::While(predicate, body) => {
                self.ways.push(NONE)?;
                let taken = self.first_of(body, Some(line));
                let inside = Around {
                    behind: Some(line),
                    on_break: around.behind,
                    on_continue: Some(line),
                };
                self.put_list(body, inside)?;
                self.set(line, ways_by(predicate, taken, around.behind));
            }
            _ => {
                self.ways.push(way_on(around.target(term)))?;
            }
        }
        Ok(())
    }
}

/// How control goes from line to line of a body: where statements, and predicates that are constants, say so. Line 0 is its beginning.
#[derive(Debug, Drop)]
pub(crate) struct Graph {
    ways: Vec<Ways>,
}

impl Graph {
    /// That of a body.
    pub(crate) fn new(alloc: Global, body: &[Term]) -> Result<Graph, AllocError> {
        let behind = lines_behind(alloc, body)?;
        let mut ways = Vec::new(alloc);
        let first = if body.is_empty() { None } else { Some(1) };
        ways.push(way_on(first))?;
        let mut walk = GraphWalk {
            ways,
            behind: &behind,
        };
        let around = Around {
            behind: None,
            on_break: None,
            on_continue: None,
        };
        walk.put_list(body, around)?;
        Ok(Graph { ways: walk.ways })
    }

    /// The number of lines, with line 0.
    pub(crate) fn len(&self) -> usize {
        self.ways.len()
    }

    /// The ways from a line.
    pub(crate) fn ways(&self, line: usize) -> Ways {
        self.ways.get(line).copied().unwrap_or(NONE)
    }
}
