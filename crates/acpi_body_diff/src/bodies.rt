//! The bodies of methods as lines.

use acpi_check_machine::{Body, Line};
use acpi_infix::put_infix;
use acpi_name::Path;
use acpi_tree::Term;
use acpi_versions::{Names, Side, TermPlace};
use std::alloc::AllocError;
use text_buffer::Text;

/// A line of a body.
#[derive(Debug, Drop)]
pub struct BodyLine {
    /// As it is compared.
    pub exact: Vec<u8>,
    /// As it is printed.
    pub shown: Vec<u8>,
}

/// Statements that are still to be put, and how many Ifs and Whiles are around.
#[derive(Debug, Clone, Copy)]
enum Statements<'t> {
    /// One behind another.
    List(&'t [Term], usize),
    /// Those of an Else.
    Else(&'t [Term], usize),
}

/// The lines of a body while they are made.
#[derive(Drop)]
struct Writing<'m, 'a> {
    side: Side<'m, 'a>,
    body: &'m Body<'a>,
    // The method, and the container around it: their paths in the new version.
    method: &'m Path,
    around: &'m Path,
    // How many statements were come to.
    number: usize,
    lines: Vec<BodyLine>,
}

fn put_indent(text: &mut Text, depth: usize) {
    for _ in 0..depth {
        text.put("  ");
    }
}

impl<'m, 'a> Writing<'m, 'a> {
    // Puts a line: a word, and a term of a statement.
    fn put_line(
        &mut self,
        line: &'m Line<'a>,
        word: &str,
        term: &Term,
        depth: usize,
    ) -> Result<(), AllocError> {
        let mut names = Names {
            side: self.side,
            place: TermPlace::Line(line, self.method),
            around: None,
        };
        let alloc = self.side.machine.alloc;
        let mut exact = Text::new(alloc);
        put_indent(&mut exact, depth);
        exact.put(word);
        put_infix(&mut exact, &names, term)?;
        names.around = Some(self.around);
        let mut shown = Text::new(alloc);
        put_indent(&mut shown, depth);
        shown.put(word);
        put_infix(&mut shown, &names, term)?;
        self.lines.push(BodyLine {
            exact: exact.into_bytes()?,
            shown: shown.into_bytes()?,
        })?;
        Ok(())
    }

    fn put_else(&mut self, depth: usize) -> Result<(), AllocError> {
        let alloc = self.side.machine.alloc;
        let mut text = Text::new(alloc);
        put_indent(&mut text, depth);
        text.put("Else");
        let exact = text.into_bytes()?;
        let shown = exact.clone()?;
        self.lines.push(BodyLine { exact, shown })?;
        Ok(())
    }

    // Puts the first line of the next statement.
    fn put_statement(&mut self, word: &str, term: &Term, depth: usize) -> Result<(), AllocError> {
        let line = self.body.lines.get(self.number);
        self.number = self.number.saturating_add(1);
        match line {
            Some(line) => self.put_line(line, word, term, depth),
            None => Ok(()),
        }
    }

    // Puts the first of statements; what stands in it and behind it is left open.
    fn put_first<'t>(
        &mut self,
        open: &mut Vec<Statements<'t>>,
        terms: &'t [Term],
        depth: usize,
    ) -> Result<(), AllocError> {
        let [term, rest @ ..] = terms else {
            return Ok(());
        };
        self.put_statement("", term, depth)?;
        open.push(Statements::List(rest, depth))?;
        match term {
            Term::If(_, then, other) => put_branches(open, then, other, depth),
            Term::While(_, inner) => {
                open.push(Statements::List(inner, depth.saturating_add(1)))?;
                Ok(())
            }
            _ => Ok(()),
        }
    }

    // Puts an Else, or the head of the If that is all that stands in it; what stands in it is left open.
    fn put_other<'t>(
        &mut self,
        open: &mut Vec<Statements<'t>>,
        terms: &'t [Term],
        depth: usize,
    ) -> Result<(), AllocError> {
        if let [term] = terms {
            if let Term::If(_, then, other) = term {
                self.put_statement("Else", term, depth)?;
                return put_branches(open, then, other, depth);
            }
        }
        self.put_else(depth)?;
        open.push(Statements::List(terms, depth.saturating_add(1)))?;
        Ok(())
    }

    // Puts all statements.
    fn put_all<'t>(&mut self, terms: &'t [Term]) -> Result<(), AllocError> {
        let mut open = Vec::new(self.side.machine.alloc);
        open.push(Statements::List(terms, 0))?;
        for _ in 0..u64::MAX {
            match open.pop() {
                Some(Statements::List(terms, depth)) => self.put_first(&mut open, terms, depth)?,
                Some(Statements::Else(terms, depth)) => self.put_other(&mut open, terms, depth)?,
                None => break,
            }
        }
        Ok(())
    }
}

// Leaves the branches of an If open, the first one first.
fn put_branches<'t>(
    open: &mut Vec<Statements<'t>>,
    then: &'t [Term],
    other: &'t Option<Vec<Term>>,
    depth: usize,
) -> Result<(), AllocError> {
    if let Some(terms) = other {
        open.push(Statements::Else(terms, depth))?;
    }
    open.push(Statements::List(then, depth.saturating_add(1)))?;
    Ok(())
}

/// The lines of the body of a method, which stands with the container around at paths of the new version: an If or a While before what stands in it,
/// with two blanks for each that is around.
pub fn lines_of_body<'m, 'a>(
    side: Side<'m, 'a>,
    body: &'m Body<'a>,
    method: &'m Path,
    around: &'m Path,
) -> Result<Vec<BodyLine>, AllocError> {
    let mut writing = Writing {
        side,
        body,
        method,
        around,
        number: 0,
        lines: Vec::new(side.machine.alloc),
    };
    writing.put_all(body.terms)?;
    Ok(writing.lines)
}
