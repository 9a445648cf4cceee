//! The lines behind statements.

use acpi_tree::Term;
use std::alloc::{AllocError, Global};

// Puts, for each statement of a list and in it, the line behind all that stands in it.
#[cycle(lines_behind)]
fn put_lines_behind(behind: &mut Vec<usize>, terms: &[Term]) -> Result<(), AllocError> {
    'each: for term in terms {
        put_line_behind(behind, term)?;
    }
    Ok(())
}

#[cycle(lines_behind)]
fn put_line_behind(behind: &mut Vec<usize>, term: &Term) -> Result<(), AllocError> {
    let line = behind.len();
    behind.push(0)?;
    match term {
        Term::If(_, then, None) => put_lines_behind(behind, then)?,
        Term::If(_, then, Some(other)) => {
            put_lines_behind(behind, then)?;
            put_lines_behind(behind, other)?;
        }
        Term::While(_, body) => put_lines_behind(behind, body)?,
        _ => {}
    }
    let next = behind.len();
    if let Some(place) = behind.get_mut(line) {
        *place = next;
    }
    Ok(())
}

/// For each line of a body the line behind all that stands in it. Line 0, the beginning, is its own.
pub(crate) fn lines_behind(alloc: Global, body: &[Term]) -> Result<Vec<usize>, AllocError> {
    let mut behind = Vec::new(alloc);
    behind.push(0)?;
    put_lines_behind(&mut behind, body)?;
    Ok(behind)
}
