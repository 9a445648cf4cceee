//! What stands at module level.

use acpi_name::Path;
use acpi_outline::{Fixed, Node, Plain};
use acpi_ranges::{PlaceIndex, Span, SpanContent, Spans};
use acpi_survey::{Survey, place_in};
use acpi_tree::Term;
use std::alloc::AllocError;

/// What stands at a place at module level, nodes inside others too (ACPI 6.5, 20.2.5).
#[derive(Debug, Clone, Copy)]
pub struct ModuleTerm<'a> {
    /// The table's number times 2^64, and the number of bytes of the table's code before it.
    pub place: u128,
    /// The path that it declares, or else that of the scope around; none for the root.
    pub path: Option<&'a Path>,
    /// What it is.
    pub what: SpanContent<'a>,
}

// Whether what stands at a place may declare something there.
fn declares(what: SpanContent<'_>) -> bool {
    match what {
        SpanContent::Node(Node::Plain(Plain::Term(term))) => matches!(term, Term::Declare(_)),
        SpanContent::Node(Node::Holds(fixed, _)) => {
            !matches!(fixed, Fixed::If(_) | Fixed::Else | Fixed::While(_))
        }
        SpanContent::Node(Node::Fields(_, _, _)) => false,
        SpanContent::Lost(_) => false,
        _ => true,
    }
}

// The path of what stands there, in a scope.
fn path_of<'a>(
    index: &PlaceIndex<'a>,
    table: usize,
    span: &Span<'_>,
    around: Option<&'a Path>,
) -> Option<&'a Path> {
    if declares(span.what) {
        index.path_at(table, span.from).or(around)
    } else {
        around
    }
}

/// What stands at module level in a table, by place.
pub fn module_terms<'a>(
    survey: &'a Survey,
    index: &PlaceIndex<'a>,
    table: usize,
) -> Result<Vec<ModuleTerm<'a>>, AllocError> {
    let mut terms = Vec::new(survey.memory());
    let Some(read) = survey.tables.get(table) else {
        return Ok(terms);
    };
    let mut spans = Spans::new(survey.memory(), &read.nodes, read.code().len())?;
    while let Some(scoped) = spans.next_in(index, table)? {
        terms.push(ModuleTerm {
            place: place_in(table, scoped.span.from),
            path: path_of(index, table, &scoped.span, scoped.around),
            what: scoped.span.what,
        })?;
    }
    Ok(terms)
}

/// The path of what stands at a place, among what stands in its table, by place; none for the root.
pub fn module_path<'a>(terms: &[ModuleTerm<'a>], place: u128) -> Option<&'a Path> {
    let number = terms.partition_point(|t| t.place < place);
    match terms.get(number) {
        Some(term) if term.place == place => term.path,
        _ => None,
    }
}
