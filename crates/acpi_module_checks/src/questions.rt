//! What terms at module level ask the operating system.

use acpi_body_checks::questions_in;
use acpi_check_machine::{
    CheckId, Finding, LineName, Machine, ModuleTerm, module_terms, put_finding_at,
};
use acpi_conditions::copy_paths;
use acpi_facts::plain_site;
use acpi_module_uses::{ModuleName, names_of_table};
use acpi_name::Path;
use acpi_outline::{Fixed, Node, Plain};
use acpi_ranges::{PlaceIndex, SpanContent, index_of, site_of};
use acpi_tree::Term;
use std::alloc::{AllocError, Global};
use text_buffer::Text;

// The term that a node is or whose value decides it, and whether it is such a predicate.
fn asked(what: SpanContent<'_>) -> Option<(&Term, bool)> {
    match what {
        SpanContent::Node(Node::Plain(Plain::Term(term))) => Some((term, false)),
        SpanContent::Node(Node::Holds(Fixed::If(predicate), _)) => Some((predicate, true)),
        SpanContent::Node(Node::Holds(Fixed::While(predicate), _)) => Some((predicate, true)),
        _ => None,
    }
}

// Puts what is said of a question in a term.
fn put_question(
    machine: &Machine<'_>,
    term: &ModuleTerm<'_>,
    text: Text,
    found: &mut Vec<Finding>,
) -> Result<(), AllocError> {
    let site = plain_site(site_of(term.place));
    match term.path {
        Some(path) => put_finding_at(found, CheckId::System, path, site, None, text),
        None => {
            let root = Path::root(machine.alloc);
            put_finding_at(found, CheckId::System, &root, site, None, text)
        }
    }
}

// Names in a node as those on a line: those that may be found in the root alone, as what asks the operating system is.
fn names_in_root<'a>(
    alloc: Global,
    names: &[ModuleName<'a>],
) -> Result<Vec<LineName<'a>>, AllocError> {
    let mut found = Vec::new(alloc);
    for name in names {
        if let [path] = name.link.paths.as_slice() {
            if path.len() == 1 {
                found.push(LineName {
                    name: name.link.name,
                    role: name.role.resolve(name.is_method),
                    paths: copy_paths(alloc, &name.link.paths)?,
                    is_certain: name.link.is_certain,
                    is_local: false,
                })?;
            }
        }
    }
    Ok(found)
}

// The names in the node at a place, among those of its table, by place.
fn names_at<'n, 'a>(names: &'n [ModuleName<'a>], place: u128) -> &'n [ModuleName<'a>] {
    let from = names.partition_point(|n| n.place < place);
    let to = names.partition_point(|n| n.place <= place).max(from);
    &names[from..to]
}

fn in_table<'a>(
    machine: &Machine<'a>,
    index: &PlaceIndex<'a>,
    table: usize,
    found: &mut Vec<Finding>,
) -> Result<(), AllocError> {
    let names = names_of_table(machine.survey, index, &machine.callables, table)?;
    for module in &module_terms(machine.survey, index, table)? {
        if let Some((term, is_predicate)) = asked(module.what) {
            let names = names_in_root(machine.alloc, names_at(&names, module.place))?;
            for text in questions_in(machine.alloc, term, is_predicate, &names)? {
                put_question(machine, module, text, found)?;
            }
        }
    }
    Ok(())
}

/// Strings that `_OSI` is asked for and that no system knows, and tests of `_REV` (ACPI 6.5, 5.7.2 and 5.7.4).
pub(crate) fn questions(machine: &Machine<'_>, found: &mut Vec<Finding>) -> Result<(), AllocError> {
    let index = index_of(machine.survey)?;
    for table in 0..machine.survey.tables.len() {
        in_table(machine, &index, table, found)?;
    }
    Ok(())
}
