//! The packages that a method may return.

use crate::routings::RouteTable;
use acpi_check_machine::{Body, Line, Machine, package_of};
use acpi_kinds::ObjectKind;
use acpi_overview::Object;
use acpi_tree::{Op, Operand, Term};
use std::alloc::AllocError;

/// How many methods are followed into one another at the most.
const DEPTH: usize = 3;

/// The value that a Return returns.
pub(crate) fn returned(term: &Term) -> Option<&Term> {
    match term {
        Term::Op(Op::Return, operands) => match operands.as_slice() {
            [Operand::Term(value)] => Some(value),
            _ => None,
        },
        _ => None,
    }
}

// Puts a package, unless one of that name was put.
fn put_table<'a>(
    tables: &mut Vec<RouteTable<'a>>,
    table: RouteTable<'a>,
) -> Result<(), AllocError> {
    let is_known = table.name.is_some() && tables.iter().any(|t| t.name == table.name);
    if !is_known {
        tables.push(table)?;
    }
    Ok(())
}

// A method whose packages are still to be put, and how many methods may be followed from it.
#[derive(Debug, Clone, Copy)]
struct OpenMethod<'a> {
    method: Object<'a>,
    depth: usize,
}

// Puts the package that a returned name means; a method of that name is left open.
fn put_named<'a>(
    machine: &Machine<'a>,
    (body, line): (&Body<'a>, &Line<'a>),
    value: &'a Term,
    open: &mut Vec<OpenMethod<'a>>,
    depth: usize,
    tables: &mut Vec<RouteTable<'a>>,
) -> Result<(), AllocError> {
    let Term::Call(name, _) = value else {
        return Ok(());
    };
    let Some(used) = line.name(name) else {
        return Ok(());
    };
    let Some(found) = machine.found_by(body, line.number, used) else {
        return Ok(());
    };
    match found.kind() {
        ObjectKind::Name(Some(Term::Package(_, entries))) => put_table(
            tables,
            RouteTable {
                name: Some(name),
                entries,
            },
        ),
        ObjectKind::Method(_) if depth > 0 => {
            if let [object] = machine.at(found.path()) {
                open.push(OpenMethod {
                    method: *object,
                    depth: depth - 1,
                })?;
            }
            Ok(())
        }
        _ => Ok(()),
    }
}

// Puts the packages that a method may return; the methods whose values it returns are left open.
fn put_returned<'a>(
    machine: &Machine<'a>,
    from: OpenMethod<'a>,
    open: &mut Vec<OpenMethod<'a>>,
    tables: &mut Vec<RouteTable<'a>>,
) -> Result<(), AllocError> {
    let Some(body) = machine.body(from.method.number) else {
        return Ok(());
    };
    for line in &body.lines {
        let Some(value) = returned(line.statement) else {
            continue;
        };
        match package_of(value) {
            Some(entries) => put_table(
                tables,
                RouteTable {
                    name: None,
                    entries,
                },
            )?,
            None => put_named(machine, (body, line), value, open, from.depth, tables)?,
        }
    }
    Ok(())
}

/// The packages that a method may return, and those of the methods whose values it returns, each name once.
pub(crate) fn tables_returned<'a>(
    machine: &Machine<'a>,
    method: &Object<'a>,
) -> Result<Vec<RouteTable<'a>>, AllocError> {
    let mut tables = Vec::new(machine.alloc);
    let mut open = Vec::new(machine.alloc);
    open.push(OpenMethod {
        method: *method,
        depth: DEPTH,
    })?;
    for _ in 0..u64::MAX {
        let Some(next) = open.pop() else {
            break;
        };
        put_returned(machine, next, &mut open, &mut tables)?;
    }
    Ok(tables)
}
