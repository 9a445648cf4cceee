//! Faults of interrupt routing tables (ACPI 6.5, 6.2.13).

use crate::routes::check_routes;
use acpi_check_machine::{Body, CheckId, Finding, Line, Machine, put_finding};
use acpi_kinds::ObjectKind;
use acpi_overview::{Object, last_segment};
use acpi_tree::{Op, Operand, Term};
use std::alloc::AllocError;
use std::collections::BTreeSet;
use text_buffer::Text;

/// A routing table: a package, and what declares it.
#[derive(Debug, Clone, Copy)]
pub(crate) struct Routes<'a> {
    /// The package.
    pub package: &'a Term,
    /// The Name that has it, or the method that returns it.
    pub object: Object<'a>,
    /// The line of its Return in the method.
    pub line: Option<usize>,
}

// The package of a Name.
fn of_name<'a>(object: &Object<'a>) -> Option<Routes<'a>> {
    match object.kind {
        ObjectKind::Name(Some(package)) => Some(Routes {
            package,
            object: *object,
            line: None,
        }),
        _ => None,
    }
}

// What a line of a method returns: a package, or one of a Name entry.
fn of_line<'a>(machine: &Machine<'a>, body: &Body<'a>, line: &Line<'a>) -> Option<Routes<'a>> {
    let Term::Op(Op::Return, operands) = line.statement else {
        return None;
    };
    match operands.first()? {
        Operand::Term(package @ Term::Package(_, _)) => Some(Routes {
            package,
            object: body.object,
            line: Some(line.number),
        }),
        Operand::Term(Term::Call(name, values)) if values.is_empty() => {
            let name = line.name(name)?;
            of_name(machine.only(&name.paths, name.is_certain)?)
        }
        _ => None,
    }
}

// The routing tables that an object gives.
fn routes_of<'a>(
    machine: &Machine<'a>,
    object: &Object<'a>,
) -> Result<Vec<Routes<'a>>, AllocError> {
    let mut routes = Vec::new(machine.alloc);
    if let Some(table) = of_name(object) {
        routes.push(table)?;
    }
    if let Some(body) = machine.body(object.number) {
        for line in &body.lines {
            if let Some(table) = of_line(machine, body, line) {
                routes.push(table)?;
            }
        }
    }
    Ok(routes)
}

/// Faults of each package that a `_PRT` without a condition is, or that a Return of it gives, also by the name of a
/// Name entry.
pub(crate) fn routing(machine: &Machine<'_>, found: &mut Vec<Finding>) -> Result<(), AllocError> {
    let mut seen: BTreeSet<(usize, usize)> = BTreeSet::new(machine.alloc);
    for object in &machine.objects {
        if object.is_conditional || last_segment(object.path) != *b"_PRT" {
            continue;
        }
        for routes in &routes_of(machine, object)? {
            if seen.insert((routes.object.number, routes.line.unwrap_or(0)))? {
                check_routes(machine, routes, found)?;
            }
        }
    }
    Ok(())
}

impl<'a> Routes<'a> {
    /// Puts what is said of it behind what was found.
    pub(crate) fn put_finding(
        &self,
        found: &mut Vec<Finding>,
        text: Text,
    ) -> Result<(), AllocError> {
        put_finding(found, CheckId::Routing, &self.object, self.line, text)
    }
}
