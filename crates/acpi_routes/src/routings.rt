//! The routings of a machine.

use crate::returned::{returned, tables_returned};
use acpi_check_machine::{Machine, package_of};
use acpi_kinds::ObjectKind;
use acpi_name::Name;
use acpi_overview::{Object, last_segment};
use acpi_tree::Term;
use std::alloc::AllocError;

/// A package of a `_PRT`.
#[derive(Debug, Clone, Copy)]
pub struct RouteTable<'a> {
    /// Its name, where it has one.
    pub name: Option<&'a Name>,
    /// Its entries.
    pub entries: &'a [Term],
}

/// What chooses between the packages of a `_PRT`.
#[derive(Debug, Clone, Copy)]
pub enum RoutingForm<'a> {
    /// Nothing: it is a constant.
    Constant,
    /// A test: the first package where it holds, else the second.
    Either(&'a Term),
    /// Code that does nothing but return the value of a term.
    Returned(&'a Term),
    /// Code, by the number of its bytes.
    Code(usize),
}

/// The `_PRT` of a device.
#[derive(Debug, Drop)]
pub struct Routing<'a> {
    /// The object `_PRT`.
    pub object: Object<'a>,
    /// What chooses between its packages.
    pub form: RoutingForm<'a>,
    /// The packages.
    pub tables: Vec<RouteTable<'a>>,
}

// What chooses between so many packages that a method of these terms returns.
fn form_of<'a>(terms: &'a [Term], tables: usize, code: usize) -> RoutingForm<'a> {
    match terms {
        [Term::If(test, _, _)] if tables == 2 => RoutingForm::Either(test),
        [term] => match returned(term) {
            Some(value) if package_of(value).is_some() => RoutingForm::Constant,
            Some(value) => RoutingForm::Returned(value),
            None => RoutingForm::Code(code),
        },
        _ => RoutingForm::Code(code),
    }
}

// The routing of an object, if its data or its body is read.
fn routing_of<'a>(
    machine: &Machine<'a>,
    object: &Object<'a>,
) -> Result<Option<Routing<'a>>, AllocError> {
    let mut tables = Vec::new(machine.alloc);
    if let ObjectKind::Name(Some(term)) = object.kind {
        if let Some(entries) = package_of(term) {
            tables.push(RouteTable {
                name: None,
                entries,
            })?;
        }
        return Ok(Some(Routing {
            object: *object,
            form: RoutingForm::Constant,
            tables,
        }));
    }
    let Some(body) = machine.body(object.number) else {
        return Ok(None);
    };
    tables = tables_returned(machine, object)?;
    Ok(Some(Routing {
        object: *object,
        form: form_of(body.terms, tables.len(), object.code),
        tables,
    }))
}

/// The `_PRT` of each device, by its path: the first object there.
pub fn routings_of<'a>(machine: &Machine<'a>) -> Result<Vec<Routing<'a>>, AllocError> {
    let mut routings: Vec<Routing<'a>> = Vec::new(machine.alloc);
    for object in &machine.objects {
        if last_segment(object.path) != *b"_PRT" || object.site.is_none() {
            continue;
        }
        let is_known = routings
            .last()
            .is_some_and(|r| *r.object.path == *object.path);
        if is_known {
            continue;
        }
        if let Some(routing) = routing_of(machine, object)? {
            routings.push(routing)?;
        }
    }
    Ok(routings)
}
