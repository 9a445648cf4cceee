//! Constants that objects give.

use crate::templates::template_of;
use acpi_check_machine::{Body, FoundObject, Machine, constant};
use acpi_facts::{StoreTargets, facts_of};
use acpi_kinds::ObjectKind;
use acpi_name::Name;
use acpi_overview::{CodeTemplate, Facts, Object, Value};
use acpi_tree::{Decl, Op, Operand, Term};
use std::alloc::AllocError;

/// What the objects of a machine give without running code.
#[derive(Drop)]
pub struct Constants<'m, 'a> {
    machine: &'m Machine<'a>,
    store_targets: StoreTargets,
}

// Whether a term is a constant: a package may hold names.
#[cycle(terms)]
fn is_constant(term: &Term) -> bool {
    match term {
        Term::Int(_) => constant(term).is_some(),
        Term::Str(_) => true,
        Term::Buffer(size, _) => constant(size).is_some(),
        Term::Package(_, elements) => are_constant(elements),
        _ => false,
    }
}

#[cycle(terms)]
fn are_constant(elements: &[Term]) -> bool {
    for element in elements {
        let is_name = matches!(element, Term::Ref(_));
        if !is_name && !is_constant(element) {
            return false;
        }
    }
    true
}

// The value that a Return returns.
fn returned(term: &Term) -> Option<&Term> {
    match term {
        Term::Op(Op::Return, operands) => match operands.as_slice() {
            [Operand::Term(value)] => Some(value),
            _ => None,
        },
        _ => None,
    }
}

// The name and the constant of a declaration.
fn declared_constant(term: &Term) -> Option<(&Name, &Term)> {
    match term {
        Term::Declare(decl) => match &**decl {
            Decl::Name(name, value) if is_constant(value) => Some((name, value)),
            _ => None,
        },
        _ => None,
    }
}

// The constant that a name has by the declarations before.
fn constant_named<'t>(declarations: &'t [Term], name: &Name) -> Option<&'t Term> {
    for term in declarations.iter().rev() {
        if let Some((declared, value)) = declared_constant(term) {
            if declared == name {
                return Some(value);
            }
        }
    }
    None
}

impl<'m, 'a> Constants<'m, 'a> {
    /// Those of a machine.
    pub fn new(machine: &'m Machine<'a>) -> Result<Constants<'m, 'a>, AllocError> {
        Ok(Constants {
            machine,
            store_targets: StoreTargets::new(machine.alloc, machine.survey, &machine.objects)?,
        })
    }

    // The constant that a name on the last line of a body stands for, where it is declared once and never stored to.
    fn constant_found(&self, body: &Body<'a>, name: &Name) -> Option<&'a Term> {
        let line = body.lines.last()?;
        let found = self.machine.found_by(body, line.number, line.name(name)?)?;
        let FoundObject::Entry(object) = found else {
            return None;
        };
        let segment = object.path.segs().last()?;
        match object.kind {
            ObjectKind::Name(Some(term)) if is_constant(term) => {
                if self.store_targets.may_store(*segment) {
                    None
                } else {
                    Some(term)
                }
            }
            _ => None,
        }
    }

    // The constant that a body returns which does nothing else than declare constants.
    fn constant_returned(&self, body: &Body<'a>) -> Option<&'a Term> {
        let [declarations @ .., last] = body.terms else {
            return None;
        };
        if !declarations.iter().all(|t| declared_constant(t).is_some()) {
            return None;
        }
        let value = returned(last)?;
        match value {
            Term::Call(name, arguments) if arguments.is_empty() => {
                match constant_named(declarations, name) {
                    Some(term) => Some(term),
                    None => self.constant_found(body, name),
                }
            }
            _ => {
                if is_constant(value) {
                    Some(value)
                } else {
                    None
                }
            }
        }
    }

    /// The constant that an object gives: the data of a name, or what a method returns without doing anything.
    pub fn value(&self, object: &Object<'a>) -> Option<&'a Term> {
        match object.kind {
            ObjectKind::Name(Some(term)) => { if is_constant(term) { Some(term) } else { None } }
            ObjectKind::Method(_) => self.constant_returned(self.machine.body(object.number)?),
            _ => None,
        }
    }

    // By the place of an object, what is known of its value.
    fn values(&self) -> Result<Vec<Value<'a>>, AllocError> {
        let mut values = Vec::new(self.machine.alloc);
        for object in &self.machine.objects {
            let value = match self.value(object) {
                Some(term) => Value::of_term(term),
                None => Value::of_object(object.kind, object.code),
            };
            values.push(value)?;
        }
        Ok(values)
    }

    // The templates that methods return and write before.
    fn templates(&self) -> Result<Vec<CodeTemplate<'a>>, AllocError> {
        let machine = self.machine;
        let mut templates = Vec::new(machine.alloc);
        for place in 0..machine.objects.len() {
            if let Some(template) = template_of(machine, &self.store_targets, place)? {
                templates.push(template)?;
            }
        }
        Ok(templates)
    }

    /// The facts of the machine's survey, with these constants.
    pub fn facts(&self) -> Result<Facts<'a>, AllocError> {
        let machine = self.machine;
        facts_of(
            machine.alloc,
            machine.survey,
            &self.store_targets,
            self.values()?,
            self.templates()?,
        )
    }
}
