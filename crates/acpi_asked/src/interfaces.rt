//! Strings that methods ask of `_OSI`.

use acpi_check_machine::{Machine, terms_on_line};
use acpi_name::{Name, Path};
use acpi_tree::Term;
use std::alloc::AllocError;

/// A string of which methods ask whether the system knows it.
#[derive(Debug, Drop)]
pub struct Interface<'a> {
    /// The string.
    pub name: &'a [u8],
    /// The methods, by path.
    pub methods: Vec<&'a Path>,
}

fn is_osi(name: &Name) -> bool {
    let name = name.view();
    name.len() == 1 && name.parents() == 0 && name.seg(0).bytes() == *b"_OSI"
}

// The string that a term asks for.
fn asked(term: &Term) -> Option<&[u8]> {
    match term {
        Term::Call(name, arguments) if is_osi(name) => match arguments.first() {
            Some(Term::Str(text)) => Some(text.as_slice()),
            _ => None,
        },
        _ => None,
    }
}

// Puts that a method asks for a string.
fn put<'a>(
    machine: &Machine<'a>,
    found: &mut Vec<Interface<'a>>,
    name: &'a [u8],
    method: &'a Path,
) -> Result<(), AllocError> {
    for interface in found.iter_mut() {
        if interface.name == name {
            if interface.methods.last().copied() != Some(method) {
                interface.methods.push(method)?;
            }
            return Ok(());
        }
    }
    let mut methods = Vec::new(machine.alloc);
    methods.push(method)?;
    found.push(Interface { name, methods })?;
    Ok(())
}

/// The strings that methods ask of `_OSI`, in the order in which they ask for them first.
pub fn interfaces_of<'a>(machine: &Machine<'a>) -> Result<Vec<Interface<'a>>, AllocError> {
    let mut found = Vec::new(machine.alloc);
    for object in &machine.objects {
        let Some(body) = machine.body(object.number) else {
            continue;
        };
        for line in &body.lines {
            for term in terms_on_line(machine.alloc, line.statement)? {
                if let Some(name) = asked(term) {
                    put(machine, &mut found, name, body.object.path)?;
                }
            }
        }
    }
    Ok(found)
}
