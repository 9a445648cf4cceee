//! The sleep states that a machine has (ACPI 6.5, 7.4.2).

use acpi_check_machine::{Machine, child_of};
use acpi_kinds::ObjectKind;
use acpi_name::Path;
use acpi_overview::Object;
use acpi_tree::Term;
use std::alloc::AllocError;

/// A sleep state: `\_S0` to `\_S5`.
#[derive(Debug, Clone, Copy)]
pub struct SleepState<'a> {
    /// Its number.
    pub number: u8,
    /// The object, which may have a condition.
    pub object: Object<'a>,
    /// The elements of its package: the first two go into SLP_TYP of the registers PM1a and PM1b.
    pub types: &'a [Term],
}

/// The objects of the sleep states, from S0 on.
pub fn sleep_states<'a>(machine: &Machine<'a>) -> Result<Vec<SleepState<'a>>, AllocError> {
    let root = Path::root(machine.alloc);
    let mut states = Vec::new(machine.alloc);
    for number in 0..6u8 {
        let path = child_of(&root, [b'_', b'S', b'0' + number, b'_'])?;
        for object in machine.at(&path) {
            let types: &[Term] = match object.kind {
                ObjectKind::Name(Some(Term::Package(_, elements))) => elements,
                _ => &[],
            };
            states.push(SleepState {
                number,
                object: *object,
                types,
            })?;
        }
    }
    Ok(states)
}
