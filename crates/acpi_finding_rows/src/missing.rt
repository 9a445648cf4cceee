//! Names in methods that nothing declares (ACPI 6.5, 5.3).

use acpi_check_machine::Machine;
use acpi_name::Path;
use acpi_name_checks::names_nowhere;
use acpi_phrases::{NO_BREAK, put_joined, put_last_two, put_names};
use acpi_text::put_decimal;
use acpi_trimmed::{put_trimmed_name, put_trimmed_path};
use std::alloc::AllocError;
use std::collections::{BTreeMap, BTreeSet};
use text_buffer::Text;

/// Why that matters.
const EFFECT: &str = " (Linux aborts the method there: AE_NOT_FOUND): ";

/// A name that nothing declares.
#[derive(Debug, Drop)]
pub(crate) struct MissingName<'a> {
    /// The name.
    name: Vec<u8>,
    /// The methods that use it, and the first line of each that does.
    uses: Vec<(&'a Path, usize)>,
}

/// The names in methods that nothing declares: those that most methods use first, then by name.
pub(crate) fn missing_names<'a>(machine: &Machine<'a>) -> Result<Vec<MissingName<'a>>, AllocError> {
    let mut by_name: BTreeMap<Vec<u8>, usize> = BTreeMap::new(machine.alloc);
    let mut missing: Vec<MissingName<'a>> = Vec::new(machine.alloc);
    for body in &machine.bodies {
        for lost in &names_nowhere(machine.survey, body.object.number, body.terms, &body.names)? {
            let mut name = Text::new(machine.alloc);
            put_trimmed_name(&mut name, lost.name.view());
            let name = name.into_bytes()?;
            let number = match by_name.get(name.as_slice()) {
                Some(number) => *number,
                None => {
                    let number = missing.len();
                    by_name.insert(Vec::from_slice(machine.alloc, &name)?, number)?;
                    missing.push(MissingName {
                        name,
                        uses: Vec::new(machine.alloc),
                    })?;
                    number
                }
            };
            if let Some(found) = missing.get_mut(number) {
                found.uses.push((body.object.path, lost.line))?;
            }
        }
    }
    missing.sort_by(|one, other| {
        other
            .uses
            .len()
            .cmp(&one.uses.len())
            .then(one.name.cmp(&other.name))
    })?;
    Ok(missing)
}

/// Puts a name that nothing declares, and all methods that use it.
pub(crate) fn put_missing(text: &mut Text, missing: &MissingName<'_>) {
    text.put("no table given here declares ");
    text.put_all(&missing.name);
    text.put(EFFECT);
    let mut separator = "";
    for (method, line) in &missing.uses {
        text.put(separator);
        separator = ", ";
        put_trimmed_path(text, *method);
        put_joined(text, b" line ");
        put_decimal(text, *line as u64);
    }
}

// How many methods use one of some names.
fn methods_of(missing: &[MissingName<'_>], text: &Text) -> Result<usize, AllocError> {
    let mut methods: BTreeSet<&Path> = BTreeSet::new(text.alloc());
    for name in missing {
        for (method, _) in &name.uses {
            methods.insert(*method)?;
        }
    }
    Ok(methods.len())
}

// Puts where a name is used: the method, or how many.
fn use_text(missing: &MissingName<'_>, text: &mut Text) {
    match missing.uses.as_slice() {
        [(method, _)] => put_last_two(text, *method),
        uses => {
            put_joined(text, b"in ");
            put_decimal(text, uses.len() as u64)
        }
    }
}

/// The most names that are told of those that as many methods use.
const MOST: usize = 8;

/// Puts the names that nothing declares, by how many methods use them.
pub(crate) fn put_missing_folded(
    text: &mut Text,
    missing: &[MissingName<'_>],
) -> Result<(), AllocError> {
    match methods_of(missing, text)? {
        1 => text.put("a method uses"),
        count => {
            put_decimal(text, count as u64);
            text.put(" methods use")
        }
    }
    text.put(" names that no table given here declares");
    text.put(EFFECT);
    let mut groups: Vec<(Vec<u8>, Vec<Vec<u8>>)> = Vec::new(text.alloc());
    for name in missing {
        let mut place = Text::new(text.alloc());
        use_text(name, &mut place);
        let place = place.into_bytes()?;
        let copy = Vec::from_slice(text.alloc(), &name.name)?;
        match groups.last_mut() {
            Some(group) if group.0 == place => group.1.push(copy)?,
            _ => {
                let mut names = Vec::new(text.alloc());
                names.push(copy)?;
                groups.push((place, names))?;
            }
        }
    }
    let mut separator = "";
    for (place, names) in &groups {
        text.put(separator);
        separator = ", ";
        put_names(text, names, Some(MOST))?;
        text.put_one(NO_BREAK);
        text.put("(");
        text.put_all(place);
        if names.len() > 1 && place.starts_with(b"in") {
            put_joined(text, b" each");
        }
        text.put(")");
    }
    Ok(())
}
