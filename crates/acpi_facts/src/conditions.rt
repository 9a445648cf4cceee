//! Conditions that objects don't share with what is around them.

use acpi_conditions::{Entry, Turn};
use acpi_name::Path;
use acpi_overview::{Object, is_container, objects_at};
use acpi_survey::Survey;
use std::alloc::AllocError;

// Whether turns end with the one into the term at a place, and begin with the others.
fn is_inside(turns: &[Turn], around: &[Turn], place: u128) -> bool {
    match turns.split_last() {
        Some((last, before)) => *last == Turn::Within(place) && before == around,
        None => false,
    }
}

// The entry of the first container at the path above a path.
fn entry_around<'a>(
    survey: &'a Survey,
    objects: &[Object<'_>],
    path: &Path,
) -> Result<Option<&'a Entry>, AllocError> {
    let mut above = path.copy()?;
    above.pop();
    let around = objects_at(objects, &above)
        .iter()
        .find(|o| is_container(o.kind));
    match around {
        Some(object) => Ok(survey.entry(object.number)),
        None => Ok(None),
    }
}

/// Whether an entry has a condition that the container in which it stands doesn't have: its term asks something, or
/// control comes to it by another way than to what stands around. Objects of paths before its own are given.
pub(crate) fn has_own_condition(
    survey: &Survey,
    objects: &[Object<'_>],
    entry: &Entry,
) -> Result<bool, AllocError> {
    let ways = survey.entries().ways;
    if !entry.asks.is_empty() {
        return Ok(true);
    }
    if ways.is_empty(entry.way) {
        return Ok(false);
    }
    let Some(around) = entry_around(survey, objects, &entry.path)? else {
        return Ok(true);
    };
    if entry.way == around.way {
        return Ok(false);
    }
    let turns = ways.turns(entry.way)?;
    let turns_around = ways.turns(around.way)?;
    Ok(!is_inside(&turns, &turns_around, around.term.place))
}
