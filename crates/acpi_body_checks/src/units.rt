//! Field units that names in bodies mean.

use acpi_check_machine::{Body, LineName, Machine};
use acpi_kinds::ObjectKind;
use acpi_name::Path;

fn is_unit(kind: ObjectKind<'_>) -> bool {
    matches!(kind, ObjectKind::Field { .. })
}

// Whether lines before that one declare field units alone at a path, and one at least.
fn are_local_units(body: &Body<'_>, line: usize, path: &Path) -> bool {
    let mut declares = false;
    for local in &body.locals {
        if local.line < line && local.path == *path {
            if !is_unit(local.object) {
                return false;
            }
            declares = true;
        }
    }
    declares
}

/// Whether a name on a line of a body means a field unit, whatever it finds.
pub(crate) fn means_unit(
    machine: &Machine<'_>,
    body: &Body<'_>,
    line: usize,
    name: &LineName<'_>,
) -> bool {
    let Some((last, others)) = name.paths.split_last() else {
        return false;
    };
    let is_last = if name.is_local {
        are_local_units(body, line, last)
    } else {
        machine.at(last).iter().all(|o| is_unit(o.kind))
    };
    is_last
        && others
            .iter()
            .all(|p| machine.at(p).iter().all(|o| is_unit(o.kind)))
}
