//! Objects that stand in another scope.

use crate::paths::put_names;
use crate::text::DiffOptions;
use acpi_moves::{MachineMatch, ObjectMove};
use acpi_name::{Path, Seg};
use acpi_overview_text::put_path_around;
use std::alloc::AllocError;
use std::collections::BTreeMap;
use text_buffer::Text;

/// Objects that moved from one scope to another.
#[derive(Drop)]
struct Scopes<'a> {
    first: ObjectMove<'a>,
    names: Vec<Seg>,
}

fn around(path: &Path) -> Result<Path, AllocError> {
    let mut around = path.copy()?;
    around.pop();
    Ok(around)
}

/// Puts the section of objects that moved, a line for each pair of scopes.
pub(crate) fn put_moved(
    text: &mut Text,
    matched: &MachineMatch<'_>,
    options: DiffOptions,
) -> Result<(), AllocError> {
    if matched.objects.is_empty() {
        return Ok(());
    }
    let alloc = text.alloc();
    let mut by_scopes: BTreeMap<(Path, Path), Scopes<'_>> = BTreeMap::new(alloc);
    for moved in &matched.objects {
        let Some(name) = moved.new.segs().last() else {
            continue;
        };
        let key = (around(moved.old)?, around(moved.new)?);
        if let Some(scopes) = by_scopes.get_mut(&key) {
            scopes.names.push(*name)?;
            continue;
        }
        let mut names = Vec::new(alloc);
        names.push(*name)?;
        by_scopes.insert(
            key,
            Scopes {
                first: *moved,
                names,
            },
        )?;
    }
    text.put("\nMOVED\n");
    for (_, scopes) in by_scopes.iter() {
        text.put("  ");
        put_names(text, &scopes.names, options);
        text.put(": ");
        put_path_around(text, scopes.first.old);
        text.put(" -> ");
        put_path_around(text, scopes.first.new);
        text.put("\n");
    }
    Ok(())
}
