//! What a load keeps of what its tables note.

ghost use Rattle.std.specs.Prelude.{◌≡◌, ◌++◌, map, OnOk};
ghost use Rattle.std.specs.List.{filter};
ghost use Rattle.acpi_space.specs.Lookups.{is_same_path};
ghost use Rattle.acpi_pass.specs.Kept.{kept_of};
ghost use Rattle.acpi_pass.specs.Notes.{notes_of};

use crate::notes::{Method, TableNotes};
use acpi_name::Path;
use std::alloc::AllocError;

/// What a load keeps of what its tables note. Where tables are many and small, their notes take as much memory as their
/// objects.
#[derive(Clone, Copy)]
pub enum Keep<'a> {
    /// All of it.
    All,
    /// What the body of the method at a path needs: of each table that declares one there, its notes without its other
    /// methods.
    MethodAt(&'a Path),
    /// Nothing.
    Nothing,
}

// Keeps those of the methods that stand at the path.
fn retain_at(methods: &mut Vec<Method>, path: &Path)
    ensures { methods.new.items ≡ filter (λ m. is_same_path m.path path.now) methods.old.items }
{
    methods.retain(|method| method.path == *path);
}

/// Puts what is kept of a table's notes behind those of the tables before it.
pub fn put_kept(
    kept: &mut Vec<TableNotes>,
    notes: TableNotes,
    keep: Keep<'_>,
) -> Result<(), AllocError>
    ensures { OnOk result (map notes_of kept.new.items ≡ map notes_of kept.old.items
        ++ kept_of keep.entry (notes_of notes)) }
{
    match keep {
        Keep::All => {
            kept.push(notes)?;
        }
        Keep::MethodAt(path) => {
            let mut notes = notes;
            retain_at(&mut notes.methods, path);
            if !notes.methods.is_empty() {
                kept.push(notes)?;
            }
        }
        Keep::Nothing => {}
    }
    Ok(())
}
