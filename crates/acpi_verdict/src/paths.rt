//! Sets of paths.

ghost use Rattle.std.specs.Prelude.{◌≡◌, OnOk};
ghost use Rattle.acpi_space.specs.Laws.{Among};
ghost use Rattle.acpi_body.specs.Arguments.{with_path};
ghost use Rattle.acpi_body.specs.steps.Gathering.{Grows};

use acpi_name::Path;
use acpi_space::{MapSpace, Refused, Space};
use std::alloc::AllocError;

/// Adds the path, if it isn't there.
pub(crate) fn add_path(paths: &mut MapSpace<()>, path: Path) -> Result<(), AllocError>
    ensures { OnOk result (paths.new ≡ with_path paths.old path) }
{
    match paths.insert(path, ()) {
        Ok(()) => Ok(()),
        Err(Refused::Taken(())) => Ok(()),
        Err(Refused::Memory(())) => Err(AllocError),
    }
}

/// Adds those of the paths that aren't there.
pub fn add_paths(paths: &mut MapSpace<()>, more: Vec<Path>) -> Result<(), AllocError>
    ensures { OnOk result (Grows paths.old paths.new (Among more.items)) }
{
    for path in more {
        add_path(paths, path)?;
    }
    Ok(())
}
