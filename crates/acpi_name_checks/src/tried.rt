//! The paths at which the search of a name looks.

ghost use Rattle.std.specs.Prelude.{◌≡◌, IfOk};
ghost use Rattle.acpi_name.specs.NameRefs.{name_parts};
ghost use Rattle.acpi_space.specs.Search.{tries};
ghost use Rattle.acpi_name_checks.specs.steps.Below.{below};

use acpi_name::{NameRef, Path, PlaceFault, Seg, place};
use std::alloc::{AllocError, Global};

// The paths of a segment below a scope and below each of its parents, the innermost first.
fn below_scopes(alloc: Global, scope: &Path, seg: Seg) -> Result<Vec<Path>, AllocError>
    ensures { IfOk result (λ v. v.items ≡ below scope.now seg) }
{
    let mut paths = Vec::new(alloc);
    let mut path = scope.copy()?;
    loop {
        let mut tried = path.copy()?;
        tried.push(seg)?;
        paths.push(tried)?;
        let outer = path.pop();
        if outer.is_none() {
            return Ok(paths);
        }
    }
}

/// The paths at which the search of a name from a scope looks, the innermost first (ACPI 6.5, 5.3).
pub(crate) fn tried_paths(
    alloc: Global,
    scope: &Path,
    name: NameRef<'_>,
) -> Result<Vec<Path>, AllocError>
    ensures { IfOk result (λ v. v.items ≡ tries scope.now (name_parts name.entry)) }
{
    if let Some(seg) = name.plain() {
        return below_scopes(alloc, scope, seg);
    }
    let mut paths = Vec::new(alloc);
    match place(alloc, scope, name) {
        Ok(path) => {
            paths.push(path)?;
            Ok(paths)
        }
        Err(PlaceFault::AboveRoot) => Ok(paths),
        Err(PlaceFault::Memory) => Err(AllocError),
    }
}
