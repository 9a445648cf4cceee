//! Lists of paths, in path order.

ghost use Rattle.std.specs.Prelude.{◌≡◌, IfOk, filter, not};
ghost use Rattle.std.specs.FinMap as finite;
ghost use Rattle.acpi_space.specs.Spaces.{is_defined};

use acpi_name::Path;
use acpi_space::{MapSpace, Space};
use std::alloc::{AllocError, Global};

/// The paths of a map, in their order.
pub(crate) fn paths_of<V, S: Space<V>>(alloc: Global, space: &S) -> Result<Vec<Path>, AllocError>
    ensures { IfOk result (λ v. v.items ≡ finite.keys (S.contents space.now)) }
{
    let mut list = Vec::new(alloc);
    for (path, _) in space.pairs()? {
        list.push(path)?;
    }
    Ok(list)
}

/// Keeps those of the paths that aren't known.
pub(crate) fn keep_new(paths: &mut Vec<Path>, known: &MapSpace<()>)
    ensures { paths.new.items ≡ filter (λ p. not (is_defined known.now p)) paths.old.items }
{
    paths.retain(|path| known.get(path).is_none());
}
