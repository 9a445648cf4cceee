//! The search of a name where one path alone is defined (ACPI 6.5, 5.3).

ghost use Rattle.std.specs.Prelude.{◌≡◌, ◌↔◌, cond, IfOk, IsTrue, None, Some};
ghost use Rattle.acpi_name.specs.NameRefs.{name_parts};
ghost use Rattle.acpi_name.specs.Paths.{place_of};
ghost use Rattle.acpi_space.specs.Laws.{IsBelow};
ghost use Rattle.acpi_space.specs.Lookups.{is_same_path};
ghost use Rattle.acpi_space.specs.Search.{answer};
ghost use Rattle.acpi_counts.specs.steps.Longer.{longer_path};

use acpi_name::{NameRef, Path, PlaceFault, Seg, place};
use acpi_space::laws::search_is_longest;
use std::alloc::{AllocError, Global};

// Whether the path has the segment below a beginning of the scope.
fn is_below(path: &Path, scope: &Path, seg: Seg) -> bool
    ensures { IsTrue result ↔ IsBelow scope.now seg path.now }
{
    match path.segs().split_last() {
        Some((last, above)) => *last == seg && scope.segs().starts_with(above),
        None => false,
    }
}

// Whether the path is the place of the name in the scope.
fn is_place(alloc: Global, path: &Path, scope: &Path, name: NameRef<'_>) -> Result<bool, AllocError>
    ensures { IfOk result (λ b. IsTrue b ↔ (place_of scope.now (name_parts name.entry)
        ≡ Some path.now)) }
{
    match place(alloc, scope, name) {
        Ok(found) => Ok(found == *path),
        Err(PlaceFault::AboveRoot) => Ok(false),
        Err(PlaceFault::Memory) => Err(AllocError),
    }
}

// Whether a search of the name from the scope tries the path.
fn is_tried(alloc: Global, path: &Path, scope: &Path, name: NameRef<'_>) -> Result<bool, AllocError>
    ensures { IfOk result (λ b. answer (λ q. is_same_path q path.now) scope.now
        (name_parts name.entry) ≡ cond b (Some path.now) None) }
{
    search_is_longest();
    match name.plain() {
        Some(seg) => Ok(is_below(path, scope, seg)),
        None => is_place(alloc, path, scope, name),
    }
}

/// The path, where a search of the name from the scope tries it.
pub(crate) fn find_only(
    alloc: Global,
    path: &Path,
    scope: &Path,
    name: NameRef<'_>,
) -> Result<Option<Path>, AllocError>
    ensures { IfOk result (λ p. p ≡ answer (λ q. is_same_path q path.now) scope.now
        (name_parts name.entry)) }
{
    if is_tried(alloc, path, scope, name)? {
        Ok(Some(path.copy()?))
    } else {
        Ok(None)
    }
}

/// The longer of two paths, where both are there; of paths of one length the first.
pub(crate) fn longer(first: Option<Path>, second: Option<Path>) -> Option<Path>
    ensures { result ≡ longer_path first second }
{
    match (first, second) {
        (Some(first), Some(second)) => Some(if first.len() < second.len() {
            second
        } else {
            first
        }),
        (Some(first), None) => Some(first),
        (None, second) => second,
    }
}
