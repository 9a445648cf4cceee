//! What a name means in a scope.
ghost use Rattle.std.specs.Prelude.{◌≡◌, ◌↔◌, IfOk, Err, None, ◌++◌, [], ◌∷◌, map, find};
ghost use Rattle.acpi_name.specs.NameRefs.{name_parts};
ghost use Rattle.acpi_name.specs.Paths.{place_of};
ghost use Rattle.acpi_space.specs.Spaces.{is_defined};
ghost use Rattle.acpi_space.specs.Search.{answer, beginnings};
ghost use Rattle.acpi_space.specs.FoundPath.{found_path, search_fault};
ghost use Rattle.acpi_space.specs.declared.lookup.SearchFault.TheVariants.{Memory};

use crate::space::Space;
use acpi_name::{NameRef, Path, PlaceFault, Seg, place};
use std::alloc::{AllocError, AllocFailed, Global};
use thiserror::Error;

/// What a search answers.
#[derive(Debug, Drop)]
pub enum Found {
    /// The name means this path, which is defined.
    At(Path),
    /// None of the paths that the name may mean is defined.
    Missing,
}

/// Why a search was refused.
#[derive(Debug, Clone, Copy, PartialEq, Eq, Error)]
pub enum SearchFault {
    /// The name goes up more parents than the scope has.
    #[error("A1 AboveRoot")]
    AboveRoot,
    /// Memory was refused.
    #[error("A2 Memory")]
    Memory,
}

impl From<AllocError> for SearchFault {
    ghost from_gives = { λ _ f. f ≡ Memory };

    fn from(_e: AllocError) -> SearchFault {
        SearchFault::Memory
    }
}

impl<T: Drop> From<AllocFailed<T>> for SearchFault {
    ghost from_gives = { λ _ f. f ≡ Memory };

    fn from(_e: AllocFailed<T>) -> SearchFault {
        SearchFault::Memory
    }
}

impl From<PlaceFault> for SearchFault {
    ghost from_gives = { λ e f. f ≡ search_fault e };

    fn from(e: PlaceFault) -> SearchFault {
        match e {
            PlaceFault::AboveRoot => SearchFault::AboveRoot,
            PlaceFault::Memory => SearchFault::Memory,
        }
    }
}

/// The path that a name means in a scope (ACPI 6.5, 5.3): a plain name is looked for in the scope and
/// then in each of its parents, any other at its place alone.
pub fn search<V, S: Space<V>>(
    alloc: Global,
    space: &S,
    scope: &Path,
    name: NameRef<'_>,
) -> Result<Found, SearchFault>
    ensures answer { IfOk result (λ f. found_path f
        ≡ answer (is_defined (S.contents space.now)) scope.now (name_parts name.entry)) }
    ensures above { (result ≡ Err SearchFault.AboveRoot)
        ↔ (place_of scope.now (name_parts name.entry) ≡ None) }
{
    if let Some(seg) = name.plain() {
        return Ok(search_plain(alloc, space, scope, seg)?);
    }
    let path = place(alloc, scope, name)?;
    Ok(if space.get(&path).is_some() {
        Found::At(path)
    } else {
        Found::Missing
    })
}

// A plain name is looked for in the scope and in each of its parents.
fn search_plain<V, S: Space<V>>(
    alloc: Global,
    space: &S,
    scope: &Path,
    seg: Seg,
) -> Result<Found, AllocError>
    ensures { IfOk result (λ f. found_path f ≡ find (is_defined (S.contents space.now))
        (map (λ q. q ++ seg ∷ []) (beginnings scope.now))) }
{
    match space.nearest(scope, seg)? {
        None => Ok(Found::Missing),
        Some(depth) => {
            let mut path = scope.beginning(alloc, depth)?;
            path.push(seg)?;
            Ok(Found::At(path))
        }
    }
}
