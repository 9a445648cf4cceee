//! A segment below the beginnings of a scope.
ghost use Rattle.std.specs.Prelude.{◌≡◌, IfOk, ◌++◌, [], ◌∷◌, map, length, take, ◌≤◌, ◌+◌, ◌-◌};
ghost use Rattle.std.specs.List.{filter};
ghost use Rattle.acpi_space.specs.Spaces.{is_defined};
ghost use Rattle.acpi_space.specs.Search.{beginnings};
ghost use Rattle.acpi_space.specs.steps.Within.{IsInnermost};

use crate::space::Space;
use acpi_name::{Path, Seg};
use std::alloc::{AllocError, Global};

/// The segment below each beginning of the scope that has at least `outer` segments, the longest first.
pub(crate) fn paths_below(
    alloc: Global,
    scope: &Path,
    seg: Seg,
    outer: usize,
) -> Result<Vec<Path>, AllocError>
    requires { outer ≤ length scope.now + 1 }
    ensures { IfOk result (λ v. v.items ≡ map (λ q. q ++ seg ∷ [])
        (take (length scope.now + 1 - outer) (beginnings scope.now))) }
{
    let mut paths = Vec::new(alloc);
    let mut depth = scope.len() + 1;
    while outer < depth {
        depth -= 1;
        let mut path = scope.beginning(alloc, depth)?;
        path.push(seg)?;
        paths.push(path)?;
    }
    Ok(paths)
}

/// The segment below each beginning of the scope that has at least `outer` segments, the longest first: those of these
/// paths that the space `among` has. It walks from one of them to the next, and takes no memory where there is none.
pub(crate) fn paths_among<W, T: Space<W>>(
    alloc: Global,
    scope: &Path,
    seg: Seg,
    outer: usize,
    among: &T,
) -> Result<Vec<Path>, AllocError>
    ensures { IfOk result (λ v. v.items ≡ filter (is_defined (T.contents among.now))
        (map (λ q. q ++ seg ∷ []) (take (length scope.now + 1 - outer) (beginnings scope.now)))) }
{
    let mut paths = Vec::new(alloc);
    let Some(mut inner) = innermost(alloc, scope, seg, outer, among)? else {
        return Ok(paths);
    };
    loop {
        let mut path = inner.copy()?;
        path.push(seg)?;
        paths.push(path)?;
        if inner.pop().is_none() {
            return Ok(paths);
        }
        match innermost(alloc, &inner, seg, outer, among)? {
            Some(next) => inner = next,
            None => return Ok(paths),
        }
    }
}

// The longest beginning of the scope below which the segment is one of the paths, if that has at least `outer`
// segments.
fn innermost<W, T: Space<W>>(
    alloc: Global,
    scope: &Path,
    seg: Seg,
    outer: usize,
    among: &T,
) -> Result<Option<Path>, AllocError>
    ensures { IfOk result (λ q. IsInnermost (λ q. is_defined (T.contents among.now)
        (q ++ seg ∷ [])) outer scope.now q) }
{
    let Some(depth) = among.nearest(scope, seg)? else {
        return Ok(None);
    };
    if depth < outer {
        return Ok(None);
    }
    Ok(Some(scope.beginning(alloc, depth)?))
}
