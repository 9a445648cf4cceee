//! Which paths a search of a name misses: all of them, or those that are asked for.
ghost use Rattle.std.specs.Prelude.{◌≡◌, ◌↔◌, IfOk, Err, None, true, Bool, List, ◌++◌, [], ◌∷◌, map, is_some, length, take, ◌≤◌, ◌+◌, ◌-◌};
ghost use Rattle.std.specs.List.{filter};
ghost use Rattle.acpi_name.specs.Names.{Segment};
ghost use Rattle.acpi_name.specs.NameRefs.{name_parts};
ghost use Rattle.acpi_name.specs.Paths.{place_of};
ghost use Rattle.acpi_space.specs.Spaces.{is_defined};
ghost use Rattle.acpi_space.specs.Search.{beginnings, missed, nearest_scope, skipped};
ghost use Rattle.acpi_space.specs.Wanted.{wants_of};
ghost use Rattle.acpi_space.specs.declared.lookup.SearchFault.TheVariants.{Memory};

use crate::lookup::SearchFault;
use crate::scopes::{paths_among, paths_below};
use crate::space::Space;
use acpi_name::{NameRef, Path, Seg, place};
use std::alloc::{AllocError, Global};
use std::marker::PhantomData;

/// Which of the paths that a search misses are asked for.
pub trait Wanted {
    ghost wanted: { Self → List Segment → Bool };

    /// Whether the path is asked for.
    fn wants(&self, path: &Path) -> bool
        ensures { result ≡ wanted self.now path.now };

    /// Whether the segment below some beginning of the scope is asked for.
    fn wants_below(&self, scope: &Path, seg: Seg) -> Result<bool, AllocError>
        ensures { IfOk result (λ b. b ≡ is_some (nearest_scope (wanted self.now) scope.now seg)) };

    /// The segment below each beginning of the scope that has at least `outer` segments, the longest first: those of
    /// these paths that are asked for.
    fn below(
        &self,
        alloc: Global,
        scope: &Path,
        seg: Seg,
        outer: usize,
    ) -> Result<Vec<Path>, AllocError>
        requires { outer ≤ length scope.now + 1 }
        ensures { IfOk result (λ v. v.items ≡ filter (wanted self.now)
            (map (λ q. q ++ seg ∷ []) (take (length scope.now + 1 - outer)
            (beginnings scope.now)))) };
}

/// All paths.
#[derive(Debug, Clone, Copy)]
pub struct AllPaths;

impl Wanted for AllPaths {
    ghost wanted = { λ _ _. true };

    fn wants(&self, _path: &Path) -> bool {
        true
    }

    fn wants_below(&self, _scope: &Path, _seg: Seg) -> Result<bool, AllocError> {
        Ok(true)
    }

    fn below(
        &self,
        alloc: Global,
        scope: &Path,
        seg: Seg,
        outer: usize,
    ) -> Result<Vec<Path>, AllocError> {
        paths_below(alloc, scope, seg, outer)
    }
}

/// The paths that a space has.
#[derive(Drop)]
pub struct PathsOf<'a, W, T> {
    space: &'a T,
    values: PhantomData<W>,
}

impl<'a, W, T: Space<W>> PathsOf<'a, W, T> {
    /// The paths of this space.
    pub fn new(space: &'a T) -> PathsOf<'a, W, T>
        ensures { wants_of T.contents result ≡ is_defined (T.contents space.now) }
    {
        PathsOf {
            space,
            values: PhantomData,
        }
    }
}

impl<'a, W, T: Space<W>> Wanted for PathsOf<'a, W, T> {
    ghost wanted = { wants_of T.contents };

    fn wants(&self, path: &Path) -> bool {
        self.space.get(path).is_some()
    }

    fn wants_below(&self, scope: &Path, seg: Seg) -> Result<bool, AllocError> {
        Ok(self.space.nearest(scope, seg)?.is_some())
    }

    fn below(
        &self,
        alloc: Global,
        scope: &Path,
        seg: Seg,
        outer: usize,
    ) -> Result<Vec<Path>, AllocError> {
        paths_among(alloc, scope, seg, outer, self.space)
    }
}

/// The paths that the search of a name tries in vain, the innermost first: those before its answer, or
/// all of them where it has none.
pub fn misses<V, S: Space<V>>(
    alloc: Global,
    space: &S,
    scope: &Path,
    name: NameRef<'_>,
) -> Result<Vec<Path>, SearchFault>
    ensures missed { IfOk result (λ v. v.items
        ≡ missed (is_defined (S.contents space.now)) scope.now (name_parts name.entry)) }
    ensures above { (result ≡ Err SearchFault.AboveRoot)
        ↔ (place_of scope.now (name_parts name.entry) ≡ None) }
{
    wanted_misses(alloc, space, scope, name, &AllPaths)
}

/// The paths that the search of a name tries in vain (ACPI 6.5, 5.3), the innermost first: those that are asked for.
pub fn wanted_misses<V, S: Space<V>, Q: Wanted>(
    alloc: Global,
    space: &S,
    scope: &Path,
    name: NameRef<'_>,
    wanted: &Q,
) -> Result<Vec<Path>, SearchFault>
    ensures missed { IfOk result (λ v. v.items
        ≡ filter (Q.wanted wanted.now) (missed (is_defined (S.contents space.now)) scope.now
        (name_parts name.entry))) }
    ensures above { (result ≡ Err SearchFault.AboveRoot)
        ↔ (place_of scope.now (name_parts name.entry) ≡ None) }
{
    if let Some(seg) = name.plain() {
        return Ok(plain_misses(alloc, space, scope, seg, wanted)?);
    }
    let path = place(alloc, scope, name)?;
    let mut paths = Vec::new(alloc);
    if wanted.wants(&path) && space.get(&path).is_none() {
        paths.push(path)?;
    }
    Ok(paths)
}

// The paths that the search of a plain name tries in vain. Where none of its tries is asked for, the space is not
// walked.
fn plain_misses<V, S: Space<V>, Q: Wanted>(
    alloc: Global,
    space: &S,
    scope: &Path,
    seg: Seg,
    wanted: &Q,
) -> Result<Vec<Path>, AllocError>
    ensures { IfOk result (λ v. v.items ≡ filter (Q.wanted wanted.now)
        (skipped (is_defined (S.contents space.now))
        (map (λ q. q ++ seg ∷ []) (beginnings scope.now)))) }
{
    if !wanted.wants_below(scope, seg)? {
        return Ok(Vec::new(alloc));
    }
    let outer = first_missed(space, scope, seg)?;
    wanted.below(alloc, scope, seg, outer)
}

// The length of the shortest beginning of the scope below which the segment is missed.
fn first_missed<V, S: Space<V>>(space: &S, scope: &Path, seg: Seg) -> Result<usize, AllocError>
    ensures missed { IfOk result (λ n. skipped
        (λ q. is_defined (S.contents space.now) (q ++ seg ∷ [])) (beginnings scope.now)
        ≡ take (length scope.now + 1 - n) (beginnings scope.now)) }
    ensures within { IfOk result (λ n. n ≤ length scope.now + 1) }
{
    let _len = scope.len();
    match space.nearest(scope, seg)? {
        None => Ok(0),
        Some(depth) => Ok(depth + 1),
    }
}
