//! A namespace that is laid over another.

ghost use Rattle.std.specs.Prelude.{◌≡◌, ◌↔◌, OnOk, IfOk, IsTrue, List, false, max, map, length, filter, not, Option};
ghost use Rattle.std.specs.Option.{option_copied, option_map};
ghost use Rattle.std.specs.FinMap as finite;
ghost use Rattle.std.specs.List.Sorted.{IsStrictlySortedBy};
ghost use Rattle.acpi_name.specs.Names.{Segment};
ghost use Rattle.acpi_name.specs.Paths.{path_cmp};
ghost use Rattle.acpi_space.specs.Laws.{Among};
ghost use Rattle.acpi_space.specs.Overlays.{both, contents_over, lent, lower_of};
ghost use Rattle.acpi_space.specs.Search.{nearest_scope};
ghost use Rattle.acpi_space.specs.Spaces.{is_defined};
ghost use Rattle.acpi_space.specs.steps.Layers.{AddsOwn, longer, pairs_of};

use crate::space::{Refused, Space, Visitor};
use acpi_name::{Path, Seg};
use std::alloc::{AllocError, Global};
use std::collections::BTreeMap;

/// A space laid over another, which is borrowed and stays as it is: what is added goes to a part of its own.
#[derive(Drop)]
pub struct Overlay<'a, S> {
    alloc: Global,
    lower: Option<&'a S>,
    own: S,
}

impl<'a, V, S: Space<V>> Space<V> for Overlay<'a, S> {
    ghost contents = { λ o. contents_over S.contents o };

    ghost lower = { λ o. lower_of S.contents o };

    fn new(alloc: Global) -> Self {
        Overlay {
            alloc,
            lower: None,
            own: S::new(alloc),
        }
    }

    fn get(&self, path: &Path) -> Option<&V> {
        match lent_value(self.lower, path) {
            Some(value) => Some(value),
            None => self.own.get(path),
        }
    }

    fn insert(&mut self, path: Path, value: V) -> Result<(), Refused<V>> {
        if lent_value(self.lower, &path).is_some() {
            return Err(Refused::Taken(value));
        }
        self.own.insert(path, value)
    }

    fn pairs(&self) -> Result<Vec<(Path, &V)>, AllocError> {
        let mut pairs = BTreeMap::new(self.alloc);
        add_pairs(&mut pairs, lent_pairs(self.alloc, self.lower)?)?;
        add_pairs(&mut pairs, self.own.pairs()?)?;
        listed(self.alloc, pairs)
    }

    // One walk in each part.
    fn nearest(&self, scope: &Path, seg: Seg) -> Result<Option<usize>, AllocError> {
        let below = lent_nearest(self.lower, scope, seg)?;
        Ok(longest(below, self.own.nearest(scope, seg)?))
    }
}

impl<'a, S> Overlay<'a, S> {
    /// A part to which nothing is added yet, laid over a space.
    pub fn over<V>(alloc: Global, lower: &'a S) -> Overlay<'a, S>
    where
        S: Space<V>,
        ensures contents { contents_over S.contents result ≡ S.contents lower.now }
        ensures lower { lower_of S.contents result ≡ S.contents lower.now }
    {
        Overlay {
            alloc,
            lower: Some(lower),
            own: S::new(alloc),
        }
    }

    /// The paths that it has and the space below has not, in path order.
    pub fn own_paths<V>(&self) -> Result<Vec<Path>, AllocError>
    where
        S: Space<V>,
        ensures ascend { IfOk result (λ v. IsStrictlySortedBy path_cmp v.items) }
        ensures are { IfOk result (λ v. (p : List Segment) → Among v.items p
            ↔ (IsTrue (is_defined (contents_over S.contents self.now) p)
            × (is_defined (lower_of S.contents self.now) p ≡ false))) }
    {
        let mut own = OwnPaths {
            lower: self.lower,
            paths: Vec::new(self.alloc),
        };
        self.own.visit_pairs(&mut own)?;
        Ok(own.paths)
    }
}

/// Gathers the paths that it is shown, but for those that a space has which is lent.
#[derive(Drop)]
pub struct OwnPaths<'a, S> {
    lower: Option<&'a S>,
    paths: Vec<Path>,
}

impl<V, S: Space<V>> Visitor<V> for OwnPaths<'_, S> {
    ghost was_shown = { AddsOwn S.contents };

    fn visit(&mut self, path: &Path, _: &V) -> Result<(), AllocError> {
        if lent_value(self.lower, path).is_none() {
            self.paths.push(path.copy()?)?;
        }
        Ok(())
    }
}

// The value at a path of a space that is lent.
fn lent_value<'a, V, S: Space<V>>(space: Option<&'a S>, path: &Path) -> Option<&'a V>
    ensures { option_copied result ≡ finite.get (lent S.contents space.entry) path.now }
{
    match space {
        Some(space) => space.get(path),
        None => None,
    }
}

// All pairs of a space that is lent.
fn lent_pairs<'a, V, S: Space<V>>(
    alloc: Global,
    space: Option<&'a S>,
) -> Result<Vec<(Path, &'a V)>, AllocError>
    ensures { IfOk result (λ v. map (λ p. (p.0, p.1.now)) v.items
        ≡ finite.entries (lent S.contents space.entry)) }
{
    match space {
        Some(space) => space.pairs(),
        None => Ok(Vec::new(alloc)),
    }
}

// The length of the longest beginning of the scope below which the segment is defined in a space that is lent.
fn lent_nearest<V, S: Space<V>>(
    space: Option<&S>,
    scope: &Path,
    seg: Seg,
) -> Result<Option<usize>, AllocError>
    ensures { IfOk result (λ n. n ≡ option_map length
        (nearest_scope (is_defined (lent S.contents space.entry)) scope.now seg)) }
{
    match space {
        Some(space) => space.nearest(scope, seg),
        None => Ok(None),
    }
}

// The greater of two lengths, where both are there.
fn longest(a: Option<usize>, b: Option<usize>) -> Option<usize>
    ensures { result ≡ longer a b }
{
    match (a, b) {
        (Some(a), Some(b)) => Some(a.max(b)),
        (Some(a), None) => Some(a),
        (None, b) => b,
    }
}

// Adds those of the pairs whose paths aren't there.
fn add_pairs<'a, V>(
    pairs: &mut BTreeMap<Path, &'a V>,
    more: Vec<(Path, &'a V)>,
) -> Result<(), AllocError>
    ensures { OnOk result (pairs_of pairs.new.entries
        ≡ both (pairs_of pairs.old.entries) (pairs_of more.entry.items)) }
{
    for (path, value) in more {
        if !pairs.contains_key(&path) {
            pairs.insert(path, value)?;
        }
    }
    Ok(())
}

// The pairs of a map, in its order.
fn listed<'a, V>(
    alloc: Global,
    pairs: BTreeMap<Path, &'a V>,
) -> Result<Vec<(Path, &'a V)>, AllocError>
    ensures { IfOk result (λ v. map (λ p. (p.0, p.1.now)) v.items
        ≡ finite.entries (pairs_of pairs.entry.entries)) }
{
    let mut list = Vec::new(alloc);
    for (path, value) in pairs {
        list.push((path, value))?;
    }
    Ok(list)
}
