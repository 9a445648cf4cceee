//! Where the objects below an object end, and in which object it stands.

ghost use Rattle.std.specs.Prelude.{◌≡◌, ◌<◌, ◌≤◌, ◌↔◌, ℕ, List, length, IfOk, IsTrue, slice_get, slice_index, Some};
ghost use Rattle.acpi_name.specs.Names.{Segment};
ghost use Rattle.acpins_records.specs.Tree.{IsBelow, IsParent, EndsBelow};
ghost use Rattle.acpins_records.specs.steps.Runs.{Ascend, AreParents, RunsTo, RunTo};

use crate::paths::Paths;
use crate::targets::place_of;
use acpi_name::Seg;
use acpins_lent::NONE;
use std::alloc::{AllocError, Global};

// Whether two paths have the same segments.
fn is_same(segs: &[Seg], others: &[Seg]) -> bool
    ensures { IsTrue result ↔ (segs.now ≡ others.now) }
{
    segs == others
}

// Whether a path stands below another.
fn is_below(segs: &[Seg], above: &[Seg]) -> bool
    ensures { IsTrue result ↔ IsBelow above.now segs.now }
{
    segs.len() > above.len() && is_same(&segs[..above.len()], above)
}

// Whether the object at a place stands below that of place k. Most of them stand directly in it.
fn stands_below(paths: &Paths, parents: &[u64], next: usize, k: usize) -> bool
    requires within { (k < length paths.now) × (next < length paths.now) }
    requires room { length parents.now ≡ length paths.now }
    requires parents { AreParents paths.now parents.now }
    ensures { (p q : List Segment) → slice_get paths.now k ≡ Some p → slice_get paths.now next
        ≡ Some q → IsTrue result ↔ IsBelow p q }
{
    // A place is less than their count, so it is never `NONE`.
    let _count = paths.len();
    parents[next] == k as u64 || is_below(paths.at(next), paths.at(k))
}

// The place behind the objects below that of place k, where it is known of each behind k.
fn run_end(paths: &Paths, parents: &[u64], ends: &[usize], k: usize) -> usize
    requires room { (length parents.now ≡ length paths.now) × (length ends.now ≡ length paths.now) }
    requires within { k < length paths.now }
    requires parents { AreParents paths.now parents.now }
    requires later { (j : ℕ) → k < j → j < length paths.now
        → RunsTo paths.now j (slice_index ends.now j) }
    ensures { RunsTo paths.now k result }
{
    let mut next = k + 1;
    while next < paths.len() && stands_below(paths, parents, next, k) {
        next = ends[next];
    }
    next
}

// For each object the place behind the objects below it.
fn run_ends(alloc: Global, paths: &Paths, parents: &[u64]) -> Result<Vec<usize>, AllocError>
    requires room { length parents.now ≡ length paths.now }
    requires parents { AreParents paths.now parents.now }
    ensures count { IfOk result (λ v. length v.items ≡ length paths.now) }
    ensures runs { IfOk result (λ v. (k : ℕ) → k < length paths.now
        → RunsTo paths.now k (slice_index v.items k)) }
{
    let mut ends = Vec::with_capacity(alloc, paths.len())?;
    for k in 0..paths.len() {
        ends.push(k)?;
    }
    for k in (0..paths.len()).rev() {
        ends[k] = run_end(paths, parents, &ends, k);
    }
    Ok(ends)
}

// The place of the object in which that of place k stands; the objects before it have theirs. It is the object before
// it, or one in which this stands, in all but a few cases.
fn parent_place(paths: &Paths, parents: &[u64], k: usize) -> u64
    requires room { length parents.now ≡ k }
    requires within { k < length paths.now }
    requires ascend { Ascend paths.now }
    ensures { IsParent paths.now k result }
{
    let Some((_, above)) = paths.at(k).split_last() else {
        return NONE;
    };
    let mut near = k;
    while near > 0 {
        near -= 1;
        if is_same(paths.at(near), above) {
            return near as u64;
        }
        match usize::try_from(parents[near]) {
            Ok(next) if next < near => near = next + 1,
            _ => break,
        }
    }
    place_of(paths, above)
}

// For each object the place of that in which it stands.
fn parent_places(alloc: Global, paths: &Paths) -> Result<Vec<u64>, AllocError>
    requires { Ascend paths.now }
    ensures count { IfOk result (λ v. length v.items ≡ length paths.now) }
    ensures parents { IfOk result (λ v. AreParents paths.now v.items) }
{
    let mut parents = Vec::with_capacity(alloc, paths.len())?;
    for k in 0..paths.len() {
        let parent = parent_place(paths, &parents, k);
        parents.push(parent)?;
    }
    Ok(parents)
}

/// For each object where it stands among the others.
#[derive(Drop)]
pub(crate) struct Tree {
    /// The place of the object in which it stands.
    pub parents: Vec<u64>,
    /// The place behind the objects below it.
    pub ends: Vec<usize>,
}

/// Where the objects stand among one another.
pub(crate) fn tree_of(alloc: Global, paths: &Paths) -> Result<Tree, AllocError>
    requires { Ascend paths.now }
    ensures parents { IfOk result (λ t. AreParents paths.now t.parents.items) }
    ensures ends { IfOk result (λ t. (k : ℕ) → k < length paths.now
        → EndsBelow paths.now k (slice_index t.ends.items k)) }
    ensures counts { IfOk result (λ t. (length t.parents.items ≡ length paths.now)
        × (length t.ends.items ≡ length paths.now)) }
{
    let parents = parent_places(alloc, paths)?;
    let ends = run_ends(alloc, paths, &parents)?;
    Ok(Tree { parents, ends })
}
