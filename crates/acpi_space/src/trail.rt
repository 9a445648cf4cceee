//! The way to the node that was reached last: a walk that begins with the same segments need not look for them again.
ghost use Rattle.std.specs.Prelude.{◌≡◌, ◌≤◌, ◌⊎◌, ◌++◌, [], ◌∷◌, length};
ghost use Rattle.acpi_space.specs.steps.Trail.{fork_from, trail_end};

use acpi_name::Seg;
use std::alloc::Global;

/// One segment of the way, and the number of the node to which it leads.
#[derive(Clone, Copy)]
pub struct TrailNode {
    /// The segment that stands here in the path.
    pub seg: Seg,
    /// The number of the node to which it leads.
    pub number: usize,
}

/// Where a path leaves a trail.
#[derive(Clone, Copy)]
pub struct Fork {
    /// The number of segments that both have at the front.
    pub depth: usize,
    /// The number of the node to which these segments lead.
    pub number: usize,
}

/// Where a path leaves a trail, both from the root.
pub(crate) fn follow(trail: &[TrailNode], path: &[Seg]) -> Fork
    ensures fork { result ≡ fork_from 0 0 trail.now path.now }
    ensures within { result.depth ≤ length path.now }
{
    let mut number = 0;
    for (depth, seg) in path.iter().enumerate() {
        match trail.get(depth) {
            Some(mark) if mark.seg == *seg => number = mark.number,
            _ => return Fork { depth, number },
        }
    }
    Fork {
        depth: path.len(),
        number,
    }
}

/// Puts a mark at the end of a trail from the root, if the trail ends at the node `number`. Where memory is
/// refused, the trail stays as it was: shorter than it might be.
pub(crate) fn extend(trail: &mut Vec<TrailNode>, number: usize, seg: Seg, next: usize)
    ensures { (trail.new.items ≡ trail.old.items) ⊎ (trail_end 0 trail.old.items ≡ number)
        × (trail.new.items ≡ trail.old.items ++ record { seg = seg; number = next } ∷ []) }
{
    if end(trail) == number {
        let _ = trail.push(TrailNode { seg, number: next });
    }
}

// The number of the node at the end of a trail from the root.
fn end(trail: &[TrailNode]) -> usize
    ensures { result ≡ trail_end 0 trail.now }
{
    match trail.last() {
        Some(mark) => mark.number,
        None => 0,
    }
}
