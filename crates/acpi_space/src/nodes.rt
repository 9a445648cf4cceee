//! Numbered nodes of a tree, the root first, and walks down through them.
ghost use Rattle.std.specs.Prelude.{◌≡◌, length, slice_get, find, is_some, if◌then◌else◌, ◌++◌, [], ◌∷◌, Some};
ghost use Rattle.std.specs.Option.{option_copied, option_map};
ghost use Rattle.acpi_space.specs.Search.{beginnings};
ghost use Rattle.acpi_space.specs.steps.Tree.{child_at, node_value, value_below};

use crate::children::Children;
use acpi_name::Seg;

/// A node of the tree, at the path whose segments lead to it from the root.
#[derive(Drop)]
pub struct Node<V> {
    /// What stands at the path, if anything does.
    pub value: Option<V>,
    /// The numbers of the nodes one segment below, in the order of the segments.
    pub children: Children,
}

/// The number of a node's child at a segment.
pub(crate) fn child<V>(nodes: &[Node<V>], number: usize, seg: Seg) -> Option<usize>
    ensures { result ≡ child_at nodes.now number seg }
{
    match nodes.get(number) {
        Some(node) => node.children.get(seg),
        None => None,
    }
}

/// A node's value.
pub(crate) fn value<V>(nodes: &[Node<V>], number: usize) -> Option<&V>
    ensures { option_copied result ≡ node_value (slice_get nodes.now number) }
{
    match nodes.get(number) {
        Some(node) => node.value.as_ref(),
        None => None,
    }
}

/// The value at a path from a node.
pub(crate) fn value_at<'a, V>(nodes: &'a [Node<V>], from: usize, path: &[Seg]) -> Option<&'a V>
    ensures { option_copied result ≡ value_below nodes.now from path.now }
{
    let mut number = from;
    for seg in path {
        match child(nodes, number, *seg) {
            Some(next) => number = next,
            None => return None,
        }
    }
    value(nodes, number)
}

// `depth`, where a node has a child at the segment with a value, else what was found above it.
fn nearer<V>(
    nodes: &[Node<V>],
    number: usize,
    seg: Seg,
    depth: usize,
    found: Option<usize>,
) -> Option<usize>
    ensures { result
        ≡ (if is_some (value_below nodes.now number (seg ∷ [])) then Some depth else found) }
{
    match child(nodes, number, seg) {
        Some(next) if value(nodes, next).is_some() => Some(depth),
        _ => found,
    }
}

/// The length of the longest beginning of the scope below which the segment has a value.
pub(crate) fn nearest_to<V>(nodes: &[Node<V>], scope: &[Seg], seg: Seg) -> Option<usize>
    ensures { result ≡ option_map length (find
        (λ q. is_some (value_below nodes.now 0 (q ++ seg ∷ []))) (beginnings scope.now)) }
{
    let mut number = 0;
    let mut found = None;
    for (depth, step) in scope.iter().enumerate() {
        found = nearer(nodes, number, seg, depth, found);
        match child(nodes, number, *step) {
            Some(next) => number = next,
            None => return found,
        }
    }
    nearer(nodes, number, seg, scope.len(), found)
}
