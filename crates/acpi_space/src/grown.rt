//! How a tree grows: nodes are put where a path has none yet, and a value into the last of them.
ghost use Rattle.std.specs.Prelude.{◌≡◌, ◌≢◌, ◌<◌, ◌+◌, ℕ, length, map, slice_get, cond, Some, None, IsSome, OnOk, OnErr, IfOk, IfErr};
ghost use Rattle.std.specs.Ordering.{is_eq};
ghost use Rattle.std.specs.List.Sorted.{IsStrictlySortedBy};
ghost use Rattle.std.specs.BTreeMap.{insert_entry};
ghost use Rattle.acpi_name.specs.Names.{Segment};
ghost use Rattle.acpi_name.specs.Paths.{segment_cmp};
ghost use Rattle.acpi_space.specs.steps.Grown.{HasPut, IsGrown, IsPadded};
ghost use Rattle.acpi_space.specs.steps.Trail.{IsTrail};
ghost use Rattle.acpi_space.specs.steps.Tree.{IsTree, child_at, node_children, node_value, reached, value_below};

use crate::children::Children;
use crate::nodes::{Node, child};
use crate::space::Refused;
use crate::trail::{TrailNode, extend, follow};
use acpi_name::Seg;
use std::alloc::{AllocError, Global};

/// The number of the node at a path, by a walk that begins where the path leaves the trail; the trail then
/// leads to it, or part of the way. Nodes without a value are put where there are none yet; where
/// memory is refused, some of them may stay.
pub(crate) fn reach<V: Drop>(
    alloc: Global,
    nodes: &mut Vec<Node<V>>,
    trail: &mut Vec<TrailNode>,
    path: &[Seg],
) -> Result<usize, AllocError>
    requires tree { IsTree nodes.old.items }
    requires trail { IsTrail nodes.old.items 0 trail.old.items }
    ensures grown { IsGrown nodes.old.items nodes.new.items }
    ensures reached { IfOk result (λ n. reached nodes.new.items 0 path.now ≡ Some n) }
    ensures within { IfOk result (λ n. n < length nodes.new.items) }
    ensures absent { OnErr result (value_below nodes.old.items 0 path.now ≡ None) }
    ensures trail { IsTrail nodes.new.items 0 trail.new.items }
{
    root(nodes)?;
    let at = follow(trail, path);
    trail.truncate(at.depth);
    reach_from(alloc, nodes, trail, at.number, &path[at.depth..])
}

// .. at a path from a node.
fn reach_from<V: Drop>(
    alloc: Global,
    nodes: &mut Vec<Node<V>>,
    trail: &mut Vec<TrailNode>,
    from: usize,
    path: &[Seg],
) -> Result<usize, AllocError>
    requires tree { IsTree nodes.old.items }
    requires within { from < length nodes.old.items }
    requires trail { IsTrail nodes.old.items 0 trail.old.items }
    ensures grown { IsGrown nodes.old.items nodes.new.items }
    ensures reached { IfOk result (λ n. reached nodes.new.items from path.now ≡ Some n) }
    ensures within { IfOk result (λ n. n < length nodes.new.items) }
    ensures absent { OnErr result (value_below nodes.old.items from path.now ≡ None) }
    ensures trail { IsTrail nodes.new.items 0 trail.new.items }
{
    let mut number = from;
    for seg in path {
        let next = step(alloc, nodes, number, *seg)?;
        extend(trail, number, *seg, next);
        number = next;
    }
    Ok(number)
}

// Puts the root, where there is no node.
fn root<V: Drop>(nodes: &mut Vec<Node<V>>) -> Result<(), AllocError>
    requires { IsTree nodes.old.items }
    ensures grown { IsGrown nodes.old.items nodes.new.items }
    ensures ok { OnOk result (0 < length nodes.new.items) }
    ensures err { OnErr result (length nodes.old.items ≡ 0) }
{
    if nodes.is_empty() {
        push_empty(nodes)?;
    }
    Ok(())
}

// The number of a node's child at a segment, which is put where there is none.
fn step<V: Drop>(
    alloc: Global,
    nodes: &mut Vec<Node<V>>,
    number: usize,
    seg: Seg,
) -> Result<usize, AllocError>
    requires tree { IsTree nodes.old.items }
    requires within { number < length nodes.old.items }
    ensures grown { IsGrown nodes.old.items nodes.new.items }
    ensures child { IfOk result (λ m. child_at nodes.new.items number seg ≡ Some m) }
    ensures absent { OnErr result (child_at nodes.old.items number seg ≡ None) }
{
    match child(nodes, number, seg) {
        Some(next) => Ok(next),
        None => add_child(alloc, nodes, number, seg),
    }
}

// Puts an empty node, and makes it the child of another.
fn add_child<V: Drop>(
    alloc: Global,
    nodes: &mut Vec<Node<V>>,
    number: usize,
    seg: Seg,
) -> Result<usize, AllocError>
    requires tree { IsTree nodes.old.items }
    requires within { number < length nodes.old.items }
    requires free { child_at nodes.old.items number seg ≡ None }
    ensures grown { IsGrown nodes.old.items nodes.new.items }
    ensures child { IfOk result (λ m. child_at nodes.new.items number seg ≡ Some m) }
{
    let next = nodes.len();
    push_empty(nodes)?;
    link(alloc, nodes, number, seg, next)?;
    Ok(next)
}

// Puts a node with neither value nor children at the end.
fn push_empty<V: Drop>(nodes: &mut Vec<Node<V>>) -> Result<(), AllocError>
    ensures padded { IsPadded nodes.old.items nodes.new.items }
    ensures ok { OnOk result (length nodes.new.items ≡ length nodes.old.items + 1) }
    ensures err { OnErr result (length nodes.new.items ≡ length nodes.old.items) }
{
    nodes.push(Node {
        value: None,
        children: Children::none(),
    })?;
    Ok(())
}

// Makes a node the child of another at a segment.
fn link<V>(
    alloc: Global,
    nodes: &mut Vec<Node<V>>,
    number: usize,
    seg: Seg,
    next: usize,
) -> Result<(), AllocError>
    requires { number < length nodes.old.items }
    ensures len { length nodes.new.items ≡ length nodes.old.items }
    ensures others { (n : ℕ) → n ≢ number
        → slice_get nodes.new.items n ≡ slice_get nodes.old.items n }
    ensures value { node_value (slice_get nodes.new.items number)
        ≡ node_value (slice_get nodes.old.items number) }
    ensures ordered { IsStrictlySortedBy segment_cmp
        (map (λ e. e.0) (node_children (slice_get nodes.new.items number))) }
    ensures entries { OnOk result (node_children (slice_get nodes.new.items number)
        ≡ insert_entry segment_cmp (node_children (slice_get nodes.old.items number)) seg next) }
    ensures child { OnOk result ((g : Segment) → child_at nodes.new.items number g
        ≡ cond (is_eq (segment_cmp seg g)) (Some next) (child_at nodes.old.items number g)) }
    ensures err { OnErr result (node_children (slice_get nodes.new.items number)
        ≡ node_children (slice_get nodes.old.items number)) }
{
    nodes[number].children.insert(alloc, seg, next)?;
    Ok(())
}

/// Gives a value to a node that has none; where it has one the value is handed back.
pub(crate) fn put<V: Drop>(
    nodes: &mut Vec<Node<V>>,
    number: usize,
    value: V,
) -> Result<(), Refused<V>>
    requires { number < length nodes.old.items }
    ensures free { OnOk result (node_value (slice_get nodes.old.items number) ≡ None) }
    ensures ok { OnOk result (HasPut nodes.old.items nodes.new.items number value) }
    ensures taken { IfErr result (λ e. (e ≡ Refused.Taken value)
        × IsSome (node_value (slice_get nodes.old.items number))) }
    ensures err { OnErr result (nodes.new.items ≡ nodes.old.items) }
{
    let node = &mut nodes[number];
    if node.value.is_some() {
        return Err(Refused::Taken(value));
    }
    node.value = Some(value);
    Ok(())
}
