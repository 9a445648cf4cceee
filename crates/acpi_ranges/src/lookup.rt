//! The part of a table's code at a place.

ghost use Rattle.std.specs.Prelude.{◌≡◌, ◌≤◌, ◌<◌, ◌==◌, ℕ, true, false, length, IfSome, Some, nat_le, nat_lt, slice_get};
ghost use Rattle.std.specs.Option.{option_copied, option_map};
ghost use Rattle.std.specs.List.Sorted.{IsNonDecreasingBy, IsPartitionPoint};
ghost use Rattle.acpi_outline.specs.Tiling.{Tiles, TilesFields};
ghost use Rattle.acpi_outline.specs.View.{node_view, nodes_view, fixed_view};
ghost use Rattle.acpi_outline.specs.declared.node.PlacedNode.{PlacedNode as PlacedForm};
ghost use Rattle.acpi_outline.specs.declared.node.PlacedField.{PlacedField as FieldForm};
ghost use Rattle.acpi_ranges.specs.Lookup.{found_of, part_at};
ghost use Rattle.acpi_ranges.specs.steps.NodeCounts.{count_inside, count_nodes};
ghost use Rattle.acpi_ranges.specs.steps.Search.{search_fields, search_nodes};
ghost use Rattle.acpi_ranges.specs.steps.Lookups.{end_behind, nodes_before, elements_before, IsBefore};

use crate::spans::{Span, SpanContent};
use acpi_outline::{Fixed, Lost, Node, Nodes, PlacedField, PlacedNode};

/// A node and its range, in bytes from the code's first.
#[derive(Debug, Clone, Copy)]
struct NodeRange<'a> {
    from: usize,
    to: usize,
    node: &'a Node,
}

// How many of nodes begin at the place or before it.
fn count_before(nodes: &[PlacedNode], place: usize) -> usize
    ensures bound { result ≤ length nodes.now }
    ensures parted { IsNonDecreasingBy (λ (n : PlacedForm). n.place) nodes.now
        → IsPartitionPoint (λ n. nat_le n.place place ≡ true) (λ n. nat_le n.place place ≡ false)
        nodes.now result }
{
    nodes.partition_point(|n| n.place <= place)
}

// Where an item ends that this place follows, if one does.
fn end_behind(next: Option<usize>, lost: Option<Lost>, end: usize) -> usize
    ensures { result ≡ end_behind next lost end }
{
    match (next, lost) {
        (Some(place), _) => place,
        (None, Some(lost)) => lost.place,
        (None, None) => end,
    }
}

// The item of that number.
fn item<T>(items: &[T], number: usize) -> Option<&T>
    ensures { option_copied result ≡ slice_get items.now number }
{
    items.get(number)
}

// Where the node of that number begins, if there is one.
fn place_of(nodes: &[PlacedNode], number: usize) -> Option<usize>
    ensures { result ≡ option_map (λ (n : PlacedForm). n.place) (slice_get nodes.now number) }
{
    match item(nodes, number) {
        Some(node) => Some(node.place),
        None => None,
    }
}

// The last of the nodes that begins at the place or before it; `lost` is behind them.
fn node_before<'a>(
    nodes: &'a [PlacedNode],
    lost: Option<Lost>,
    end: usize,
    place: usize,
) -> Option<NodeRange<'a>>
    ensures found { (start : ℕ) → Tiles start end (nodes_before nodes.now lost)
        → IsBefore place result (search_nodes place end (nodes_before nodes.now lost)) }
    ensures smaller { IfSome result (λ r. count_inside (node_view r.node.now)
        < count_nodes (nodes_before nodes.now lost)) }
{
    let count = count_before(nodes, place);
    if count == 0 {
        return None;
    }
    let number = count - 1;
    let last = &nodes[number];
    Some(NodeRange {
        from: last.place,
        to: end_behind(place_of(nodes, count), lost, end),
        node: &last.node,
    })
}

fn last_in(nodes: &Nodes, end: usize, place: usize) -> Option<NodeRange<'_>>
    ensures found { (start : ℕ) → Tiles start end (nodes_view nodes.now)
        → IsBefore place result (search_nodes place end (nodes_view nodes.now)) }
    ensures smaller { IfSome result (λ r. count_inside (node_view r.node.now)
        < count_nodes (nodes_view nodes.now)) }
{
    node_before(&nodes.read, nodes.lost, end, place)
}

// Where the element of that number begins, if there is one.
fn field_place(fields: &[PlacedField], number: usize) -> Option<usize>
    ensures { result ≡ option_map (λ (f : FieldForm). f.place) (slice_get fields.now number) }
{
    match item(fields, number) {
        Some(field) => Some(field.place),
        None => None,
    }
}

// How many of the elements begin before the place.
fn fields_before(fields: &[PlacedField], place: usize) -> usize
    ensures { IsNonDecreasingBy (λ (f : FieldForm). f.place) fields.now
        → IsPartitionPoint (λ f. nat_lt f.place place ≡ true) (λ f. nat_lt f.place place ≡ false)
        fields.now result }
{
    fields.partition_point(|f| f.place < place)
}

// The element that begins at the place, of a list that stands in so many nodes.
fn element_at<'a>(
    fixed: &'a Fixed,
    fields: &'a [PlacedField],
    lost: Option<Lost>,
    end: usize,
    depth: usize,
    place: usize,
) -> Option<Span<'a>>
    ensures from { IfSome result (λ s. s.from ≡ place) }
    ensures found { (start : ℕ) → TilesFields start end (elements_before fields.now lost)
        → option_map found_of result ≡ option_map Some (search_fields place end
        (fixed_view fixed.now) (elements_before fields.now lost)) }
{
    let number = fields_before(fields, place);
    let field = item(fields, number)?;
    if field.place != place {
        return None;
    }
    Some(Span {
        depth,
        from: place,
        to: end_behind(field_place(fields, number + 1), lost, end),
        what: SpanContent::Element(fixed, &field.element, field.offset),
    })
}

// What begins at the place, list by list.
fn find_part(nodes: &Nodes, end: usize, place: usize) -> Option<Span<'_>>
    ensures from { IfSome result (λ s. s.from ≡ place) }
    ensures found { Tiles 0 end (nodes_view nodes.now)
        → option_map found_of result
        ≡ option_map Some (search_nodes place end (nodes_view nodes.now)) }
{
    let mut list = nodes;
    let mut list_end = end;
    let mut depth = 0usize;
    'levels: while let Some(range) = last_in(list, list_end, place) {
        if range.from == place {
            return Some(Span {
                depth,
                from: place,
                to: range.to,
                what: SpanContent::Node(range.node),
            });
        }
        depth = depth.saturating_add(1);
        match range.node {
            Node::Holds(_, inside) => {
                list = inside;
                list_end = range.to;
            }
            Node::Fields(fixed, fields, lost) => {
                return element_at(fixed, fields, *lost, range.to, depth, place);
            }
            _ => return None,
        }
    }
    None
}

/// The node or the element that begins at the place, in bytes from the code's first, of nodes that end there.
pub fn node_at(nodes: &Nodes, end: usize, place: usize) -> Option<Span<'_>>
    ensures from { IfSome result (λ s. s.from ≡ place) }
    ensures found { Tiles 0 end (nodes_view nodes.now)
        → option_map found_of result ≡ option_map Some (part_at place end (nodes_view nodes.now)) }
{
    find_part(nodes, end, place)
}
