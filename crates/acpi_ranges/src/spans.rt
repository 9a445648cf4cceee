//! What each byte of a table's code belongs to.

ghost use Rattle.std.specs.Prelude.{◌≡◌, ◌<◌, ◌+◌, ◌^◌, ◌++◌, ℕ, suc, false, [], length, IfOk, IfSome, OnOk, None};
ghost use Rattle.acpi_outline.specs.View.{node_view, nodes_view, fixed_view, placed_views, put_before, end_view, placed_fields, fields_before, fields_end};
ghost use Rattle.acpi_ranges.specs.Ranges.{Entered, code_ranges, first_place, first_field_place, inner_ranges, is_if, nothing_entered, ranges_of, scope_inside};
ghost use Rattle.acpi_ranges.specs.SpanViews.{left_in, ranges_left, scope_of, with_first_range};
ghost use Rattle.acpi_ranges.specs.steps.Indexes.{index_entered};
ghost use Rattle.acpi_ranges.specs.steps.Remainders.{HasNoItems, behind_if_in, entered_by, inside_span, left_in_some, with_first_item};
ghost use Rattle.acpi_ranges.specs.declared.spans.Items.TheVariants as items;

use crate::index::PlaceIndex;
use crate::scopes::EnteredPaths;
use acpi_name::Path;
use acpi_outline::{Fixed, Lost, LostFault, Node, Nodes, PackedForm, PlacedField, PlacedNode};
use acpi_tree::FieldElem;
use std::alloc::{AllocError, Global};

/// What stands in a range of a table's code.
#[derive(Debug, Clone, Copy)]
pub enum SpanContent<'a> {
    /// A node; what stands inside it follows, one level deeper.
    Node(&'a Node),
    /// An element of the field list that is behind these fixed arguments, and the number of bits before it.
    Element(&'a Fixed, &'a FieldElem, u64),
    /// Nothing that can be read, and why.
    Lost(LostFault),
}

/// A range of a table's code, in bytes from the code's first.
#[derive(Debug, Clone, Copy)]
pub struct Span<'a> {
    /// How many nodes it stands in.
    pub depth: usize,
    /// Where it begins.
    pub from: usize,
    /// Where it ends: the first byte behind it.
    pub to: usize,
    /// What stands there.
    pub what: SpanContent<'a>,
}

/// A range of a table's code, and where it stands.
#[derive(Debug, Clone, Copy)]
pub struct ScopedSpan<'a> {
    /// The range.
    pub span: Span<'a>,
    /// The path of the innermost Scope or container around, if there is one.
    pub around: Option<&'a Path>,
    /// Whether an If stands directly before it in its list.
    pub is_behind_if: bool,
}

/// What is left of a list.
#[derive(Debug, Clone, Copy)]
enum Items<'a> {
    Nodes(&'a [PlacedNode]),
    Fields(&'a Fixed, &'a [PlacedField]),
}

/// A list that is gone through: what is left of it, what is lost behind that, where the list ends, the scope around, if
/// it isn't the root, and whether an If stands directly before what is left.
#[derive(Debug, Clone, Copy)]
struct Remainder<'a> {
    items: Items<'a>,
    lost: Option<Lost>,
    end: usize,
    around: Option<&'a Path>,
    is_behind_if: bool,
}

/// The ranges of a table's code in the order of their first bytes, those inside a node behind the node's own.
#[derive(Drop)]
pub struct Spans<'a> {
    lists: Vec<Remainder<'a>>,
}

// Whether a node is an If.
fn is_if(node: &Node) -> bool
    ensures { result ≡ is_if (node_view node.now) }
{
    match node {
        Node::Holds(Fixed::If(_), _) => true,
        Node::PackageLost(PackedForm::If, _) => true,
        _ => false,
    }
}

impl<'a> Remainder<'a> {
    // Where the items end.
    fn items_end(&self) -> usize
        ensures nodes { result ≡ first_place self.now.end (end_view self.now.lost) }
        ensures fields { result ≡ first_field_place self.now.end (fields_end self.now.lost) }
    {
        match self.lost {
            Some(lost) => lost.place,
            None => self.end,
        }
    }

    // Where a node ends that these stand behind.
    fn node_end(&self, rest: &[PlacedNode]) -> usize
        ensures { result ≡ first_place self.now.end
            (put_before (placed_views rest.now) (end_view self.now.lost)) }
    {
        match rest {
            [next, ..] => next.place,
            [] => self.items_end(),
        }
    }

    // Where an element ends that these stand behind.
    fn field_end(&self, rest: &[PlacedField]) -> usize
        ensures { result ≡ first_field_place self.now.end
            (fields_before (placed_fields rest.now) (fields_end self.now.lost)) }
    {
        match rest {
            [next, ..] => next.place,
            [] => self.items_end(),
        }
    }

    // Whether an If stands directly before the next item.
    fn is_behind_if(&self) -> bool
        ensures { result ≡ behind_if_in self.now }
    {
        match self.items {
            Items::Nodes(_) => self.is_behind_if,
            Items::Fields(_, _) => false,
        }
    }

    // The next range of the list.
    fn next(&mut self, depth: usize) -> Option<Span<'a>>
        ensures left { (entered : Entered) → left_in entered depth self.old
            ≡ with_first_item entered (scope_of self.old.around) (behind_if_in self.old) result
            (left_in entered depth self.new) }
        ensures depth { IfSome result (λ x. x.depth ≡ depth) }
    {
        match self.items {
            Items::Nodes(nodes) => self.next_node(depth, nodes),
            Items::Fields(fixed, fields) => self.next_field(depth, fixed, fields),
        }
    }

    fn next_node(&mut self, depth: usize, nodes: &'a [PlacedNode]) -> Option<Span<'a>>
        requires { self.old.items ≡ items.Nodes nodes }
        ensures left { (entered : Entered) → left_in entered depth self.old
            ≡ with_first_item entered (scope_of self.old.around) (behind_if_in self.old) result
            (left_in entered depth self.new) }
        ensures depth { IfSome result (λ x. x.depth ≡ depth) }
    {
        let [first, rest @ ..] = nodes else {
            return self.rest(depth);
        };
        self.items = Items::Nodes(rest);
        self.is_behind_if = is_if(&first.node);
        Some(Span {
            depth,
            from: first.place,
            to: self.node_end(rest),
            what: SpanContent::Node(&first.node),
        })
    }

    fn next_field(
        &mut self,
        depth: usize,
        fixed: &'a Fixed,
        fields: &'a [PlacedField],
    ) -> Option<Span<'a>>
        requires items { self.old.items ≡ items.Fields fixed fields }
        ensures left { (entered : Entered) → left_in entered depth self.old
            ≡ with_first_item entered (scope_of self.old.around) (behind_if_in self.old) result
            (left_in entered depth self.new) }
        ensures depth { IfSome result (λ x. x.depth ≡ depth) }
    {
        let [first, rest @ ..] = fields else {
            return self.rest(depth);
        };
        self.items = Items::Fields(fixed, rest);
        Some(Span {
            depth,
            from: first.place,
            to: self.field_end(rest),
            what: SpanContent::Element(fixed, &first.element, first.offset),
        })
    }

    // What is lost behind the items.
    fn rest(&mut self, depth: usize) -> Option<Span<'a>>
        requires { HasNoItems self.old.items }
        ensures left { (entered : Entered) → left_in entered depth self.old
            ≡ with_first_item entered (scope_of self.old.around) (behind_if_in self.old) result
            (left_in entered depth self.new) }
        ensures depth { IfSome result (λ x. x.depth ≡ depth) }
    {
        let lost = self.lost.take()?;
        Some(Span {
            depth,
            from: lost.place,
            to: self.end,
            what: SpanContent::Lost(lost.fault),
        })
    }
}

// The list of nodes that ends there and stands in a scope.
fn list_of<'a>(nodes: &'a Nodes, end: usize, around: Option<&'a Path>) -> Remainder<'a>
    ensures { (entered : Entered) (depth : ℕ) → left_in entered depth result
        ≡ ranges_of entered depth (scope_of around.entry) end false (nodes_view nodes.now) }
{
    Remainder {
        items: Items::Nodes(&nodes.read),
        lost: nodes.lost,
        end,
        around,
        is_behind_if: false,
    }
}

// The scope inside the package at the place with these fixed arguments.
fn scope_inside<'a>(
    places: Option<EnteredPaths<'_, 'a>>,
    fixed: &Fixed,
    place: usize,
    around: Option<&'a Path>,
) -> Option<&'a Path>
    ensures { scope_of result ≡ scope_inside (entered_by places.entry) place
        (fixed_view fixed.now) (scope_of around.entry) }
{
    let Some(places) = places else {
        return around;
    };
    match places.inside(fixed, place) {
        Some(path) => Some(path),
        None => around,
    }
}

impl<'a> ScopedSpan<'a> {
    // The list in a node that stands in the range.
    fn in_node(&self, places: Option<EnteredPaths<'_, 'a>>, node: &'a Node) -> Option<Remainder<'a>>
        ensures { (depth : ℕ) → left_in_some (entered_by places.entry) depth result
            ≡ inner_ranges (entered_by places.entry) depth self.now.span.from
            (scope_of self.now.around) self.now.span.to (node_view node.now) }
    {
        let end = self.span.to;
        match node {
            Node::Holds(fixed, nodes) => Some(list_of(
                nodes,
                end,
                scope_inside(places, fixed, self.span.from, self.around),
            )),
            Node::Fields(fixed, fields, lost) => Some(Remainder {
                items: Items::Fields(fixed, fields),
                lost: *lost,
                end,
                around: self.around,
                is_behind_if: false,
            }),
            _ => None,
        }
    }

    // The list in what stands in the range.
    fn inside(&self, places: Option<EnteredPaths<'_, 'a>>) -> Option<Remainder<'a>>
        ensures { left_in_some (entered_by places.entry) (suc self.now.span.depth) result
            ≡ inside_span (entered_by places.entry) (scope_of self.now.around) self.now.span }
    {
        match self.span.what {
            SpanContent::Node(node) => self.in_node(places, node),
            _ => None,
        }
    }
}

impl<'a> Spans<'a> {
    /// The ranges of nodes that end there.
    pub fn new(alloc: Global, nodes: &'a Nodes, end: usize) -> Result<Spans<'a>, AllocError>
        ensures { IfOk result (λ s. (entered : Entered) → ranges_left entered s
            ≡ code_ranges entered end (nodes_view nodes.now)) }
    {
        let mut lists = Vec::new(alloc);
        lists.push(list_of(nodes, end, None))?;
        Ok(Spans { lists })
    }

    // Puts a list behind others.
    #[tactic(auto, using(crate::proofs::Parts::left_behind))]
    fn put(&mut self, list: Remainder<'a>) -> Result<(), AllocError>
        ensures ranges { OnOk result ((entered : Entered) → ranges_left entered self.new
            ≡ left_in entered (length self.old.lists.items) list.entry
            ++ ranges_left entered self.old) }
        ensures more { OnOk result (length self.new.lists.items
            ≡ suc (length self.old.lists.items)) }
        ensures room { OnOk result (length self.old.lists.items + 1 < 2 ^ 64) }
    {
        self.lists.push(list)?;
        Ok(())
    }

    // Puts the list in a range behind the others, if there is one.
    fn put_inside(&mut self, list: Option<Remainder<'a>>) -> Result<(), AllocError>
        ensures { OnOk result ((entered : Entered) → ranges_left entered self.new
            ≡ left_in_some entered (length self.old.lists.items) list.entry
            ++ ranges_left entered self.old) }
    {
        match list {
            Some(list) => self.put(list),
            None => Ok(()),
        }
    }

    // The last of the lists, which is taken.
    #[tactic(auto, using(crate::proofs::Parts::left_behind))]
    fn take(&mut self) -> Option<Remainder<'a>>
        ensures left { (entered : Entered) → ranges_left entered self.old
            ≡ left_in_some entered (length self.new.lists.items) result
            ++ ranges_left entered self.new }
        ensures fewer { IfSome result
            (λ _. length self.new.lists.items < length self.old.lists.items) }
        ensures none { result ≡ None → (entered : Entered) → ranges_left entered self.old ≡ [] }
    {
        self.lists.pop()
    }

    // The next range, and where it stands, in a table with these scopes.
    fn next_scoped(
        &mut self,
        places: Option<EnteredPaths<'_, 'a>>,
    ) -> Result<Option<ScopedSpan<'a>>, AllocError>
        ensures ranges { IfOk result (λ range. ranges_left (entered_by places.entry) self.old
            ≡ with_first_range range (ranges_left (entered_by places.entry) self.new)) }
        ensures depth { IfOk result (λ range. IfSome range (λ x. x.span.depth + 1 < 2 ^ 64)) }
    {
        while let Some(taken) = self.take() {
            let mut list = taken;
            let around = list.around;
            let is_behind_if = list.is_behind_if();
            let Some(span) = list.next(self.lists.len()) else {
                continue;
            };
            let range = ScopedSpan {
                span,
                around,
                is_behind_if,
            };
            self.put(list)?;
            self.put_inside(range.inside(places))?;
            return Ok(Some(range));
        }
        Ok(None)
    }

    /// The next range, and where it stands, in the table of that number.
    pub fn next_in(
        &mut self,
        index: &PlaceIndex<'a>,
        table: usize,
    ) -> Result<Option<ScopedSpan<'a>>, AllocError>
        ensures { IfOk result (λ range. ranges_left (index_entered index.now table) self.old
            ≡ with_first_range range (ranges_left (index_entered index.now table) self.new)) }
    {
        self.next_scoped(Some(EnteredPaths {
            table,
            paths: &index.paths,
        }))
    }

    /// The next range, and where it stands, in a table that enters no scopes.
    pub fn next(&mut self) -> Result<Option<ScopedSpan<'a>>, AllocError>
        ensures ranges { IfOk result (λ range. ranges_left nothing_entered self.old
            ≡ with_first_range range (ranges_left nothing_entered self.new)) }
        ensures depth { IfOk result (λ range. IfSome range (λ x. x.span.depth + 1 < 2 ^ 64)) }
    {
        self.next_scoped(None)
    }
}
