//! The names of a table, node after node.

ghost use Rattle.std.specs.Prelude.{◌≡◌, ◌≤◌, ◌++◌, ℕ, length, map, take, IfOk, OnOk, None};
ghost use Rattle.acpi_outline.specs.View.{end_view, fixed_view, node_view, nodes_view, placed_views, put_before};
ghost use Rattle.acpi_outline.specs.Nodes.{holds};
ghost use Rattle.acpi_conditions.specs.Entries.{Path as PathParts};
ghost use Rattle.acpi_conditions.specs.Turns.{turn_of};
ghost use Rattle.acpi_survey.specs.SurveyOrder.{IsInOrder};
ghost use Rattle.acpi_ranges.specs.Index.{entered_in, refusals_in};
ghost use Rattle.acpi_ranges.specs.steps.Indexes.{index_entered, index_refusals};
ghost use Rattle.acpi_module_uses.specs.Ways.{stops_in, stops_of, way_inside};
ghost use Rattle.acpi_module_uses.specs.ModuleNames.{names_at, names_in, names_of_table as names_of};
ghost use Rattle.acpi_module_uses.specs.NameViews.{name_views};
ghost use Rattle.acpi_module_uses.specs.steps.WayViews.{position_of, stop_views, turns_past};
ghost use Rattle.acpi_module_uses.specs.steps.Steps.{names_from, names_inside, setting_by, setting_in};

use crate::names::{Here, Lookup, ModuleName, put_names, scope_inside};
use crate::ways::{IfBefore, entrance_of, if_before, stops_behind, stops_of_plain};
use acpi_conditions::{StopAt, Turn};
use acpi_locals::Callables;
use acpi_name::Path;
use acpi_outline::{Fixed, Lost, Node, Nodes, PlacedNode};
use acpi_ranges::PlaceIndex;
use acpi_survey::{Survey, place_in};
use std::alloc::AllocError;

// A walk over the nodes of a table: the names so far, and the turns by which control comes to the next node.
#[derive(Drop)]
struct NodeWalk<'a> {
    found: Vec<ModuleName<'a>>,
    turns: Vec<Turn>,
}

// Of the way to a package the turns that are kept in it, so many, and the others.
#[derive(Drop)]
struct LeftTurns {
    kept: usize,
    left: Vec<Turn>,
}

impl<'a> NodeWalk<'a> {
    // Puts the names of a list of nodes behind the others, and passes its stops; these.
    #[cycle(nodes)]
    fn put_list(
        &mut self,
        lookup: &Lookup<'_, '_>,
        scope: &Path,
        nodes: &'a [PlacedNode],
        _lost: Option<Lost>,
    ) -> Result<Vec<StopAt>, AllocError>
        ensures names { IsInOrder lookup.now.survey.now
            → OnOk result (name_views self.new.found.items ≡ name_views self.old.found.items
            ++ names_from (setting_by lookup.now)
            (position_of scope.now self.old.turns.items None)
            (put_before (placed_views nodes.now) (end_view _lost))) }
        ensures turns { IfOk result (λ v. self.new.turns.items
            ≡ self.old.turns.items ++ turns_past v.items) }
        ensures stops { IfOk result (λ v. stop_views v.items
            ≡ stops_in lookup.now.table
            (put_before (placed_views nodes.now) (end_view _lost))) }
    {
        let mut stops = Vec::new(lookup.survey.memory());
        let mut before = None;
        'each: for placed in nodes {
            let place = place_in(lookup.table, placed.place);
            let next = if_before(place, self.turns.len(), &placed.node);
            let mut passed = self.put_node(lookup, scope, before, placed.place, &placed.node)?;
            stops.append(&mut passed)?;
            before = next;
        }
        Ok(stops)
    }

    // Puts the names in a node, without those in the nodes in it, behind the others.
    fn put_own(
        &mut self,
        lookup: &Lookup<'_, '_>,
        scope: &Path,
        place: usize,
        node: &'a Node,
    ) -> Result<(), AllocError>
        ensures names { IsInOrder lookup.now.survey.now
            → OnOk result (name_views self.new.found.items ≡ name_views self.old.found.items
            ++ names_at (setting_by lookup.now) (record {
              place = place;
              scope = scope.now;
              way = map turn_of self.old.turns.items;
              node = node_view node.now;
            })) }
        ensures turns { self.new.turns.items ≡ self.old.turns.items }
    {
        let here = Here {
            scope,
            turns: &self.turns,
            place,
            node,
        };
        put_names(&mut self.found, lookup, here)
    }

    // Passes stops.
    fn pass(&mut self, stops: &[StopAt]) -> Result<(), AllocError>
        ensures turns { OnOk result (self.new.turns.items
            ≡ self.old.turns.items ++ turns_past stops.now) }
        ensures names { self.new.found.items ≡ self.old.found.items }
    {
        'each: for stop in stops {
            self.turns.push(Turn::Past(stop.place))?;
        }
        Ok(())
    }

    // Puts the names in a node and in the nodes in it behind the others, and passes its stops; these.
    #[cycle(nodes)]
    fn put_node(
        &mut self,
        lookup: &Lookup<'_, '_>,
        scope: &Path,
        before: Option<IfBefore>,
        place: usize,
        node: &'a Node,
    ) -> Result<Vec<StopAt>, AllocError>
        ensures names { IsInOrder lookup.now.survey.now
            → OnOk result (name_views self.new.found.items ≡ (name_views self.old.found.items
            ++ names_at (setting_by lookup.now) (record {
              place = place;
              scope = scope.now;
              way = map turn_of self.old.turns.items;
              node = node_view node.now;
            }))
            ++ names_inside (setting_by lookup.now) place
            (position_of scope.now self.old.turns.items before)
            (node_view node.now)) }
        ensures turns { IfOk result (λ v. self.new.turns.items
            ≡ self.old.turns.items ++ turns_past v.items) }
        ensures stops { IfOk result (λ v. stop_views v.items
            ≡ stops_of lookup.now.table place (node_view node.now)) }
    {
        self.put_own(lookup, scope, place, node)?;
        let passed = self.put_inside(lookup, scope, before, place, node)?;
        self.pass(&passed)?;
        Ok(passed)
    }

    // Puts the names of the nodes in a node behind the others; the stops behind the node.
    #[cycle(nodes)]
    fn put_inside(
        &mut self,
        lookup: &Lookup<'_, '_>,
        scope: &Path,
        before: Option<IfBefore>,
        place: usize,
        node: &'a Node,
    ) -> Result<Vec<StopAt>, AllocError>
        ensures names { IsInOrder lookup.now.survey.now
            → OnOk result (name_views self.new.found.items ≡ name_views self.old.found.items
            ++ names_inside (setting_by lookup.now) place
            (position_of scope.now self.old.turns.items before)
            (node_view node.now)) }
        ensures turns { OnOk result (self.new.turns.items ≡ self.old.turns.items) }
        ensures stops { IfOk result (λ v. stop_views v.items
            ≡ stops_of lookup.now.table place (node_view node.now)) }
    {
        let alloc = lookup.survey.memory();
        match node {
            Node::Plain(plain) => { stops_of_plain(alloc, place_in(lookup.table, place), plain) }
            Node::Holds(fixed, nodes) => self.put_package(
                lookup, scope, before, place, fixed, nodes,
            ),
            _ => Ok(Vec::new(alloc)),
        }
    }

    // Takes the way into a package at a place; what is left of the way to it.
    #[tactic(auto, using(crate::proofs::Walking::entered_back, crate::proofs::Walking::entered_within))]
    fn enter(
        &mut self,
        place: u128,
        fixed: &Fixed,
        before: Option<IfBefore>,
    ) -> Result<LeftTurns, AllocError>
        ensures way { OnOk result ((scope : PathParts) → map turn_of self.new.turns.items
            ≡ way_inside place (fixed_view fixed.now)
            (position_of scope self.old.turns.items before)) }
        ensures back { IfOk result (λ l. take l.kept self.new.turns.items ++ l.left.items
            ≡ self.old.turns.items) }
        ensures within { IfOk result (λ l. l.kept ≤ length self.new.turns.items) }
        ensures names { self.new.found.items ≡ self.old.found.items }
    {
        let into = entrance_of(fixed, place, &self.turns, before);
        let left = self.turns.split_off(into.turns)?;
        self.turns.push(into.turn)?;
        Ok(LeftTurns {
            kept: into.turns,
            left,
        })
    }

    // Takes back all but the first turns, so many, and then those that were left.
    fn leave(&mut self, left: LeftTurns) -> Result<(), AllocError>
        ensures turns { OnOk result (self.new.turns.items
            ≡ take left.kept self.old.turns.items ++ left.left.items) }
        ensures names { self.new.found.items ≡ self.old.found.items }
    {
        let mut behind = left.left;
        self.turns.truncate(left.kept);
        self.turns.append(&mut behind)?;
        Ok(())
    }

    // Puts the names of the nodes in a package behind the others; the stops behind the package.
    #[cycle(nodes)]
    fn put_package(
        &mut self,
        lookup: &Lookup<'_, '_>,
        scope: &Path,
        before: Option<IfBefore>,
        place: usize,
        fixed: &'a Fixed,
        nodes: &'a Nodes,
    ) -> Result<Vec<StopAt>, AllocError>
        ensures names { IsInOrder lookup.now.survey.now
            → OnOk result (name_views self.new.found.items ≡ name_views self.old.found.items
            ++ names_inside (setting_by lookup.now) place
            (position_of scope.now self.old.turns.items before)
            (holds (fixed_view fixed.now) (nodes_view nodes.now))) }
        ensures turns { OnOk result (self.new.turns.items ≡ self.old.turns.items) }
        ensures stops { IfOk result (λ v. stop_views v.items
            ≡ stops_of lookup.now.table place
            (holds (fixed_view fixed.now) (nodes_view nodes.now))) }
    {
        let left = self.enter(place_in(lookup.table, place), fixed, before)?;
        let inside = scope_inside(lookup, fixed, place, scope)?;
        let stops = self.put_list(lookup, &inside, &nodes.read, nodes.lost)?;
        self.leave(left)?;
        stops_behind(lookup.survey.memory(), fixed, stops)
    }
}

// The names of the nodes of a table.
fn names_in_nodes<'s, 'p, 'a>(
    survey: &'s Survey,
    index: &'s PlaceIndex<'p>,
    callables: &'s Callables,
    table: usize,
    nodes: &'a Nodes,
) -> Result<Vec<ModuleName<'a>>, AllocError>
    ensures { IsInOrder survey.now → IfOk result (λ v. name_views v.items ≡ names_in
        (setting_in survey.now index.now callables.now table) (nodes_view nodes.now)) }
{
    let alloc = survey.memory();
    let root = Path::root(alloc);
    let lookup = Lookup {
        survey,
        index,
        callables,
        table,
    };
    let mut walk = NodeWalk {
        found: Vec::new(alloc),
        turns: Vec::new(alloc),
    };
    walk.put_list(&lookup, &root, &nodes.read, nodes.lost)?;
    Ok(walk.found)
}

/// The names that stand in the nodes of the table of that number, in byte order, each with where it may be found and
/// whether it means a method. A name in a package's own arguments stands before those in the package. What is refused
/// has none. The index is that of the survey.
pub fn names_of_table<'a>(
    survey: &'a Survey,
    index: &PlaceIndex<'_>,
    callables: &Callables,
    table: usize,
) -> Result<Vec<ModuleName<'a>>, AllocError>
    ensures { IsInOrder survey.now
        → ((number place : ℕ) → index_entered index.now number place
        ≡ entered_in survey.now.reading number place)
        → ((place : ℕ) → index_refusals index.now place ≡ refusals_in survey.now.reading place)
        → IfOk result (λ v. name_views v.items ≡ names_of survey.now callables.now table) }
{
    match survey.nodes(table) {
        Some(nodes) => names_in_nodes(survey, index, callables, table, nodes),
        None => Ok(Vec::new(survey.memory())),
    }
}
