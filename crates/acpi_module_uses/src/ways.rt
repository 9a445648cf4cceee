//! The ways by which control comes to nodes.

ghost use Rattle.std.specs.Prelude.{◌≡◌, ◌≤◌, ◌++◌, ◌∷◌, [], cond, length, map, take, IfOk, None, Some};
ghost use Rattle.std.specs.List.{filter};
ghost use Rattle.std.specs.Option.{option_map, option_to_list};
ghost use Rattle.acpi_outline.specs.View.{fixed_view, node_view, plain_view};
ghost use Rattle.acpi_conditions.specs.Entries.{Path};
ghost use Rattle.acpi_conditions.specs.Survey.{leaves_table};
ghost use Rattle.acpi_conditions.specs.Turns.{stop_of, turn_of};
ghost use Rattle.acpi_conditions.specs.declared.stops.StopAt.{StopAt as StopForm};
ghost use Rattle.acpi_ranges.specs.Ranges as ranges;
ghost use Rattle.acpi_module_uses.specs.Ways.{operator_stop, plain_stop, stop_at, stops_behind, turn_into, way_inside, way_into_else};
ghost use Rattle.acpi_module_uses.specs.steps.WayViews.{before_view, position_of, stop_views};

use acpi_conditions::{Stop, StopAt, Turn};
use acpi_outline::{Fixed, Node, PackedForm, Plain};
use acpi_tree::{Op, Term};
use std::alloc::{AllocError, Global};

/// An If that stands directly before a node in its list, and how many turns control takes to come to it.
#[derive(Debug, Clone, Copy)]
pub(crate) struct IfBefore {
    /// Where the If stands.
    pub place: u128,
    /// The number of turns.
    pub turns: usize,
}

/// How control goes into a package: by the first turns, so many, and one more.
#[derive(Debug, Clone, Copy)]
pub(crate) struct Entrance {
    /// The number of turns.
    pub turns: usize,
    /// The turn into the package.
    pub turn: Turn,
}

// ---- stops

fn operator_stop(op: Op) -> Option<Stop>
    ensures { option_map stop_of result ≡ operator_stop op }
{
    match op {
        Op::Return => Some(Stop::Returns),
        Op::Break => Some(Stop::Breaks),
        Op::Continue => Some(Stop::Continues),
        _ => None,
    }
}

fn plain_stop(plain: &Plain) -> Option<Stop>
    ensures { option_map stop_of result ≡ plain_stop (plain_view plain.now) }
{
    match plain {
        Plain::Term(Term::Op(op, _)) => operator_stop(*op),
        _ => None,
    }
}

/// The stop that a plain node at a place is, if it is one.
pub(crate) fn stops_of_plain(
    alloc: Global,
    place: u128,
    plain: &Plain,
) -> Result<Vec<StopAt>, AllocError>
    ensures { IfOk result (λ v. stop_views v.items
        ≡ option_to_list (option_map (stop_at place) (plain_stop (plain_view plain.now)))) }
{
    let mut stops = Vec::new(alloc);
    if let Some(kind) = plain_stop(plain) {
        stops.push(StopAt { place, kind })?;
    }
    Ok(stops)
}

fn is_return(stop: StopAt) -> bool
    ensures { result ≡ leaves_table (stop_of stop.kind) }
{
    match stop.kind {
        Stop::Returns => true,
        Stop::Breaks => false,
        Stop::Continues => false,
    }
}

fn returns_of(alloc: Global, stops: &[StopAt]) -> Result<Vec<StopAt>, AllocError>
    ensures { IfOk result (λ v. v.items
        ≡ filter (λ (s : StopForm). leaves_table (stop_of s.kind)) stops.now) }
{
    stops
        .iter()
        .copied()
        .filter(|s| is_return(*s))
        .collect(alloc)
}

/// Of the stops in a package those that control has passed behind it.
#[tactic(auto, using(crate::proofs::Walking::returns_kept))]
pub(crate) fn stops_behind(
    alloc: Global,
    fixed: &Fixed,
    stops: Vec<StopAt>,
) -> Result<Vec<StopAt>, AllocError>
    ensures { IfOk result (λ v. stop_views v.items
        ≡ stops_behind (fixed_view fixed.now) (stop_views stops.items)) }
{
    match fixed {
        Fixed::While(_) => returns_of(alloc, &stops),
        _ => Ok(stops),
    }
}

// ---- packages

fn is_if(node: &Node) -> bool
    ensures { result ≡ ranges.is_if (node_view node.now) }
{
    match node {
        Node::Holds(Fixed::If(_), _) => true,
        Node::PackageLost(PackedForm::If, _) => true,
        _ => false,
    }
}

/// A node as one that stands directly before the next of its list, if it is an If.
pub(crate) fn if_before(place: u128, turns: usize, node: &Node) -> Option<IfBefore>
    ensures { result ≡ cond (ranges.is_if (node_view node.now))
        (Some (record { place = place; turns = turns })) None }
{
    if is_if(node) {
        return Some(IfBefore { place, turns });
    }
    None
}

// Into an Else: by the way to the If before it, or by its own.
fn else_entrance(place: u128, turns: &[Turn], before: Option<IfBefore>) -> Entrance
    ensures way { map turn_of (take result.turns turns.now) ++ turn_of result.turn ∷ []
        ≡ way_into_else place (map turn_of turns.now) (before_view turns.now before) }
    ensures within { result.turns ≤ length turns.now }
{
    match before {
        Some(found) => Entrance {
            turns: found.turns.min(turns.len()),
            turn: Turn::Else(found.place),
        },
        None => Entrance {
            turns: turns.len(),
            turn: Turn::Else(place),
        },
    }
}

fn turn_into(fixed: &Fixed, place: u128) -> Turn
    ensures { turn_of result ≡ turn_into place (fixed_view fixed.now) }
{
    match fixed {
        Fixed::If(_) => Turn::Then(place),
        Fixed::Else => Turn::Else(place),
        Fixed::While(_) => Turn::Round(place),
        _ => Turn::Within(place),
    }
}

/// How control goes into a package at a place, to which it came by these turns.
pub(crate) fn entrance_of(
    fixed: &Fixed,
    place: u128,
    turns: &[Turn],
    before: Option<IfBefore>,
) -> Entrance
    ensures way { (scope : Path)
        → map turn_of (take result.turns turns.now) ++ turn_of result.turn ∷ []
        ≡ way_inside place (fixed_view fixed.now) (position_of scope turns.now before) }
    ensures within { result.turns ≤ length turns.now }
{
    match fixed {
        Fixed::Else => else_entrance(place, turns, before),
        _ => Entrance {
            turns: turns.len(),
            turn: turn_into(fixed, place),
        },
    }
}
