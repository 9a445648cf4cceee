//! Stops, and the ways past them.

ghost use Rattle.std.specs.Prelude.{◌≡◌, ◌++◌, ◌||◌, drop, nat_lt, IfOk, OnOk};
ghost use Rattle.acpi_conditions.specs.Turns.{way_of};
ghost use Rattle.acpi_conditions.specs.steps.Stops.{Grows, is_return, IsWayOf, pasts, returns_from};

use crate::turns::{Turn, Way, Ways};
use std::alloc::{AllocError, Global};

/// Return, Break and Continue (ACPI 6.5, 19.6).
#[derive(Debug, Clone, Copy, PartialEq, Eq)]
pub enum Stop {
    /// A Return, which ends the table.
    Returns,
    /// A Break, which ends the innermost While around.
    Breaks,
    /// A Continue, which ends the round of that While.
    Continues,
}

/// A stop, and where it stands.
#[derive(Debug, Clone, Copy)]
pub struct StopAt {
    /// Where it stands.
    pub place: u128,
    /// What it is.
    pub kind: Stop,
}

/// The way past the stops from a number on.
pub(crate) fn way_past(
    ways: &mut Ways,
    way: Way,
    stops: &[StopAt],
    from: usize,
) -> Result<Way, AllocError>
    requires { IsWayOf ways.old way }
    ensures grown { Grows ways.old ways.new }
    ensures known { IfOk result (λ w. IsWayOf ways.new w) }
    ensures way { IfOk result (λ w. way_of ways.new w
        ≡ way_of ways.old way ++ pasts (drop from stops.now)) }
{
    let mut way = way;
    let mut i = from;
    while i < stops.len() {
        let stop = &stops[i];
        way = ways.turn(way, Turn::Past(stop.place))?;
        i += 1;
    }
    Ok(way)
}

// Whether the stop of this number stands before those from a number on, or is a Return.
fn is_kept(stop: StopAt, number: usize, from: usize) -> bool
    ensures { result ≡ nat_lt number from || is_return stop }
{
    number < from
        || match stop.kind {
            Stop::Returns => true,
            Stop::Breaks => false,
            Stop::Continues => false,
        }
}

/// Leaves out the stops from a number on that are no Returns.
pub(crate) fn keep_returns(
    alloc: Global,
    stops: &mut Vec<StopAt>,
    from: usize,
) -> Result<(), AllocError>
    ensures { OnOk result (stops.new.items ≡ returns_from from stops.old.items) }
{
    let mut kept = Vec::new(alloc);
    let mut i = 0;
    while i < stops.len() {
        let stop = stops[i];
        if is_kept(stop, i, from) {
            kept.push(stop)?;
        }
        i += 1;
    }
    *stops = kept;
    Ok(())
}
