//! Turns of control, and the ways that they make.

ghost use Rattle.std.specs.Prelude.{◌≡◌, ◌++◌, ◌∷◌, [], ◌<◌, length, map, IfOk, IfSome, OnOk, OnErr, MatchOption};
ghost use Rattle.std.specs.List.{list_any};
ghost use Rattle.acpi_conditions.specs.Entries.{is_empty};
ghost use Rattle.acpi_conditions.specs.Links.{are_exclusive, is_opposite, is_part_of, is_round, is_same_turn, outside_loops};
ghost use Rattle.acpi_conditions.specs.Turns.{turn_of, way_of};
ghost use Rattle.acpi_conditions.specs.steps.Branches.{is_branch};

use std::alloc::{AllocError, Global};
use std::marker::Model;

/// A turn of control on its way to a term, with the place at which it turns (ACPI 6.5, 19.6 and 20.2.5).
#[derive(Debug, Clone, Copy, PartialEq, Eq)]
pub enum Turn {
    /// Into the first branch of the If there.
    Then(u128),
    /// Into the other branch of the If there, or past the If where it has no Else.
    Else(u128),
    /// Into a round of the While there.
    Round(u128),
    /// Into the term or Scope there, which asks something.
    Within(u128),
    /// Past the stop there.
    Past(u128),
}

/// A way, by its number among the `Ways` that gave it.
#[derive(Debug, Clone, Copy, PartialEq, Eq)]
pub struct Way {
    number: usize,
}

/// The last turn of a way.
#[derive(Debug, Clone, Copy)]
pub struct LastTurn {
    /// The way before it.
    pub before: Way,
    /// The turn.
    pub turn: Turn,
}

/// Ways, each but the empty one a turn behind a way before it, so that ways share their beginnings.
/// A clause sees the list of the ways by number. A number that none of them has is that of the empty way.
#[derive(Drop)]
pub struct Ways {
    alloc: Global,
    last_turns: Vec<LastTurn>,
}

impl Model for Ways {
    ghost use Rattle.std.specs.Prelude.{List};
    ghost use Rattle.acpi_conditions.specs.Entries.{Turn as TurnParts};

    ghost Value = { List (List TurnParts) };

    ghost use Rattle.acpi_conditions.specs.steps.Ways.{AreBehind, ways_of};

    ghost view = { λ w. ways_of w.last_turns.items };

    ghost invariant = { λ w. AreBehind 1 w.last_turns.items };
}

/// Whether a turn goes into a round of a While.
pub(crate) fn is_round(turn: Turn) -> bool
    ensures { result ≡ is_round (turn_of turn) }
{
    matches!(turn, Turn::Round(_))
}

/// Whether two turns are the two branches of one If.
pub(crate) fn is_opposite(one: Turn, other: Turn) -> bool
    ensures { result ≡ is_opposite (turn_of one) (turn_of other) }
{
    match (one, other) {
        (Turn::Then(p), Turn::Else(q)) => p == q,
        (Turn::Else(p), Turn::Then(q)) => p == q,
        _ => false,
    }
}

/// Whether two turns are the same.
pub(crate) fn is_same_turn(one: Turn, other: Turn) -> bool
    ensures { result ≡ is_same_turn (turn_of one) (turn_of other) }
{
    one == other
}

// Whether one of the turns is this one. The turn of that number is looked at first: ways that begin alike have it
// there.
fn has_turn(turns: &[Turn], turn: Turn, first: usize) -> bool
    ensures { result ≡ list_any (λ t. is_same_turn (turn_of turn) (turn_of t)) turns.now }
{
    if first < turns.len() && is_same_turn(turn, turns[first]) {
        return true;
    }
    turns.iter().any(|t| is_same_turn(turn, *t))
}

// Whether a turn goes into a branch of an If.
fn is_branch(turn: Turn) -> bool
    ensures { result ≡ is_branch (turn_of turn) }
{
    matches!(turn, Turn::Then(_) | Turn::Else(_))
}

// Whether one of the turns goes into the other branch of the If at which this one turns. One that goes into no branch
// is not compared with them.
fn has_opposite(turns: &[Turn], turn: Turn) -> bool
    ensures { result ≡ list_any (λ t. is_opposite (turn_of turn) (turn_of t)) turns.now }
{
    is_branch(turn) && turns.iter().any(|t| is_opposite(turn, *t))
}

// The turns before the first that goes into a round of a While.
fn outside_loops(turns: &[Turn]) -> &[Turn]
    ensures { map turn_of result.now ≡ outside_loops (map turn_of turns.now) }
{
    match turns.iter().position(|t| is_round(*t)) {
        Some(count) => &turns[..count],
        None => turns,
    }
}

impl Ways {
    /// Only the empty way.
    pub fn new(alloc: Global) -> Ways
        ensures { result ≡ [] ∷ [] }
    {
        Ways {
            alloc,
            last_turns: Vec::new(alloc),
        }
    }

    /// The empty way.
    pub fn empty(&self) -> Way
        ensures number { result.number ≡ 0 }
        ensures way { way_of self.now result ≡ [] }
    {
        let _last_turns = &self.last_turns;
        Way { number: 0 }
    }

    /// The way that takes one turn more. Where an allocation fails nothing changes.
    pub fn turn(&mut self, way: Way, turn: Turn) -> Result<Way, AllocError>
        ensures number { IfOk result (λ w. w.number ≡ length self.old) }
        ensures ok { OnOk result (self.new
            ≡ self.old ++ (way_of self.old way ++ turn_of turn ∷ []) ∷ []) }
        ensures err { OnErr result (self.new ≡ self.old) }
    {
        let count = self.last_turns.len();
        let before = if way.number > count {
            Way { number: 0 }
        } else {
            way
        };
        self.last_turns.push(LastTurn { before, turn })?;
        Ok(Way { number: count + 1 })
    }

    /// Whether a way has no turn.
    pub fn is_empty(&self, way: Way) -> bool
        ensures { result ≡ is_empty (way_of self.now way) }
    {
        self.last_turn(way).is_none()
    }

    /// The turns of a way, in their order.
    pub fn turns(&self, way: Way) -> Result<Vec<Turn>, AllocError>
        ensures { IfOk result (λ v. map turn_of v.items ≡ way_of self.now way) }
    {
        let mut turns = Vec::new(self.alloc);
        let mut way = way;
        while let Some(last) = self.last_turn(way) {
            turns.push(last.turn)?;
            way = last.before;
        }
        turns.reverse();
        Ok(turns)
    }

    /// The last turn of a way, and the way before it.
    pub(crate) fn last_turn(&self, way: Way) -> Option<LastTurn>
        ensures turn { MatchOption result (way_of self.now way ≡ [])
            (λ l. way_of self.now way ≡ way_of self.now l.before ++ turn_of l.turn ∷ []) }
        ensures before { IfSome result (λ l. l.before.number < way.number) }
    {
        let last_turns = &self.last_turns;
        let at = way.number.checked_sub(1)?;
        last_turns.get(at).copied()
    }

    // The number of turns of a way.
    fn length(&self, way: Way) -> usize
        ensures { result ≡ length (way_of self.now way) }
    {
        let mut way = way;
        let mut count = 0usize;
        while let Some(last) = self.last_turn(way) {
            count += 1;
            way = last.before;
        }
        count
    }

    /// Whether each turn of a way is one of these.
    pub fn is_part_of(&self, way: Way, turns: &[Turn]) -> bool
        ensures { result ≡ is_part_of (way_of self.now way) (map turn_of turns.now) }
    {
        let mut way = way;
        let mut number = self.length(way);
        while let Some(last) = self.last_turn(way) {
            number = number.saturating_sub(1);
            if !has_turn(turns, last.turn, number) {
                return false;
            }
            way = last.before;
        }
        true
    }

    /// Whether a way and one of these turns go into the two branches of one If, both outside of Whiles.
    pub fn are_exclusive(&self, way: Way, turns: &[Turn]) -> bool
        ensures { result ≡ are_exclusive (way_of self.now way) (map turn_of turns.now) }
    {
        let outside = outside_loops(turns);
        let mut way = way;
        let mut exclusive = false;
        while let Some(last) = self.last_turn(way) {
            exclusive = !is_round(last.turn) && (has_opposite(outside, last.turn) || exclusive);
            way = last.before;
        }
        exclusive
    }
}
