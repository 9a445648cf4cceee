//! What is certain, and which entries are hidden.

ghost use Rattle.std.specs.Prelude.{◌≡◌, ◌<◌, ◌∷◌, ◌-◌, length, take, OnOk, OnErr};
ghost use Rattle.acpi_conditions.specs.KnownLists.{is_hidden};
ghost use Rattle.acpi_conditions.specs.Presences.{is_a_scope, is_something};
ghost use Rattle.acpi_conditions.specs.steps.Facts.{certain_by, IsCertainBy, is_scope_seen, is_seen, paths_in, raised, SameSights};
ghost use Rattle.acpi_conditions.specs.steps.Slots.{path_in};

use crate::slots::{Sight, Slots};
use crate::statuses::Presence;
use std::alloc::AllocError;

/// Something stands at the path of a slot for certain.
#[derive(Debug, Clone, Copy)]
pub struct Fact {
    /// The number of the slot.
    pub slot: usize,
    /// Whether it is a scope.
    pub is_scope: bool,
    /// What was certain at the path before.
    pub before: Presence,
}

/// The entries from one number to another, which an Else hides: those of the first branch.
#[derive(Debug, Clone, Copy)]
pub struct HiddenRange {
    /// The first.
    pub from: usize,
    /// The first behind them.
    pub to: usize,
}

/// A moment: how many entries, facts and hidden ranges there were.
#[derive(Debug, Clone, Copy)]
pub struct Mark {
    /// The number of entries.
    pub entries: usize,
    /// How often something was certified.
    pub certain: usize,
    /// The number of ranges of entries that were hidden.
    pub hidden: usize,
    /// Whether a While was around.
    pub in_loop: bool,
}

/// What is certain at a path by one fact more.
pub(crate) fn raised(is_scope: bool, certain: Presence) -> Presence
    ensures { result ≡ raised is_scope certain }
{
    if is_scope {
        return Presence::Scope;
    }
    match certain {
        Presence::Nothing => Presence::Object,
        Presence::Object => Presence::Object,
        Presence::Scope => Presence::Scope,
    }
}

// Whether one of the ranges has the number.
fn is_hidden(ranges: &[HiddenRange], number: usize) -> bool
    ensures { result ≡ is_hidden ranges.now number }
{
    ranges.iter().any(|r| r.from <= number && number < r.to)
}

// Whether one of the entries is seen.
fn is_seen(ranges: &[HiddenRange], sights: &[Sight]) -> bool
    ensures { result ≡ is_seen ranges.now sights.now }
{
    sights.iter().any(|x| !is_hidden(ranges, x.number))
}

// Whether one of the entries is seen whose object is a scope.
fn is_scope_seen(ranges: &[HiddenRange], sights: &[Sight]) -> bool
    ensures { result ≡ is_scope_seen ranges.now sights.now }
{
    sights
        .iter()
        .any(|x| x.is_scope && !is_hidden(ranges, x.number))
}

/// What is seen of the entries at a path.
pub(crate) fn seen_of(ranges: &[HiddenRange], sights: &[Sight]) -> Presence
    ensures something { is_something result ≡ is_seen ranges.now sights.now }
    ensures scope { is_a_scope result ≡ is_scope_seen ranges.now sights.now }
{
    if is_scope_seen(ranges, sights) {
        return Presence::Scope;
    }
    if is_seen(ranges, sights) {
        return Presence::Object;
    }
    Presence::Nothing
}

/// Puts a fact about the path of a slot behind the others. Where an allocation fails nothing changes.
pub(crate) fn put_fact(
    slots: &mut Slots,
    facts: &mut Vec<Fact>,
    slot: usize,
    is_scope: bool,
) -> Result<(), AllocError>
    requires certain { IsCertainBy slots.old facts.old.items }
    requires within { slot < length slots.old.slots.items }
    ensures kept { IsCertainBy slots.new facts.new.items }
    ensures same { SameSights slots.old slots.new }
    ensures paths { paths_in slots.new ≡ paths_in slots.old }
    ensures ok { OnOk result (certain_by slots.new facts.new.items
        ≡ record { path = path_in (paths_in slots.old) slot; is_scope = is_scope }
        ∷ certain_by slots.old facts.old.items) }
    ensures err { OnErr result (certain_by slots.new facts.new.items
        ≡ certain_by slots.old facts.old.items) }
{
    let before = slots.certain(slot);
    facts.push(Fact {
        slot,
        is_scope,
        before,
    })?;
    slots.set_certain(slot, raised(is_scope, before));
    Ok(())
}

// Takes back the newest fact.
fn pop_fact(slots: &mut Slots, facts: &mut Vec<Fact>)
    requires { IsCertainBy slots.old facts.old.items }
    ensures kept { IsCertainBy slots.new facts.new.items }
    ensures same { SameSights slots.old slots.new }
    ensures paths { paths_in slots.new ≡ paths_in slots.old }
    ensures facts { facts.new.items ≡ take (length facts.old.items - 1) facts.old.items }
{
    if let Some(fact) = facts.pop() {
        slots.set_certain(fact.slot, fact.before);
    }
}

/// Takes back all facts but the oldest, as many as the mark says.
pub(crate) fn take_back(slots: &mut Slots, facts: &mut Vec<Fact>, mark: usize)
    requires { IsCertainBy slots.old facts.old.items }
    ensures kept { IsCertainBy slots.new facts.new.items }
    ensures same { SameSights slots.old slots.new }
    ensures paths { paths_in slots.new ≡ paths_in slots.old }
    ensures facts { facts.new.items ≡ take mark facts.old.items }
{
    while facts.len() > mark {
        pop_fact(slots, facts);
    }
}
