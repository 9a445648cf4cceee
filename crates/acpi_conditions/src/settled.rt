//! What an entry settles.

ghost use Rattle.std.specs.Prelude.{◌≡◌, ◌||◌, [], cond, false, not, List};
ghost use Rattle.acpi_conditions.specs.Entries.{asks_nothing, is_empty, Turn as TurnParts};
ghost use Rattle.acpi_conditions.specs.EntryForms.{asks_view, entry_view};
ghost use Rattle.acpi_conditions.specs.Known.{settled};
ghost use Rattle.acpi_conditions.specs.Survey.{lasting};
ghost use Rattle.acpi_conditions.specs.steps.Settled.{certain_at};
ghost use Rattle.acpi_conditions.specs.declared.statuses.Presence.TheVariants.{Nothing};

use crate::entry::{Asks, Entry};
use crate::statuses::Presence;
use crate::turns::Ways;

/// What is certain behind a term: whether all that was inside, and what its entry settles otherwise.
#[derive(Debug, Clone, Copy)]
pub(crate) struct AfterTerm {
    /// Whether what is certain inside stays certain.
    pub keeps: bool,
    /// The number of the term's entry.
    pub number: usize,
    /// What that settles, where it doesn't.
    pub settled: Presence,
}

impl AfterTerm {
    /// Nothing more than what was certain before the term.
    pub(crate) fn nothing() -> AfterTerm
        ensures keeps { result.keeps ≡ false }
        ensures settled { result.settled ≡ Nothing }
    {
        AfterTerm {
            keeps: false,
            number: 0,
            settled: Presence::Nothing,
        }
    }
}

impl Asks {
    /// Whether nothing is asked.
    pub fn is_empty(&self) -> bool
        ensures { result ≡ asks_nothing (asks_view self.now) }
    {
        !self.has && !self.no && self.needs.is_empty()
    }
}

// Whether something is certain where this is asked, whether the term declares its object or not.
fn settles(asks: &Asks) -> bool
    ensures { result ≡ not (asks.now.has || not (is_empty asks.now.needs.items)) }
{
    !asks.has && asks.needs.is_empty()
}

/// What an entry settles, whether its term declares its object or not.
pub(crate) fn settled_by(entry: &Entry) -> Presence
    ensures { (ways : List (List TurnParts))
        → certain_at entry.now.path result ≡ settled (entry_view ways entry.now) }
{
    if !settles(&entry.asks) {
        return Presence::Nothing;
    }
    if entry.term.is_scope && !entry.asks.no {
        return Presence::Scope;
    }
    Presence::Object
}

/// What an entry settles that has no turn on its way.
pub(crate) fn lasting_by(ways: &Ways, entry: &Entry) -> Presence
    ensures { certain_at entry.now.path result ≡ lasting (entry_view ways.now entry.now) }
{
    if !ways.is_empty(entry.way) {
        return Presence::Nothing;
    }
    settled_by(entry)
}

/// What is certain behind the term of an entry, which has this number.
pub(crate) fn certain_after(number: usize, entry: &Entry) -> AfterTerm
    ensures keeps { result.keeps ≡ asks_nothing (asks_view entry.now.asks) }
    ensures number { result.number ≡ number }
    ensures settled { (ways : List (List TurnParts)) → certain_at entry.now.path result.settled
        ≡ cond result.keeps [] (settled (entry_view ways entry.now)) }
{
    if entry.asks.is_empty() {
        return AfterTerm {
            keeps: true,
            number,
            settled: Presence::Nothing,
        };
    }
    AfterTerm {
        keeps: false,
        number,
        settled: settled_by(entry),
    }
}
