//! Where a term declares its object, and what it asks.

ghost use Rattle.std.specs.Prelude.{◌≡◌, Ok, IfOk, IfErr};
ghost use Rattle.acpi_conditions.specs.EntryForms.{asks_view, term_view};
ghost use Rattle.acpi_conditions.specs.Known.{asks_of, declared_at};
ghost use Rattle.acpi_conditions.specs.steps.Faults.{IsFaultOf};

use crate::entry::{Asks, Term};
use crate::placing::{PlacingFault, declare_at, uncertain_names};
use crate::statuses::Statuses;
use acpi_name::Path;
use std::alloc::Global;

/// Where a term declares its object, and what it asks.
#[derive(Drop)]
pub(crate) struct Target {
    /// The path at which the object would stand.
    pub path: Path,
    /// What it asks.
    pub asks: Asks,
}

/// The target of a term that stands in a scope.
pub(crate) fn target_of<S: Statuses>(
    alloc: Global,
    known: &S,
    scope: &Path,
    term: &Term,
) -> Result<Target, PlacingFault>
    ensures ok { IfOk result (λ s. declared_at (S.known known.now) scope.now term.now.name
        ≡ Ok s.path) }
    ensures asks { IfOk result (λ s. asks_view s.asks
        ≡ asks_of (S.known known.now) scope.now (term_view term.now) s.path) }
    ensures refused { IfErr result (λ f.
        IsFaultOf f (declared_at (S.known known.now) scope.now term.now.name)) }
{
    match declare_at(alloc, known, scope, term.name.view()) {
        Ok(placing) => {
            let needs = uncertain_names(alloc, known, scope, &term.needs)?;
            let asks = Asks {
                has: placing.has,
                no: placing.no,
                needs,
            };
            let path = placing.path;
            Ok(Target { path, asks })
        }
        Err(fault) => Err(fault),
    }
}
