//! Refusals, and the packages around.

use crate::facts::Mark;
use crate::placing::Reason;
use crate::turns::Way;
use acpi_name::Path;

/// Why a term declares nothing, or a Scope isn't entered.
#[derive(Drop)]
pub struct Refusal {
    /// Where the term or the Scope stands.
    pub place: u128,
    /// The reason.
    pub reason: Reason,
}

/// What a package is of.
#[derive(Debug, Clone, Copy)]
pub(crate) enum Kind {
    /// A term, whose entry is the first of those inside.
    Term,
    /// A Scope, and whether its target is a scope for certain.
    Scope(bool),
    /// The first branch of an If.
    First,
    /// The other branch of an If.
    Other,
    /// The body of a While.
    Body,
}

/// A package around: what it is of, where it stands, and what there was before it.
#[derive(Drop)]
pub(crate) struct Package {
    /// What it is of.
    pub kind: Kind,
    /// Its place.
    pub place: u128,
    /// The scope around it.
    pub scope: Path,
    /// The way to it.
    pub way: Way,
    /// The moment before it.
    pub mark: Mark,
    /// The number of stops before it, of the lists around.
    pub stops: usize,
}
