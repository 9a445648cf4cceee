//! What tables may declare, and under which condition.

use crate::turns::Way;
use acpi_name::{Name, Path};

/// A term that declares a name (ACPI 6.5, 5.3 and 20.2.5).
#[derive(Drop)]
pub struct Term {
    /// Where it stands, by the number that the reader gives to the place.
    pub place: u128,
    /// The declared name, not resolved.
    pub name: Name,
    /// Whether others may be declared below its object.
    pub is_scope: bool,
    /// The names in its operands that have to be found.
    pub needs: Vec<Name>,
}

/// What a term asks of the namespace when control comes to it (ACPI 6.5, 5.3).
#[derive(Drop)]
pub struct Asks {
    /// Whether it asks that a scope stand at the parent of its path.
    pub has: bool,
    /// Whether it asks that nothing stand at its path.
    pub no: bool,
    /// The names that it asks to be found.
    pub needs: Vec<Name>,
}

/// A term that may declare a path, with its condition: the way to it, and what it asks.
#[derive(Drop)]
pub struct Entry {
    /// The term.
    pub term: Term,
    /// The scope in which it stands.
    pub scope: Path,
    /// The path at which it declares its object.
    pub path: Path,
    /// The way to it.
    pub way: Way,
    /// What it asks.
    pub asks: Asks,
}
