//! What follows from the definitions alone. Each law is the contract of a call that does nothing.

ghost use Rattle.acpi_name.specs.Laws.{NoSpellingBeginsAnother, ShortestSpells, PrintedPathMayBeTyped};

/// Bytes that begin with the spellings of two names begin with one spelling, of one name.
pub fn no_spelling_begins_another()
    ensures { NoSpellingBeginsAnother }
{}

/// The spelling that `write_name` gives spells the name.
pub fn shortest_spells()
    ensures { ShortestSpells }
{}

/// The text that a path is printed as is one that `Path::from_text` reads as that path.
pub fn printed_path_may_be_typed()
    ensures { PrintedPathMayBeTyped }
{}
