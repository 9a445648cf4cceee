//! Laws of the definitions alone: the functions do nothing, and their contracts state the laws.
ghost use Rattle.acpi_ranges.specs.LostRanges.{NameFrontsAreSpelled};
ghost use Rattle.acpi_ranges.specs.Laws.{EntriesHaveParts, PartsAreRecorded, ScopesAreEntered};

/// The name with which bytes begin, as problems and bodies tell it, is the one that is spelled there.
pub fn name_fronts_are_spelled()
    ensures { NameFrontsAreSpelled }
{}

/// The term of each entry of tables is what a part of the tables declares, and each turn of its way is that of an If, an
/// Else, a While, a Scope, a term or a stop that stands there.
pub fn entries_have_parts()
    ensures { EntriesHaveParts }
{}

/// The term that a part of a table declares is that of an entry, or it is refused. A Scope was entered, or it is refused;
/// one in which something is read was entered.
pub fn parts_are_recorded()
    ensures parts { PartsAreRecorded }
    ensures scopes { ScopesAreEntered }
{}
