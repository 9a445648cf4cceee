//! A law of the definitions alone: the function does nothing, and its contract states the law.
ghost use Rattle.acpi_entries.specs.Laws.{TurnsHaveLiterals};

/// Each turn of the way of an entry has a literal, so the literals of its condition are those of all its turns, and what
/// it asks. An If whose first branch is gone into, and a While, have their predicates.
pub fn turns_have_literals()
    ensures { TurnsHaveLiterals }
{}
