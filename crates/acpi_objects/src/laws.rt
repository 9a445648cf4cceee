//! A law of the definitions alone: the function does nothing, and its contract states the law.
ghost use Rattle.acpi_objects.specs.Laws.{EntriesHaveObjects};

/// The part of the tables whose term an entry has declares an object.
pub fn entries_have_objects()
    ensures { EntriesHaveObjects }
{}
