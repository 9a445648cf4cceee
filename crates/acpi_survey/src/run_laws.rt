//! Laws of a survey and the runs of its tables, of the definitions alone: the functions do nothing, and their contracts
//! state the laws.
ghost use Rattle.acpi_survey.specs.RunLaws.{EntriesStandExactly, ObjectsAreEntries};

/// The object of an entry outside of Whiles stands at the end of a run of the tables exactly where control took each
/// turn of its way, and what the entry asks was so when control came to its term: if no Scope in the entry's table or
/// one before it is refused as one of several. If none is in all tables, each object that stands at the end is a
/// predefined one or that of an entry.
pub fn entries_stand_exactly()
    ensures exact { EntriesStandExactly }
    ensures objects { ObjectsAreEntries }
{}
