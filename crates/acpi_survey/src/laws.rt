//! Laws of the survey of tables, of the definitions alone: the functions do nothing, and their contracts state the
//! laws.
ghost use Rattle.acpi_survey.specs.Laws.{ReadIsSurvey, PlacesAreDistinct, EntriesStandAlone, TablesAreRead, AtMostOneReading, SureCountsHold};

/// What the tables may declare, as they are read one after another, is the survey of what their nodes do.
pub fn read_is_survey()
    ensures { ReadIsSurvey }
{}

/// No two nodes of the tables stand at one place.
pub fn places_are_distinct()
    ensures { PlacesAreDistinct }
{}

/// At each place of the tables stands one entry or one refusal at most.
pub fn entries_stand_alone()
    ensures { EntriesStandAlone }
{}

/// Any tables have a reading, whatever their bytes are.
pub fn tables_are_read()
    ensures { TablesAreRead }
{}

/// They have one alone: what is known behind them is the same, entries and refusals among it, and so are their nodes.
pub fn at_most_one_reading()
    ensures { AtMostOneReading }
{}

/// A count in the body of an entry that is sure holds in each run in which control came to the entry, outside of
/// Whiles: what the name finds at the end was declared by the body before, or by an entry with this count.
pub fn sure_counts_hold()
    ensures { SureCountsHold }
{}
