//! Laws of loads, on the definitions alone.

ghost use Rattle.acpi_declare.specs.Laws.{OneListing, OneListOfNotes, OneLoad};

/// Over some objects, the sites of a table have at most one listing.
pub fn one_listing()
    ensures { OneListing }
{}

/// A list of tables has at most one load.
pub fn one_load()
    ensures { OneLoad }
{}

/// A list of tables has at most one list of notes.
pub fn one_list_of_notes()
    ensures { OneListOfNotes }
{}
