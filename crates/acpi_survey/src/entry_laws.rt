//! Laws of what surveys keep, of the definitions alone: the functions do nothing, and their contracts state the laws.
ghost use Rattle.acpi_survey.specs.SurveyOrder.{TablesTile, EntriesStandInOrder, ScopesStandInOrder, AliasesStandInOrder};

/// The nodes of each table that was read tile its code.
pub fn tables_tile()
    ensures { TablesTile }
{}

/// The entries of tables stand in the order of their places.
pub fn entries_stand_in_order()
    ensures { EntriesStandInOrder }
{}

/// The Scopes that were entered stand in the order of their places.
pub fn scopes_stand_in_order()
    ensures { ScopesStandInOrder }
{}

/// The Aliases stand in the order of their places.
pub fn aliases_stand_in_order()
    ensures { AliasesStandInOrder }
{}
