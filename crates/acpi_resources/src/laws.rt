//! What follows from the definitions alone. Each law is the contract of a call that does nothing.

ghost use Rattle.acpi_resources.specs.Laws.{EisaIdsHaveOneNumber};

/// No two numbers have one EISA id.
pub fn eisa_ids_have_one_number()
    ensures { EisaIdsHaveOneNumber }
{}
