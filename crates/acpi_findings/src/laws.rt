//! Laws of what is found in tables, of the definitions alone: the functions do nothing, and their contracts state the
//! laws.
ghost use Rattle.acpi_findings.specs.Findings.{EachRefusalIsTold, OnlyRefusalsAreTold};
ghost use Rattle.acpi_findings.specs.MarkLaws.{MarksStandWhereSpelled, TermsEndWhereSpelled};
ghost use Rattle.acpi_findings.specs.FindingsOrder.{NotesStandInOrder, ProblemsStandInOrder};

/// Each refusal of the tables is one of their problems, and tells where it stands.
pub fn each_refusal_is_told()
    ensures { EachRefusalIsTold }
{}

/// No problem tells a refusal that isn't one of the tables.
pub fn only_refusals_are_told()
    ensures { OnlyRefusalsAreTold }
{}

/// The notes stand in the order of their sites.
pub fn notes_stand_in_order()
    ensures { NotesStandInOrder }
{}

/// The problems stand in the order of their sites.
pub fn problems_stand_in_order()
    ensures { ProblemsStandInOrder }
{}

/// What stands behind a term, where its marks are looked for, stands behind the bytes that spell it.
pub fn terms_end_where_spelled()
    ensures { TermsEndWhereSpelled }
{}

/// A mark of a term stands where its name is spelled, or its opcode.
pub fn marks_stand_where_spelled()
    ensures { MarksStandWhereSpelled }
{}
