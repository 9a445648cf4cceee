//! What follows from the definitions alone. Each law is the contract of a call that does nothing.

ghost use Rattle.acpi_code.specs.Laws.{OneOpcodeBegins};
ghost use Rattle.acpi_code.specs.steps.Opcodes.{FindsWhatBegins};

/// Bytes begin with one opcode, or with nothing that is known, if there are some and they are no lone 5B (ACPI 6.5, 20.3).
pub fn one_opcode_begins()
    ensures { OneOpcodeBegins }
{}

/// What `Code::opcode` finds is what the bytes begin with.
pub fn program_finds_what_begins()
    ensures { FindsWhatBegins }
{}
