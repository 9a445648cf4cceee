//! What follows from the definitions alone. Each law is the contract of a call that does nothing.

ghost use Rattle.acpi_write.specs.Laws.{ItemsAreSpelled};
ghost use Rattle.acpi_write.specs.Shortest.{NoItemsAreShorter, ReadTermsAreWritten, SpelledItemsAreTyped};
ghost use Rattle.acpi_write.specs.TermLaws.{TermsAreSpelled};

/// The shortest spelling of items spells them, so that they are read from it again.
pub fn items_are_spelled()
    ensures { ItemsAreSpelled }
{}

/// The shortest spelling of the terms of a method body spells them, so that they are read from it again.
pub fn terms_are_spelled()
    ensures { TermsAreSpelled }
{}

/// Items that some bytes spell have a shortest spelling, which is no longer than these, also with shorter code in
/// their methods; and their numbers, names and segments are of the types that a value in memory has.
pub fn no_items_are_shorter()
    ensures within { NoItemsAreShorter }
    ensures typed { SpelledItemsAreTyped }
{}

/// What is written of the terms of a body that is read is read as the same terms, and isn't longer than the body.
pub fn read_terms_are_written()
    ensures { ReadTermsAreWritten }
{}
