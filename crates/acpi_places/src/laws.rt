//! What follows from the definitions alone. Each law is the contract of a call that does nothing.

ghost use Rattle.acpi_places.specs.Laws.{EachIsPlaced, OneCodePlaces};

/// Tables that load say alone where the code of their methods stands.
pub fn one_code_places()
    ensures { OneCodePlaces }
{}

/// At the path of each method stands the place of its own code: no two methods of a load have one path.
pub fn each_is_placed()
    ensures { EachIsPlaced }
{}
