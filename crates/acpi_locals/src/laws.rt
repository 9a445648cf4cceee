//! Laws of the definitions alone: each function does nothing, and its contract states a law.
ghost use Rattle.acpi_locals.specs.Laws.{LinesAreReached, PathsHaveObjects};

/// What the lines before a statement declare is what counts as declared where the reading of the body comes to it.
pub fn lines_are_reached()
    ensures { LinesAreReached }
{}

/// A statement that is read declares objects at exactly the paths that count as declared behind it.
pub fn paths_have_objects()
    ensures { PathsHaveObjects }
{}
