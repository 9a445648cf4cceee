//! Laws of outlines, of the definitions alone. Each law is the contract of a call that does nothing.

ghost use Rattle.acpi_outline.specs.Laws.{HasOutline, AtMostOneOutline, NodesTile};
ghost use Rattle.acpi_outline.specs.Contained.{PackagesContain};
ghost use Rattle.acpi_outline.specs.Reasons.{ReasonsLieInTheirRanges};

use crate::known::Known;

/// Every code has an outline, whatever is known.
pub fn has_outline<K: Known>()
    ensures { HasOutline K.rules }
{}

/// It has one alone.
pub fn at_most_one_outline<K: Known>()
    ensures { AtMostOneOutline K.rules }
{}

/// The nodes of an outline tile the code.
pub fn nodes_tile<K: Known>()
    ensures { NodesTile K.rules }
{}

/// The reason of what is lost has its place in it, or at its end.
pub fn reasons_lie_in_their_ranges<K: Known>()
    ensures { ReasonsLieInTheirRanges K.rules }
{}

/// What a package holds may become any other bytes, as many: no node around it changes, if what is known behind it
/// stays the same.
pub fn packages_contain<K: Known>()
    ensures { PackagesContain K.rules }
{}
