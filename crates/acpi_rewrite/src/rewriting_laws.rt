//! Laws of rewriting, on the definitions alone: the functions do nothing, and their contracts state the laws.

ghost use Rattle.acpi_rewrite.specs.RewritingLaws.{RewrittenLoadAlike, RewrittenStay, OneRewriting, NoneGrows};

/// Rewritten tables load to the machine that the tables load to: its objects, links and bodies.
pub fn rewritten_load_alike()
    ensures { RewrittenLoadAlike }
{}

/// Rewritten tables are their own rewritten tables.
pub fn rewritten_stay()
    ensures { RewrittenStay }
{}

/// Tables are rewritten in one way.
pub fn one_rewriting()
    ensures { OneRewriting }
{}

/// No table is longer when it is rewritten.
pub fn none_grows()
    ensures { NoneGrows }
{}
