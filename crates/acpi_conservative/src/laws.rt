//! The law that the survey extends the strict load: the functions do nothing, and their contracts state the law.
ghost use Rattle.acpi_conservative.specs.Parts.{StrictReadIsDeclared};
ghost use Rattle.acpi_conservative.specs.StrictNodes.{StrictIsKept};
ghost use Rattle.acpi_conservative.specs.Laws.{StrictIsListing, StrictLoadIsSurvey, StrictTablesAreSurvey, PredefinedAgrees, PredefinedIsKnown, StrictFileIsCut, StrictTableIsRead, StrictReadIsSurvey, StrictReadIsItems, StrictHasNoProblem, StrictHasNoNote, StrictLinks, StrictCertain, StrictCounts, StrictExternals, StrictBodies, StrictMachineBodies};

use acpi_outline::Known;

/// Where a code spells strict items, its outline is these: nothing is lost, and there is no statement.
pub fn strict_is_kept<K: Known>()
    ensures { StrictIsKept K.rules }
{}

/// Where item trees of tables have strict listings, their nodes have these listings, and the surveys are these: no
/// entry has a condition, and nothing is refused. So it is where a list of byte strings has strict listings, as `load`
/// needs.
pub fn strict_load_is_survey()
    ensures listing { StrictIsListing }
    ensures survey { StrictLoadIsSurvey }
    ensures tables { StrictTablesAreSurvey }
{}

/// The ten predefined objects agree with the terms before any table, and each of these is known for certain.
pub fn predefined_is_known()
    ensures agrees { PredefinedAgrees }
    ensures known { PredefinedIsKnown }
{}

/// A file that holds whole tables, one behind another, is cut into these: the survey reads the tables that the strict
/// load does.
pub fn strict_file_is_cut_alike()
    ensures { StrictFileIsCut }
{}

/// Of a table of the strict load all of its code is read, and nothing is wrong with it. Where a list of tables has
/// strict listings, as `load` needs, the entries that the survey reads of the same bytes are these, in their order,
/// without conditions, and nothing is refused.
pub fn strict_read_is_survey()
    ensures tables { StrictTableIsRead }
    ensures entries { StrictReadIsSurvey }
{}

/// So the nodes that are read of each table are its items, and the survey has no problem and no note.
pub fn strict_read_is_whole()
    ensures items { StrictReadIsItems }
    ensures problems { StrictHasNoProblem }
    ensures notes { StrictHasNoNote }
{}

/// So the entries that the survey reads are those of the objects that the listings declare, in their order: each stands
/// at the object's path, is declared in its scope, and the part of the tables that declares it is the object's.
pub fn strict_objects_have_parts()
    ensures { StrictReadIsDeclared }
{}

/// Behind them the links of each entry are what the strict load finds over all objects, each found for certain, and as
/// many values follow a name in a method's body, whatever the Externals say.
pub fn strict_links_and_counts()
    ensures links { StrictLinks }
    ensures certain { StrictCertain }
    ensures counts { StrictCounts }
{}

/// The Externals of each table say the same in the survey and in the strict load. So where the load has the terms of a
/// method's code, the survey's body of that entry has the same; where the load has none, neither has the survey, or its
/// terms load or unload a table. Where tables load to a machine, the bodies of its methods are these.
pub fn strict_bodies_are_read()
    ensures externals { StrictExternals }
    ensures bodies { StrictBodies }
    ensures machine { StrictMachineBodies }
{}
