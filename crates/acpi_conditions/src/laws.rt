//! Laws of the survey, of the definitions alone: the functions do nothing, and their contracts state the laws.
ghost use Rattle.acpi_conditions.specs.Laws.{SurveyIsExact, MadeIsEntry, UnconditionalIsMade, KnownStaysTrue, RunsExist, ComesByWay, TakesTheWay, RunsTakeTheWay, ObjectsStay, ObjectsStandExactly, CertainIsNotDeclared, CandidatesCover, SeenIsTrue, LinksCover, StrictIsSurvey, TestsDecide, LongerBegins, WalkIsSurvey, EmptyElseIsNone, TableWalkIsSurveys, SeenAmongAll, NamesAmongAll, LinksAmongAll};
ghost use Rattle.acpi_conditions.specs.Examples.{InBothBranches, ScopeBehindBoth, NameThrice, ThirdIsRefused, NeedsLater, NeedsEarlier, BreakInWhile, ReturnInIf, MadeBetween, SecondRound, BranchesInWhile, ElseAlone, ElseOfLostIf, FieldSeesItsBranch, RoundsSeeBothBranches};

/// In every run of tables whose survey refuses no Scope as unsure, with any choice at each If and any number of rounds
/// at each While, a term to which control comes declares its object exactly where what its entry asks is so at that
/// moment. A refused term declares none. So all that is declared is an entry, and an entry without a condition is
/// declared in every run.
pub fn survey_is_sound()
    ensures exact { SurveyIsExact }
    ensures entries { MadeIsEntry }
    ensures unconditional { UnconditionalIsMade }
    ensures known { KnownStaysTrue }
    ensures runs { RunsExist }
{}

/// Where no two nodes stand at one place, control comes in each run to the term of each entry outside of Whiles, unless
/// it misses a turn of the entry's way: it takes the other branch of an If, doesn't go into a term around, or is
/// stopped. Where it comes to the term, it has taken each of these turns. In a run of any nodes, such as one round of a
/// While, it takes in the same run each of these turns that stands among the nodes, but not inside a While among them
/// that is around the entry; so past a stop it was not stopped in the same round.
pub fn control_comes_by_the_way()
    ensures unless_missed { ComesByWay }
    ensures taken { TakesTheWay }
    ensures rounds { RunsTakeTheWay }
{}

/// So the object of an entry outside of Whiles stands at the end of a run exactly where control took each turn of its
/// way, and what the entry asks was so when control came to its term. Tables behind the entry's own change nothing of
/// that, whatever they refuse: objects stay. What is certain before the tables is declared by none of them.
pub fn objects_stand_exactly()
    ensures stay { ObjectsStay }
    ensures exact { ObjectsStandExactly }
    ensures certain { CertainIsNotDeclared }
{}

/// A name is found at one of its candidates, if it is found, and it is found where one of them is certain. Where
/// control came to the term of an entry outside of Whiles, that holds at the end of all tables of what is seen from the
/// entry.
pub fn links_are_sound()
    ensures candidates { CandidatesCover }
    ensures seen { SeenIsTrue }
    ensures links { LinksCover }
{}

/// What is seen from an entry stays the same where the objects that are there before all tables are counted among the
/// entries of the tables, in front of them.
pub fn known_is_seen_among_all()
    ensures seen { SeenAmongAll }
    ensures names { NamesAmongAll }
    ensures links { LinksAmongAll }
{}

/// Where tables have a strict listing, it is their survey, and no entry has a condition.
pub fn strict_is_survey()
    ensures { StrictIsSurvey }
{}

/// What nodes give depends on what is known by four tests alone: whether something is certain at a path, or a scope,
/// and whether something is possible there, or a scope.
pub fn tests_decide()
    ensures { TestsDecide }
{}

/// Further tables change nothing of the surveys of those before them.
pub fn longer_begins()
    ensures { LongerBegins }
{}

/// A walk over nodes, one step after another, gives their survey, and through tables it gives theirs. An If without an
/// Else is walked as one whose Else has nothing inside.
pub fn walk_is_survey()
    ensures nodes { WalkIsSurvey }
    ensures no_else { EmptyElseIsNone }
    ensures tables { TableWalkIsSurveys }
{}

/// The survey of small tables.
pub fn small_tables()
    ensures both { InBothBranches }
    ensures scope { ScopeBehindBoth }
    ensures thrice { NameThrice }
    ensures refused { ThirdIsRefused }
    ensures later { NeedsLater }
    ensures earlier { NeedsEarlier }
    ensures broken { BreakInWhile }
    ensures returned { ReturnInIf }
    ensures between { MadeBetween }
    ensures second { SecondRound }
    ensures rounds { BranchesInWhile }
    ensures else_alone { ElseAlone }
    ensures else_of_lost_if { ElseOfLostIf }
    ensures field { FieldSeesItsBranch }
    ensures both_seen { RoundsSeeBothBranches }
{}
