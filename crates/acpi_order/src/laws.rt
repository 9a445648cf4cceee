//! Laws of independent SSDTs, on the definitions alone: the functions do nothing, and their contracts state the laws.
ghost use Rattle.acpi_order.specs.Laws.{OneMachine, IndependentTablesLoad, IndependentTablesJoin, AnyOrderLoadsAlike, LoadTellsJoin, EachOrderLoads, IndependentInAnyOrder, JoinInAnyOrder, OneJoin, AgreeingHaveJoin, JoinedAgree, CommuteIsIndependent, NoSsdtsCommute, OneVerdict, RefusedIsNotAlone, LeastSame, LeastMissed, SameByLists, MissedByLists, LinksStay, BodyStays, AwaitedIsFound};

/// Tables load to one machine at most.
pub fn one_machine()
    ensures { OneMachine }
{}

/// If each SSDT of a list of at least one loads alone over the DSDT, no two of them declare one path, and none
/// declares a path that another's single load missed (a body that isn't read misses what any name spelled at any of its
/// bytes would), then the DSDT with all of them, given in any order, loads to the machine whose objects, links and
/// bodies are the union of those of the single loads.
/// (A path that was missed only by names that took their argument count from an External of that path may be declared,
/// as a method of that many arguments.)
pub fn independent_tables_load()
    ensures exists { IndependentTablesLoad }
    ensures join { IndependentTablesJoin }
    ensures alike { AnyOrderLoadsAlike }
    ensures told { LoadTellsJoin }
    ensures orders { EachOrderLoads }
{}

/// Whether SSDTs are independent, and the join of their single loads, are the same for every order of them.
pub fn order_is_free()
    ensures independent { IndependentInAnyOrder }
    ensures join { JoinInAnyOrder }
{}

/// Machines have one join at most, and have one exactly where no two of them give a path two values.
pub fn one_join()
    ensures one { OneJoin }
    ensures agreeing { AgreeingHaveJoin }
    ensures joined { JoinedAgree }
{}

/// At most one verdict on SSDTs is right. With at least one it is `commute` exactly where they are independent, and
/// with none wherever the DSDT loads.
pub fn one_verdict()
    ensures one { OneVerdict }
    ensures commute { CommuteIsIndependent }
    ensures none { NoSsdtsCommute }
{}

/// The verdict is found by the numbers of the SSDTs: the first that is refused; or else the first pair, and then the
/// first path.
pub fn verdict_is_found_in_order()
    ensures refused { RefusedIsNotAlone }
    ensures same { LeastSame }
    ensures missed { LeastMissed }
{}

/// One more table leaves a link and a body of the others as they were, with what they miss and await, unless it
/// declares a path that they missed or await. So a load of the DSDT with one SSDT need search again, of the DSDT's
/// links and bodies, only those for which the SSDT declares such a path.
pub fn untouched_stays()
    ensures links { LinksStay }
    ensures bodies { BodyStays }
{}

/// What two single loads tell decides whether their SSDTs declare one path, and whether one misses what the other
/// declares.
pub fn singles_tell_clashes()
    ensures same { SameByLists }
    ensures missed { MissedByLists }
{}

/// What a body of independent SSDTs or of their DSDT awaits is what the name means in the load of all, where one of
/// the tables declares it.
pub fn awaited_is_found()
    ensures { AwaitedIsFound }
{}
