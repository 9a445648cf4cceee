//! What holds of every search: the functions do nothing, and their contracts state the laws.
ghost use Rattle.acpi_space.specs.Laws.{AnswerIsKept, MissedAreFewer, MissedArePast, MissedIsKept, MissedIsPlace, OtherIsAtPlace, PlainIsLongest};

/// A plain name means the path below the longest beginning of the scope that has it, and nothing
/// only where no beginning has it; any other name means its place (ACPI 6.5, 5.3).
pub fn search_is_longest()
    ensures plain { PlainIsLongest }
    ensures other { OtherIsAtPlace }
{}

/// A plain name misses the paths below the beginnings of the scope that are longer than its answer, and
/// all of them where it has none; any other name misses its place, where that is not defined.
pub fn missed_are_past_the_answer()
    ensures plain { MissedArePast }
    ensures other { MissedIsPlace }
{}

/// A search answers as before, and misses as before, where no path came that it missed.
pub fn search_is_kept()
    ensures answer { AnswerIsKept }
    ensures missed { MissedIsKept }
{}

/// With more paths defined a search misses no path that it did not miss before.
pub fn missed_are_fewer()
    ensures { MissedAreFewer }
{}
