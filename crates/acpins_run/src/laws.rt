//! What follows of runs from what `run` promises. Each law is the contract of a call that does nothing.

ghost use Rattle.acpins_words.specs.Words.{listing, checking};
ghost use Rattle.acpins_run.specs.RunLaws.{ListingIsOfJoin, ListingsAreAlike, ShowingIsOfJoin, ShowingsAreAlike};
ghost use Rattle.acpins_run.specs.RunLaws.{NoOrderIsRefused, NoOrderHidesPath, EachOrderCommutes};
ghost use Rattle.acpins_run.specs.RunLaws.{StoredAreListedAlike, NoneStoredIsRefused, StoredStay};

/// Where `check` ended with status 0, `list` of the same tables, with the SSDTs in any order, prints the listing of the
/// join of the single loads, and `show` an object of it, if they end with status 0. So each order has the same listing,
/// and shows the same of each path.
pub fn any_order_prints_alike()
    ensures listing { ListingIsOfJoin }
    ensures alike { ListingsAreAlike }
    ensures showing { ShowingIsOfJoin }
    ensures shown_alike { ShowingsAreAlike }
{}

/// Where `check` ended with status 0, `list` and `check` of the same tables, with the SSDTs in any order, fail only because
/// a file can't be read, standard output can't be written, or there is no memory; so does `show` of a path that is shown
/// in some order. If such a `check` doesn't fail, it prints `commute`.
pub fn no_order_is_refused()
    ensures listing { NoOrderIsRefused listing }
    ensures checking { NoOrderIsRefused checking }
    ensures showing { NoOrderHidesPath }
    ensures commute { EachOrderCommutes }
{}

/// What `rewrite` stored is listed as its input is, `list` of it fails only as above, and `rewrite` of it stores the same
/// bytes.
pub fn rewritten_files_stay()
    ensures listing { StoredAreListedAlike }
    ensures listed { NoneStoredIsRefused }
    ensures rewriting { StoredStay }
{}
