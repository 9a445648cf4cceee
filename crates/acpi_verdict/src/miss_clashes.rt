//! Where SSDTs declare what the load of another missed.

ghost use Rattle.std.specs.Prelude.{◌≡◌, ◌∷◌, [], OnOk};
ghost use Rattle.std.specs.FinMap as finite;
ghost use Rattle.acpi_verdict.specs.steps.Clashing.{Offers};
ghost use Rattle.acpi_verdict.specs.steps.Finding.{IsMissedOf, IsAwaitedOf, IsUnmetOf};

use crate::clashes::{Clash, offer};
use crate::definers::Definer;
use crate::misses::Misses;
use acpi_name::Path;
use acpi_space::{MapSpace, Space, TreeSpace};
use std::alloc::AllocError;

// Offers the clash with the SSDT that declares a path which was missed.
fn offer_missed(
    clash: &mut Option<Clash>,
    definers: &TreeSpace<Definer>,
    searcher: usize,
    path: &Path,
) -> Result<(), AllocError>
    ensures { OnOk result (Offers clash.old clash.new
        (IsMissedOf definers.now searcher (path.now ∷ []))) }
{
    match definers.get(path) {
        Some(definer) if definer.number != searcher => {
            offer(clash, searcher, definer.number, path)
        }
        _ => Ok(()),
    }
}

// Offers the clash with the SSDT that declares something else than the method which is awaited there.
fn offer_awaited(
    clash: &mut Option<Clash>,
    definers: &TreeSpace<Definer>,
    searcher: usize,
    path: &Path,
    count: u8,
) -> Result<(), AllocError>
    ensures { OnOk result (Offers clash.old clash.new
        (IsAwaitedOf definers.now searcher ((path.now, count) ∷ []))) }
{
    match definers.get(path) {
        Some(definer) if definer.number != searcher && !definer.takes(count) => {
            offer(clash, searcher, definer.number, path)
        }
        _ => Ok(()),
    }
}

// The same of all that were missed.
fn offer_all_missed(
    clash: &mut Option<Clash>,
    definers: &TreeSpace<Definer>,
    searcher: usize,
    missed: &MapSpace<()>,
) -> Result<(), AllocError>
    ensures { OnOk result (Offers clash.old clash.new
        (IsMissedOf definers.now searcher (finite.keys missed.now))) }
{
    for (path, _) in missed.pairs()? {
        offer_missed(clash, definers, searcher, &path)?;
    }
    Ok(())
}

// The same of all that are awaited.
fn offer_all_awaited(
    clash: &mut Option<Clash>,
    definers: &TreeSpace<Definer>,
    searcher: usize,
    awaited: &MapSpace<u8>,
) -> Result<(), AllocError>
    ensures { OnOk result (Offers clash.old clash.new
        (IsAwaitedOf definers.now searcher (finite.entries awaited.now))) }
{
    for (path, count) in awaited.pairs()? {
        offer_awaited(clash, definers, searcher, &path, *count)?;
    }
    Ok(())
}

/// Keeps the first of the clash that is there and of those of the searcher with SSDTs that declare what was missed, or
/// something else than what is awaited.
pub(crate) fn offer_misses(
    clash: &mut Option<Clash>,
    definers: &TreeSpace<Definer>,
    searcher: usize,
    misses: &Misses,
) -> Result<(), AllocError>
    ensures { OnOk result (Offers clash.old clash.new
        (IsUnmetOf definers.now searcher misses.now)) }
{
    offer_all_missed(clash, definers, searcher, &misses.missed)?;
    offer_all_awaited(clash, definers, searcher, &misses.awaited)
}
