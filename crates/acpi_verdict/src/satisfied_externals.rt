//! Which methods that bodies await SSDTs declare.

ghost use Rattle.std.specs.Prelude.{◌≡◌, ◌↔◌, ◌∷◌, [], ◌++◌, OnOk, Some};
ghost use Rattle.std.specs.FinMap as finite;
ghost use Rattle.std.specs.List.Sorted.{IsStrictlySortedBy};
ghost use Rattle.acpi_space.specs.Laws.{Among};
ghost use Rattle.acpi_verdict.specs.SatisfiedView.{satisfied_cmp};
ghost use Rattle.acpi_verdict.specs.steps.Defining.{IsOther};
ghost use Rattle.acpi_verdict.specs.steps.Finding.{AddsSatisfied, IsSatisfiedAt, IsSatisfiedByAny, IsSatisfiedOf, PutsSatisfied};

use crate::definers::{Definer, Definers};
use crate::verdicts::Satisfied;
use acpi_name::Path;
use acpi_space::{MapSpace, Space, TreeSpace};
use std::alloc::{AllocError, Global};
use std::collections::BTreeMap;

// Adds that the SSDT declares what a body of the user awaits, where it does.
fn add_if_satisfied(
    found: &mut Vec<Satisfied>,
    user: usize,
    path: &Path,
    count: u8,
    definer: &Definer,
) -> Result<(), AllocError>
    ensures { OnOk result (AddsSatisfied found.old.items found.new.items
        (IsSatisfiedByAny user path.now count (definer.now ∷ []))) }
{
    if definer.number != user && definer.takes(count) {
        found.push(Satisfied {
            user,
            definer: definer.number,
            path: path.copy()?,
        })?;
    }
    Ok(())
}

// The same of several SSDTs.
fn add_all_satisfied(
    found: &mut Vec<Satisfied>,
    user: usize,
    path: &Path,
    count: u8,
    definers: &[Definer],
) -> Result<(), AllocError>
    ensures { OnOk result (AddsSatisfied found.old.items found.new.items
        (IsSatisfiedByAny user path.now count definers.now)) }
{
    for definer in definers {
        add_if_satisfied(found, user, path, count, definer)?;
    }
    Ok(())
}

// The same of the first SSDT that declares the path.
fn add_first(
    found: &mut Vec<Satisfied>,
    first: &TreeSpace<Definer>,
    user: usize,
    path: &Path,
    count: u8,
) -> Result<(), AllocError>
    ensures { OnOk result (AddsSatisfied found.old.items found.new.items
        (IsSatisfiedAt user path.now count (λ p x. finite.get first.now p ≡ Some x))) }
{
    match first.get(path) {
        Some(definer) => add_if_satisfied(found, user, path, count, definer),
        None => Ok(()),
    }
}

// The same of the others that do.
fn add_others(
    found: &mut Vec<Satisfied>,
    others: &BTreeMap<Path, Vec<Definer>>,
    user: usize,
    path: &Path,
    count: u8,
) -> Result<(), AllocError>
    ensures { OnOk result (AddsSatisfied found.old.items found.new.items
        (IsSatisfiedAt user path.now count (IsOther others.now))) }
{
    match others.get(path) {
        Some(definers) => add_all_satisfied(found, user, path, count, definers),
        None => Ok(()),
    }
}

// Adds which SSDTs declare the method that a body of the user awaits at the path.
fn add_satisfied(
    found: &mut Vec<Satisfied>,
    definers: &Definers,
    user: usize,
    path: &Path,
    count: u8,
) -> Result<(), AllocError>
    ensures { OnOk result (AddsSatisfied found.old.items found.new.items
        (IsSatisfiedOf definers.now user ((path.now, count) ∷ []))) }
{
    add_first(found, &definers.first, user, path, count)?;
    add_others(found, &definers.others, user, path, count)
}

// The same of all that bodies of the user await.
fn add_awaited(
    found: &mut Vec<Satisfied>,
    definers: &Definers,
    user: usize,
    awaited: &MapSpace<u8>,
) -> Result<(), AllocError>
    ensures { OnOk result (AddsSatisfied found.old.items found.new.items
        (IsSatisfiedOf definers.now user (finite.entries awaited.now))) }
{
    for (path, count) in awaited.pairs()? {
        add_satisfied(found, definers, user, &path, *count)?;
    }
    Ok(())
}

// Puts them in order, without repeats.
fn put_in_order(own: &mut Vec<Satisfied>)
    ensures ascend { IsStrictlySortedBy satisfied_cmp own.new.items }
    ensures same { (s : Satisfied) → Among own.new.items s ↔ Among own.old.items s }
{
    own.sort_unstable();
    own.dedup();
}

// Puts a list behind another. An empty one becomes that list, so that there is only one.
fn put_behind(list: &mut Vec<Satisfied>, own: Vec<Satisfied>) -> Result<(), AllocError>
    ensures { OnOk result (list.new.items ≡ list.old.items ++ own.items) }
{
    if list.is_empty() {
        *list = own;
        return Ok(());
    }
    for one in own {
        list.push(one)?;
    }
    Ok(())
}

/// Puts the Externals of the user that SSDTs satisfy behind those of earlier users, in their order.
pub(crate) fn put_user(
    alloc: Global,
    list: &mut Vec<Satisfied>,
    definers: &Definers,
    user: usize,
    awaited: &MapSpace<u8>,
) -> Result<(), AllocError>
    ensures { OnOk result (PutsSatisfied list.old.items list.new.items
        (IsSatisfiedOf definers.now user (finite.entries awaited.now))) }
{
    let mut own = Vec::new(alloc);
    add_awaited(&mut own, definers, user, awaited)?;
    put_in_order(&mut own);
    put_behind(list, own)
}
