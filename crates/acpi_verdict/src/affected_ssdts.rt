//! Which SSDTs declare a path that the DSDT missed or awaits in its load alone.

ghost use Rattle.std.specs.Prelude.{◌≡◌, true, set, get_or, IfOk, OnOk};
ghost use Rattle.std.specs.FinMap.{entries};
ghost use Rattle.acpi_space.specs.Laws.{Among};
ghost use Rattle.acpi_verdict.specs.steps.Defining.{IsOther};
ghost use Rattle.acpi_verdict.specs.steps.AffectedSsdts.{IsFirst, Marks, IsNotedAtAny, AreAffected};

use crate::definers::{Definer, Definers};
use crate::misses::Misses;
use acpi_name::Path;
use acpi_space::{MapSpace, Space};
use std::alloc::{AllocError, Global};

/// What the DSDT missed and awaits in its load alone, and which SSDTs declare some of it.
#[derive(Drop)]
pub(crate) struct DsdtMisses {
    /// What its links and bodies missed and await.
    pub(crate) misses: Misses,
    /// Whether an SSDT declares a path of these, by its number.
    pub(crate) affected: Vec<bool>,
}

// Marks a number.
fn mark(affected: &mut Vec<bool>, number: usize)
    ensures { affected.new.items ≡ set affected.old.items number true }
{
    if number < affected.len() {
        affected[number] = true;
    }
}

// Marks the numbers of SSDTs.
fn mark_all(affected: &mut Vec<bool>, definers: &[Definer])
    ensures { Marks affected.old.items affected.new.items (Among definers.now) }
{
    for definer in definers {
        mark(affected, definer.number);
    }
}

// Marks the first SSDT that declares the path.
fn mark_first(affected: &mut Vec<bool>, definers: &Definers, path: &Path)
    ensures { Marks affected.old.items affected.new.items (IsFirst definers.now path.now) }
{
    if let Some(first) = definers.first.get(path) {
        mark(affected, first.number);
    }
}

// Marks the others that do.
fn mark_others(affected: &mut Vec<bool>, definers: &Definers, path: &Path)
    ensures { Marks affected.old.items affected.new.items (IsOther definers.now.others path.now) }
{
    if let Some(others) = definers.others.get(path) {
        mark_all(affected, others);
    }
}

// Marks those that declare one of the paths.
fn mark_paths<V: Drop>(
    affected: &mut Vec<bool>,
    definers: &Definers,
    paths: &MapSpace<V>,
) -> Result<(), AllocError>
    ensures { OnOk result (Marks affected.old.items affected.new.items
        (IsNotedAtAny definers.now (entries paths.now))) }
{
    for (path, _) in paths.pairs()? {
        mark_first(affected, definers, &path);
        mark_others(affected, definers, &path);
    }
    Ok(())
}

/// Whether each SSDT declares a path that the DSDT missed or awaits alone, by its number. There are so many SSDTs.
pub(crate) fn affected_ssdts(
    alloc: Global,
    definers: &Definers,
    alone: &Misses,
    count: usize,
) -> Result<Vec<bool>, AllocError>
    ensures { IfOk result (λ v. AreAffected definers.now alone.now v.items) }
{
    let mut affected = Vec::new(alloc);
    for _ in 0..=count {
        affected.push(false)?;
    }
    mark_paths(&mut affected, definers, &alone.missed)?;
    mark_paths(&mut affected, definers, &alone.awaited)?;
    Ok(affected)
}

impl DsdtMisses {
    /// Whether the SSDT of that number declares a path of these.
    pub(crate) fn affects(&self, number: usize) -> bool
        ensures { result ≡ get_or self.now.affected.items number true }
    {
        match self.affected.get(number) {
            Some(affects) => *affects,
            None => true,
        }
    }
}
