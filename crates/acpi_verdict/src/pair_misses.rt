//! What the load of a DSDT with an SSDT missed and awaits, of the paths that SSDTs declare.

ghost use Rattle.std.specs.Prelude.{◌≡◌, ◌⊎◌, false, IfOk};
ghost use Rattle.std.specs.FinMap as finite;
ghost use Rattle.acpi_declare.specs.Namespace.{namespace_of};
ghost use Rattle.acpi_space.specs.Spaces.{is_defined};
ghost use Rattle.acpi_verdict.specs.steps.PairMisses.{pair_view, part_misses, ArePairMisses};
ghost use Rattle.acpi_verdict.specs.steps.Misses.{AreMisses};
ghost use Rattle.acpi_declare.specs.Declaring.{state_of};

use crate::misses::Misses;
use crate::table_misses::{missed_scopes, table_misses};
use acpi_declare::Declaring;
use acpi_space::{MapSpace, Space};
use acpi_terms::{Depth, Object};
use std::alloc::{AllocError, Global};

/// What links and bodies of the DSDT missed and await, in its load with an SSDT.
#[derive(Drop)]
pub(crate) enum DsdtPart<'a> {
    /// The same as in the load of the DSDT alone.
    Alone(&'a Misses),
    /// What they missed when they were searched again, since the SSDT declares a path of those.
    Again(Misses),
}

/// What the load of the DSDT with an SSDT missed and awaits.
#[derive(Drop)]
pub(crate) struct PairMisses<'a> {
    /// What the SSDT missed and awaits.
    pub(crate) own: Misses,
    /// What the DSDT missed and awaits.
    pub(crate) under: DsdtPart<'a>,
}

impl DsdtPart<'_> {
    /// What they missed and await.
    pub(crate) fn misses(&self) -> &Misses
        ensures { result.now ≡ part_misses self.now }
    {
        match self {
            DsdtPart::Alone(misses) => *misses,
            DsdtPart::Again(misses) => misses,
        }
    }
}

/// What the DSDT's links and bodies miss and await in its load alone.
pub(crate) fn dsdt_misses<S: Space<Object>, W, T: Space<W>>(
    alloc: Global,
    dsdt: &Declaring<S>,
    depth: Depth,
    among: &T,
) -> Result<Misses, AllocError>
    ensures { IfOk result (λ t. AreMisses (is_defined (T.contents among.now)) depth
        (state_of S.contents dsdt.now).objects (state_of S.contents dsdt.now) finite.empty t) }
{
    table_misses(
        alloc,
        dsdt,
        dsdt.objects(),
        depth,
        among,
        MapSpace::new(alloc),
    )
}

// What the DSDT's links and bodies miss and await with the SSDT. They are searched again only where it declares a path
// of `alone`, what they missed and await in the load of the DSDT alone.
fn dsdt_part<'a, S: Space<Object>, O: Space<Object>, W, T: Space<W>>(
    alloc: Global,
    dsdt: &Declaring<S>,
    objects: &O,
    depth: Depth,
    affected: bool,
    alone: &'a Misses,
    among: &T,
) -> Result<DsdtPart<'a>, AllocError>
    ensures { IfOk result (λ u. ((affected ≡ false) × (part_misses u ≡ alone.now))
        ⊎ AreMisses (is_defined (T.contents among.now)) depth (namespace_of
        (O.contents objects.now)) (state_of S.contents dsdt.now) finite.empty (part_misses u)) }
{
    if affected {
        let misses = table_misses(alloc, dsdt, objects, depth, among, MapSpace::new(alloc))?;
        Ok(DsdtPart::Again(misses))
    } else {
        Ok(DsdtPart::Alone(alone))
    }
}

/// What the load with one SSDT missed and awaits, where it is known whether the SSDT declares a path of `alone`.
pub(crate) fn pair_misses<'a, S: Space<Object>, O: Space<Object>, W, T: Space<W>>(
    alloc: Global,
    dsdt: &Declaring<S>,
    declared: &Declaring<O>,
    depth: Depth,
    affected: bool,
    alone: &'a Misses,
    among: &T,
) -> Result<PairMisses<'a>, AllocError>
    ensures { IfOk result (λ t. ArePairMisses (is_defined (T.contents among.now)) depth
        (state_of S.contents dsdt.now) alone.now affected (state_of O.contents declared.now)
        (pair_view t)) }
{
    let scopes = missed_scopes(alloc, declared.notes(), among)?;
    let own = table_misses(alloc, declared, declared.objects(), depth, among, scopes)?;
    let under = dsdt_part(
        alloc,
        dsdt,
        declared.objects(),
        depth,
        affected,
        alone,
        among,
    )?;
    Ok(PairMisses { own, under })
}
