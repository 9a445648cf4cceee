//! Which Externals of one another's tables SSDTs satisfy.

ghost use Rattle.std.specs.Prelude.{◌≡◌, ◌↔◌, ◌⊎◌, ◌∷◌, [], ℕ, List, map, IfOk, IfErr, OnOk};
ghost use Rattle.std.specs.List.Sorted.{IsStrictlySortedBy};
ghost use Rattle.acpi_space.specs.Laws.{Among};
ghost use Rattle.acpi_declare.specs.Declaring.{HasTables, state_of};
ghost use Rattle.acpi_declare.specs.Refusals.{IsLoadFault};
ghost use Rattle.acpi_order.specs.Singles.{IsSatisfied};
ghost use Rattle.acpi_order.specs.Verdicts.{DsdtLoads, AllAlone};
ghost use Rattle.acpi_verdict.specs.SatisfiedView.{satisfied_cmp, AreSatisfied};
ghost use Rattle.acpi_verdict.specs.VerdictView.{IsSinglesFault};

use crate::findings::find_all;
use crate::ssdt_paths::lay_all_overlays;
use crate::verdicts::Satisfied;
use acpi_declare::{Declaring, LoadFault, shared_tables};
use acpi_space::Space;
use acpi_terms::{Depth, Object};
use bytes::Bytes;
use std::alloc::Global;

// The Externals that SSDTs satisfy, over a DSDT that is declared.
fn satisfied_over<S: Space<Object>>(
    alloc: Global,
    dsdt: &Declaring<S>,
    ssdts: &[Bytes],
    depth: Depth,
) -> Result<Vec<Satisfied>, LoadFault>
    ensures ok { (bytes : List ℕ) → HasTables depth (bytes ∷ []) (state_of S.contents dsdt.now)
        → IfOk result (λ v. AreSatisfied depth bytes ssdts.now v.items) }
    ensures loads { (bytes : List ℕ) → HasTables depth (bytes ∷ []) (state_of S.contents dsdt.now)
        → OnOk result (AllAlone depth bytes ssdts.now) }
    ensures err { (bytes : List ℕ) → HasTables depth (bytes ∷ []) (state_of S.contents dsdt.now)
        → IfErr result (λ e. IsSinglesFault depth bytes ssdts.now e) }
{
    let declared = lay_all_overlays(alloc, dsdt, ssdts, depth)?;
    let found = find_all(alloc, dsdt, ssdts, depth, &declared.definers)?;
    Ok(found.satisfied)
}

/// Which Externals SSDTs satisfy: a body of a table, the DSDT or an SSDT over it, awaits a method, and another SSDT
/// declares one of as many arguments at its path. They come in the order of user, definer and path, without repeats.
/// Where the DSDT doesn't load by itself, its refusal is the error; else that of the first SSDT that doesn't load over
/// it alone, under the SSDT's number from 1.
pub fn satisfied_shared<S: Space<Object>>(
    alloc: Global,
    dsdt: &Bytes,
    ssdts: &[Bytes],
    depth: Depth,
) -> Result<Vec<Satisfied>, LoadFault>
    ensures ok { IfOk result (λ v. (t : Satisfied) → Among v.items t
        ↔ IsSatisfied depth dsdt.now ssdts.now t.user t.definer t.path) }
    ensures ascend { IfOk result (λ v. IsStrictlySortedBy satisfied_cmp v.items) }
    ensures loads { OnOk result (DsdtLoads depth dsdt.now × AllAlone depth dsdt.now ssdts.now) }
    ensures err { IfErr result (λ e. IsLoadFault depth (dsdt.now ∷ []) e
        ⊎ IsSinglesFault depth dsdt.now ssdts.now e) }
{
    let declared: Declaring<S> = Declaring::dsdt(alloc, dsdt, depth)?;
    satisfied_over(alloc, &declared, ssdts, depth)
}

/// The same as `satisfied_shared`, over one copy of each table.
pub fn satisfied<S: Space<Object>>(
    alloc: Global,
    dsdt: &[u8],
    ssdts: &[&[u8]],
    depth: Depth,
) -> Result<Vec<Satisfied>, LoadFault>
    ensures ok { IfOk result (λ v. (t : Satisfied) → Among v.items t
        ↔ IsSatisfied depth dsdt.now (map (λ b. b.now) ssdts.now) t.user t.definer t.path) }
    ensures ascend { IfOk result (λ v. IsStrictlySortedBy satisfied_cmp v.items) }
    ensures loads { OnOk result (DsdtLoads depth dsdt.now
        × AllAlone depth dsdt.now (map (λ b. b.now) ssdts.now)) }
    ensures err { IfErr result (λ e. IsLoadFault depth (dsdt.now ∷ []) e
        ⊎ IsSinglesFault depth dsdt.now (map (λ b. b.now) ssdts.now) e) }
{
    let dsdt = Bytes::copy_from_slice(alloc, dsdt)?;
    let ssdts = shared_tables(alloc, ssdts)?;
    satisfied_shared::<S>(alloc, &dsdt, &ssdts, depth)
}
