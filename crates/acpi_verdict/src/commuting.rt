//! Whether SSDTs commute over a DSDT.

ghost use Rattle.std.specs.Prelude.{◌≡◌, ◌≢◌, ◌↔◌, ◌∷◌, [], map, IfOk, IfErr};
ghost use Rattle.acpi_declare.specs.Loads.{HasNoLoad};
ghost use Rattle.acpi_declare.specs.Refusals.{IsLoadFault};
ghost use Rattle.acpi_order.specs.Independent.{IsIndependent};
ghost use Rattle.acpi_order.specs.Orders.{EachOrderLoadsToJoin};
ghost use Rattle.acpi_order.specs.Verdicts.{IsVerdict};
ghost use Rattle.acpi_verdict.specs.VerdictView.{verdict_view, IsFaultOf};

use crate::checking::check_shared;
use crate::verdicts::Verdict;
use acpi_declare::{LoadFault, shared_tables};
use acpi_space::Space;
use acpi_terms::{Depth, Object};
use bytes::Bytes;
use std::alloc::Global;

/// Whether SSDTs commute over a DSDT: the first of these that holds. One SSDT is refused over the DSDT alone; two
/// declare one path; the load of one with the DSDT missed a path that another declares; else they commute. Of several
/// the first is reported: the least number, or the least pair of numbers and then the least path. (A path that was missed
/// only by names that took their argument count from an External of that path may be declared, as a method of that many
/// arguments.) Where the DSDT doesn't load by itself, its refusal is the error.
///
/// With at least one SSDT they commute exactly where they are independent, and then `load` of them in any order is the
/// union of their single loads.
pub fn verdict_shared<S: Space<Object>>(
    alloc: Global,
    dsdt: &Bytes,
    ssdts: &[Bytes],
    depth: Depth,
) -> Result<Verdict, LoadFault>
    ensures ok { IfOk result (λ v. IsVerdict depth dsdt.now ssdts.now (verdict_view v)) }
    ensures fault { IfOk result (λ v. IsFaultOf depth dsdt.now ssdts.now v) }
    ensures commute { ssdts.now ≢ [] → IfOk result
        (λ v. (v ≡ Verdict.Commute) ↔ IsIndependent depth dsdt.now ssdts.now) }
    ensures orders { ssdts.now ≢ [] → IfOk result
        (λ v. v ≡ Verdict.Commute → EachOrderLoadsToJoin depth dsdt.now ssdts.now) }
    ensures err { IfErr result (λ e. IsLoadFault depth (dsdt.now ∷ []) e) }
    ensures none { IfErr result (λ e. e ≢ LoadFault.Memory → HasNoLoad depth (dsdt.now ∷ [])) }
{
    Ok(check_shared::<S>(alloc, dsdt, ssdts, depth)?.verdict)
}

/// The same as `verdict_shared`, over one copy of each table.
pub fn verdict<S: Space<Object>>(
    alloc: Global,
    dsdt: &[u8],
    ssdts: &[&[u8]],
    depth: Depth,
) -> Result<Verdict, LoadFault>
    ensures ok { IfOk result (λ v. IsVerdict depth dsdt.now (map (λ b. b.now) ssdts.now)
        (verdict_view v)) }
    ensures fault { IfOk result (λ v. IsFaultOf depth dsdt.now (map (λ b. b.now) ssdts.now) v) }
    ensures commute { map (λ b. b.now) ssdts.now ≢ []
        → IfOk result (λ v. (v ≡ Verdict.Commute)
        ↔ IsIndependent depth dsdt.now (map (λ b. b.now) ssdts.now)) }
    ensures orders { map (λ b. b.now) ssdts.now ≢ []
        → IfOk result (λ v. v ≡ Verdict.Commute
        → EachOrderLoadsToJoin depth dsdt.now (map (λ b. b.now) ssdts.now)) }
    ensures err { IfErr result (λ e. IsLoadFault depth (dsdt.now ∷ []) e) }
    ensures none { IfErr result (λ e. e ≢ LoadFault.Memory → HasNoLoad depth (dsdt.now ∷ [])) }
{
    let dsdt = Bytes::copy_from_slice(alloc, dsdt)?;
    let ssdts = shared_tables(alloc, ssdts)?;
    verdict_shared::<S>(alloc, &dsdt, &ssdts, depth)
}
