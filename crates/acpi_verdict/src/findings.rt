//! Where SSDTs clash by what their loads missed, and which Externals of one another they satisfy.

ghost use Rattle.std.specs.Prelude.{◌≡◌, ◌∷◌, [], ℕ, List, IfOk, IfErr, OnOk};
ghost use Rattle.std.specs.FinMap as finite;
ghost use Rattle.acpi_declare.specs.Declaring.{HasTables, state_of};
ghost use Rattle.acpi_order.specs.Independent.{LoadsAlone};
ghost use Rattle.acpi_order.specs.Verdicts.{IsSsdt, AllAlone};
ghost use Rattle.acpi_space.specs.Spaces.{is_defined};
ghost use Rattle.acpi_verdict.specs.steps.Declaring.{AreDefiners};
ghost use Rattle.acpi_verdict.specs.steps.Finding.{FindsPair, FindsSsdt, AreFound};
ghost use Rattle.acpi_verdict.specs.steps.PairMisses.{pair_view};
ghost use Rattle.acpi_verdict.specs.steps.AffectedSsdts.{AreAffected};
ghost use Rattle.acpi_verdict.specs.steps.Misses.{AreMisses};

use crate::affected_ssdts::{DsdtMisses, affected_ssdts};
use crate::clashes::Clash;
use crate::definers::Definers;
use crate::miss_clashes::offer_misses;
use crate::pair_misses::{PairMisses, dsdt_misses, pair_misses};
use crate::satisfied_externals::put_user;
use crate::verdicts::Satisfied;
use acpi_declare::{Declaring, LoadFault};
use acpi_space::Space;
use acpi_terms::{Depth, Object};
use bytes::Bytes;
use std::alloc::{AllocError, Global};

/// What the loads of SSDTs over a DSDT tell of one another.
#[derive(Drop)]
pub(crate) struct PairFindings {
    /// The first two of which the load of the one missed what the other declares, where no two declare one path.
    pub(crate) clash: Option<Clash>,
    /// The Externals that SSDTs satisfy, by user, definer and path.
    pub(crate) satisfied: Vec<Satisfied>,
}

// Adds what the load of the SSDT of that number missed and awaits.
fn add_pair(
    alloc: Global,
    found: &mut PairFindings,
    definers: &Definers,
    number: usize,
    pair: &PairMisses<'_>,
) -> Result<(), AllocError>
    ensures { OnOk result (FindsPair definers.now number (pair_view pair.now) found.old found.new) }
{
    offer_misses(&mut found.clash, &definers.first, number, &pair.own)?;
    offer_misses(
        &mut found.clash,
        &definers.first,
        number,
        pair.under.misses(),
    )?;
    put_user(
        alloc,
        &mut found.satisfied,
        definers,
        number,
        &pair.own.awaited,
    )
}

// Adds what the load of the SSDT of that number tells.
fn record_findings<S: Space<Object>>(
    alloc: Global,
    found: &mut PairFindings,
    dsdt: &Declaring<S>,
    number: usize,
    ssdt: &Bytes,
    depth: Depth,
    alone: &DsdtMisses,
    definers: &Definers,
) -> Result<(), LoadFault>
    ensures ok { (bytes : List ℕ) (ssdts : List (List ℕ))
        → HasTables depth (bytes ∷ []) (state_of S.contents dsdt.now)
        → AreMisses (is_defined definers.now.first) depth (state_of S.contents dsdt.now).objects
        (state_of S.contents dsdt.now) finite.empty alone.now.misses
        → AreAffected definers.now alone.now.misses alone.now.affected.items
        → AreDefiners depth bytes ssdts definers.now → IsSsdt ssdts number ssdt.now
        → OnOk result (FindsSsdt depth bytes ssdt.now definers.now number found.old found.new) }
    ensures err { (bytes : List ℕ) → HasTables depth (bytes ∷ []) (state_of S.contents dsdt.now)
        → LoadsAlone depth bytes ssdt.now → IfErr result (λ e. e ≡ LoadFault.Memory) }
{
    let declared = dsdt.ssdt_over(alloc, ssdt, depth)?;
    let pair = pair_misses(
        alloc,
        dsdt,
        &declared,
        depth,
        alone.affects(number),
        &alone.misses,
        &definers.first,
    )?;
    add_pair(alloc, found, definers, number, &pair)?;
    Ok(())
}

/// What the loads of SSDTs tell, over a DSDT and with who declares each path. Each SSDT is declared once more, so that
/// no more than one is held.
pub(crate) fn find_all<S: Space<Object>>(
    alloc: Global,
    dsdt: &Declaring<S>,
    ssdts: &[Bytes],
    depth: Depth,
    definers: &Definers,
) -> Result<PairFindings, LoadFault>
    ensures ok { (bytes : List ℕ) → HasTables depth (bytes ∷ []) (state_of S.contents dsdt.now)
        → AreDefiners depth bytes ssdts.now definers.now
        → IfOk result (λ f. AreFound depth bytes ssdts.now definers.now f) }
    ensures err { (bytes : List ℕ) → HasTables depth (bytes ∷ []) (state_of S.contents dsdt.now)
        → AllAlone depth bytes ssdts.now → IfErr result (λ e. e ≡ LoadFault.Memory) }
{
    let misses = dsdt_misses(alloc, dsdt, depth, &definers.first)?;
    let affected = affected_ssdts(alloc, definers, &misses, ssdts.len())?;
    let alone = DsdtMisses { misses, affected };
    let mut satisfied = Vec::new(alloc);
    put_user(alloc, &mut satisfied, definers, 0, &alone.misses.awaited)?;
    let mut found = PairFindings {
        clash: None,
        satisfied,
    };
    for (i, ssdt) in ssdts.iter().enumerate() {
        record_findings(
            alloc,
            &mut found,
            dsdt,
            i + 1,
            ssdt,
            depth,
            &alone,
            definers,
        )?;
    }
    Ok(found)
}
