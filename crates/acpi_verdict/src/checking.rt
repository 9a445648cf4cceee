//! Whether SSDTs commute over a DSDT, and which Externals of one another they satisfy.

ghost use Rattle.std.specs.Prelude.{◌≡◌, ◌≢◌, ◌↔◌, ◌∷◌, [], ℕ, List, map, IfOk, IfErr};
ghost use Rattle.acpi_declare.specs.Declaring.{HasTables, state_of};
ghost use Rattle.acpi_declare.specs.Loads.{HasNoLoad};
ghost use Rattle.acpi_declare.specs.Refusals.{IsLoadFault};
ghost use Rattle.acpi_order.specs.Independent.{IsIndependent};
ghost use Rattle.acpi_order.specs.Orders.{EachOrderLoadsToJoin};
ghost use Rattle.acpi_order.specs.Verdicts.{IsVerdict, AllAlone};
ghost use Rattle.acpi_verdict.specs.SatisfiedView.{AreSatisfied};
ghost use Rattle.acpi_verdict.specs.VerdictView.{verdict_view, IsFaultOf, IsSinglesFault};
ghost use Rattle.acpi_verdict.specs.steps.Checking.{IsChecked, verdict_from};
ghost use Rattle.acpi_verdict.specs.steps.Declaring.{AreDeclared};

use crate::clashes::Clash;
use crate::findings::{PairFindings, find_all};
use crate::ssdt_paths::{SsdtPaths, lay_all_overlays};
use crate::verdicts::{Checked, Verdict};
use acpi_declare::{Declaring, LoadFault};
use acpi_order::laws::one_verdict;
use acpi_space::Space;
use acpi_terms::{Depth, Object};
use bytes::Bytes;
use std::alloc::Global;

// What is said of the first SSDT that doesn't load alone, by its refusal.
fn refused(alloc: Global, fault: LoadFault) -> Result<Checked, LoadFault>
    ensures ok { (depth : ℕ) (dsdt : List ℕ) (ssdts : List (List ℕ))
        → IsSinglesFault depth dsdt ssdts fault → IfOk result (λ c. IsChecked depth dsdt ssdts c) }
    ensures memory { IfErr result (λ e. e ≡ LoadFault.Memory) }
{
    match fault {
        LoadFault::At { table, reason } => Ok(Checked {
            verdict: Verdict::NotAlone {
                i: table,
                fault: LoadFault::At { table, reason },
            },
            satisfied: Vec::new(alloc),
        }),
        LoadFault::Memory => Err(LoadFault::Memory),
    }
}

// The verdict on SSDTs that all load alone, by the first clash of each kind.
fn verdict_of(same: Option<Clash>, missed: Option<Clash>) -> Verdict
    ensures { result ≡ verdict_from same missed }
{
    match (same, missed) {
        (Some(clash), _) => Verdict::Same {
            i: clash.first,
            j: clash.second,
            path: clash.path,
        },
        (None, Some(clash)) => Verdict::Missed {
            searcher: clash.first,
            definer: clash.second,
            path: clash.path,
        },
        (None, None) => Verdict::Commute,
    }
}

// The same of SSDTs that all load alone, by what they declare.
fn checked_declared<S: Space<Object>>(
    alloc: Global,
    dsdt: &Declaring<S>,
    ssdts: &[Bytes],
    depth: Depth,
    declared: SsdtPaths,
) -> Result<Checked, LoadFault>
    ensures ok { (bytes : List ℕ) → HasTables depth (bytes ∷ []) (state_of S.contents dsdt.now)
        → AreDeclared depth bytes ssdts.now declared
        → IfOk result (λ c. IsChecked depth bytes ssdts.now c) }
    ensures memory { (bytes : List ℕ) → HasTables depth (bytes ∷ []) (state_of S.contents dsdt.now)
        → AreDeclared depth bytes ssdts.now declared → IfErr result (λ e. e ≡ LoadFault.Memory) }
{
    let SsdtPaths { definers, same } = declared;
    let PairFindings { clash, satisfied } = find_all(alloc, dsdt, ssdts, depth, &definers)?;
    let verdict = verdict_of(same, clash);
    Ok(Checked { verdict, satisfied })
}

// The same of SSDTs over a DSDT that is declared.
fn checked_over<S: Space<Object>>(
    alloc: Global,
    dsdt: &Declaring<S>,
    ssdts: &[Bytes],
    depth: Depth,
) -> Result<Checked, LoadFault>
    ensures ok { (bytes : List ℕ) → HasTables depth (bytes ∷ []) (state_of S.contents dsdt.now)
        → IfOk result (λ c. IsChecked depth bytes ssdts.now c) }
    ensures memory { (bytes : List ℕ) → HasTables depth (bytes ∷ []) (state_of S.contents dsdt.now)
        → IfErr result (λ e. e ≡ LoadFault.Memory) }
{
    match lay_all_overlays(alloc, dsdt, ssdts, depth) {
        Ok(declared) => checked_declared(alloc, dsdt, ssdts, depth, declared),
        Err(fault) => refused(alloc, fault),
    }
}

/// What `verdict_shared` and `satisfied_shared` tell of SSDTs over a DSDT, from one load of the DSDT. Each SSDT is
/// declared over it twice, and no more than one is held. Where an SSDT doesn't load over the DSDT alone, no External is
/// reported as satisfied. Where the DSDT doesn't load by itself, its refusal is the error.
pub fn check_shared<S: Space<Object>>(
    alloc: Global,
    dsdt: &Bytes,
    ssdts: &[Bytes],
    depth: Depth,
) -> Result<Checked, LoadFault>
    ensures ok { IfOk result (λ c. IsVerdict depth dsdt.now ssdts.now (verdict_view c.verdict)) }
    ensures fault { IfOk result (λ c. IsFaultOf depth dsdt.now ssdts.now c.verdict) }
    ensures commute { ssdts.now ≢ [] → IfOk result
        (λ c. (c.verdict ≡ Verdict.Commute) ↔ IsIndependent depth dsdt.now ssdts.now) }
    // SSDTs that commute load in each order, to the join of their single loads.
    ensures orders { ssdts.now ≢ [] → IfOk result
        (λ c. c.verdict ≡ Verdict.Commute → EachOrderLoadsToJoin depth dsdt.now ssdts.now) }
    ensures satisfied { IfOk result (λ c. AllAlone depth dsdt.now ssdts.now
        → AreSatisfied depth dsdt.now ssdts.now c.satisfied.items) }
    ensures refused { IfOk result (λ c. (AllAlone depth dsdt.now ssdts.now → ⊥) → c.satisfied.items
        ≡ []) }
    ensures err { IfErr result (λ e. IsLoadFault depth (dsdt.now ∷ []) e) }
    ensures none { IfErr result (λ e. e ≢ LoadFault.Memory → HasNoLoad depth (dsdt.now ∷ [])) }
{
    one_verdict();
    let declared: Declaring<S> = Declaring::dsdt(alloc, dsdt, depth)?;
    checked_over(alloc, &declared, ssdts, depth)
}
