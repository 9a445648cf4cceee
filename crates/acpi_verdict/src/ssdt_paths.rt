//! What SSDTs declare over a DSDT, one after another.

ghost use Rattle.std.specs.Prelude.{◌≡◌, ◌∷◌, [], ℕ, List, map, IfOk, IfErr, OnOk};
ghost use Rattle.acpi_declare.specs.Declaring.{HasTables, state_of};
ghost use Rattle.acpi_verdict.specs.VerdictView.{IsSinglesFault};
ghost use Rattle.acpi_verdict.specs.steps.Clashing.{Offers};
ghost use Rattle.acpi_verdict.specs.steps.Declaring.{args_in, with_args, IsSameAt, AddsSsdt, AreDeclared};
ghost use Rattle.acpi_verdict.specs.steps.Overlays.{overlay_view};

use crate::clashes::{Clash, offer};
use crate::definers::{Definer, Definers, method_args};
use crate::overlay::{SsdtOverlay, overlay_ssdt, renumbered};
use acpi_declare::{Declaring, LoadFault};
use acpi_name::Path;
use acpi_space::Space;
use acpi_terms::{Depth, Object};
use bytes::Bytes;
use std::alloc::{AllocError, Global};

/// The paths that SSDTs declare.
#[derive(Drop)]
pub(crate) struct SsdtPaths {
    /// Which of them declare each path.
    pub(crate) definers: Definers,
    /// The first two that declare one path.
    pub(crate) same: Option<Clash>,
}

// Offers the clash of the SSDT of that number with an earlier one that declares the path.
fn offer_same(
    same: &mut Option<Clash>,
    definers: &Definers,
    number: usize,
    path: &Path,
) -> Result<(), AllocError>
    ensures { OnOk result (Offers same.old same.new
        (IsSameAt number (path.now ∷ []) definers.now)) }
{
    match definers.first.get(path) {
        Some(first) if first.number < number => offer(same, first.number, number, path),
        _ => Ok(()),
    }
}

// Adds a path that an SSDT declares.
fn add_path(
    alloc: Global,
    declared: &mut SsdtPaths,
    path: Path,
    definer: Definer,
) -> Result<(), AllocError>
    ensures { OnOk result (AddsSsdt definer.number (path ∷ [])
        (λ _. definer.args) declared.old declared.new) }
{
    offer_same(
        &mut declared.same,
        &declared.definers,
        definer.number,
        &path,
    )?;
    declared.definers.add(alloc, path, definer)
}

// The paths that an SSDT declares, and how many arguments the objects there take. All else of it is let go.
fn signatures<O: Space<Object>>(
    alloc: Global,
    overlay: SsdtOverlay<O>,
) -> Result<Vec<(Path, Option<u8>)>, AllocError>
    ensures { IfOk result (λ v. v.items ≡ map
        (with_args (overlay_view O.contents overlay)) overlay.defined.items) }
{
    let SsdtOverlay {
        declared: tables,
        defined,
    } = overlay;
    let mut found = Vec::with_capacity(alloc, defined.len())?;
    for path in defined {
        let args = method_args(tables.objects().get(&path));
        found.push((path, args))?;
    }
    Ok(found)
}

// Adds what the SSDT of that number declares.
fn record_definers<O: Space<Object>>(
    alloc: Global,
    declared: &mut SsdtPaths,
    number: usize,
    overlay: SsdtOverlay<O>,
) -> Result<(), AllocError>
    ensures { OnOk result (AddsSsdt number overlay.defined.items
        (args_in (overlay_view O.contents overlay)) declared.old declared.new) }
{
    for (path, args) in signatures(alloc, overlay)? {
        add_path(alloc, declared, path, Definer { number, args })?;
    }
    Ok(())
}

/// What SSDTs declare, each over the DSDT alone; or why the first one that doesn't load alone is refused, under its
/// number from 1.
pub(crate) fn lay_all_overlays<S: Space<Object>>(
    alloc: Global,
    dsdt: &Declaring<S>,
    ssdts: &[Bytes],
    depth: Depth,
) -> Result<SsdtPaths, LoadFault>
    ensures ok { (bytes : List ℕ) → HasTables depth (bytes ∷ []) (state_of S.contents dsdt.now)
        → IfOk result (λ d. AreDeclared depth bytes ssdts.now d) }
    ensures err { (bytes : List ℕ) → HasTables depth (bytes ∷ []) (state_of S.contents dsdt.now)
        → IfErr result (λ e. IsSinglesFault depth bytes ssdts.now e) }
{
    let mut declared = SsdtPaths {
        definers: Definers::new(alloc),
        same: None,
    };
    for (i, ssdt) in ssdts.iter().enumerate() {
        match overlay_ssdt(alloc, dsdt, ssdt, depth) {
            Ok(overlay) => record_definers(alloc, &mut declared, i + 1, overlay)?,
            Err(fault) => return Err(renumbered(fault, i + 1)),
        }
    }
    Ok(declared)
}
