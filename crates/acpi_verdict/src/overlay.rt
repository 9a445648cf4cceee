//! An SSDT that is declared over a DSDT.

ghost use Rattle.std.specs.Prelude.{◌≡◌, ◌∷◌, [], ℕ, List, IfOk, IfErr};
ghost use Rattle.acpi_declare.specs.Declaring.{HasTables, state_of};
ghost use Rattle.acpi_declare.specs.Refusals.{IsLoadFault};
ghost use Rattle.acpi_space.specs.Overlays.{contents_over};
ghost use Rattle.acpi_verdict.specs.steps.Overlays.{renumbered, overlay_view, IsOverlay};

use acpi_declare::{Declaring, LoadFault};
use acpi_name::Path;
use acpi_space::{Overlay, Space};
use acpi_terms::{Depth, Object};
use bytes::Bytes;
use std::alloc::Global;

/// An SSDT that is declared over the DSDT.
#[derive(Drop)]
pub(crate) struct SsdtOverlay<O> {
    /// The namespace of both, and the links and notes of the SSDT.
    pub(crate) declared: Declaring<O>,
    /// The paths that the SSDT declares, in their order.
    pub(crate) defined: Vec<Path>,
}

/// The same refusal, of the table of that number.
pub(crate) fn renumbered(fault: LoadFault, table: usize) -> LoadFault
    ensures { result ≡ renumbered table fault }
{
    match fault {
        LoadFault::At { table: _, reason } => LoadFault::At { table, reason },
        LoadFault::Memory => LoadFault::Memory,
    }
}

/// What one SSDT declares over the DSDT. It is refused as in the load of the two.
pub(crate) fn overlay_ssdt<'a, S: Space<Object>>(
    alloc: Global,
    dsdt: &'a Declaring<S>,
    ssdt: &Bytes,
    depth: Depth,
) -> Result<SsdtOverlay<Overlay<'a, S>>, LoadFault>
    ensures ok { (bytes : List ℕ) → HasTables depth (bytes ∷ []) (state_of S.contents dsdt.now)
        → IfOk result (λ l. IsOverlay depth bytes ssdt.now
        (overlay_view (contents_over S.contents) l)) }
    ensures err { (bytes : List ℕ) → HasTables depth (bytes ∷ []) (state_of S.contents dsdt.now)
        → IfErr result (λ e. IsLoadFault depth (bytes ∷ ssdt.now ∷ []) e) }
{
    let declared = dsdt.ssdt_over(alloc, ssdt, depth)?;
    let defined = declared.objects().own_paths()?;
    Ok(SsdtOverlay { declared, defined })
}
