//! The load of a DSDT with one SSDT.

ghost use Rattle.std.specs.Prelude.{◌≡◌, ◌≢◌, ◌∷◌, [], IfOk, IfErr};
ghost use Rattle.acpi_declare.specs.Loads.{HasNoLoad};
ghost use Rattle.acpi_declare.specs.Refusals.{IsLoadFault};
ghost use Rattle.acpi_order.specs.Singles.{IsSingle};
ghost use Rattle.acpi_machine.specs.MachineView.{machine_of};
ghost use Rattle.acpi_singles.specs.SingleView.{machine_in, defined_in, missed_in, awaits_in};

use crate::paths::{keep_new, paths_of};
use crate::single_misses::{SingleMisses, search_tables};
use crate::singles::Single;
use acpi_declare::{Declaring, LoadFault};
use acpi_machine::Machine;
use acpi_space::{MapSpace, Space};
use acpi_terms::{Depth, Object};
use acpi_verdict::paths::add_paths;
use bytes::Bytes;
use std::alloc::Global;

/// Loads a DSDT with one SSDT, as `load_shared` does, and tells which paths the SSDT declares, which ones the load
/// missed, and which methods its bodies await. It is refused as `load_shared`.
pub fn single_shared<S: Space<Object>>(
    alloc: Global,
    dsdt: &Bytes,
    ssdt: &Bytes,
    depth: Depth,
) -> Result<Single<S>, LoadFault>
    ensures ok { IfOk result (λ s. IsSingle depth dsdt.now ssdt.now
        (machine_of S.contents (machine_in s)) (defined_in s)
        (missed_in s) (awaits_in s)) }
    ensures err { IfErr result (λ e. IsLoadFault depth (dsdt.now ∷ ssdt.now ∷ []) e) }
    ensures none { IfErr result (λ e. e ≢ LoadFault.Memory
        → HasNoLoad depth (dsdt.now ∷ ssdt.now ∷ [])) }
{
    let first: Declaring<S> = Declaring::dsdt(alloc, dsdt, depth)?;
    let mut known = MapSpace::new(alloc);
    add_paths(&mut known, paths_of(alloc, first.objects())?)?;
    let both = first.with_ssdt(alloc, ssdt, depth)?;
    let mut defined = paths_of(alloc, both.objects())?;
    keep_new(&mut defined, &known);
    let mut missed = MapSpace::new(alloc);
    add_paths(&mut missed, both.link_misses(alloc)?)?;
    let (objects, links, notes) = both.finish(alloc)?.into_parts();
    let SingleMisses {
        bodies,
        missed,
        awaited,
    } = search_tables(alloc, &objects, notes, depth, missed)?;
    let missed = paths_of(alloc, &missed)?;
    let machine = Machine {
        objects,
        links,
        bodies,
    };
    Ok(Single {
        machine,
        defined,
        missed,
        awaited,
    })
}

/// The same as `single_shared`, over one copy of each table.
pub fn single<S: Space<Object>>(
    alloc: Global,
    dsdt: &[u8],
    ssdt: &[u8],
    depth: Depth,
) -> Result<Single<S>, LoadFault>
    ensures ok { IfOk result (λ s. IsSingle depth dsdt.now ssdt.now
        (machine_of S.contents (machine_in s)) (defined_in s)
        (missed_in s) (awaits_in s)) }
    ensures err { IfErr result (λ e. IsLoadFault depth (dsdt.now ∷ ssdt.now ∷ []) e) }
    ensures none { IfErr result (λ e. e ≢ LoadFault.Memory
        → HasNoLoad depth (dsdt.now ∷ ssdt.now ∷ [])) }
{
    let dsdt = Bytes::copy_from_slice(alloc, dsdt)?;
    let ssdt = Bytes::copy_from_slice(alloc, ssdt)?;
    single_shared(alloc, &dsdt, &ssdt, depth)
}
