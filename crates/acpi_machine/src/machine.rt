//! What a DSDT and SSDTs load to.

ghost use Rattle.std.specs.Prelude.{◌≡◌, ◌≢◌, ◌∷◌, map, IfOk, IfErr};
ghost use Rattle.acpi_declare.specs.DeclaredView as declared;
ghost use Rattle.acpi_declare.specs.Keeping.{AreKeptNotes};
ghost use Rattle.acpi_declare.specs.Links.{links_at};
ghost use Rattle.acpi_declare.specs.Loads.{IsLoad, HasNoLoad};
ghost use Rattle.acpi_declare.specs.Namespace.{namespace_of};
ghost use Rattle.acpi_declare.specs.Notes.{notes_of};
ghost use Rattle.acpi_declare.specs.Refusals.{IsLoadFault};
ghost use Rattle.acpi_order.specs.Machines.{IsMachine};
ghost use Rattle.acpi_order.specs.Joins.{IsJoin};
ghost use Rattle.acpi_order.specs.Orders.{AreJoined, IsJoinAt, TellsOfJoin};
ghost use Rattle.acpi_machine.specs.MachineView.{objects_in, links_in, bodies_in, machine_of, HasMachine};
ghost use Rattle.acpi_machine.specs.OneBody.{IsMachineAt};
ghost use Rattle.acpi_machine.specs.steps.Adding.{HasBodies};

use crate::bodies::read_bodies;
use acpi_body::Body;
use acpi_declare::{Declared, Keep, LinkMap, LoadFault, declare_keeping, shared_tables};
use acpi_name::Path;
use acpi_space::Space;
use acpi_terms::{Depth, Object};
use bytes::Bytes;
use std::alloc::Global;
use std::collections::BTreeMap;

/// What tables load to: the namespace, the links of its fields, and the bodies of its methods (ACPI 6.5, 5.3).
#[derive(Drop)]
pub struct Machine<S> {
    /// The namespace: the object at each path.
    pub objects: S,
    /// What the search of each link answers, by the path of the field.
    pub links: LinkMap,
    /// The body of each method that a table declares, by the method's path.
    pub bodies: BTreeMap<Path, Body>,
}

impl<S> Machine<S> {
    ghost use Rattle.acpi_machine.specs.MachineView.{objects_in, links_in, bodies_in};

    /// The namespace.
    pub fn objects(&self) -> &S
        ensures { result.now ≡ objects_in self.now }
    {
        &self.objects
    }

    /// What the search of each link answers, by the path of the field: the region of a field; index and data
    /// register of an index field; region and bank register of a bank field; the source of a buffer field.
    pub fn links(&self) -> &LinkMap
        ensures { result.now ≡ links_in self.now }
    {
        &self.links
    }

    /// The body of each method that a table declares, by the method's path: its terms, or its bytes where they
    /// can't be read.
    pub fn bodies(&self) -> &BTreeMap<Path, Body>
        ensures { result.now ≡ bodies_in self.now }
    {
        &self.bodies
    }
}

// Loads the tables in the order in which they are given, with the bodies of those methods whose notes are kept.
fn load_keeping<S: Space<Object>>(
    alloc: Global,
    dsdt: &Bytes,
    ssdts: &[Bytes],
    keep: Keep<'_>,
    depth: Depth,
) -> Result<Machine<S>, LoadFault>
    ensures ok { IfOk result (λ m. HasBodies keep.entry depth (dsdt.now ∷ ssdts.now)
        (machine_of S.contents m)) }
    ensures err { IfErr result (λ e. IsLoadFault depth (dsdt.now ∷ ssdts.now) e) }
    ensures none { IfErr result (λ e. e ≢ LoadFault.Memory
        → HasNoLoad depth (dsdt.now ∷ ssdts.now)) }
{
    let (objects, links, notes) = declare_keeping(alloc, dsdt, ssdts, keep, depth)?.into_parts();
    let bodies = read_bodies(alloc, &objects, notes, depth)?;
    Ok(Machine {
        objects,
        links,
        bodies,
    })
}

// Loads the tables in the order in which they are given.
fn load_in_order<S: Space<Object>>(
    alloc: Global,
    dsdt: &Bytes,
    ssdts: &[Bytes],
    depth: Depth,
) -> Result<Machine<S>, LoadFault>
    ensures ok { IfOk result (λ m. IsMachine depth (dsdt.now ∷ ssdts.now)
        (machine_of S.contents m)) }
    ensures err { IfErr result (λ e. IsLoadFault depth (dsdt.now ∷ ssdts.now) e) }
    ensures none { IfErr result (λ e. e ≢ LoadFault.Memory
        → HasNoLoad depth (dsdt.now ∷ ssdts.now)) }
{
    load_keeping(alloc, dsdt, ssdts, Keep::All, depth)
}

/// The objects and links of a load. No body is read; `keep` says how much is kept of what the tables note for bodies.
pub fn load_objects<S: Space<Object>>(
    alloc: Global,
    dsdt: &Bytes,
    ssdts: &[Bytes],
    keep: Keep<'_>,
    depth: Depth,
) -> Result<Declared<S>, LoadFault>
    ensures ok { IfOk result (λ d. IsLoad depth (dsdt.now ∷ ssdts.now)
        (namespace_of (S.contents (declared.objects_in d))) (links_at (declared.links_in d))) }
    ensures machine { IfOk result (λ d. HasMachine depth (dsdt.now ∷ ssdts.now)
        (namespace_of (S.contents (declared.objects_in d))) (links_at (declared.links_in d))) }
    ensures notes { IfOk result (λ d. AreKeptNotes depth (dsdt.now ∷ ssdts.now) keep.entry
        (map notes_of (declared.notes_in d))) }
    ensures err { IfErr result (λ e. IsLoadFault depth (dsdt.now ∷ ssdts.now) e) }
    ensures none { IfErr result (λ e. e ≢ LoadFault.Memory
        → HasNoLoad depth (dsdt.now ∷ ssdts.now)) }
    ensures any_order { TellsOfJoin (λ Part d. AreJoined Part
        (namespace_of (S.contents (declared.objects_in d))) (links_at (declared.links_in d))) depth
        dsdt.now ssdts.now result }
{
    declare_keeping(alloc, dsdt, ssdts, keep, depth)
}

/// The same as `load_shared`, but of the bodies only that of the method at a path is read, where a table declares one
/// there: the others are neither read nor kept.
pub fn load_with_body_at<S: Space<Object>>(
    alloc: Global,
    dsdt: &Bytes,
    ssdts: &[Bytes],
    path: &Path,
    depth: Depth,
) -> Result<Machine<S>, LoadFault>
    ensures ok { IfOk result (λ m. IsMachineAt depth (dsdt.now ∷ ssdts.now) path.now
        (machine_of S.contents m)) }
    ensures err { IfErr result (λ e. IsLoadFault depth (dsdt.now ∷ ssdts.now) e) }
    ensures none { IfErr result (λ e. e ≢ LoadFault.Memory
        → HasNoLoad depth (dsdt.now ∷ ssdts.now)) }
    ensures any_order { TellsOfJoin (λ Part m. IsJoinAt Part path.now
        (machine_of S.contents m)) depth dsdt.now ssdts.now result }
{
    load_keeping(alloc, dsdt, ssdts, Keep::MethodAt(path), depth)
}

/// Loads a DSDT and SSDTs: declares their items, one table after another, and then searches the links of fields
/// and reads the bodies of methods, over the final namespace. Nothing is executed. Each table is one whole table in
/// its bytes; `depth` is the greatest level that a term may have. The first table without a listing refuses the load.
///
/// If each SSDT loads alone over the DSDT, no two of them declare one path, and none declares a path that another's
/// single load missed (a body that isn't read misses what any name spelled at any of its bytes would), then what they
/// load to, given in any order, is the union of their single loads: its objects, links and bodies.
pub fn load_shared<S: Space<Object>>(
    alloc: Global,
    dsdt: &Bytes,
    ssdts: &[Bytes],
    depth: Depth,
) -> Result<Machine<S>, LoadFault>
    ensures ok { IfOk result (λ m. IsMachine depth (dsdt.now ∷ ssdts.now)
        (machine_of S.contents m)) }
    ensures err { IfErr result (λ e. IsLoadFault depth (dsdt.now ∷ ssdts.now) e) }
    ensures none { IfErr result (λ e. e ≢ LoadFault.Memory
        → HasNoLoad depth (dsdt.now ∷ ssdts.now)) }
    // Independent SSDTs load in any order to the join of their single loads, or memory is refused.
    ensures any_order { TellsOfJoin (λ Part m. IsJoin Part
        (machine_of S.contents m)) depth dsdt.now ssdts.now result }
{
    load_in_order(alloc, dsdt, ssdts, depth)
}

/// The same as `load_shared`, over one copy of each table.
pub fn load<S: Space<Object>>(
    alloc: Global,
    dsdt: &[u8],
    ssdts: &[&[u8]],
    depth: Depth,
) -> Result<Machine<S>, LoadFault>
    ensures ok { IfOk result (λ m. IsMachine depth (dsdt.now ∷ map (λ b. b.now) ssdts.now)
        (machine_of S.contents m)) }
    ensures err { IfErr result (λ e. IsLoadFault depth (dsdt.now ∷ map (λ b. b.now) ssdts.now) e) }
    ensures none { IfErr result (λ e. e ≢ LoadFault.Memory
        → HasNoLoad depth (dsdt.now ∷ map (λ b. b.now) ssdts.now)) }
    ensures any_order { TellsOfJoin (λ Part m. IsJoin Part
        (machine_of S.contents m)) depth dsdt.now
        (map (λ b. b.now) ssdts.now) result }
{
    let dsdt = Bytes::copy_from_slice(alloc, dsdt)?;
    let ssdts = shared_tables(alloc, ssdts)?;
    load_shared(alloc, &dsdt, &ssdts, depth)
}
