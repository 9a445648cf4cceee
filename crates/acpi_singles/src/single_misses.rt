//! The bodies of two tables, read over the final objects, with what they miss and await.

ghost use Rattle.std.specs.Prelude.{◌≡◌, ◌∷◌, [], ◌++◌, IfOk, OnOk, length, map};
ghost use Rattle.std.specs.FinMap as finite;
ghost use Rattle.acpi_declare.specs.Namespace.{namespace_of};
ghost use Rattle.acpi_declare.specs.Notes.{method_of, notes_of};
ghost use Rattle.acpi_order.specs.Bodies.{with_counts};
ghost use Rattle.acpi_machine.specs.MachineView.{bodies_of};
ghost use Rattle.acpi_machine.specs.steps.Adding.{AddsBodies};
ghost use Rattle.acpi_singles.specs.SingleView.{awaited_view};
ghost use Rattle.acpi_verdict.specs.steps.Misses.{all_paths, AddsMethod, AddsMethods};
ghost use Rattle.acpi_singles.specs.steps.SingleMisses.{tagged, AreSingleMisses};

use crate::singles::Awaited;
use acpi_body::{Body, body_misses, read_body};
use acpi_counts::Counts;
use acpi_declare::{Method, TableNotes};
use acpi_machine::put_body;
use acpi_name::Path;
use acpi_space::{MapSpace, Space};
use acpi_terms::{Depth, Object};
use acpi_verdict::misses::Misses;
use acpi_verdict::paths::add_paths;
use std::alloc::{AllocError, Global};
use std::collections::BTreeMap;

/// What two tables load to besides objects and links, and what their load missed and awaits.
#[derive(Drop)]
pub(crate) struct SingleMisses {
    /// The bodies of their methods.
    pub(crate) bodies: BTreeMap<Path, Body>,
    /// The paths that the load missed.
    pub(crate) missed: MapSpace<()>,
    /// The methods that bodies await.
    pub(crate) awaited: Vec<Awaited>,
}

// Reads the body of a method, and adds what it misses and awaits.
fn search_method<S: Space<Object>>(
    alloc: Global,
    objects: &S,
    method: Method,
    counts: &Counts,
    depth: Depth,
    bodies: &mut BTreeMap<Path, Body>,
    misses: &mut Misses,
) -> Result<(), AllocError>
    ensures bodies { OnOk result (AddsBodies depth (namespace_of (S.contents objects.now))
        (with_counts (finite.get counts.now) (method_of method) ∷ []) (bodies_of bodies.old)
        (bodies_of bodies.new)) }
    ensures misses { OnOk result (AddsMethod all_paths depth (namespace_of (S.contents objects.now))
        (with_counts (finite.get counts.now) (method_of method)) misses.old misses.new) }
{
    let Method { path, code } = method;
    let body = read_body(alloc, objects, &path, &code, depth, counts)?;
    let missed = body_misses(alloc, objects, &path, &body, counts)?;
    misses.add(missed)?;
    put_body(bodies, path, body)?;
    Ok(())
}

// The same for the methods that one table declares, behind what was missed before.
fn search_methods<S: Space<Object>>(
    alloc: Global,
    objects: &S,
    methods: Vec<Method>,
    counts: &Counts,
    depth: Depth,
    bodies: &mut BTreeMap<Path, Body>,
    missed: MapSpace<()>,
) -> Result<Misses, AllocError>
    ensures bodies { OnOk result (AddsBodies depth (namespace_of (S.contents objects.now))
        (map (with_counts (finite.get counts.now)) (map method_of methods.items))
        (bodies_of bodies.old) (bodies_of bodies.new)) }
    ensures misses { IfOk result (λ m. AddsMethods all_paths depth
        (namespace_of (S.contents objects.now))
        (map (with_counts (finite.get counts.now)) (map method_of methods.items))
        (record { missed = missed; awaited = finite.empty }) m) }
{
    let mut misses = Misses {
        missed,
        awaited: MapSpace::new(alloc),
    };
    for method in methods {
        search_method(alloc, objects, method, counts, depth, bodies, &mut misses)?;
    }
    Ok(misses)
}

// Lists what the bodies of a table await, behind what is listed.
fn list_awaited(
    awaited: MapSpace<u8>,
    table: u32,
    list: &mut Vec<Awaited>,
) -> Result<(), AllocError>
    ensures { OnOk result (map awaited_view list.new.items ≡ map awaited_view list.old.items
        ++ tagged table (finite.entries awaited)) }
{
    for (path, count) in awaited.pairs()? {
        list.push(Awaited {
            table,
            path,
            count: *count,
        })?;
    }
    Ok(())
}

// The two parts of a list that has two.
fn two<T: Drop>(items: Vec<T>) -> (T, T)
    requires { length items.items ≡ 2 }
    ensures { items.items ≡ result.0 ∷ result.1 ∷ [] }
{
    let mut items = items;
    let second = items.pop();
    let first = items.pop();
    match (first, second) {
        (Some(first), Some(second)) => (first, second),
        _ => unreachable!(),
    }
}

/// Reads the bodies of two tables over the final objects, and adds to what was missed before what they and the Scope
/// terms of the second miss.
pub(crate) fn search_tables<S: Space<Object>>(
    alloc: Global,
    objects: &S,
    notes: Vec<TableNotes>,
    depth: Depth,
    missed: MapSpace<()>,
) -> Result<SingleMisses, AllocError>
    requires { length notes.items ≡ 2 }
    ensures { IfOk result (λ s. AreSingleMisses depth (namespace_of (S.contents objects.now))
        (map notes_of notes.items) missed s) }
{
    let (dsdt, ssdt) = two(notes);
    let mut bodies = BTreeMap::new(alloc);
    let mut missed = missed;
    add_paths(&mut missed, ssdt.missed)?;
    let of_dsdt = search_methods(
        alloc,
        objects,
        dsdt.methods,
        &dsdt.counts,
        depth,
        &mut bodies,
        missed,
    )?;
    let of_ssdt = search_methods(
        alloc,
        objects,
        ssdt.methods,
        &ssdt.counts,
        depth,
        &mut bodies,
        of_dsdt.missed,
    )?;
    let mut awaited = Vec::new(alloc);
    list_awaited(of_dsdt.awaited, 0, &mut awaited)?;
    list_awaited(of_ssdt.awaited, 1, &mut awaited)?;
    Ok(SingleMisses {
        bodies,
        missed: of_ssdt.missed,
        awaited,
    })
}
