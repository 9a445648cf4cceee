//! The bodies of methods, read over the final objects.

ghost use Rattle.std.specs.Prelude.{◌≡◌, IfOk, OnOk, map};
ghost use Rattle.std.specs.FinMap as finite;
ghost use Rattle.acpi_space.specs.Lookups.{nothing};
ghost use Rattle.acpi_declare.specs.Namespace.{namespace_of};
ghost use Rattle.acpi_declare.specs.Notes.{notes_of};
ghost use Rattle.acpi_body.specs.Bodies.{body_view};
ghost use Rattle.acpi_machine.specs.MachineView.{body_map, bodies_of};
ghost use Rattle.acpi_order.specs.steps.Noted.{noted, all_noted};
ghost use Rattle.acpi_machine.specs.steps.Adding.{AddsBodies};

use acpi_body::{Body, read_body};
use acpi_declare::{Method, TableNotes};
use acpi_name::Path;
use acpi_space::Space;
use acpi_terms::{Depth, Object};
use std::alloc::{AllocError, Global};
use std::collections::BTreeMap;

/// Gives the path this body, in place of the one that it had. Only an allocation failure is an error.
pub fn put_body(bodies: &mut BTreeMap<Path, Body>, path: Path, body: Body) -> Result<(), AllocError>
    ensures { OnOk result (body_map bodies.new
        ≡ finite.insert (body_map bodies.old) path (body_view body)) }
{
    match bodies.insert(path, body) {
        Ok(_) => Ok(()),
        Err(_) => Err(AllocError),
    }
}

// The bodies of the methods that one table declares, with the argument counts of that table.
fn read_methods<S: Space<Object>>(
    alloc: Global,
    objects: &S,
    notes: TableNotes,
    depth: Depth,
    bodies: &mut BTreeMap<Path, Body>,
) -> Result<(), AllocError>
    ensures { OnOk result (AddsBodies depth (namespace_of (S.contents objects.now))
        (noted (notes_of notes)) (bodies_of bodies.old) (bodies_of bodies.new)) }
{
    let TableNotes {
        counts,
        methods,
        ..
    } = notes;
    for method in methods {
        let Method { path, code } = method;
        let body = read_body(alloc, objects, &path, &code, depth, &counts)?;
        put_body(bodies, path, body)?;
    }
    Ok(())
}

/// The bodies of all methods that tables declare, by their paths.
pub(crate) fn read_bodies<S: Space<Object>>(
    alloc: Global,
    objects: &S,
    notes: Vec<TableNotes>,
    depth: Depth,
) -> Result<BTreeMap<Path, Body>, AllocError>
    ensures { IfOk result (λ m. AddsBodies depth (namespace_of (S.contents objects.now))
        (all_noted (map notes_of notes.items)) nothing (bodies_of m)) }
{
    let mut bodies = BTreeMap::new(alloc);
    for table in notes {
        read_methods(alloc, objects, table, depth, &mut bodies)?;
    }
    Ok(bodies)
}
