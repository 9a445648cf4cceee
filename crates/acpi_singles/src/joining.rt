//! The union of what single loads gave.

ghost use Rattle.std.specs.Prelude.{◌≡◌, ◌⊎◌, ◌↔◌, [], map, None, IsTrue, IfOk, IfSome};
ghost use Rattle.acpi_space.specs.Laws.{Among};
ghost use Rattle.acpi_tree.specs.Objects.{object_view};
ghost use Rattle.acpi_declare.specs.Links.{links_at};
ghost use Rattle.acpi_declare.specs.Namespace.{namespace_of};
ghost use Rattle.acpi_body.specs.Bodies.{body_view};
ghost use Rattle.acpi_order.specs.Joins.{AllAgree, IsJoin};
ghost use Rattle.acpi_machine.specs.MachineView.{machine_of, bodies_of};
ghost use Rattle.acpi_singles.specs.SingleView.{machine_in};
ghost use Rattle.acpi_singles.specs.steps.Joining.{JoinsValue, JoinsPart, JoinsMachine};

use crate::singles::Single;
use acpi_body::Body;
use acpi_declare::{LinkMap, copy_answers};
use acpi_machine::Machine;
use acpi_name::Path;
use acpi_space::{Refused, Space};
use acpi_terms::Object;
use std::alloc::{AllocError, Global};
use std::collections::BTreeMap;

// Adds a copy of an object at its path, and tells whether no other one stands there.
fn add_object<S: Space<Object>>(
    alloc: Global,
    objects: &mut S,
    path: Path,
    object: &Object,
) -> Result<bool, AllocError>
    ensures { IfOk result (λ b. JoinsValue (namespace_of (S.contents objects.old))
        (namespace_of (S.contents objects.new)) path (object_view object.now) b) }
{
    if let Some(other) = objects.get(&path) {
        return Ok(other == object);
    }
    match objects.insert(path, object.copy(alloc)?) {
        Ok(()) => Ok(true),
        Err(Refused::Memory(_)) => Err(AllocError),
        Err(Refused::Taken(_)) => unreachable!(),
    }
}

// Adds copies of all objects of a part.
fn add_objects<S: Space<Object>>(
    alloc: Global,
    objects: &mut S,
    part: &S,
) -> Result<bool, AllocError>
    ensures { IfOk result (λ b. JoinsPart (namespace_of (S.contents objects.old))
        (namespace_of (S.contents objects.new)) (namespace_of (S.contents part.now)) b) }
{
    for (path, object) in part.pairs()? {
        if !add_object(alloc, objects, path, object)? {
            return Ok(false);
        }
    }
    Ok(true)
}

fn same_answers(answers: &[Option<Path>], others: &[Option<Path>]) -> bool
    ensures { IsTrue result ↔ (answers.now ≡ others.now) }
{
    answers == others
}

// Adds copies of the answers of a path, and tells whether it has no others.
fn add_link(
    alloc: Global,
    links: &mut LinkMap,
    path: Path,
    answers: &[Option<Path>],
) -> Result<bool, AllocError>
    ensures { IfOk result (λ b. JoinsValue (links_at links.old)
        (links_at links.new) path answers.now b) }
{
    if let Some(others) = links.get(&path) {
        return Ok(same_answers(others, answers));
    }
    links.insert(alloc, path, copy_answers(alloc, answers)?)?;
    Ok(true)
}

// Adds copies of all links of a part.
fn add_links(alloc: Global, links: &mut LinkMap, part: &LinkMap) -> Result<bool, AllocError>
    ensures { IfOk result (λ b. JoinsPart (links_at links.old) (links_at links.new)
        (links_at part.now) b) }
{
    for (path, answers) in part.pairs(alloc)? {
        if !add_link(alloc, links, path, answers)? {
            return Ok(false);
        }
    }
    Ok(true)
}

// Adds a copy of the body of a path, and tells whether it has no other.
fn add_body(
    alloc: Global,
    bodies: &mut BTreeMap<Path, Body>,
    path: &Path,
    body: &Body,
) -> Result<bool, AllocError>
    ensures { IfOk result (λ b. JoinsValue (bodies_of bodies.old) (bodies_of bodies.new) path.now
        (body_view body.now) b) }
{
    if let Some(other) = bodies.get(path) {
        return Ok(other == body);
    }
    match bodies.insert(path.copy()?, body.copy(alloc)?) {
        Ok(_) => Ok(true),
        Err(_) => Err(AllocError),
    }
}

// Adds copies of all bodies of a part.
fn add_bodies(
    alloc: Global,
    bodies: &mut BTreeMap<Path, Body>,
    part: &BTreeMap<Path, Body>,
) -> Result<bool, AllocError>
    ensures { IfOk result (λ b. JoinsPart (bodies_of bodies.old) (bodies_of bodies.new)
        (bodies_of part.now) b) }
{
    for (path, body) in part.iter() {
        if !add_body(alloc, bodies, path, body)? {
            return Ok(false);
        }
    }
    Ok(true)
}

// Adds copies of all that a machine has, and tells whether what is there agrees with it.
fn add_machine<S: Space<Object>>(
    alloc: Global,
    joined: &mut Machine<S>,
    part: &Machine<S>,
) -> Result<bool, AllocError>
    ensures { IfOk result (λ b. JoinsMachine (machine_of S.contents joined.old)
        (machine_of S.contents joined.new)
        (machine_of S.contents part.now) b) }
{
    if !add_objects(alloc, &mut joined.objects, &part.objects)? {
        return Ok(false);
    }
    if !add_links(alloc, &mut joined.links, &part.links)? {
        return Ok(false);
    }
    Ok(add_bodies(alloc, &mut joined.bodies, &part.bodies)?)
}

/// The join of the machines of single loads: the union of their objects, of their links and of their bodies. None for
/// an empty list, and where two of the machines have different values at one path.
pub fn join<S: Space<Object>>(
    alloc: Global,
    singles: &[Single<S>],
) -> Result<Option<Machine<S>>, AllocError>
    // What is joined has the values of all of the machines, and no others.
    ensures join { IfOk result
        (λ r. IfSome r
        (λ m. IsJoin
        (Among (map (λ s. machine_of S.contents (machine_in s))
        singles.now)) (machine_of S.contents m))) }
    // It is there exactly where there are machines, and no two of them disagree.
    ensures none { IfOk result (λ r. (r ≡ None)
        ↔ ((singles.now ≡ [])
        ⊎ (AllAgree (map (λ s. machine_of S.contents (machine_in s))
        singles.now) → ⊥))) }
{
    if singles.is_empty() {
        return Ok(None);
    }
    let mut joined = Machine {
        objects: S::new(alloc),
        links: LinkMap::new(alloc),
        bodies: BTreeMap::new(alloc),
    };
    for single in singles {
        if !add_machine(alloc, &mut joined, &single.machine)? {
            return Ok(None);
        }
    }
    Ok(Some(joined))
}
