//! Inserts a path of three segments into both kinds of space: into empty ones, and into ones with the objects of a table. The
//! tests refuse each growth of memory in turn. Where that is one of the insertion itself, its value has to be handed back and
//! the pairs have to stay as they were; the same insertion is made once more, and has to succeed.
#![tactic(auto)]

use acpi_declare::{Declared, declare};
use acpi_name::Path;
use acpi_space::{MapSpace, Refused, Space, TreeSpace};
use acpi_terms::Depth;
use acpi_tree::Object;
use std::alloc::{AllocError, Global};

/// A DSDT: Scope (\_SB_) { Device (PCI0) { Name (_ADR, Zero) } }
const TABLE: &[u8] = b"DSDT8\x00\x00\x00\x02\x93\x00\x00\x00\x00\x00\x00\x00\x00\x00\x00\x00\x00\
\x00\x00\x00\x00\x00\x00\x00\x00\x00\x00\x00\x00\x00\x00\
\x10\x13\x5C_SB_\x5B\x82\x0BPCI0\x08_ADR\x00";

/// The most levels that the items of the table may have.
const LEVELS: u32 = 64;

/// Where the object is inserted.
const NEW_PATH: &str = "\\_SB_.PCI0._STA";

/// What is inserted.
const NEW_OBJECT: Object = Object::Method(3);

// The objects of the table.
fn objects_of_table<S: Space<Object>>(alloc: Global, depth: Depth) -> anyhow::Result<S> {
    let declared: Declared<S> = declare(alloc, TABLE, &[], depth)?;
    let (objects, _, _) = declared.into_parts();
    Ok(objects)
}

// A space with the same pairs.
fn copied<S: Space<Object>>(alloc: Global, space: &S) -> anyhow::Result<S> {
    let mut copy = S::new(alloc);
    for (path, object) in space.pairs()? {
        copy.insert(path, object.copy(alloc)?)?;
    }
    Ok(copy)
}

// Whether two spaces have the same pairs.
fn is_same<S: Space<Object>>(one: &S, other: &S) -> Result<bool, AllocError> {
    let (ours, theirs) = (one.pairs()?, other.pairs()?);
    if ours.len() != theirs.len() {
        return Ok(false);
    }
    for ((path, object), (other_path, other_object)) in ours.iter().zip(theirs.iter()) {
        if path != other_path || **object != **other_object {
            return Ok(false);
        }
    }
    Ok(true)
}

// What becomes of an insertion into a space with these pairs.
fn outcome<S: Space<Object>>(alloc: Global, given: &S) -> anyhow::Result<&'static str> {
    let mut space: S = copied(alloc, given)?;
    let path = Path::from_text(alloc, NEW_PATH)?;
    if let Err(Refused::Memory(object)) = space.insert(path.copy()?, NEW_OBJECT) {
        if object != NEW_OBJECT {
            return Ok("refused, and another value handed back");
        }
        if !is_same(&space, given)? {
            return Ok("refused, and changed");
        }
        space.insert(path.copy()?, object)?;
    }
    let count = given.pairs()?.len().saturating_add(1);
    match space.get(&path) {
        Some(Object::Method(3)) if space.pairs()?.len() == count => Ok("inserted"),
        _ => Ok("inserted wrong"),
    }
}

// A line on one kind of space.
fn line_on<S: Space<Object>>(alloc: Global, kind: &str, depth: Depth) -> anyhow::Result<String> {
    let empty: S = S::new(alloc);
    let into_empty = outcome(alloc, &empty)?;
    let of_table: S = objects_of_table(alloc, depth)?;
    let into_others = outcome(alloc, &of_table)?;
    Ok(format!(in alloc;
        "{kind}: {into_empty} into an empty one, {into_others} among a table's objects"
    )?)
}

fn main(rt: HostRuntime) -> anyhow::Result<()> {
    let alloc = rt.alloc();
    let Some(depth) = Depth::new(LEVELS) else {
        return Ok(());
    };
    let of_map = line_on::<MapSpace<Object>>(alloc, "MapSpace", depth)?;
    let of_tree = line_on::<TreeSpace<Object>>(alloc, "TreeSpace", depth)?;
    println!(rt; "{of_map}")?;
    println!(rt; "{of_tree}")?;
    Ok(())
}
