//! Items and method bodies nested as deep as may be are read, tested, written and dropped; data and bodies are copied and compared,
//! and bodies searched. The gate runs this program as two compilers build it; its stack is what the tests give it.
#![tactic(auto)]

use acpi_body::{Body, Counts, body_misses, read_body};
use acpi_name::Path;
use acpi_space::{Space, TreeSpace};
use acpi_terms::{Depth, Item, items_fit, read_items};
use acpi_tree::{Object, terms_fit};
use acpi_write::{write_items, write_terms};
use std::alloc::{AllocError, Global};

/// The most levels that a term may have.
const LEVELS: u32 = 4096;

/// What is said of items where all is as it should be.
const RIGHT_ITEMS: &str = "read, tested, written";

/// What is said of a body where all is as it should be.
const RIGHT: &str = "read, tested, copied, compared, written";

// Code that begins so, and so many packages, each inside the one before: the opcode, a length of four bytes
// that counts all that follows, and a byte: a Scope's name, a Package's count, the predicate of an If.
fn nested(
    alloc: Global,
    front: &[u8],
    opcode: u8,
    first: u8,
    levels: u32,
) -> Result<Vec<u8>, AllocError> {
    let mut code = Vec::from_slice(alloc, front)?;
    for left in (1..=levels).rev() {
        let length = left.saturating_mul(6).saturating_sub(1);
        let [low, middle, high, _] = (length >> 4).to_le_bytes();
        code.push(opcode)?;
        code.push(0xC0 | (length % 16) as u8)?;
        code.extend_from_slice(&[low, middle, high, first])?;
    }
    Ok(code)
}

// So many times the same bytes, and the last ones.
fn repeated(alloc: Global, bytes: &[u8], times: u32, last: &[u8]) -> Result<Vec<u8>, AllocError> {
    let mut code = Vec::new(alloc);
    for _ in 0..times {
        code.extend_from_slice(bytes)?;
    }
    code.extend_from_slice(last)?;
    Ok(code)
}

// What is written of the items, where they fit.
fn rewritten(alloc: Global, items: &[Item]) -> Option<Vec<u8>> {
    if !items_fit(items) {
        return None;
    }
    write_items(alloc, items).ok()
}

// Whether a copy of the data of each name is equal to it.
fn data_is_copied(alloc: Global, items: &[Item]) -> Result<bool, AllocError> {
    for item in items {
        if let Item::Name(_, data) = item {
            if data.copy(alloc)? != *data {
                return Ok(false);
            }
        }
    }
    Ok(true)
}

// Whether these bytes are what is written of the items.
fn is_spelled_by(alloc: Global, items: &[Item], bytes: &[u8]) -> bool {
    match rewritten(alloc, items) {
        Some(written) => written.as_slice() == bytes,
        None => false,
    }
}

// What becomes of the code.
fn outcome(alloc: Global, code: &[u8], depth: Depth) -> Result<&'static str, AllocError> {
    let Ok(items) = read_items(alloc, code, depth) else {
        return Ok("not read");
    };
    if !data_is_copied(alloc, &items)? {
        return Ok("copied wrong");
    }
    let Some(written) = rewritten(alloc, &items) else {
        return Ok("not written");
    };
    match read_items(alloc, &written, depth) {
        Ok(again) if is_spelled_by(alloc, &again, &written) => Ok(RIGHT_ITEMS),
        _ => Ok("written wrong"),
    }
}

// Whether the body fits, and what becomes of what is written.
fn written_outcome(
    alloc: Global,
    space: &TreeSpace<Object>,
    method: &Path,
    counts: &Counts,
    depth: Depth,
    body: &Body,
) -> anyhow::Result<&'static str> {
    let Body::Terms(terms) = body else {
        return Ok("not read");
    };
    if !terms_fit(terms) {
        return Ok("read wrong");
    }
    let Ok(written) = write_terms(alloc, terms) else {
        return Ok("not written");
    };
    if read_body(alloc, space, method, &written, depth, counts)? == *body {
        Ok(RIGHT)
    } else {
        Ok("written wrong")
    }
}

// What becomes of the body of a method in this namespace.
fn outcome_in(
    alloc: Global,
    space: &TreeSpace<Object>,
    method: &Path,
    bytes: &[u8],
    depth: Depth,
) -> anyhow::Result<&'static str> {
    let counts = Counts::new(alloc);
    let body = read_body(alloc, space, method, bytes, depth, &counts)?;
    if body.copy(alloc)? != body {
        return Ok("copied wrong");
    }
    let misses = body_misses(alloc, space, method, &body, &counts)?;
    if misses.open.is_empty() {
        written_outcome(alloc, space, method, &counts, depth, &body)
    } else {
        Ok("searched wrong")
    }
}

// What becomes of the body, in a namespace with a method \M of one argument.
fn body_outcome(alloc: Global, bytes: &[u8], depth: Depth) -> anyhow::Result<&'static str> {
    let method = Path::from_text(alloc, "\\M")?;
    let mut space: TreeSpace<Object> = TreeSpace::new(alloc);
    space.insert(method.copy()?, Object::Method(1))?;
    outcome_in(alloc, &space, &method, bytes, depth)
}

// A line on items of this form.
fn say_items(rt: &HostRuntime, form: &str, code: &[u8], depth: Depth) -> anyhow::Result<()> {
    let outcome = outcome(rt.alloc(), code, depth)?;
    println!(rt; "{LEVELS} levels of {form}: {outcome}")?;
    Ok(())
}

// A line on a body of this form.
fn say_body(rt: &HostRuntime, form: &str, bytes: &[u8], depth: Depth) -> anyhow::Result<()> {
    let outcome = body_outcome(rt.alloc(), bytes, depth)?;
    println!(rt; "{LEVELS} levels of {form} in a body: {outcome}")?;
    Ok(())
}

fn say_all(rt: &HostRuntime, depth: Depth) -> anyhow::Result<()> {
    let alloc = rt.alloc();
    let scopes = nested(alloc, &[], 0x10, 0, LEVELS)?;
    say_items(rt, "Scope", &scopes, depth)?;
    let packages = nested(alloc, b"\x08ABCD", 0x12, 0, LEVELS - 1)?;
    say_items(rt, "Package in a Name", &packages, depth)
}

fn say_all_bodies(rt: &HostRuntime, depth: Depth) -> anyhow::Result<()> {
    let alloc = rt.alloc();
    let operators = repeated(alloc, &[0x92], LEVELS - 1, &[0x60])?;
    say_body(rt, "LNot", &operators, depth)?;
    let calls = repeated(alloc, b"M___", LEVELS - 1, &[0x60])?;
    say_body(rt, "a call", &calls, depth)?;
    for (form, opcode, first, levels) in [
        ("Package", 0x12, 0, LEVELS),
        ("If", 0xA0, 0x60, LEVELS - 1),
        ("While", 0xA2, 0x60, LEVELS - 1),
    ] {
        let blocks = nested(alloc, &[], opcode, first, levels)?;
        say_body(rt, form, &blocks, depth)?;
    }
    Ok(())
}

fn main(rt: HostRuntime) -> anyhow::Result<()> {
    let Some(depth) = Depth::new(LEVELS) else {
        return Ok(());
    };
    say_all(&rt, depth)?;
    say_all_bodies(&rt, depth)
}
