//! A load into the arrays of a caller.

ghost use Rattle.std.specs.Prelude.{◌≡◌, ◌≢◌, ◌↔◌, ℕ, List, true, false, ◌⊎◌, ◌≤◌, ◌<◌, [], IfOk, IfErr};
ghost use Rattle.std.specs.FinMap.{get};
ghost use Rattle.acpi_declare.specs.Links.{links_at};
ghost use Rattle.acpi_declare.specs.Loads.{IsLoad, HasNoLoad};
ghost use Rattle.acpi_declare.specs.Namespace.{namespace_of};
ghost use Rattle.acpi_declare.specs.Refusals.{IsLoadFault};
ghost use Rattle.acpi_places.specs.Places.{AreCodePlaces};
ghost use Rattle.acpins_records.specs.Orders.{IsWrittenInAnyOrder};
ghost use Rattle.acpins_records.specs.Outcomes.{counted, no_outcome};
ghost use Rattle.acpins_records.specs.steps.Adding.{contents_in};
ghost use Rattle.acpins_records.specs.steps.Room.{Fits};
ghost use Rattle.acpins_records.specs.Written.{AreFronts, IsContentsOf, IsRefusal, IsShort, IsWritten, NeedsRoom, SamePlaces, StayButText, bytes_of, contents_of};

use crate::building::{Records, build_records};
use crate::outcome::Outcome;
use crate::records::Arrays;
use crate::refusing::write_refusal;
use acpi_declare::{Declared, LinkMap, LoadFault, declare_shared};
use acpi_places::{CodePlace, code_places};
use acpi_space::{Space, TreeSpace};
use acpi_terms::{Depth, Object};
use acpins_lent::{CALL, LentTable, MEMORY, NO_ROOM, OK, REFUSED, copy_tables, put_front};
use bytes::Bytes;
use std::alloc::{AllocError, Global};

// The records of objects, their links and the places of their code.
fn records_of(
    alloc: Global,
    objects: &TreeSpace<Object>,
    links: &LinkMap,
    codes: &TreeSpace<CodePlace>,
) -> Result<Records, AllocError>
    ensures { (depth : ℕ) (tables : List (List ℕ))
        → IsLoad depth tables (namespace_of objects.now) (links_at links.now)
        → AreCodePlaces depth tables (get codes.now)
        → IfOk result (λ r. IsContentsOf depth tables (contents_in r)) }
{
    build_records(alloc, objects, links, codes)
}

// The records of what tables load to.
fn load_records(alloc: Global, tables: &[Bytes], depth: Depth) -> Result<Records, LoadFault>
    requires { tables.now ≢ [] }
    ensures ok { IfOk result (λ r. IsContentsOf depth tables.now (contents_in r)) }
    ensures err { IfErr result (λ e. IsLoadFault depth tables.now e) }
    ensures none { IfErr result (λ e. e ≢ LoadFault.Memory → HasNoLoad depth tables.now) }
{
    let Some((dsdt, ssdts)) = tables.split_first() else {
        unreachable!()
    };
    let declared: Declared<TreeSpace<Object>> = declare_shared(alloc, dsdt, ssdts, depth)?;
    let codes = code_places(alloc, dsdt, ssdts, declared.notes(), depth)?;
    Ok(records_of(alloc, declared.objects(), declared.links(), &codes)?)
}

// Whether the arrays have room for the records.
fn have_room(records: &Records, arrays: &Arrays<'_>) -> bool
    ensures room { result ≡ false → IsShort (contents_in records.now) (contents_of arrays.now) }
    ensures fits { result ≡ true → Fits (contents_in records.now) (contents_of arrays.now) }
{
    records.objects.len() <= arrays.objects.len()
        && records.targets.len() <= arrays.targets.len()
        && records.text.len() <= arrays.text.len()
        && records.data.parts.len() <= arrays.parts.len()
        && records.data.bytes.len() <= arrays.bytes.len()
}

// Writes the records, where there is room for them.
fn write_records(records: &Records, arrays: &mut Arrays<'_>, outcome: &mut Outcome) -> u32
    ensures counts { outcome.new ≡ counted (contents_in records.now) }
    ensures ok { result ≡ OK → AreFronts (contents_in records.now) (contents_of arrays.old)
        (contents_of arrays.new) }
    ensures room { result ≢ OK → IsShort (contents_in records.now) (contents_of arrays.old) }
    ensures status { (result ≡ OK) ⊎ (result ≡ NO_ROOM) }
    ensures places { SamePlaces arrays.old arrays.new }
    ensures stay { result ≢ OK → contents_of arrays.new ≡ contents_of arrays.old }
{
    *outcome = Outcome {
        objects: records.objects.len() as u64,
        targets: records.targets.len() as u64,
        text: records.text.len() as u64,
        parts: records.data.parts.len() as u64,
        bytes: records.data.bytes.len() as u64,
        table: 0,
        reason: 0,
        place: 0,
    };
    if !have_room(records, arrays) {
        return NO_ROOM;
    }
    put_front(arrays.objects, &records.objects);
    put_front(arrays.targets, &records.targets);
    put_front(arrays.text, &records.text);
    put_front(arrays.parts, &records.data.parts);
    put_front(arrays.bytes, &records.data.bytes);
    OK
}

// Loads the tables, and writes what they load to.
fn load_into(
    alloc: Global,
    tables: &[LentTable<'_>],
    depth: u32,
    arrays: &mut Arrays<'_>,
    outcome: &mut Outcome,
) -> u32
    ensures ok { result ≡ OK → IsWritten depth (bytes_of tables.now) (contents_of arrays.old)
        (contents_of arrays.new) outcome.new }
    ensures refused { result ≡ REFUSED → IsRefusal depth
        (bytes_of tables.now) arrays.old.text.now arrays.new.text.now outcome.new }
    ensures room { result ≡ NO_ROOM → NeedsRoom depth (bytes_of tables.now)
        (contents_of arrays.old) outcome.new }
    ensures call { (result ≡ CALL) ↔ ((tables.now ≡ []) ⊎ ((depth < 1) ⊎ (4096 < depth))) }
    ensures stay { result ≢ OK → StayButText (contents_of arrays.old) (contents_of arrays.new) }
    ensures text_stays { result ≢ OK → result ≢ REFUSED → arrays.new.text.now
        ≡ arrays.old.text.now }
    ensures places { SamePlaces arrays.old arrays.new }
    ensures silent { result ≢ OK → result ≢ REFUSED → result ≢ NO_ROOM → outcome.new ≡ no_outcome }
    ensures statuses { result ≤ 4 }
{
    *outcome = Outcome::nothing();
    let Some(depth) = Depth::new(depth) else {
        return CALL;
    };
    if tables.is_empty() {
        return CALL;
    }
    let Ok(copied) = copy_tables(alloc, tables) else {
        return MEMORY;
    };
    match load_records(alloc, &copied, depth) {
        Ok(records) => write_records(&records, arrays, outcome),
        Err(LoadFault::Memory) => MEMORY,
        Err(LoadFault::At { table, reason }) => write_refusal(
            alloc,
            table,
            &reason,
            arrays.text,
            outcome,
        ),
    }
}

/// Loads a DSDT and SSDTs, in the order of their load, and writes what they load to into the caller's arrays.
pub fn write_load(
    alloc: Global,
    tables: &[LentTable<'_>],
    depth: u32,
    arrays: &mut Arrays<'_>,
    outcome: &mut Outcome,
) -> u32
    // The arrays begin with the records, targets, text, parts and bytes of what the tables load to.
    ensures ok { result ≡ OK → IsWritten depth (bytes_of tables.now) (contents_of arrays.old)
        (contents_of arrays.new) outcome.new }
    // Of independent SSDTs they begin with the same for each order, but for the numbers of tables.
    ensures any_order { result ≡ OK → IsWrittenInAnyOrder depth (bytes_of tables.now)
        (contents_of arrays.old) (contents_of arrays.new) }
    // The tables have no load, for the reason that the outcome has.
    ensures refused { result ≡ REFUSED → IsRefusal depth
        (bytes_of tables.now) arrays.old.text.now arrays.new.text.now outcome.new }
    // They load, to more than there is room for: the outcome has how much it is.
    ensures room { result ≡ NO_ROOM → NeedsRoom depth (bytes_of tables.now)
        (contents_of arrays.old) outcome.new }
    ensures call { (result ≡ CALL) ↔ ((tables.now ≡ []) ⊎ ((depth < 1) ⊎ (4096 < depth))) }
    ensures stay { result ≢ OK → StayButText (contents_of arrays.old) (contents_of arrays.new) }
    ensures text_stays { result ≢ OK → result ≢ REFUSED → arrays.new.text.now
        ≡ arrays.old.text.now }
    // The arrays stay where they are.
    ensures places { SamePlaces arrays.old arrays.new }
    // Of any other status the outcome is 0.
    ensures silent { result ≢ OK → result ≢ REFUSED → result ≢ NO_ROOM → outcome.new ≡ no_outcome }
    ensures statuses { result ≤ 4 }
{
    load_into(alloc, tables, depth, arrays, outcome)
}
