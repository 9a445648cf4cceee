//! Rewritten tables into the arrays of a caller.

ghost use Rattle.std.specs.Prelude.{◌≡◌, ◌≢◌, ◌↔◌, ◌⊎◌, ◌≤◌, ◌<◌, ◌++◌, [], map, length, IfOk, IfErr, OnOk};
ghost use Rattle.acpi_declare.specs.Loads.{HasNoLoad};
ghost use Rattle.acpi_declare.specs.Refusals.{IsLoadFault};
ghost use Rattle.acpi_rewrite.specs.Rewriting.{AreRewritten, AreTablesOfBytes};
ghost use Rattle.acpins_records.specs.Orders.{AreTablesInAnyOrder};
ghost use Rattle.acpins_records.specs.Outcomes.{no_outcome, bytes_outcome};
ghost use Rattle.acpins_records.specs.Rewrites.{ends_from, joined, AreTablesWritten, NeedTablesRoom};
ghost use Rattle.acpins_records.specs.Written.{IsFront, IsRefusal, bytes_of};

use crate::outcome::Outcome;
use crate::refusing::write_refusal;
use acpi_declare::LoadFault;
use acpi_rewrite::rewrite_shared;
use acpi_space::TreeSpace;
use acpi_terms::{Depth, Object};
use acpins_lent::{CALL, LentTable, MEMORY, NO_ROOM, OK, REFUSED, copy_tables, put_front};
use bytes::Bytes;
use std::alloc::{AllocError, Global};

// Tables one behind the other.
#[derive(Drop)]
pub(crate) struct Joined {
    bytes: Vec<u8>,
    // Where each ends.
    ends: Vec<u64>,
}

// Joins tables.
fn join(alloc: Global, tables: &[Vec<u8>]) -> Result<Joined, AllocError>
    ensures bytes { IfOk result (λ j. j.bytes.items ≡ joined (map (λ t. t.items) tables.now)) }
    ensures ends { IfOk result (λ j. j.ends.items ≡ ends_from 0 (map (λ t. t.items) tables.now)) }
{
    let mut bytes = Vec::new(alloc);
    let mut ends = Vec::new(alloc);
    for table in tables {
        bytes.extend_from_slice(table)?;
        ends.push(bytes.len() as u64)?;
    }
    Ok(Joined { bytes, ends })
}

// The tables in their shortest spelling.
fn rewrite(alloc: Global, tables: &[Bytes], depth: Depth) -> Result<Vec<Vec<u8>>, LoadFault>
    requires { tables.now ≢ [] }
    ensures ok { IfOk result (λ v. AreRewritten depth tables.now (map (λ t. t.items) v.items)) }
    ensures bytes { IfOk result (λ v. AreTablesOfBytes tables.now) }
    ensures err { IfErr result (λ e. IsLoadFault depth tables.now e) }
    ensures none { IfErr result (λ e. e ≢ LoadFault.Memory → HasNoLoad depth tables.now) }
{
    let Some((dsdt, ssdts)) = tables.split_first() else {
        unreachable!()
    };
    rewrite_shared::<TreeSpace<Object>>(alloc, dsdt, ssdts, depth)
}

// Writes joined tables, where there is room for them.
fn write_joined(joined: &Joined, bytes: &mut [u8], ends: &mut [u64], outcome: &mut Outcome) -> u32
    ensures count { outcome.new ≡ bytes_outcome (length joined.now.bytes.items) }
    ensures bytes { result ≡ OK → IsFront joined.now.bytes.items bytes.old bytes.new }
    ensures ends { result ≡ OK → IsFront joined.now.ends.items ends.old ends.new }
    ensures room { result ≢ OK → (length bytes.old < length joined.now.bytes.items)
        ⊎ (length ends.old < length joined.now.ends.items) }
    ensures stay { result ≢ OK → (bytes.new ≡ bytes.old) × (ends.new ≡ ends.old) }
    ensures status { (result ≡ OK) ⊎ (result ≡ NO_ROOM) }
{
    *outcome = Outcome::of_bytes(joined.bytes.len());
    if joined.bytes.len() > bytes.len() || joined.ends.len() > ends.len() {
        return NO_ROOM;
    }
    put_front(bytes, &joined.bytes);
    put_front(ends, &joined.ends);
    OK
}

/// Writes the tables, each in its shortest spelling, one behind the other, and where each ends, in bytes. The path that
/// a refusal names stands at the front of the bytes.
pub fn write_tables(
    alloc: Global,
    tables: &[LentTable<'_>],
    depth: u32,
    bytes: &mut [u8],
    ends: &mut [u64],
    outcome: &mut Outcome,
) -> u32
    ensures ok { result ≡ OK → AreTablesWritten depth
        (bytes_of tables.now) bytes.old bytes.new ends.old ends.new outcome.new }
    // Of independent SSDTs in any order they load to the join of the single loads.
    ensures any_order { result ≡ OK → AreTablesInAnyOrder depth
        (bytes_of tables.now) bytes.old bytes.new ends.old ends.new }
    ensures refused { result ≡ REFUSED → IsRefusal depth
        (bytes_of tables.now) bytes.old bytes.new outcome.new }
    ensures room { result ≡ NO_ROOM → NeedTablesRoom depth
        (bytes_of tables.now) bytes.old ends.old outcome.new }
    ensures call { (result ≡ CALL) ↔ ((tables.now ≡ []) ⊎ ((depth < 1) ⊎ (4096 < depth))) }
    ensures stay { result ≢ OK → result ≢ REFUSED → bytes.new ≡ bytes.old }
    ensures ends_stay { result ≢ OK → ends.new ≡ ends.old }
    // Of any other status the outcome is 0.
    ensures silent { result ≢ OK → result ≢ REFUSED → result ≢ NO_ROOM → outcome.new ≡ no_outcome }
    ensures statuses { result ≤ 4 }
{
    *outcome = Outcome::nothing();
    let Some(depth) = Depth::new(depth) else {
        return CALL;
    };
    if tables.is_empty() {
        return CALL;
    }
    let Ok(copied) = copy_tables(alloc, tables) else {
        return MEMORY;
    };
    match rewrite(alloc, &copied, depth) {
        Ok(rewritten) => match join(alloc, &rewritten) {
            Ok(joined) => write_joined(&joined, bytes, ends, outcome),
            Err(_) => MEMORY,
        },
        Err(LoadFault::Memory) => MEMORY,
        Err(LoadFault::At { table, reason }) => {
            write_refusal(alloc, table, &reason, bytes, outcome)
        }
    }
}
