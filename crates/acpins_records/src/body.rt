//! The body of one method into the array of a caller.

ghost use Rattle.std.specs.Prelude.{◌≡◌, ◌≢◌, ◌↔◌, ◌∷◌, ◌⊎◌, ◌≤◌, ◌<◌, [], length, IfOk, IfErr};
ghost use Rattle.acpi_values.specs.declared.fault.BodyFault.{BodyFault};
ghost use Rattle.acpi_declare.specs.Loads.{HasNoLoad};
ghost use Rattle.acpi_declare.specs.Refusals.{IsLoadFault};
ghost use Rattle.acpi_name.specs.Text.{IsPathText};
ghost use Rattle.acpins_records.specs.Bodies.{body_reason_code, read_record, unread_record, HasNoMethod, IsBodyWritten, NeedsText};
ghost use Rattle.acpins_records.specs.steps.Giving.{BodyOrNone};
ghost use Rattle.acpins_records.specs.Orders.{IsBodyInAnyOrder};
ghost use Rattle.acpins_records.specs.Outcomes.{no_outcome, text_outcome};
ghost use Rattle.acpins_records.specs.Written.{IsFront, IsRefusal, bytes_of};

use crate::outcome::Outcome;
use crate::refusing::write_refusal;
use acpi_body::{Body, BodyFault, BodyReason};
use acpi_declare::LoadFault;
use acpi_machine::{Machine, explain_shared, load_with_body_at};
use acpi_name::{Path, PathFault};
use acpi_space::TreeSpace;
use acpi_terms::{Depth, Object};
use acpi_text::put_terms;
use acpins_lent::{
    BAD_PATH, CALL, LentTable, MEMORY, NO_METHOD, NO_ROOM, OK, REFUSED, copy_tables, path_in,
    put_front,
};
use acpins_output::body_at;
use bytes::Bytes;
use std::alloc::Global;
use text_buffer::Text;

/// How the body of a method is given (ACPI 6.5, 20.2.5.2 DefMethod).
#[repr(C)]
#[derive(Clone, Copy, Debug)]
pub struct BodyRecord {
    /// 1: the text is its statements. 0: the text is its bytes as they are, since they can't be read as statements.
    pub is_read: u64,
    /// Why they can't be read, as 0x4206 for B6; 0 where they are read.
    pub reason: u64,
    /// Where, in bytes from the body's first byte; 0 where they are read.
    pub place: u64,
}

fn body_reason_code(reason: BodyReason) -> u64
    ensures { result ≡ body_reason_code reason }
{
    match reason {
        BodyReason::Cut => 0x4201,
        BodyReason::BadOpcode => 0x4202,
        BodyReason::ReservedBits => 0x4203,
        BodyReason::BadName => 0x4204,
        BodyReason::Overrun => 0x4205,
        BodyReason::NotStatement => 0x4206,
        BodyReason::NotValue => 0x4207,
        BodyReason::NotTarget => 0x4208,
        BodyReason::LeftOut => 0x4209,
        BodyReason::BadString => 0x420A,
        BodyReason::TooDeep => 0x420B,
        BodyReason::NotData => 0x420C,
        BodyReason::BadPlace => 0x420D,
        BodyReason::Unsure => 0x5305,
    }
}

impl BodyRecord {
    ghost use Rattle.std.specs.Prelude.{◌≡◌};
    ghost use Rattle.acpins_records.specs.Bodies.{read_record, unread_record};

    // A body that is read.
    fn read() -> BodyRecord
        ensures { result ≡ read_record }
    {
        BodyRecord {
            is_read: 1,
            reason: 0,
            place: 0,
        }
    }

    // A body that isn't.
    fn unread(fault: Option<BodyFault>) -> BodyRecord
        ensures { result ≡ unread_record fault }
    {
        match fault {
            Some(fault) => BodyRecord {
                is_read: 0,
                reason: body_reason_code(fault.reason),
                place: fault.place as u64,
            },
            None => BodyRecord {
                is_read: 0,
                reason: 0,
                place: 0,
            },
        }
    }
}

// A body as it is given.
#[derive(Drop)]
pub(crate) struct Given {
    text: Vec<u8>,
    record: BodyRecord,
}

// The body of the method at the path, where a table declares one there.
fn load_body(
    alloc: Global,
    tables: &[Bytes],
    path: &Path,
    depth: Depth,
) -> Result<Option<Given>, LoadFault>
    requires { tables.now ≢ [] }
    ensures ok { IfOk result (λ g. BodyOrNone depth tables.now path.now g) }
    ensures err { IfErr result (λ e. IsLoadFault depth tables.now e) }
    ensures none { IfErr result (λ e. e ≢ LoadFault.Memory → HasNoLoad depth tables.now) }
{
    let Some((dsdt, ssdts)) = tables.split_first() else {
        unreachable!()
    };
    let machine: Machine<TreeSpace<Object>> = load_with_body_at(alloc, dsdt, ssdts, path, depth)?;
    match body_at(path, machine.bodies()) {
        None => Ok(None),
        Some(Body::Terms(terms)) => {
            let mut text = Text::new(alloc);
            put_terms(&mut text, terms);
            Ok(Some(Given {
                text: text.into_bytes()?,
                record: BodyRecord::read(),
            }))
        }
        Some(Body::Opaque(bytes)) => {
            let text = Vec::from_slice(alloc, bytes)?;
            let fault = explain_shared::<TreeSpace<Object>>(alloc, dsdt, ssdts, path, depth)?;
            Ok(Some(Given {
                text,
                record: BodyRecord::unread(fault),
            }))
        }
    }
}

// Writes a body, where there is room for its text.
fn write_given(given: &Given, text: &mut [u8], body: &mut BodyRecord, outcome: &mut Outcome) -> u32
    ensures count { outcome.new ≡ text_outcome (length given.now.text.items) }
    ensures body { body.new ≡ given.now.record }
    ensures ok { result ≡ OK → IsFront given.now.text.items text.old text.new }
    ensures room { result ≢ OK → (length text.old < length given.now.text.items)
        × (text.new ≡ text.old) }
    ensures status { (result ≡ OK) ⊎ (result ≡ NO_ROOM) }
{
    *outcome = Outcome::of_text(given.text.len());
    *body = given.record;
    if given.text.len() > text.len() {
        return NO_ROOM;
    }
    put_front(text, &given.text);
    OK
}

/// Writes the body of the method at a path: its statements as text, or its bytes where they can't be read. Where the
/// text is too short, only the record and the outcome are written.
pub fn write_body(
    alloc: Global,
    tables: &[LentTable<'_>],
    depth: u32,
    path: &[u8],
    text: &mut [u8],
    body: &mut BodyRecord,
    outcome: &mut Outcome,
) -> u32
    ensures ok { result ≡ OK → IsBodyWritten depth
        (bytes_of tables.now) path.now text.old text.new body.new outcome.new }
    // Of independent SSDTs in any order it is the body that a single load has at the path.
    ensures any_order { result ≡ OK → IsBodyInAnyOrder depth
        (bytes_of tables.now) path.now text.old text.new body.new }
    ensures refused { result ≡ REFUSED → IsRefusal depth
        (bytes_of tables.now) text.old text.new outcome.new }
    ensures room { result ≡ NO_ROOM → NeedsText depth
        (bytes_of tables.now) path.now text.old body.new outcome.new }
    ensures none { result ≡ NO_METHOD → HasNoMethod depth (bytes_of tables.now) path.now }
    ensures bad { result ≡ BAD_PATH → IsPathText path.now → ⊥ }
    ensures call { (result ≡ CALL) ↔ ((tables.now ≡ []) ⊎ ((depth < 1) ⊎ (4096 < depth))) }
    ensures stay { result ≢ OK → result ≢ REFUSED → text.new ≡ text.old }
    ensures body_stays { result ≢ OK → result ≢ NO_ROOM → body.new ≡ body.old }
    // Of any other status the outcome is 0.
    ensures silent { result ≢ OK → result ≢ REFUSED → result ≢ NO_ROOM → outcome.new ≡ no_outcome }
    ensures statuses { result ≤ 6 }
{
    *outcome = Outcome::nothing();
    let Some(depth) = Depth::new(depth) else {
        return CALL;
    };
    if tables.is_empty() {
        return CALL;
    }
    let path = match path_in(alloc, path) {
        Ok(path) => path,
        Err(PathFault::BadText) => return BAD_PATH,
        Err(PathFault::Memory) => return MEMORY,
    };
    let Ok(copied) = copy_tables(alloc, tables) else {
        return MEMORY;
    };
    match load_body(alloc, &copied, &path, depth) {
        Ok(Some(given)) => write_given(&given, text, body, outcome),
        Ok(None) => NO_METHOD,
        Err(LoadFault::Memory) => MEMORY,
        Err(LoadFault::At { table, reason }) => {
            write_refusal(alloc, table, &reason, text, outcome)
        }
    }
}
