//! The verdict on SSDTs into the arrays of a caller.

ghost use Rattle.std.specs.Prelude.{◌≡◌, ◌≢◌, ◌↔◌, ◌∷◌, ◌++◌, ◌⊎◌, ◌≤◌, ◌<◌, ℕ, List, [], length, take, IfOk, IfErr, OnOk};
ghost use Rattle.acpi_declare.specs.Loads.{HasNoLoad};
ghost use Rattle.acpi_declare.specs.Refusals.{IsLoadFault};
ghost use Rattle.acpi_name.specs.Text.{path_text};
ghost use Rattle.acpins_records.specs.Checks.{IsAnswer, IsAnswerOf, IsVerdictWritten, NeedsAnswerRoom, satisfied_from, satisfied_text, verdict_record};
ghost use Rattle.acpins_records.specs.Orders.{LoadInAnyOrder};
ghost use Rattle.acpins_records.specs.Outcomes.{no_outcome, text_outcome, reason_code, place_of, reason_path};
ghost use Rattle.acpins_records.specs.Written.{IsFront, IsRefusal, bytes_of};

use crate::outcome::{Outcome, place_of, reason_code};
use crate::refusing::{path_bytes, write_refusal};
use acpi_declare::{LoadFault, LoadReason};
use acpi_name::Path;
use acpi_space::TreeSpace;
use acpi_terms::{Depth, Object};
use acpi_verdict::{Checked, Satisfied, Verdict, check_shared};
use acpins_lent::{CALL, LentTable, MEMORY, NO_ROOM, OK, REFUSED, copy_tables, put_front};
use bytes::Bytes;
use std::alloc::{AllocError, Global};

/// Whether SSDTs may be loaded in any order over a DSDT (ACPI 6.5, 5.2.11). SSDTs are numbered from 1.
#[repr(C)]
#[derive(Clone, Copy, Debug)]
pub struct VerdictRecord {
    /// 0: they may. 1: the SSDT `first` doesn't load over the DSDT alone. 2: `first` and `second` declare one path. 3:
    /// the load of `first` missed a path that `second` declares.
    pub order: u64,
    /// An SSDT; 0 where they may.
    pub first: u64,
    /// Another; 0 where none is meant.
    pub second: u64,
    /// Why `first` doesn't load alone, as in `Outcome`; 0 of any other verdict.
    pub reason: u64,
    /// Where, in bytes from the table's first byte; 0 of a reason that has no place.
    pub place: u64,
    /// The bytes of the path that stands at the front of the text; 0 where there is none.
    pub path_length: u64,
    /// How many Externals are satisfied; 0 where the verdict is another than 0.
    pub satisfied: u64,
}

/// An External that an SSDT satisfies for another table (ACPI 6.5, 20.2.5.2 DefExternal).
#[repr(C)]
#[derive(Clone, Copy, Debug)]
pub struct SatisfiedRecord {
    /// The table that has the External: 0 is the DSDT.
    pub user: u64,
    /// The SSDT that declares the method, from 1.
    pub definer: u64,
    /// Where the method's path begins in the text, in bytes.
    pub path: u64,
    /// The bytes of the path.
    pub path_length: u64,
}

// A verdict as it is written.
#[derive(Drop)]
pub(crate) struct Answer {
    record: VerdictRecord,
    satisfied: Vec<SatisfiedRecord>,
    text: Vec<u8>,
}

// The verdict of these numbers.
fn verdict(
    order: u64,
    first: usize,
    second: usize,
    path_length: usize,
    satisfied: usize,
) -> VerdictRecord
    ensures { result ≡ verdict_record order first second 0 0 path_length satisfied }
{
    VerdictRecord {
        order,
        first: first as u64,
        second: second as u64,
        reason: 0,
        place: 0,
        path_length: path_length as u64,
        satisfied: satisfied as u64,
    }
}

// The paths of satisfied Externals, one behind the other, and a record for each.
fn satisfied_records(
    alloc: Global,
    satisfied: &[Satisfied],
) -> Result<(Vec<SatisfiedRecord>, Vec<u8>), AllocError>
    ensures records { IfOk result (λ r. r.0.items ≡ satisfied_from 0 satisfied.now) }
    ensures text { IfOk result (λ r. r.1.items ≡ satisfied_text satisfied.now) }
{
    let mut records = Vec::new(alloc);
    let mut text = Vec::new(alloc);
    for triple in satisfied {
        let path = text.len();
        let form = path_bytes(alloc, &triple.path)?;
        text.extend_from_slice(&form)?;
        records.push(SatisfiedRecord {
            user: triple.user as u64,
            definer: triple.definer as u64,
            path: path as u64,
            path_length: form.len() as u64,
        })?;
    }
    Ok((records, text))
}

// The path that a reason names; nothing where it names none.
fn path_of_reason(alloc: Global, reason: &LoadReason) -> Result<Vec<u8>, AllocError>
    ensures { IfOk result (λ v. v.items ≡ reason_path reason.now) }
{
    match reason {
        LoadReason::Refused { path, .. } => path_bytes(alloc, path),
        _ => Ok(Vec::new(alloc)),
    }
}

// SSDTs that may be loaded in any order.
fn commuting(alloc: Global, satisfied: &[Satisfied]) -> Result<Answer, AllocError>
    ensures record { IfOk result (λ a. a.record
        ≡ verdict_record 0 0 0 0 0 0 (length satisfied.now)) }
    ensures satisfied { IfOk result (λ a. a.satisfied.items ≡ satisfied_from 0 satisfied.now) }
    ensures text { IfOk result (λ a. a.text.items ≡ satisfied_text satisfied.now) }
{
    let (records, text) = satisfied_records(alloc, satisfied)?;
    Ok(Answer {
        record: verdict(0, 0, 0, 0, satisfied.len()),
        satisfied: records,
        text,
    })
}

// An SSDT that doesn't load alone.
fn not_alone(alloc: Global, ssdt: usize, reason: &LoadReason) -> Result<Answer, AllocError>
    ensures record { IfOk result (λ a. a.record
        ≡ verdict_record 1 ssdt 0 (reason_code reason.now) (place_of reason.now)
        (length (reason_path reason.now)) 0) }
    ensures satisfied { IfOk result (λ a. a.satisfied.items ≡ []) }
    ensures text { IfOk result (λ a. a.text.items ≡ reason_path reason.now) }
{
    let text = path_of_reason(alloc, reason)?;
    let mut record = verdict(1, ssdt, 0, text.len(), 0);
    record.reason = reason_code(reason);
    record.place = place_of(reason);
    Ok(Answer {
        record,
        satisfied: Vec::new(alloc),
        text,
    })
}

// Two SSDTs that clash at a path.
fn clashing(
    alloc: Global,
    order: u64,
    first: usize,
    second: usize,
    path: &Path,
) -> Result<Answer, AllocError>
    ensures record { IfOk result (λ a. a.record
        ≡ verdict_record order first second 0 0 (length (path_text path.now)) 0) }
    ensures satisfied { IfOk result (λ a. a.satisfied.items ≡ []) }
    ensures text { IfOk result (λ a. a.text.items ≡ path_text path.now) }
{
    let text = path_bytes(alloc, path)?;
    Ok(Answer {
        record: verdict(order, first, second, text.len(), 0),
        satisfied: Vec::new(alloc),
        text,
    })
}

// The reason of a fault that is not of memory.
fn reason_of(fault: LoadFault) -> LoadReason
    requires { fault ≢ LoadFault.Memory }
    ensures { (table : ℕ) × (fault ≡ LoadFault.At table result) }
{
    match fault {
        LoadFault::At { reason, .. } => reason,
        LoadFault::Memory => unreachable!(),
    }
}

// What is written of the verdict on SSDTs.
fn check_ssdts(
    alloc: Global,
    dsdt: &Bytes,
    ssdts: &[Bytes],
    depth: Depth,
) -> Result<Answer, LoadFault>
    ensures ok { IfOk result (λ a. IsAnswerOf depth dsdt.now ssdts.now a.record a.satisfied.items
        a.text.items) }
    ensures err { IfErr result (λ e. IsLoadFault depth (dsdt.now ∷ []) e) }
    ensures none { IfErr result (λ e. e ≢ LoadFault.Memory → HasNoLoad depth (dsdt.now ∷ [])) }
{
    let Checked { verdict, satisfied } = check_shared::<TreeSpace<Object>>(
        alloc, dsdt, ssdts, depth,
    )?;
    match verdict {
        Verdict::Commute => Ok(commuting(alloc, &satisfied)?),
        Verdict::NotAlone { i, fault } => Ok(not_alone(alloc, i, &reason_of(fault))?),
        Verdict::Same { i, j, path } => Ok(clashing(alloc, 2, i, j, &path)?),
        Verdict::Missed {
            searcher,
            definer,
            path,
        } => Ok(clashing(alloc, 3, searcher, definer, &path)?),
    }
}

// .. of tables, the first of which is the DSDT.
fn check(alloc: Global, tables: &[Bytes], depth: Depth) -> Result<Answer, LoadFault>
    requires { tables.now ≢ [] }
    ensures ok { IfOk result (λ a. IsAnswer depth tables.now a.record a.satisfied.items
        a.text.items) }
    ensures err { IfErr result (λ e. IsLoadFault depth (take 1 tables.now) e) }
    ensures none { IfErr result (λ e. e ≢ LoadFault.Memory → HasNoLoad depth (take 1 tables.now)) }
{
    let Some((dsdt, ssdts)) = tables.split_first() else {
        unreachable!()
    };
    check_ssdts(alloc, dsdt, ssdts, depth)
}

// Writes an answer, where there is room for it.
fn write_answer(
    answer: &Answer,
    satisfied: &mut [SatisfiedRecord],
    text: &mut [u8],
    verdict: &mut VerdictRecord,
    outcome: &mut Outcome,
) -> u32
    ensures count { outcome.new ≡ text_outcome (length answer.now.text.items) }
    ensures verdict { verdict.new ≡ answer.now.record }
    ensures satisfied { result ≡ OK → IsFront answer.now.satisfied.items satisfied.old
        satisfied.new }
    ensures text { result ≡ OK → IsFront answer.now.text.items text.old text.new }
    ensures room { result ≢ OK → (length satisfied.old < length answer.now.satisfied.items)
        ⊎ (length text.old < length answer.now.text.items) }
    ensures stay { result ≢ OK → (satisfied.new ≡ satisfied.old) × (text.new ≡ text.old) }
    ensures status { (result ≡ OK) ⊎ (result ≡ NO_ROOM) }
{
    *outcome = Outcome::of_text(answer.text.len());
    *verdict = answer.record;
    if answer.satisfied.len() > satisfied.len() || answer.text.len() > text.len() {
        return NO_ROOM;
    }
    put_front(satisfied, &answer.satisfied);
    put_front(text, &answer.text);
    OK
}

/// Writes whether the SSDTs may be loaded in any order over the DSDT, and the Externals that they satisfy for one
/// another. Where an array is too short, only the verdict and the outcome are written.
pub fn write_verdict(
    alloc: Global,
    tables: &[LentTable<'_>],
    depth: u32,
    satisfied: &mut [SatisfiedRecord],
    text: &mut [u8],
    verdict: &mut VerdictRecord,
    outcome: &mut Outcome,
) -> u32
    ensures ok { result ≡ OK → IsVerdictWritten depth
        (bytes_of tables.now) satisfied.old satisfied.new text.old text.new verdict.new
        outcome.new }
    // SSDTs that may be loaded in any order load in each one to the join of their single loads.
    ensures orders { (result ≡ OK) ⊎ (result ≡ NO_ROOM) → verdict.new.order ≡ 0
        → LoadInAnyOrder depth (bytes_of tables.now) }
    // Only the DSDT is refused: an SSDT that can't be loaded over it is a verdict.
    ensures refused { result ≡ REFUSED → IsRefusal depth
        (take 1 (bytes_of tables.now)) text.old text.new outcome.new }
    ensures room { result ≡ NO_ROOM → NeedsAnswerRoom depth
        (bytes_of tables.now) satisfied.old text.old verdict.new outcome.new }
    ensures call { (result ≡ CALL) ↔ ((tables.now ≡ []) ⊎ ((depth < 1) ⊎ (4096 < depth))) }
    ensures stay { result ≢ OK → satisfied.new ≡ satisfied.old }
    ensures text_stays { result ≢ OK → result ≢ REFUSED → text.new ≡ text.old }
    ensures verdict_stays { result ≢ OK → result ≢ NO_ROOM → verdict.new ≡ verdict.old }
    // Of any other status the outcome is 0.
    ensures silent { result ≢ OK → result ≢ REFUSED → result ≢ NO_ROOM → outcome.new ≡ no_outcome }
    ensures statuses { result ≤ 4 }
{
    *outcome = Outcome::nothing();
    let Some(depth) = Depth::new(depth) else {
        return CALL;
    };
    if tables.is_empty() {
        return CALL;
    }
    let Ok(copied) = copy_tables(alloc, tables) else {
        return MEMORY;
    };
    match check(alloc, &copied, depth) {
        Ok(answer) => write_answer(&answer, satisfied, text, verdict, outcome),
        Err(LoadFault::Memory) => MEMORY,
        Err(LoadFault::At { table, reason }) => {
            write_refusal(alloc, table, &reason, text, outcome)
        }
    }
}
