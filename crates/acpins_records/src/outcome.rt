//! How a call ended, for C.

ghost use Rattle.std.specs.Prelude.{◌≡◌};
ghost use Rattle.acpins_records.specs.Outcomes.{table_fault_code, item_reason_code, refusal_code, reason_code, place_of};

use acpi_declare::{LoadReason, Refusal};
use acpi_table::{HEADER_BYTES, TableFault};
use acpi_terms::ItemReason;

/// How a call ended. What a status doesn't speak of is 0.
#[repr(C)]
#[derive(Clone, Copy, Debug)]
pub struct Outcome {
    /// How many records there are.
    pub objects: u64,
    /// How many targets of links there are.
    pub targets: u64,
    /// How many bytes of text; of a refusal, those of the path that it names.
    pub text: u64,
    /// How many parts of constant data.
    pub parts: u64,
    /// How many bytes of strings, buffers and names, or of all tables that are written.
    pub bytes: u64,
    /// The table that is refused, from 0.
    pub table: u64,
    /// Why: a letter's code and a number, as 0x4B06 for K6.
    pub reason: u64,
    /// Where, in bytes from the table's first byte; 0 of a reason that has no place.
    pub place: u64,
}

fn table_fault_code(fault: TableFault) -> u64
    ensures { result ≡ table_fault_code fault }
{
    match fault {
        TableFault::Short => 0x5401,
        TableFault::BadLength => 0x5402,
        TableFault::TooLong => 0x5403,
        TableFault::Cut => 0x5404,
        TableFault::BadSum => 0x5405,
    }
}

fn item_reason_code(reason: ItemReason) -> u64
    ensures { result ≡ item_reason_code reason }
{
    match reason {
        ItemReason::Cut => 0x4B01,
        ItemReason::BadOpcode => 0x4B02,
        ItemReason::ReservedBits => 0x4B03,
        ItemReason::BadName => 0x4B04,
        ItemReason::Overrun => 0x4B05,
        ItemReason::Computed => 0x4B06,
        ItemReason::Alias => 0x4B07,
        ItemReason::ModuleIf => 0x4B08,
        ItemReason::ModuleCode => 0x4B09,
        ItemReason::Load => 0x4B0A,
        ItemReason::NotData => 0x4B0B,
        ItemReason::TooDeep => 0x4B0C,
        ItemReason::BadString => 0x4B0D,
        ItemReason::DataRegion => 0x4B0E,
    }
}

fn refusal_code(refusal: Refusal) -> u64
    ensures { result ≡ refusal_code refusal }
{
    match refusal {
        Refusal::EmptyName => 0x4501,
        Refusal::AboveRoot => 0x4502,
        Refusal::Missing => 0x4503,
        Refusal::NoParent => 0x4504,
        Refusal::NotAScope => 0x4505,
        Refusal::Taken => 0x4506,
    }
}

/// The code of a reason.
pub(crate) fn reason_code(reason: &LoadReason) -> u64
    ensures { result ≡ reason_code reason.now }
{
    match reason {
        LoadReason::Table(fault) => table_fault_code(*fault),
        LoadReason::NotDsdt => 0x4C01,
        LoadReason::NotSsdt => 0x4C02,
        LoadReason::Trailing => 0x4C03,
        LoadReason::Item { reason, .. } => item_reason_code(*reason),
        LoadReason::Refused { refusal, .. } => refusal_code(*refusal),
    }
}

/// Where a reason holds. (No code has so many bytes that the sum wraps.)
pub(crate) fn place_of(reason: &LoadReason) -> u64
    ensures { result ≡ place_of reason.now }
{
    match reason {
        LoadReason::Item { place, .. } => (*place).saturating_add(HEADER_BYTES) as u64,
        _ => 0,
    }
}

impl Outcome {
    ghost use Rattle.std.specs.Prelude.{◌≡◌};
    ghost use Rattle.acpins_records.specs.Outcomes.{no_outcome, text_outcome, bytes_outcome, refused_as};

    /// Nothing is said.
    pub(crate) fn nothing() -> Outcome
        ensures { result ≡ no_outcome }
    {
        Outcome::of_text(0)
    }

    /// So many bytes of text.
    pub(crate) fn of_text(length: usize) -> Outcome
        ensures { result ≡ text_outcome length }
    {
        Outcome {
            objects: 0,
            targets: 0,
            text: length as u64,
            parts: 0,
            bytes: 0,
            table: 0,
            reason: 0,
            place: 0,
        }
    }

    /// So many bytes.
    pub(crate) fn of_bytes(length: usize) -> Outcome
        ensures { result ≡ bytes_outcome length }
    {
        Outcome {
            objects: 0,
            targets: 0,
            text: 0,
            parts: 0,
            bytes: length as u64,
            table: 0,
            reason: 0,
            place: 0,
        }
    }

    /// Why a table is refused, where the path that the refusal names has so many bytes.
    pub(crate) fn refused(table: usize, reason: &LoadReason, text: usize) -> Outcome
        ensures { result ≡ refused_as table reason.now text }
    {
        Outcome {
            objects: 0,
            targets: 0,
            text: text as u64,
            parts: 0,
            bytes: 0,
            table: table as u64,
            reason: reason_code(reason),
            place: place_of(reason),
        }
    }
}
