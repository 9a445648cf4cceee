//! Faults as the libraries print them.

use crate::expect::{expect_all_printed, expect_printed, path_of};
use acpi_body::{BodyFault, BodyReason};
use acpi_load::{LoadFault, LoadReason, Refusal};
use acpi_name::{NameFault, PathFault, PlaceFault};
use acpi_space::{Refused, SearchFault};
use acpi_table::{PkgFault, ReadFault, SourceFault, TableFault};
use acpi_terms::{ItemFault, ItemReason};
use acpi_write::WriteFault;
use acpins_run::{Failure, HexFault};
use acpins_words::WordsFault;

const TABLES: [(TableFault, &str); 5] = [
    (TableFault::Short, "T1 Short"),
    (TableFault::BadLength, "T2 BadLength"),
    (TableFault::TooLong, "T3 TooLong"),
    (TableFault::Cut, "T4 Cut"),
    (TableFault::BadSum, "T5 BadSum"),
];

const READS: [(ReadFault, &str); 3] = [
    (ReadFault::Table(TableFault::BadSum), "T5 BadSum"),
    (ReadFault::Device, "D1 Device"),
    (ReadFault::Memory, "D2 Memory"),
];

const PACKAGES: [(PkgFault, &str); 2] = [
    (PkgFault::Cut, "P1 Cut"),
    (PkgFault::ReservedBits, "P2 ReservedBits"),
];

const NAMES: [(NameFault, &str); 4] = [
    (NameFault::Cut, "N1 Cut"),
    (NameFault::BadChar, "N2 BadChar"),
    (NameFault::ZeroCount, "N3 ZeroCount"),
    (NameFault::TooManyUps, "N4 TooManyUps"),
];

const PLACES: [(PlaceFault, &str); 2] = [
    (PlaceFault::AboveRoot, "A1 AboveRoot"),
    (PlaceFault::Memory, "A2 Memory"),
];

const SEARCHES: [(SearchFault, &str); 2] = [
    (SearchFault::AboveRoot, "A1 AboveRoot"),
    (SearchFault::Memory, "A2 Memory"),
];

const PATHS: [(PathFault, &str); 2] = [
    (PathFault::BadText, "X1 BadText"),
    (PathFault::Memory, "X2 Memory"),
];

const SPACES: [(Refused<u8>, &str); 2] = [
    (Refused::Taken(7), "S1 Taken"),
    (Refused::Memory(7), "S2 Memory"),
];

const ITEMS: [(ItemReason, &str); 14] = [
    (ItemReason::Cut, "K1 Cut"),
    (ItemReason::BadOpcode, "K2 BadOpcode"),
    (ItemReason::ReservedBits, "K3 ReservedBits"),
    (ItemReason::BadName, "K4 BadName"),
    (ItemReason::Overrun, "K5 Overrun"),
    (ItemReason::Computed, "K6 Computed"),
    (ItemReason::Alias, "K7 Alias"),
    (ItemReason::ModuleIf, "K8 ModuleIf"),
    (ItemReason::ModuleCode, "K9 ModuleCode"),
    (ItemReason::Load, "K10 Load"),
    (ItemReason::NotData, "K11 NotData"),
    (ItemReason::TooDeep, "K12 TooDeep"),
    (ItemReason::BadString, "K13 BadString"),
    (ItemReason::DataRegion, "K14 DataRegion"),
];

const REFUSALS: [(Refusal, &str); 6] = [
    (Refusal::EmptyName, "E1 EmptyName"),
    (Refusal::AboveRoot, "E2 AboveRoot"),
    (Refusal::Missing, "E3 Missing"),
    (Refusal::NoParent, "E4 NoParent"),
    (Refusal::NotAScope, "E5 NotAScope"),
    (Refusal::Taken, "E6 Taken"),
];

const LOADS: [(LoadReason, &str); 5] = [
    (LoadReason::Table(TableFault::BadSum), "T5 BadSum"),
    (LoadReason::NotDsdt, "L1 NotDsdt"),
    (LoadReason::NotSsdt, "L2 NotSsdt"),
    (LoadReason::Trailing, "L3 Trailing"),
    (
        LoadReason::Item {
            reason: ItemReason::Computed,
            place: 7,
        },
        "K6 Computed",
    ),
];

const WRITES: [(WriteFault, &str); 2] = [
    (WriteFault::TooLong, "W1 TooLong"),
    (WriteFault::Memory, "W2 Memory"),
];

const HEXES: [(HexFault, &str); 2] = [
    (HexFault::BadHex, "H1 BadHex"),
    (HexFault::Memory, "H2 Memory"),
];

const WORDS: [(WordsFault, &str); 2] = [
    (WordsFault::Wrong, "wrong words"),
    (WordsFault::Memory, "M Memory"),
];

const FAILURES: [(Failure<'static>, &str); 12] = [
    (Failure::WrongWords, "acpins: wrong words"),
    (Failure::BadPath, "acpins: bad path"),
    (Failure::NoSuchPath, "acpins: no such path"),
    (Failure::NoTable, "acpins: no table"),
    (Failure::Read("a file"), "acpins: a file: cannot be read"),
    (Failure::BadHex("-"), "acpins: -: bad hexadecimal text"),
    (Failure::Out("out"), "acpins: out: cannot be written"),
    (Failure::Output, "acpins: standard output cannot be written"),
    (
        Failure::Table(9, TableFault::Cut),
        "acpins: table 9: T4 Cut",
    ),
    (
        Failure::Item(1, ItemReason::Load, 43),
        "acpins: table 1: K10 Load at 43",
    ),
    (
        Failure::Load(10, LoadReason::NotSsdt),
        "acpins: table 10: L2 NotSsdt",
    ),
    (Failure::Memory, "acpins: M Memory"),
];

#[test]
fn prints_faults_of_parts(rt: HostRuntime) {
    let alloc = rt.alloc();
    expect_all_printed(&rt, alloc, &TABLES);
    expect_all_printed(&rt, alloc, &READS);
    expect_printed(&rt, alloc, &SourceFault, "a read failed");
    expect_all_printed(&rt, alloc, &PACKAGES);
    expect_all_printed(&rt, alloc, &NAMES);
    expect_all_printed(&rt, alloc, &PLACES);
    expect_all_printed(&rt, alloc, &SEARCHES);
    expect_all_printed(&rt, alloc, &PATHS);
    expect_all_printed(&rt, alloc, &SPACES);
}

// A fault with a place prints its reason alone.
#[test]
fn prints_faults_of_code(rt: HostRuntime) {
    let alloc = rt.alloc();
    expect_all_printed(&rt, alloc, &ITEMS);
    let reason = ItemReason::Computed;
    let fault = ItemFault::At { reason, place: 7 };
    expect_printed(&rt, alloc, &fault, "K6 Computed");
    expect_printed(&rt, alloc, &ItemFault::Memory, "K15 Memory");
    let reason = BodyReason::NotStatement;
    let fault = BodyFault { reason, place: 5 };
    expect_printed(&rt, alloc, &fault, "B6 NotStatement");
    expect_printed(&rt, alloc, &BodyReason::Unsure, "S5 UnsureCount");
    expect_all_printed(&rt, alloc, &WRITES);
}

#[test]
fn prints_faults_of_loads(rt: HostRuntime) {
    let alloc = rt.alloc();
    expect_all_printed(&rt, alloc, &REFUSALS);
    expect_all_printed(&rt, alloc, &LOADS);
    let (refusal, path) = (Refusal::Taken, path_of(&rt, alloc, "\\_SB_"));
    let reason = LoadReason::Refused { refusal, path };
    let fault = LoadFault::At { table: 1, reason };
    expect_printed(&rt, alloc, &fault, "E6 Taken \\_SB_");
    expect_printed(&rt, alloc, &LoadFault::Memory, "M Memory");
}

#[test]
fn prints_failures(rt: HostRuntime) {
    let alloc = rt.alloc();
    expect_all_printed(&rt, alloc, &HEXES);
    expect_all_printed(&rt, alloc, &WORDS);
    expect_all_printed(&rt, alloc, &FAILURES);
}
