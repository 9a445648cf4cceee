//! Single loads, their join, and verdicts on SSDTs in slices.

use crate::expect::{expect_number, expect_path, expect_printed, limit};
use crate::tables::{AWAITS, DSDT, EMPTY, FIELD, MTH2, ONE, SSDT, ZERO};
use acpi_load::{Machine, Single, Verdict, join, satisfied, single, verdict};
use acpi_space::{Space, TreeSpace};
use acpi_terms::Object;
use std::alloc::Global;
use std::process::Abort;

type Tree = TreeSpace<Object>;

fn single_of(rt: &impl Abort, alloc: Global, ssdt: &[u8]) -> Single<Tree> {
    single(alloc, EMPTY, ssdt, limit(rt)).expect(rt, "a load")
}

#[test]
fn loads_an_ssdt_alone(rt: HostRuntime) {
    let alloc = rt.alloc();
    let single = single_of(&rt, alloc, AWAITS);
    expect_number(&rt, single.machine().bodies().len(), 1);
    expect_path(&rt, alloc, single.defined(), "\\CALL");
    expect_path(&rt, alloc, single.missed(), "\\CALL.MTH2");
    match single.awaited() {
        [awaited] => {
            assert!(&rt; awaited.table == 1 && awaited.count == 2);
            expect_printed(&rt, alloc, &awaited.path, "\\MTH2");
        }
        _ => assert!(&rt; false, "not one awaited method"),
    }
}

// The join of the single loads of two SSDTs.
fn join_of(rt: &impl Abort, alloc: Global, one: &[u8], other: &[u8]) -> Option<Machine<Tree>> {
    let mut singles = Vec::new(alloc);
    singles.push(single_of(rt, alloc, one)).expect(rt, "memory");
    singles
        .push(single_of(rt, alloc, other))
        .expect(rt, "memory");
    join(alloc, &singles).expect(rt, "memory")
}

#[test]
fn joins_single_loads(rt: HostRuntime) {
    let alloc = rt.alloc();
    let machine = join_of(&rt, alloc, AWAITS, FIELD).expect(&rt, "a join");
    expect_number(&rt, machine.bodies().len(), 1);
    // Ten objects are there without a table.
    let pairs = machine.objects().pairs().expect(&rt, "memory");
    expect_number(&rt, pairs.len(), 13);
}

#[test]
fn joins_no_loads_that_differ(rt: HostRuntime) {
    assert!(&rt; join_of(&rt, rt.alloc(), ZERO, ONE).is_none());
}

#[test]
fn tells_a_verdict(rt: HostRuntime) {
    let alloc = rt.alloc();
    let found = verdict::<Tree>(alloc, DSDT, &[SSDT, SSDT], limit(&rt));
    match &found.expect(&rt, "a verdict") {
        Verdict::Same { i: 1, j: 2, path } => {
            expect_printed(&rt, alloc, path, "\\_SB_.PCI0._UID")
        }
        _ => assert!(&rt; false, "another verdict"),
    }
}

// The third SSDT declares what the second awaits.
#[test]
fn finds_satisfied_externals(rt: HostRuntime) {
    let alloc = rt.alloc();
    let found = satisfied::<Tree>(alloc, EMPTY, &[ZERO, AWAITS, MTH2], limit(&rt));
    match found.expect(&rt, "the Externals").as_slice() {
        [external] => {
            assert!(&rt; external.user == 2 && external.definer == 3);
            expect_printed(&rt, alloc, &external.path, "\\MTH2");
        }
        _ => assert!(&rt; false, "not one External"),
    }
}
