//! Loads of tables as they stand in slices. Programs give shared bytes, and read one body or none.

use crate::expect::{expect_bytes, limit, path_of};
use crate::tables::{CALL, DSDT, SSDT};
use acpi_body::{BodyFault, BodyReason};
use acpi_load::{Machine, explain, load, rewrite};
use acpi_space::{Space, TreeSpace};
use acpi_terms::{Data, Int, Object};

#[test]
fn loads_tables(rt: HostRuntime) {
    let alloc = rt.alloc();
    let loaded = load(alloc, DSDT, &[SSDT], limit(&rt));
    let machine: Machine<TreeSpace<Object>> = loaded.expect(&rt, "a machine");
    let path = path_of(&rt, alloc, "\\_SB_.PCI0._UID");
    match machine.objects().get(&path) {
        Some(Object::Name(Data::Int(Int::One))) => {}
        _ => assert!(&rt; false, "another object"),
    }
}

// Without the method the call is no statement at its first argument.
#[test]
fn explains_a_body(rt: HostRuntime) {
    let alloc = rt.alloc();
    let path = path_of(&rt, alloc, "\\CALL");
    let found = explain::<TreeSpace<Object>>(alloc, CALL, &[], &path, limit(&rt));
    let reason = BodyReason::NotStatement;
    let fault = BodyFault { reason, place: 11 };
    assert!(&rt; found.expect(&rt, "an answer") == Some(fault));
}

#[test]
fn rewrites_tables(rt: HostRuntime) {
    let tables = rewrite::<TreeSpace<Object>>(rt.alloc(), DSDT, &[SSDT], limit(&rt));
    match tables.expect(&rt, "tables").as_slice() {
        [dsdt, ssdt] => {
            expect_bytes(&rt, dsdt, DSDT);
            expect_bytes(&rt, ssdt, SSDT);
        }
        _ => assert!(&rt; false, "not two tables"),
    }
}
