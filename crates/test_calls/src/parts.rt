//! Parts of a code that are read by themselves, and how a name is printed.

use crate::expect::{expect_number, expect_printed};
use acpi_name::read_name;
use acpi_terms::{FieldElem, Int, ItemFault, ItemReason, read_elem, read_int};

#[test]
fn reads_parts(rt: HostRuntime) {
    assert!(&rt; read_int(b"\x0B\x34\x12\xFF") == Some((Int::Word(0x1234), 3)));
    let (elem, used) = read_elem(rt.alloc(), b"AA__\x41\x01\xFF").expect(&rt, "an element");
    expect_number(&rt, used, 6);
    assert!(&rt; matches!(&elem, FieldElem::Unit(_, 17)));
}

// The fault of an element counts from its first byte.
#[test]
fn tells_the_fault_of_an_element(rt: HostRuntime) {
    let reason = ItemReason::Computed;
    let fault = read_elem(rt.alloc(), b"\x02\x11\x05FOO_").err();
    assert!(&rt; fault == Some(ItemFault::At { reason, place: 3 }));
}

#[test]
fn prints_a_name(rt: HostRuntime) {
    let alloc = rt.alloc();
    let (name, used) = read_name(b"^^\x2F\x03AB12C___DEV0\x08").expect(&rt, "a name");
    expect_number(&rt, used, 16);
    expect_printed(&rt, alloc, &name, "^^AB12.C___.DEV0");
    let own = name.own(alloc).expect(&rt, "memory");
    expect_printed(&rt, alloc, &own, "^^AB12.C___.DEV0");
}
