//! A deep path in a space.

use crate::expect::expect_number;
use acpi_name::{Path, Seg};
use acpi_space::{Space, TreeSpace};

// A path of 100,000 segments is walked, and its space dropped, without a deep stack.
#[test]
fn deep_in_a_tree(rt: HostRuntime) {
    let seg = Seg::new(*b"DEEP").expect(&rt, "a segment");
    let mut path = Path::root(rt.alloc());
    for _ in 0..100_000 {
        path.push(seg).expect(&rt, "memory");
    }
    let mut space: TreeSpace<u8> = TreeSpace::new(rt.alloc());
    let refused = space.insert(path.copy().expect(&rt, "memory"), 1).is_err();
    assert!(&rt; !refused);
    expect_number(&rt, space.pairs().expect(&rt, "memory").len(), 1);
    let depth = space.nearest(&path, seg).expect(&rt, "memory");
    assert!(&rt; depth == Some(99_999));
}
