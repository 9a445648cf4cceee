//! What tests expect. A comparison in a test is proved there anew, and one by these calls only once; and what fails ends the
//! test at once, since each way back from a test with an error would be proved too.

use acpi_name::Path;
use acpi_terms::Depth;
use std::alloc::Global;
use std::fmt::Display;
use std::process::Abort;

pub(crate) fn expect_bytes(rt: &impl Abort, found: &[u8], wanted: &[u8]) {
    assert_eq!(rt; found, wanted);
}

pub(crate) fn expect_number(rt: &impl Abort, found: usize, wanted: usize) {
    assert_eq!(rt; found, wanted);
}

pub(crate) fn expect_printed<T: Display>(rt: &impl Abort, alloc: Global, found: &T, wanted: &str) {
    let text = format!(in alloc; "{found}").expect(rt, "memory");
    assert_eq!(rt; text.as_str(), wanted);
}

// Each value is printed so.
pub(crate) fn expect_all_printed<T: Display>(rt: &impl Abort, alloc: Global, rows: &[(T, &str)]) {
    for (found, wanted) in rows {
        expect_printed(rt, alloc, found, *wanted);
    }
}

// One path, which is printed so.
pub(crate) fn expect_path(rt: &impl Abort, alloc: Global, found: &[Path], wanted: &str) {
    match found {
        [path] => expect_printed(rt, alloc, path, wanted),
        _ => assert!(rt; false, "not one path"),
    }
}

// The path of this text.
pub(crate) fn path_of(rt: &impl Abort, alloc: Global, text: &str) -> Path {
    Path::from_text(alloc, text).expect(rt, "a path")
}

// At most four levels.
pub(crate) fn limit(rt: &impl Abort) -> Depth {
    Depth::new(4).expect(rt, "a limit")
}
