//! Names of one segment, and of none.

ghost use Rattle.std.specs.Prelude.{◌≡◌, [], false, IfOk};
ghost use Rattle.acpi_survey.specs.Nodes.{name_of};

use acpi_name::{Name, Seg, read_name};
use std::alloc::{AllocError, Global};

/// The name of one segment.
pub(crate) fn segment_name(alloc: Global, seg: Seg) -> Result<Name, AllocError>
    ensures { IfOk result (λ n. n ≡ name_of seg) }
{
    let bytes = seg.bytes();
    match read_name(&bytes) {
        Ok((name, _)) => name.own(alloc),
        Err(_) => unreachable!(),
    }
}

/// The name of no segments.
pub(crate) fn null_name(alloc: Global) -> Result<Name, AllocError>
    ensures { IfOk result (λ n. n ≡ record { rooted = false; parents = 0; segments = [] }) }
{
    match read_name(&[0]) {
        Ok((name, _)) => name.own(alloc),
        Err(_) => unreachable!(),
    }
}
