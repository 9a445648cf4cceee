//! The searches of an opaque body: every name that is spelled at some place of its bytes counts.

ghost use Rattle.std.specs.Prelude.{◌≡◌, OnOk, length, take};
ghost use Rattle.acpi_name.specs.Reading.{ups};
ghost use Rattle.acpi_body.specs.Arguments.{namespace_of};
ghost use Rattle.acpi_body.specs.Misses.{IsMissedBy};
ghost use Rattle.acpi_body.specs.steps.Gathering.{Asked, Grows, goes_above, IsFrontMiss};

use crate::arguments::Context;
use crate::gathered::{add_missed, missed};
use acpi_name::{Path, read_name};
use acpi_space::{Space, TreeSpace, Wanted};
use acpi_tree::Object;
use std::alloc::AllocError;

// The number of bytes 5E at the front, up to `most`.
fn ups_within(most: usize, bytes: &[u8]) -> usize
    ensures { result ≡ ups (take most bytes.now) }
{
    bytes
        .iter()
        .take(most)
        .take_while(|byte| **byte == 0x5E)
        .count()
}

// Whether more bytes 5E stand at the front than the path has segments. A name there has no place, and misses nothing;
// so a long run of them is not read again from each of its bytes.
fn goes_above(method: &Path, bytes: &[u8]) -> bool
    ensures { result ≡ goes_above (length method.now) bytes.now }
{
    let depth = method.len();
    depth < ups_within(depth + 1, bytes)
}

// Adds the paths that the name at the front misses, if one stands there: those that are asked for.
fn add_front<S: Space<Object>, Q: Wanted>(
    context: &Context<'_, S>,
    wanted: &Q,
    firm: &mut TreeSpace<()>,
    bytes: &[u8],
) -> Result<(), AllocError>
    ensures { OnOk result (Grows firm.old firm.new
        (Asked (Q.wanted wanted.now) (IsFrontMiss
        (namespace_of context.now.objects) context.now.method bytes.now))) }
{
    if goes_above(context.method(), bytes) {
        return Ok(());
    }
    match read_name(bytes) {
        Ok((name, _)) => add_missed(firm, &None, missed(context, wanted, name)?),
        Err(_) => Ok(()),
    }
}

/// Adds the paths that the names miss which are spelled in the bytes, at whatever place: those that are asked for.
pub(crate) fn add_spelled<S: Space<Object>, Q: Wanted>(
    context: &Context<'_, S>,
    wanted: &Q,
    firm: &mut TreeSpace<()>,
    bytes: &[u8],
) -> Result<(), AllocError>
    ensures { OnOk result (Grows firm.old firm.new
        (Asked (Q.wanted wanted.now) (IsMissedBy
        (namespace_of context.now.objects) context.now.method bytes.now))) }
{
    for place in 0..bytes.len() {
        add_front(context, wanted, firm, &bytes[place..])?;
    }
    Ok(())
}
