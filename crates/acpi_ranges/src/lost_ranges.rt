//! The bytes of a code that are lost, and the name at a fault.

ghost use Rattle.std.specs.Prelude.{◌≡◌, [], drop, false, IfOk};
ghost use Rattle.std.specs.Option.{option_map};
ghost use Rattle.acpi_name.specs.NameRefs.{name_parts};
ghost use Rattle.acpi_ranges.specs.LostRanges.{bytes_between, front_kept, name_front, named_front, package_front, range_lost, unsure_name};
ghost use Rattle.acpi_ranges.specs.SpanViews.{part_of, span_range};

use crate::sites::offset_of;
use crate::spans::{Span, SpanContent};
use acpi_name::{Name, NameRef, read_name};
use acpi_outline::{LostReason, Node, PackedForm};
use acpi_values::BodyReason;
use std::alloc::{AllocError, Global};

/// Bytes of a table that are lost, by offsets from the table's first byte.
#[derive(Debug, Clone, Copy, PartialEq, Eq)]
pub struct LostRange {
    /// The first byte that is lost.
    pub from: usize,
    /// The first byte behind them.
    pub to: usize,
}

/// The bytes of a table from a place of its code to another.
pub fn bytes_between(from: usize, to: usize) -> LostRange
    ensures { result ≡ bytes_between from to }
{
    LostRange {
        from: offset_of(from),
        to: offset_of(to),
    }
}

/// The bytes behind the first so many, or none where there are fewer.
#[tactic(auto, using(std::proofs::lemmas::List::drop_min))]
pub fn bytes_behind(bytes: &[u8], count: usize) -> &[u8]
    ensures { result.now ≡ drop count bytes.now }
{
    &bytes[count.min(bytes.len())..]
}

/// The name that bytes begin with, and how many of them spell it.
pub fn name_front<'a>(bytes: &'a [u8]) -> Option<(NameRef<'a>, usize)>
    ensures { option_map (λ x. (name_parts x.0, x.1)) result ≡ name_front bytes.now }
{
    match read_name(bytes) {
        Ok(front) => Some(front),
        Err(_) => None,
    }
}

/// How many bytes an opcode of one byte and a package length take; none where bytes are too few.
pub fn package_front(bytes: &[u8]) -> usize
    ensures { result ≡ package_front bytes.now }
{
    match bytes {
        [_, lead, ..] => 2 + usize::from(*lead / 64),
        _ => 0,
    }
}

// How many bytes an opcode of one byte and a name take.
fn named_front(bytes: &[u8]) -> usize
    ensures { result ≡ named_front bytes.now }
{
    match bytes {
        [_, rest @ ..] => match name_front(rest) {
            Some((_, used)) => used.saturating_add(1),
            None => 0,
        },
        [] => 0,
    }
}

// How many bytes of a part, from its first on, aren't lost.
fn front_kept(bytes: &[u8], what: SpanContent<'_>) -> usize
    ensures { result ≡ front_kept bytes.now (part_of what.entry) }
{
    match what {
        SpanContent::Node(node) => match node {
            Node::PackageLost(PackedForm::If, _) => package_front(bytes),
            Node::PackageLost(PackedForm::While, _) => package_front(bytes),
            Node::NameLost(_, _, _) => named_front(bytes),
            _ => 0,
        },
        _ => 0,
    }
}

/// The bytes of a range that are lost.
#[tactic(auto, using(crate::proofs::Codes::offset_behind))]
pub fn range_lost(code: &[u8], span: &Span<'_>) -> LostRange
    ensures { result ≡ range_lost code.now (span_range [] false span.now) }
{
    let kept = front_kept(bytes_behind(code, span.from), span.what);
    bytes_between(span.from.saturating_add(kept), span.to)
}

/// The name of which it isn't sure how many values follow it.
pub fn unsure_name(
    alloc: Global,
    code: &[u8],
    place: usize,
    reason: LostReason,
) -> Result<Option<Name>, AllocError>
    ensures { IfOk result (λ n. n ≡ unsure_name code.now place reason) }
{
    match reason {
        LostReason::Term(BodyReason::Unsure) => {
            match name_front(bytes_behind(code, place)) {
                Some((name, _)) => Ok(Some(name.own(alloc)?)),
                None => Ok(None),
            }
        }
        _ => Ok(None),
    }
}
