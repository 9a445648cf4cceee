//! Names read from the bytes that spell them.

ghost use Rattle.std.specs.Prelude.{◌≡◌, ◌+◌, ◌*◌, ◌<◌, ◌≤◌, ◌↔◌, ℕ, Err, length, IfOk, IsOkAnd, drop, take, true, false};
ghost use Rattle.acpi_name.specs.NameRefs.{name_parts};
ghost use Rattle.acpi_name.specs.Names.{NameParts};
ghost use Rattle.acpi_name.specs.Spelling.{BeginsWithName, IsCutName, HasBadChar, HasZeroCount, HasTooManyUps};
ghost use Rattle.acpi_name.specs.Names.{is_segment_front};
ghost use Rattle.acpi_name.specs.Reading.{Answers, segment_at, segments_at, counted_at, path_at, ups, relative_at, name_at};

use crate::name::NameRef;
use crate::seg::{is_lead_char, is_name_char};
use thiserror::Error;

/// Why no name stands at the front of some bytes: the first fault from the left.
#[derive(Clone, Copy, Debug, PartialEq, Eq, Error)]
pub enum NameFault {
    /// The bytes end before the name does.
    #[error("N1 Cut")]
    Cut,
    /// A byte can stand in no name at its place.
    #[error("N2 BadChar")]
    BadChar,
    /// The number of segments behind a 2F is 0.
    #[error("N3 ZeroCount")]
    ZeroCount,
    /// More than 255 bytes 5E.
    #[error("N4 TooManyUps")]
    TooManyUps,
}

/// Whether the first bytes, up to four, may begin a segment (ACPI 6.5, 20.2.2 NameSeg). It takes no memory.
pub fn begins_segment(bytes: &[u8]) -> bool
    ensures { result ≡ is_segment_front bytes.now }
{
    match bytes {
        [] => true,
        [a] => is_lead_char(*a),
        [a, b] => is_lead_char(*a) && is_name_char(*b),
        [a, b, c] => is_lead_char(*a) && is_name_char(*b) && is_name_char(*c),
        [a, b, c, d, ..] => is_lead_char(*a)
            && is_name_char(*b)
            && is_name_char(*c)
            && is_name_char(*d),
    }
}

// The bytes behind the segment at the front.
#[tactic(auto, unfolding(crate::specs::Reading::segment_at))]
fn skip_segment(bytes: &[u8]) -> Result<&[u8], NameFault>
    ensures exact { Answers (λ x. (take 4 bytes.now, x.now)) result (segment_at bytes.now) }
    ensures back { IfOk result (λ x. x.now ≡ drop 4 bytes.now) }
    ensures four { IfOk result (λ x. length x.now + 4 ≡ length bytes.now) }
{
    if !begins_segment(bytes) {
        return Err(NameFault::BadChar);
    }
    if bytes.len() < 4 {
        return Err(NameFault::Cut);
    }
    Ok(&bytes[4..])
}

// So many segments, and what follows them.
fn segments(count: u8, bytes: &[u8]) -> Result<(&[[u8; 4]], &[u8]), NameFault>
    ensures exact { Answers (λ x. (x.0.now, x.1.now)) result (segments_at count bytes.now) }
    ensures length { IfOk result (λ x. length x.1.now + 4 * count ≡ length bytes.now) }
{
    let mut rest = bytes;
    for _ in 0..count {
        rest = skip_segment(rest)?;
    }
    let (front, rest) = bytes.split_at(4 * count as usize);
    let (segs, _) = front.as_chunks::<4>();
    Ok((segs, rest))
}

// The segments that a number stands before, and what follows them.
#[tactic(auto, unfolding(crate::specs::Reading::counted_at))]
fn counted(bytes: &[u8]) -> Result<(&[[u8; 4]], &[u8]), NameFault>
    ensures exact { Answers (λ x. (x.0.now, x.1.now)) result (counted_at bytes.now) }
    ensures shorter { IfOk result (λ x. length x.1.now < length bytes.now) }
{
    match bytes {
        [] => Err(NameFault::Cut),
        [0, ..] => Err(NameFault::ZeroCount),
        [count, rest @ ..] => segments(*count, rest),
    }
}

// The segments of a NamePath, and what follows it.
#[tactic(auto, unfolding(crate::specs::Reading::path_at))]
fn path(bytes: &[u8]) -> Result<(&[[u8; 4]], &[u8]), NameFault>
    ensures exact { Answers (λ x. (x.0.now, x.1.now)) result (path_at bytes.now) }
    ensures shorter { IfOk result (λ x. length x.1.now < length bytes.now) }
{
    match bytes {
        [] => Err(NameFault::Cut),
        [0x00, rest @ ..] => Ok((&[], rest)),
        [0x2E, rest @ ..] => segments(2, rest),
        [0x2F, rest @ ..] => counted(rest),
        _ => segments(1, bytes),
    }
}

// The number of bytes 5E at the front.
fn count_ups(bytes: &[u8]) -> usize
    ensures exact { result ≡ ups bytes.now }
    ensures within { result ≤ length bytes.now }
{
    bytes.iter().take_while(|b| **b == 0x5E).count()
}

// A name that does not begin at the root, and what follows it.
#[tactic(auto, unfolding(crate::specs::Reading::relative_at))]
fn relative(bytes: &[u8]) -> Result<(NameRef<'_>, &[u8]), NameFault>
    ensures exact { Answers (λ x. (name_parts x.0, x.1.now)) result (relative_at bytes.now) }
    ensures shorter { IfOk result (λ x. length x.1.now < length bytes.now) }
{
    let parents = count_ups(bytes);
    if parents > 255 {
        return Err(NameFault::TooManyUps);
    }
    let (segs, rest) = path(&bytes[parents..])?;
    Ok((NameRef::of_parts(false, parents as u8, segs), rest))
}

// The name at the front, and what follows it.
#[tactic(auto, unfolding(crate::specs::Reading::name_at))]
fn front_name(bytes: &[u8]) -> Result<(NameRef<'_>, &[u8]), NameFault>
    ensures exact { Answers (λ x. (name_parts x.0, x.1.now)) result (name_at bytes.now) }
    ensures shorter { IfOk result (λ x. length x.1.now < length bytes.now) }
{
    match bytes {
        [] => Err(NameFault::Cut),
        [0x5C, rest @ ..] => {
            let (segs, rest) = path(rest)?;
            Ok((NameRef::of_parts(true, 0, segs), rest))
        }
        _ => relative(bytes),
    }
}

/// The name at the front, and how many bytes spell it (ACPI 6.5, 20.2.2 NameString). It takes no memory.
pub fn read_name(bytes: &[u8]) -> Result<(NameRef<'_>, usize), NameFault>
    // What is answered stands at the front.
    ensures found { IfOk result (λ x. BeginsWithName (name_parts x.0) x.1 bytes.now) }
    ensures used { IfOk result (λ x. (0 < x.1) × (x.1 ≤ length bytes.now)) }

    // What stands at the front is answered. So no spelling begins another.
    ensures only { (n : NameParts) (count : ℕ) → BeginsWithName n count bytes.now
        → IsOkAnd result (λ x. (name_parts x.0 ≡ n) × (x.1 ≡ count)) }

    // When each fault comes.
    ensures cut { (result ≡ Err NameFault.Cut) ↔ IsCutName bytes.now }
    ensures bad_char { (result ≡ Err NameFault.BadChar) ↔ HasBadChar bytes.now }
    ensures zero_count { (result ≡ Err NameFault.ZeroCount) ↔ HasZeroCount bytes.now }
    ensures too_many_ups { (result ≡ Err NameFault.TooManyUps) ↔ HasTooManyUps bytes.now }
{
    let (name, rest) = front_name(bytes)?;
    Ok((name, bytes.len() - rest.len()))
}
