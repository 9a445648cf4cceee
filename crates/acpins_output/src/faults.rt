//! Why tables can't be loaded, in words (docs/COMMAND.md).

ghost use Rattle.std.specs.Prelude.{◌≡◌, ◌++◌, ◌∷◌, codes, decimal};
ghost use Rattle.std.specs.List.{flat_map};
ghost use Rattle.acpi_name.specs.Text.{path_text};
ghost use Rattle.acpins_io.specs.PartsWritten.{WritesUntilFailure};
ghost use Rattle.acpins_output.specs.FaultTexts.{item_reason_text, refusal_text, load_reason_text, fault_text};

use acpi_declare::{LoadReason, Refusal};
use acpi_name::{Path, Seg};
use acpi_table::HEADER_BYTES;
use acpi_terms::ItemReason;
use acpins_io::{PartWriter, put_number, put_text};

fn item_reason_word(reason: ItemReason) -> &'static str
    ensures { result.now ≡ item_reason_text reason }
{
    match reason {
        ItemReason::Cut => "K1 Cut",
        ItemReason::BadOpcode => "K2 BadOpcode",
        ItemReason::ReservedBits => "K3 ReservedBits",
        ItemReason::BadName => "K4 BadName",
        ItemReason::Overrun => "K5 Overrun",
        ItemReason::Computed => "K6 Computed",
        ItemReason::Alias => "K7 Alias",
        ItemReason::ModuleIf => "K8 ModuleIf",
        ItemReason::ModuleCode => "K9 ModuleCode",
        ItemReason::Load => "K10 Load",
        ItemReason::NotData => "K11 NotData",
        ItemReason::TooDeep => "K12 TooDeep",
        ItemReason::BadString => "K13 BadString",
        ItemReason::DataRegion => "K14 DataRegion",
    }
}

fn refusal_word(refusal: Refusal) -> &'static str
    ensures { result.now ≡ refusal_text refusal }
{
    match refusal {
        Refusal::EmptyName => "E1 EmptyName",
        Refusal::AboveRoot => "E2 AboveRoot",
        Refusal::Missing => "E3 Missing",
        Refusal::NoParent => "E4 NoParent",
        Refusal::NotAScope => "E5 NotAScope",
        Refusal::Taken => "E6 Taken",
    }
}

// A dot, and a segment's four characters.
fn put_dot_segment<E, P: PartWriter<E>>(parts: &mut P, err: &mut E, seg: Seg)
    ensures { WritesUntilFailure (46 ∷ seg) (P.failed parts.old) (P.contents err.old)
        (P.failed parts.new) (P.contents err.new) }
{
    let [a, b, c, d] = seg.bytes();
    parts.write_part(err, &[b'.', a, b, c, d])
}

// Segments, each behind a dot.
fn put_behind<E, P: PartWriter<E>>(parts: &mut P, err: &mut E, segs: &[Seg])
    ensures { WritesUntilFailure (flat_map (λ h. 46 ∷ h) segs.now) (P.failed parts.old)
        (P.contents err.old) (P.failed parts.new) (P.contents err.new) }
{
    for seg in segs {
        put_dot_segment(parts, err, *seg);
    }
}

// A path: a backslash, and the segments with a dot between each two.
fn put_path<E, P: PartWriter<E>>(parts: &mut P, err: &mut E, path: &Path)
    ensures { WritesUntilFailure (path_text path.now) (P.failed parts.old) (P.contents err.old)
        (P.failed parts.new) (P.contents err.new) }
{
    put_text(parts, err, "\\");
    if let [first, rest @ ..] = path.segs() {
        parts.write_part(err, &first.bytes());
        put_behind(parts, err, rest)
    }
}

// Why a declaration or a Scope term is refused, and the path that the refusal names.
fn put_refusal<E, P: PartWriter<E>>(parts: &mut P, err: &mut E, refusal: Refusal, path: &Path)
    ensures { WritesUntilFailure (refusal_text refusal ++ codes " " ++ path_text path.now)
        (P.failed parts.old) (P.contents err.old) (P.failed parts.new) (P.contents err.new) }
{
    put_text(parts, err, refusal_word(refusal));
    put_text(parts, err, " ");
    put_path(parts, err, path)
}

/// Writes why a table can't be loaded, without the place of a reason of its code.
pub fn put_load_reason<E, P: PartWriter<E>>(parts: &mut P, err: &mut E, reason: &LoadReason)
    ensures { WritesUntilFailure (load_reason_text reason.now) (P.failed parts.old)
        (P.contents err.old) (P.failed parts.new) (P.contents err.new) }
{
    match reason {
        LoadReason::Table(fault) => put_text(parts, err, fault.text()),
        LoadReason::NotDsdt => put_text(parts, err, "L1 NotDsdt"),
        LoadReason::NotSsdt => put_text(parts, err, "L2 NotSsdt"),
        LoadReason::Trailing => put_text(parts, err, "L3 Trailing"),
        LoadReason::Item { reason, .. } => put_text(parts, err, item_reason_word(*reason)),
        LoadReason::Refused { refusal, path } => put_refusal(parts, err, *refusal, path),
    }
}

/// Writes why a code can't be read, and where, in bytes.
pub fn put_item<E, P: PartWriter<E>>(parts: &mut P, err: &mut E, reason: ItemReason, place: usize)
    ensures { WritesUntilFailure (item_reason_text reason ++ codes " at " ++ decimal place)
        (P.failed parts.old) (P.contents err.old) (P.failed parts.new) (P.contents err.new) }
{
    put_text(parts, err, item_reason_word(reason));
    put_text(parts, err, " at ");
    put_number(parts, err, place)
}

/// Writes why a table can't be loaded; a reason of its code with its place, in bytes from the table's first byte.
pub fn put_fault<E, P: PartWriter<E>>(parts: &mut P, err: &mut E, reason: &LoadReason)
    ensures { WritesUntilFailure (fault_text reason.now) (P.failed parts.old) (P.contents err.old)
        (P.failed parts.new) (P.contents err.new) }
{
    match reason {
        LoadReason::Item { reason, place } => {
            put_item(parts, err, *reason, place.saturating_add(HEADER_BYTES))
        }
        reason => put_load_reason(parts, err, reason),
    }
}
