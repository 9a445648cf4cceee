//! The places of entries by their paths.

use crate::records::EntryRecord;
use acpi_condition_list::ConditionedEntry;
use acpi_name::Seg;
use acpins_lent::NONE;
use std::cmp::Ordering;

/// The place of the first entry at a path, among entries in the order of their paths.
pub(crate) fn place_of(entries: &[ConditionedEntry<'_>], path: &[Seg]) -> u64 {
    let place = entries.partition_point(|e| e.path.segs().cmp(path) == Ordering::Less);
    match entries.get(place) {
        Some(entry) if entry.path.segs() == path => place as u64,
        _ => NONE,
    }
}

// The place before the next entry at which one has a shorter path than so many segments: the one before it, or one above that.
fn place_above(
    entries: &[ConditionedEntry<'_>],
    records: &[EntryRecord],
    length: usize,
) -> Option<usize> {
    let mut place = records.len().checked_sub(1)?;
    for _ in 0..=records.len() {
        if entries.get(place)?.path.len() < length {
            return Some(place);
        }
        place = usize::try_from(records.get(place)?.parent).ok()?;
    }
    None
}

// The place of the first entry with the path of the one at a place.
fn first_of_path(entries: &[ConditionedEntry<'_>], place: usize, path: &[Seg]) -> u64 {
    let mut first = place;
    for before in (0..place).rev() {
        match entries.get(before) {
            Some(entry) if entry.path.segs() == path => first = before,
            _ => return first as u64,
        }
    }
    first as u64
}

/// The place of the first entry at the path around that of the next entry, where those before it have these records; `NONE` of the root.
/// Entries stand in the order of their paths: what is around the next one is the one before it, or stands above that.
pub(crate) fn next_parent(
    entries: &[ConditionedEntry<'_>],
    records: &[EntryRecord],
    path: &[Seg],
) -> u64 {
    let [around @ .., _] = path else {
        return NONE;
    };
    let Some(place) = place_above(entries, records, path.len()) else {
        return NONE;
    };
    match entries.get(place) {
        Some(entry) if entry.path.segs() == around => first_of_path(entries, place, around),
        _ => NONE,
    }
}
