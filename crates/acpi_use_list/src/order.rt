//! The order of uses.

ghost use Rattle.std.specs.Prelude.{OnOk};
ghost use Rattle.std.specs.List.Sorted.{IsPermutation};

use crate::uses::{Use, UseSite};
use acpi_name::NameRef;
use std::alloc::AllocError;
use std::cmp::Ordering;

/// More than the characters of a name that is spelled.
const MOST_CHARACTERS: usize = 2048;

// The character of that number of the segments of a name, with a dot between each two.
fn dotted_character(name: NameRef<'_>, number: usize) -> Option<u8> {
    let i = number / 5;
    if i >= name.len() {
        return None;
    }
    match name.seg(i).bytes().get(number % 5) {
        Some(character) => Some(*character),
        None if i + 1 < name.len() => Some(b'.'),
        None => None,
    }
}

// The character of that number of a name as it is spelled.
fn character(name: NameRef<'_>, number: usize) -> Option<u8> {
    let carets = name.parents();
    if name.rooted() {
        return match number {
            0 => Some(b'\\'),
            _ => dotted_character(name, number - 1),
        };
    }
    if number < carets {
        return Some(b'^');
    }
    if carets == 0 && number == 0 && name.is_empty() {
        return Some(b'.');
    }
    dotted_character(name, number - carets)
}

// The order of names as they are spelled.
fn spelled_order(one: NameRef<'_>, other: NameRef<'_>) -> Ordering {
    for number in 0..MOST_CHARACTERS {
        let (left, right) = (character(one, number), character(other, number));
        if left != right {
            return left.cmp(&right);
        }
        if left.is_none() {
            return Ordering::Equal;
        }
    }
    Ordering::Equal
}

// Where a use stands: a place, and a line, which is 0 at module level.
fn site_number(site: UseSite) -> (u128, usize) {
    match site {
        UseSite::Node { place } => (place, 0),
        UseSite::Line { place, line, .. } => (place, line),
    }
}

// The order of uses by their paths; those without one behind all others, by the names as they are spelled.
fn path_order(one: &Use, other: &Use) -> Ordering {
    match (&one.path, &other.path) {
        (Some(path), Some(second)) => path.cmp(second),
        (Some(_), None) => Ordering::Less,
        (None, Some(_)) => Ordering::Greater,
        (None, None) => spelled_order(one.name.view(), other.name.view()),
    }
}

// Those of one path, or of one name, by where they stand.
fn use_order(one: &Use, other: &Use) -> Ordering {
    match path_order(one, other) {
        Ordering::Equal => site_number(one.site).cmp(&site_number(other.site)),
        order => order,
    }
}

/// Puts uses in the order of their paths, as paths stand in a list of entries, those of one path by place, and then by
/// line; those without a path behind all others, by the names as they are spelled. Those of one line or node stay in
/// their order.
pub fn sort_uses(uses: &mut Vec<Use>) -> Result<(), AllocError>
    ensures { IsPermutation uses.old.items uses.new.items }
{
    uses.sort_by(|one, other| use_order(one, other))
}
