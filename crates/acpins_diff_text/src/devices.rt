//! Devices that are gone, new or moved.

use crate::paths::{pattern_of, put_span};
use crate::text::DiffOptions;
use acpi_moves::MachineMatch;
use acpi_name::Path;
use acpi_overview::{Container, Tree, is_within};
use acpi_overview_text::{put_between, put_id, put_mark};
use acpi_text::put_decimal;
use acpi_trimmed::put_trimmed_path;
use std::alloc::{AllocError, Global};
use std::collections::{BTreeMap, BTreeSet};
use text_buffer::Text;

/// A device that only one version has, with those below it.
#[derive(Drop)]
struct Single<'a> {
    path: &'a Path,
    // Its `_HID`.
    id: Vec<u8>,
    // What tells it apart from others: its address and its `_UID`.
    marks: Vec<u8>,
    // How many are below, and whether it has a condition.
    rest: Vec<u8>,
}

/// From how many on devices that are alike are one line.
const ALIKE: usize = 3;

fn put_marks(text: &mut Text, container: &Container<'_>) {
    put_mark(text, "adr ", &container.values.adr);
    put_mark(text, "uid ", &container.values.uid);
}

fn id_of(alloc: Global, container: &Container<'_>) -> Result<Vec<u8>, AllocError> {
    let mut id = Text::new(alloc);
    put_id(&mut id, &container.values.hid);
    id.into_bytes()
}

fn marks_of(alloc: Global, container: &Container<'_>) -> Result<Vec<u8>, AllocError> {
    let mut marks = Text::new(alloc);
    put_marks(&mut marks, container);
    marks.into_bytes()
}

// Puts what is said of a device, with blanks between its parts.
fn put_words(text: &mut Text, parts: &[&[u8]]) {
    let mut separator = "  ";
    for part in parts {
        if !part.is_empty() {
            text.put(separator);
            separator = " ";
            text.put_all(*part);
        }
    }
}

// How many of the containers behind one stand below it.
fn count_below(tree: &Tree<'_>, number: usize, container: &Container<'_>) -> usize {
    tree.containers
        .iter()
        .skip(number.saturating_add(1))
        .take_while(|c| is_within(c.object.path, container.object.path))
        .count()
}

// How many stand below a device, and whether it has a condition.
fn rest_of(
    alloc: Global,
    tree: &Tree<'_>,
    number: usize,
    container: &Container<'_>,
) -> Result<Vec<u8>, AllocError> {
    let mut text = Text::new(alloc);
    let below = count_below(tree, number, container);
    if below > 0 {
        text.put("+");
        put_decimal(&mut text, below as u64);
        text.put(" below");
    }
    if container.object.is_conditional {
        put_between(&mut text, " ");
        text.put("(if)");
    }
    text.into_bytes()
}

// The devices with these numbers, but for those in one of them.
fn singles_of<'a>(
    alloc: Global,
    tree: &Tree<'a>,
    numbers: &[usize],
) -> Result<Vec<Single<'a>>, AllocError> {
    let mut told: BTreeSet<usize> = BTreeSet::new(alloc);
    for number in numbers {
        told.insert(*number)?;
    }
    let mut singles = Vec::new(alloc);
    for number in numbers {
        let Some(container) = tree.containers.get(*number) else {
            continue;
        };
        if container.parent.map_or(false, |p| told.contains(&p)) {
            continue;
        }
        singles.push(Single {
            path: container.object.path,
            id: id_of(alloc, container)?,
            marks: marks_of(alloc, container)?,
            rest: rest_of(alloc, tree, *number, container)?,
        })?;
    }
    Ok(singles)
}

// Bytes that devices have in common which are told on one line.
fn key_of(alloc: Global, single: &Single<'_>) -> Result<Vec<u8>, AllocError> {
    let mut key = Vec::new(alloc);
    if let [around @ .., last] = single.path.segs() {
        for segment in around {
            key.extend_from_slice(&segment.bytes())?;
        }
        key.extend_from_slice(&pattern_of(alloc, std::slice::from_ref(last))?)?;
    }
    key.push(b' ')?;
    key.extend_from_slice(&single.id)?;
    key.push(b' ')?;
    key.extend_from_slice(&single.rest)?;
    Ok(key)
}

// Devices in groups of those that are alike, by the first of each: their numbers.
fn groups_of(alloc: Global, singles: &[Single<'_>]) -> Result<Vec<Vec<usize>>, AllocError> {
    let mut numbers: BTreeMap<Vec<u8>, usize> = BTreeMap::new(alloc);
    let mut groups: Vec<Vec<usize>> = Vec::new(alloc);
    for (number, single) in singles.iter().enumerate() {
        let key = key_of(alloc, single)?;
        let known = numbers.get(key.as_slice()).copied();
        if let Some(group) = known.and_then(|n| groups.get_mut(n)) {
            group.push(number)?;
            continue;
        }
        numbers.insert(key, groups.len())?;
        let mut group = Vec::new(alloc);
        group.push(number)?;
        groups.push(group)?;
    }
    Ok(groups)
}

fn put_single(text: &mut Text, mark: &str, single: &Single<'_>) {
    text.put(mark);
    put_trimmed_path(text, single.path);
    put_words(text, &[&single.id, &single.marks, &single.rest]);
    text.put("\n")
}

// Puts a line for so many devices that are alike, from the first to the last.
fn put_span_of(text: &mut Text, mark: &str, first: &Single<'_>, last: &Single<'_>, count: usize) {
    text.put(mark);
    put_span(text, first.path, last.path, count);
    put_words(text, &[&first.id, &first.rest]);
    text.put("\n")
}

// Puts a line for a group of devices that are alike, or for each of them.
fn put_group(
    text: &mut Text,
    mark: &str,
    singles: &[Single<'_>],
    group: &[usize],
    options: DiffOptions,
) {
    if group.len() < ALIKE || options.is_verbose {
        for number in group {
            if let Some(single) = singles.get(*number) {
                put_single(text, mark, single);
            }
        }
        return;
    }
    let (Some(from), Some(to)) = (group.first(), group.last()) else {
        return;
    };
    if let (Some(first), Some(last)) = (singles.get(*from), singles.get(*to)) {
        put_span_of(text, mark, first, last, group.len());
    }
}

// Puts a line for each device, or for each group of devices that are alike.
fn put_singles(
    text: &mut Text,
    mark: &str,
    singles: &[Single<'_>],
    options: DiffOptions,
) -> Result<(), AllocError> {
    for group in &groups_of(text.alloc(), singles)? {
        put_group(text, mark, singles, group, options);
    }
    Ok(())
}

// Puts a line for each device that moved.
fn put_moves(text: &mut Text, matched: &MachineMatch<'_>) -> Result<(), AllocError> {
    for moved in &matched.devices.moved {
        let old = matched.old.containers.get(moved.old);
        let new = matched.new.containers.get(moved.new);
        if let (Some(old), Some(new)) = (old, new) {
            text.put("  > ");
            put_trimmed_path(text, old.object.path);
            text.put(" -> ");
            put_trimmed_path(text, new.object.path);
            put_words(
                text,
                &[&id_of(text.alloc(), new)?, &marks_of(text.alloc(), new)?],
            );
            text.put("\n");
        }
    }
    Ok(())
}

/// Puts the section of devices that are gone, new or moved.
pub(crate) fn put_devices(
    text: &mut Text,
    matched: &MachineMatch<'_>,
    options: DiffOptions,
) -> Result<(), AllocError> {
    let devices = &matched.devices;
    if devices.gone.is_empty() && devices.new.is_empty() && devices.moved.is_empty() {
        return Ok(());
    }
    let alloc = text.alloc();
    text.put("\nDEVICES\n");
    let gone = singles_of(alloc, &matched.old, &devices.gone)?;
    put_singles(text, "  - ", &gone, options)?;
    let new = singles_of(alloc, &matched.new, &devices.new)?;
    put_singles(text, "  + ", &new, options)?;
    put_moves(text, matched)
}
