//! Lists of paths and names.

use crate::text::DiffOptions;
use acpi_name::{Path, Seg};
use acpi_text::put_decimal;
use acpi_trimmed::{put_trimmed_path, put_trimmed_segment};
use std::alloc::{AllocError, Global};
use std::collections::BTreeMap;
use text_buffer::Text;

/// The most names of a list.
const MOST_NAMES: usize = 10;

/// From how many on paths that differ in digits alone are one.
const ALIKE: usize = 3;

/// Paths that differ in digits alone.
#[derive(Drop)]
struct Alike<'p> {
    paths: Vec<&'p Path>,
}

/// Bytes that paths which differ in digits alone have in common.
pub(crate) fn pattern_of(alloc: Global, segments: &[Seg]) -> Result<Vec<u8>, AllocError> {
    let mut pattern = Vec::new(alloc);
    for segment in segments {
        for byte in segment.bytes() {
            pattern.push(if byte.is_ascii_digit() { b'#' } else { byte })?;
        }
    }
    Ok(pattern)
}

// Paths in groups of those that differ in digits alone, by the first of each.
fn alike_paths<'p>(alloc: Global, paths: &[&'p Path]) -> Result<Vec<Alike<'p>>, AllocError> {
    let mut numbers: BTreeMap<Vec<u8>, usize> = BTreeMap::new(alloc);
    let mut groups: Vec<Alike<'p>> = Vec::new(alloc);
    for path in paths {
        let pattern = pattern_of(alloc, path.segs())?;
        let known = numbers.get(pattern.as_slice()).copied();
        if let Some(group) = known.and_then(|n| groups.get_mut(n)) {
            group.paths.push(*path)?;
            continue;
        }
        numbers.insert(pattern, groups.len())?;
        let mut members = Vec::new(alloc);
        members.push(*path)?;
        groups.push(Alike { paths: members })?;
    }
    Ok(groups)
}

fn put_each(text: &mut Text, paths: &[&Path], separator: &mut &'static str) {
    for path in paths {
        text.put(*separator);
        *separator = ", ";
        put_trimmed_path(text, *path);
    }
}

/// Puts `first .. last (4)`.
pub(crate) fn put_span(text: &mut Text, first: &Path, last: &Path, count: usize) {
    put_trimmed_path(text, first);
    text.put(" .. ");
    put_trimmed_path(text, last);
    text.put(" (");
    put_decimal(text, count as u64);
    text.put(")")
}

/// Puts that a list has so many more.
pub(crate) fn put_more(text: &mut Text, count: usize) {
    if count > 0 {
        text.put(" and ");
        put_decimal(text, count as u64);
        text.put(" more");
    }
}

/// Puts paths: those that differ in digits alone by the first and the last of them, and so many as a list has.
pub(crate) fn put_paths(
    text: &mut Text,
    paths: &[&Path],
    options: DiffOptions,
) -> Result<(), AllocError> {
    let mut separator = "";
    if options.is_verbose {
        put_each(text, paths, &mut separator);
        return Ok(());
    }
    let mut count = 0usize;
    let mut left = paths.len();
    for group in &alike_paths(text.alloc(), paths)? {
        if count >= MOST_NAMES {
            break;
        }
        match group.paths.as_slice() {
            [first, .., last] if group.paths.len() >= ALIKE => {
                text.put(separator);
                separator = ", ";
                put_span(text, *first, *last, group.paths.len());
            }
            few => put_each(text, few, &mut separator),
        }
        count = count.saturating_add(1);
        left = left.saturating_sub(group.paths.len());
    }
    put_more(text, left);
    Ok(())
}

/// Puts names with commas between them, so many as a list has.
pub(crate) fn put_names(text: &mut Text, names: &[Seg], options: DiffOptions) {
    let most = if options.is_verbose {
        names.len()
    } else {
        MOST_NAMES
    };
    let mut is_first = true;
    for name in names.iter().take(most) {
        text.put(if is_first { "" } else { ", " });
        is_first = false;
        put_trimmed_segment(text, *name);
    }
    put_more(text, names.len().saturating_sub(most))
}
