//! What differs in devices that stayed.

use crate::blocks::Blocks;
use crate::change_words::{is_seen, put_change};
use crate::paths::{put_names, put_paths};
use crate::text::DiffOptions;
use acpi_diff::{Change, Diff};
use acpi_name::{Path, Seg};
use std::alloc::{AllocError, Global};
use std::collections::BTreeMap;
use text_buffer::Text;

/// The changes of the objects of a device.
#[derive(Drop)]
struct Device<'d> {
    path: Path,
    changes: Vec<&'d Change>,
}

/// Names with one change.
#[derive(Drop)]
struct Line {
    change: Vec<u8>,
    names: Vec<Seg>,
}

// Whether a change is told here.
fn is_told(change: &Change) -> bool {
    !change.path.segs().last().map_or(false, |s| is_seen(*s))
}

// The devices with changes, by path.
fn devices_of<'d>(alloc: Global, diff: &'d Diff<'_>) -> Result<Vec<Device<'d>>, AllocError> {
    let mut numbers: BTreeMap<Path, usize> = BTreeMap::new(alloc);
    let mut devices: Vec<Device<'d>> = Vec::new(alloc);
    for change in &diff.changes {
        if !is_told(change) {
            continue;
        }
        let mut path = change.path.copy()?;
        path.pop();
        let known = numbers.get(&path).copied();
        if let Some(device) = known.and_then(|n| devices.get_mut(n)) {
            device.changes.push(change)?;
            continue;
        }
        numbers.insert(path.copy()?, devices.len())?;
        let mut changes = Vec::new(alloc);
        changes.push(change)?;
        devices.push(Device { path, changes })?;
    }
    devices.sort_by(|one: &Device<'_>, other: &Device<'_>| one.path.cmp(&other.path))?;
    Ok(devices)
}

// The changes of a device, each once with the names of which it is told.
fn lines_of(
    alloc: Global,
    device: &Device<'_>,
    options: DiffOptions,
) -> Result<Vec<Line>, AllocError> {
    let mut numbers: BTreeMap<Vec<u8>, usize> = BTreeMap::new(alloc);
    let mut lines: Vec<Line> = Vec::new(alloc);
    for change in &device.changes {
        let Some(name) = change.path.segs().last() else {
            continue;
        };
        let mut text = Text::new(alloc);
        put_change(&mut text, *change, options);
        let text = text.into_bytes()?;
        let known = numbers.get(text.as_slice()).copied();
        if let Some(line) = known.and_then(|n| lines.get_mut(n)) {
            line.names.push(*name)?;
            continue;
        }
        numbers.insert(text.clone()?, lines.len())?;
        let mut names = Vec::new(alloc);
        names.push(*name)?;
        lines.push(Line {
            change: text,
            names,
        })?;
    }
    Ok(lines)
}

// The lines of a device.
fn text_of(
    alloc: Global,
    device: &Device<'_>,
    options: DiffOptions,
) -> Result<Vec<u8>, AllocError> {
    let mut text = Text::new(alloc);
    for line in &lines_of(alloc, device, options)? {
        text.put("      ");
        put_names(&mut text, &line.names, options);
        text.put(": ");
        text.put_all(&line.change);
        text.put("\n");
    }
    text.into_bytes()
}

// Devices with the same lines are in one block.
fn blocks_of<'d>(
    alloc: Global,
    devices: &'d [Device<'_>],
    options: DiffOptions,
) -> Result<Blocks<'d>, AllocError> {
    let mut blocks = Blocks::new(alloc);
    for device in devices {
        blocks.put(text_of(alloc, device, options)?, &device.path)?;
    }
    Ok(blocks)
}

/// Puts the section of objects that are gone, new or changed, by device; devices with the same changes are told once.
pub(crate) fn put_stayed(
    text: &mut Text,
    diff: &Diff<'_>,
    options: DiffOptions,
) -> Result<(), AllocError> {
    let alloc = text.alloc();
    let devices = devices_of(alloc, diff)?;
    if devices.is_empty() {
        return Ok(());
    }
    let blocks = blocks_of(alloc, &devices, options)?;
    text.put("\nIN DEVICES THAT STAYED\n");
    for block in &blocks.blocks {
        text.put("  ");
        put_paths(text, &block.paths, options)?;
        text.put("\n");
        text.put_all(&block.text);
    }
    Ok(())
}
