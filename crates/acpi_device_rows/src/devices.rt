//! The rows of the tree of devices.

use crate::alike::{Alike, DeviceTexts};
use acpi_device_text::{
    PlaceKind, is_short_uid, place_kind, put_counts, put_general_event, put_place, role_word,
};
use acpi_infix::put_constant;
use acpi_machine_facts::MachineFacts;
use acpi_name::Path;
use acpi_overview::{Address, ResourceSource};
use acpi_overview_text::{is_empty, put_escaped};
use acpi_phrases::{function_number, put_function, put_joined, put_number_of, put_piece};
use acpi_resource_text::short_resources;
use acpi_text::put_decimal;
use std::alloc::{AllocError, Global};
use text_buffer::Text;

/// A row of the tree of devices: a device, some siblings that are alike, or a scope in which devices stand.
#[derive(Debug, Drop)]
pub struct DeviceRow<'a> {
    /// The path of the device, of the first of some, or of the scope.
    pub path: &'a Path,
    /// The numbers of their containers; none of a scope.
    pub numbers: Vec<usize>,
    /// How many devices are around, and a scope.
    pub depth: usize,
    /// The last segment of the path, or the first and the last of some; the path of a scope.
    pub name: Vec<u8>,
    /// Where it stands.
    pub place: Vec<u8>,
    /// Its hardware id.
    pub id: Vec<u8>,
    /// What it is, and what is told of it.
    pub about: Vec<u8>,
    /// How many methods and fields it has, behind what stands between it and `about`.
    pub counts: Vec<u8>,
}

/// The numbers of the containers directly below each.
#[derive(Drop)]
pub struct Children {
    below: Vec<Vec<usize>>,
    tops: Vec<usize>,
}

// The place of a device among its siblings: PCI functions by address, others by theirs, and then by where they stand.
fn order_of(facts: &MachineFacts<'_, '_>, number: usize) -> (u8, u64, usize, usize) {
    let Some(container) = facts.overview.tree.containers.get(number) else {
        return (3, 0, 0, number);
    };
    let (table, offset) = match container.object.site {
        Some(site) => (site.table, site.offset),
        None => (0, 0),
    };
    match container.address {
        Address::Pci { device, function } => { (0, function_number(device, function), 0, 0) }
        Address::Other(address) if container.values.hid.is_missing() => {
            (1, address, offset, table)
        }
        _ => (2, table as u64, offset, 0),
    }
}

impl Children {
    /// The devices directly below each device and scope, in the order in which they are told.
    pub fn new(facts: &MachineFacts<'_, '_>) -> Result<Children, AllocError> {
        let alloc = facts.machine.alloc;
        let containers = &facts.overview.tree.containers;
        let mut below: Vec<Vec<usize>> = Vec::new(alloc);
        let mut order: Vec<((u8, u64, usize, usize), usize)> = Vec::new(alloc);
        for number in 0..containers.len() {
            below.push(Vec::new(alloc))?;
            if facts.device(number).is_some() {
                order.push((order_of(facts, number), number))?;
            }
        }
        order.sort()?;
        for (_, number) in &order {
            let parent = containers.get(*number).and_then(|c| c.parent);
            if let Some(list) = parent.and_then(|p| below.get_mut(p)) {
                list.push(*number)?;
            }
        }
        let mut tops = Vec::new(alloc);
        for (number, list) in below.iter().enumerate() {
            if !list.is_empty() && facts.device(number).is_none() {
                tops.push(number)?;
            }
        }
        Ok(Children { below, tops })
    }

    /// The devices directly below the container of that number.
    pub fn of(&self, number: usize) -> &[usize] {
        match self.below.get(number) {
            Some(list) => list,
            None => &[],
        }
    }

    /// The scopes in which devices stand, by path.
    pub fn tops(&self) -> &[usize] {
        &self.tops
    }
}

// ---- texts

// Puts the first of some devices' names, and the last.
fn name_of(
    alloc: Global,
    first: &DeviceTexts<'_, '_>,
    last: &DeviceTexts<'_, '_>,
    count: usize,
) -> Result<Vec<u8>, AllocError> {
    let mut name = Text::new(alloc);
    name.put_all(&first.name);
    if count > 1 {
        name.put("-");
        name.put_all(&last.name);
    }
    if count > 2 {
        name.put(" (");
        put_decimal(&mut name, count as u64);
        name.put(")");
    }
    name.into_bytes()
}

// Puts the functions of some devices that are alike: all of one device, or one of each.
fn put_functions(text: &mut Text, first: (u16, u16), last: (u16, u16), count: usize) {
    let number = |f: (u16, u16)| function_number(f.0, f.1);
    let steps = (count as u64).saturating_sub(1);
    put_function(text, first.0, first.1);
    if number(first).saturating_add(steps) == number(last) {
        text.put("-");
    } else if count > 2 {
        text.put(" ");
        put_function(text, first.0.saturating_add(1), first.1);
        text.put(" .. ");
    } else {
        text.put(" ");
    }
    put_function(text, last.0, last.1)
}

// Where some devices stand that are alike.
fn place_of(
    alloc: Global,
    first: &DeviceTexts<'_, '_>,
    last: &DeviceTexts<'_, '_>,
    count: usize,
) -> Result<Vec<u8>, AllocError> {
    let mut text = Text::new(alloc);
    if count == 1 {
        put_place(&mut text, first.container, &first.uid);
        return text.into_bytes();
    }
    match (
        place_kind(first.container, &first.uid),
        place_kind(last.container, &last.uid),
    ) {
        (PlaceKind::Function(device, function), PlaceKind::Function(other, other_function)) => {
            put_functions(
                &mut text,
                (device, function),
                (other, other_function),
                count,
            )
        }
        (PlaceKind::Address(from), PlaceKind::Address(to)) if from != to => {
            put_place(&mut text, first.container, &first.uid);
            text.put("-");
            put_constant(&mut text, to)
        }
        (PlaceKind::Uid, PlaceKind::Uid) if first.uid != last.uid => {
            put_place(&mut text, first.container, &first.uid);
            text.put("-");
            text.put_all(&last.uid)
        }
        _ => put_place(&mut text, first.container, &first.uid),
    }
    text.into_bytes()
}

// The hexadecimal digits at the end of a text.
fn digits_at_end(text: &[u8]) -> &[u8] {
    let count = text
        .iter()
        .rev()
        .take_while(|b| matches!(**b, b'0'..=b'9' | b'A'..=b'F'))
        .count();
    &text[text.len().saturating_sub(count)..]
}

// Puts what its maker calls a device, and the number of the last of some that are alike.
fn put_called(text: &mut Text, first: &[u8], last: &[u8]) {
    text.put("\"");
    put_escaped(text, first);
    text.put("\"");
    if first != last {
        text.put(" to ");
        put_escaped(text, digits_at_end(last))
    }
}

/// Puts what a device is.
fn put_what(text: &mut Text, first: &DeviceTexts<'_, '_>, last: &DeviceTexts<'_, '_>) {
    match (first.device.what, first.device.called) {
        (Some(what), _) => {
            text.put(what);
            if !first.uid.is_empty() && !is_short_uid(&first.uid) {
                text.put(" ");
                text.put_all(&first.uid);
            }
        }
        (None, Some(called)) => {
            put_piece(text, " ", role_word(first.device.role).as_bytes());
            if !is_empty(text) {
                text.put(" ");
            }
            put_called(text, called, last.device.called.unwrap_or(called))
        }
        (None, None) => text.put(role_word(first.device.role)),
    }
}

// Puts a piece that isn't empty behind others.
fn put_note(notes: &mut Text, piece: &[u8]) {
    if !piece.is_empty() {
        put_piece(notes, "; ", piece)
    }
}

// What is told of some devices that are alike.
fn notes_of(
    facts: &MachineFacts<'_, '_>,
    first: &DeviceTexts<'_, '_>,
    last: &DeviceTexts<'_, '_>,
) -> Result<Vec<u8>, AllocError> {
    let alloc = facts.machine.alloc;
    let mut notes = Text::new(alloc);
    if first.container.object.is_conditional {
        put_note(&mut notes, b"under a condition");
    }
    put_note(&mut notes, &first.state);
    put_note(&mut notes, &first.wake);
    for words in &short_resources(alloc, &first.resources, &last.resources)? {
        put_note(&mut notes, words);
    }
    let source = facts
        .overview
        .resources
        .current
        .get(first.device.container)
        .map(|r| r.source);
    if let Some(ResourceSource::Method(_) | ResourceSource::Unknown) = source {
        let mut words = Text::new(alloc);
        words.put("resources ");
        put_joined(&mut words, b"by code");
        put_note(&mut notes, words.bytes()?);
    }
    if let Some(event) = first.device.event {
        let mut words = Text::new(alloc);
        words.put("event ");
        put_general_event(&mut words, event);
        put_note(&mut notes, words.bytes()?);
    }
    if !first.device.queries.is_empty() {
        let mut words = Text::new(alloc);
        put_number_of(&mut words, first.device.queries.len(), "query", "queries");
        let mut joined = Text::new(alloc);
        put_joined(&mut joined, words.bytes()?);
        put_note(&mut notes, joined.bytes()?);
    }
    if first.device.is_ejectable {
        put_note(&mut notes, b"ejectable");
    }
    notes.into_bytes()
}

// The row of some devices that are alike.
fn row_of<'a>(
    facts: &MachineFacts<'_, 'a>,
    first: &DeviceTexts<'_, 'a>,
    last: &DeviceTexts<'_, 'a>,
    numbers: Vec<usize>,
    depth: usize,
) -> Result<DeviceRow<'a>, AllocError> {
    let alloc = facts.machine.alloc;
    let count = numbers.len();
    let mut about = Text::new(alloc);
    put_what(&mut about, first, last);
    let notes = notes_of(facts, first, last)?;
    if !notes.is_empty() {
        put_piece(&mut about, ": ", &notes);
    }
    let mut members = Text::new(alloc);
    put_counts(&mut members, first.container, count > 1);
    let mut counts = Text::new(alloc);
    if !is_empty(&members) {
        if !notes.is_empty() {
            counts.put("; ");
        } else if !is_empty(&about) {
            counts.put(": ");
        }
        counts.put_text(&members);
    }
    let container = first.container;
    let device = first.device;
    Ok(DeviceRow {
        path: container.object.path,
        numbers,
        depth,
        name: name_of(alloc, first, last, count)?,
        place: place_of(alloc, first, last, count)?,
        id: Vec::from_slice(alloc, &device.hid)?,
        about: about.into_bytes()?,
        counts: counts.into_bytes()?,
    })
}

// ---- rows

/// The rows while the tree is gone through.
#[derive(Drop)]
struct Rows<'f, 'm, 'a> {
    facts: &'f MachineFacts<'m, 'a>,
    children: &'f Children,
    is_folded: bool,
    rows: Vec<DeviceRow<'a>>,
}

impl<'f, 'm, 'a> Rows<'f, 'm, 'a> {
    // The siblings below a container, those that are alike together.
    fn groups(&self, number: usize) -> Result<Vec<Alike>, AllocError> {
        let alloc = self.facts.machine.alloc;
        let mut groups: Vec<Alike> = Vec::new(alloc);
        let mut before: Option<DeviceTexts<'f, 'a>> = None;
        for child in self.children.of(number) {
            let Some(texts) = DeviceTexts::of(self.facts, *child)? else {
                continue;
            };
            let is_leaf = self.children.of(*child).is_empty() && self.is_folded;
            let is_alike = match (&before, groups.last_mut()) {
                (Some(last), Some(group)) if is_leaf => group.put(last, &texts, *child)?,
                _ => false,
            };
            if !is_alike {
                let mut numbers = Vec::new(alloc);
                numbers.push(*child)?;
                groups.push(Alike::new(numbers))?;
            }
            before = if is_leaf { Some(texts) } else { None };
        }
        Ok(groups)
    }

    // Puts the row of some devices that are alike.
    fn put_group(&mut self, group: Alike, depth: usize) -> Result<(), AllocError> {
        let facts = self.facts;
        let (Some(first), Some(last)) = (group.numbers.first(), group.numbers.last()) else {
            return Ok(());
        };
        let (Some(first), Some(last)) = (
            DeviceTexts::of(facts, *first)?,
            DeviceTexts::of(facts, *last)?,
        ) else {
            return Ok(());
        };
        self.rows
            .push(row_of(facts, &first, &last, group.numbers, depth)?)?;
        Ok(())
    }

    // Puts the row of a scope.
    fn put_scope(&mut self, number: usize) -> Result<(), AllocError> {
        let Some(container) = self.facts.overview.tree.containers.get(number) else {
            return Ok(());
        };
        let alloc = self.facts.machine.alloc;
        let mut name = Text::new(alloc);
        acpi_trimmed::put_trimmed_path(&mut name, container.object.path);
        self.rows.push(DeviceRow {
            path: container.object.path,
            numbers: Vec::new(alloc),
            depth: 0,
            name: name.into_bytes()?,
            place: Vec::new(alloc),
            id: Vec::new(alloc),
            about: Vec::new(alloc),
            counts: Vec::new(alloc),
        })?;
        Ok(())
    }

    // Puts the rows below a scope.
    fn put_below(&mut self, top: usize) -> Result<(), AllocError> {
        let mut waiting: Vec<(Alike, usize)> = Vec::new(self.facts.machine.alloc);
        for group in self.groups(top)?.into_iter().rev() {
            waiting.push((group, 1))?;
        }
        for _ in 0..u64::MAX {
            let Some((group, depth)) = waiting.pop() else {
                break;
            };
            let only = match group.numbers.as_slice() {
                [number] => Some(*number),
                _ => None,
            };
            self.put_group(group, depth)?;
            if let Some(number) = only {
                for below in self.groups(number)?.into_iter().rev() {
                    waiting.push((below, depth.saturating_add(1)))?;
                }
            }
        }
        Ok(())
    }
}

/// The rows of the tree of devices: each before those below it, siblings that are alike in one row, or each in its own.
pub fn device_rows<'a>(
    facts: &MachineFacts<'_, 'a>,
    children: &Children,
    is_folded: bool,
) -> Result<Vec<DeviceRow<'a>>, AllocError> {
    let mut rows = Rows {
        facts,
        children,
        is_folded,
        rows: Vec::new(facts.machine.alloc),
    };
    for top in children.tops() {
        rows.put_scope(*top)?;
        rows.put_below(*top)?;
    }
    Ok(rows.rows)
}
