//! Siblings that are alike: they have one row.

use acpi_device_text::{PlaceKind, place_kind, put_device_wake, put_state, uid_text};
use acpi_kinds::ObjectKind;
use acpi_machine_facts::{Device, MachineFacts};
use acpi_overview::{Container, Resources};
use acpi_phrases::{Steps, function_number, last_name};
use acpi_resource_text::{ResourceKind, ResourceText, ResourceTexts, are_equal, resource_texts};
use std::alloc::AllocError;
use text_buffer::Text;

/// A device with the texts by which it is compared with its siblings.
#[derive(Drop)]
pub(crate) struct DeviceTexts<'f, 'a> {
    /// The container.
    pub(crate) container: &'f Container<'a>,
    /// What is known of it.
    pub(crate) device: &'f Device<'a>,
    /// Its last segment.
    pub(crate) name: Vec<u8>,
    /// Its `_UID`; nothing where it isn't constant.
    pub(crate) uid: Vec<u8>,
    /// Whether it is there.
    pub(crate) state: Vec<u8>,
    /// By which event it wakes the machine.
    pub(crate) wake: Vec<u8>,
    /// Its resources.
    pub(crate) resources: ResourceTexts,
}

// The texts of the resources of a container of that number.
fn texts_of(
    facts: &MachineFacts<'_, '_>,
    lists: &[Resources<'_>],
    number: usize,
    is_bridge: bool,
) -> Result<Vec<ResourceText>, AllocError> {
    match lists.get(number) {
        Some(resources) => resource_texts(facts.machine.alloc, resources, is_bridge),
        None => Ok(Vec::new(facts.machine.alloc)),
    }
}

impl<'f, 'a> DeviceTexts<'f, 'a> {
    /// Those of the device that the container of that number is, if it is one.
    pub(crate) fn of<'m>(
        facts: &'f MachineFacts<'m, 'a>,
        number: usize,
    ) -> Result<Option<DeviceTexts<'f, 'a>>, AllocError> {
        let (Some(container), Some(device)) = (
            facts.overview.tree.containers.get(number),
            facts.device(number),
        ) else {
            return Ok(None);
        };
        let alloc = facts.machine.alloc;
        let is_bridge = container.is_host_bridge();
        let lists = &facts.overview.resources;
        let mut state = Text::new(alloc);
        put_state(&mut state, &device.state);
        let mut wake = Text::new(alloc);
        put_device_wake(&mut wake, facts.machine, container, device)?;
        Ok(Some(DeviceTexts {
            container,
            device,
            name: last_name(alloc, container.object.path)?,
            uid: uid_text(alloc, container)?,
            state: state.into_bytes()?,
            wake: wake.into_bytes()?,
            resources: ResourceTexts {
                current: texts_of(facts, &lists.current, number, is_bridge)?,
                possible: texts_of(facts, &lists.possible, number, is_bridge)?,
            },
        }))
    }
}

/// How one device of some that are alike differs from the one before.
#[derive(Debug, Clone, Copy, PartialEq, Eq)]
struct Differences {
    // By how much its place counts up.
    place: u64,
    // Whether its `_UID` counts up.
    uid: bool,
    // Whether what its maker calls it counts up.
    called: bool,
    // Whether its interrupts count up.
    interrupts: bool,
}

// What stands before the hexadecimal digits at the end of a text, their number, and the quote behind.
fn split_number(text: &[u8]) -> Option<(&[u8], u64)> {
    let text = match text {
        [front @ .., b'"'] => front,
        _ => text,
    };
    let count = text
        .iter()
        .rev()
        .take_while(|b| matches!(**b, b'0'..=b'9' | b'A'..=b'F'))
        .count()
        .min(8);
    let (front, digits) = text.split_at(text.len().saturating_sub(count));
    if digits.is_empty() {
        return None;
    }
    let mut number = 0u64;
    for digit in digits {
        let value = match *digit {
            b'0'..=b'9' => *digit - b'0',
            b'A'..=b'F' => *digit - b'A' + 10,
            _ => 0,
        };
        number = number.saturating_mul(16).saturating_add(u64::from(value));
    }
    Some((front, number))
}

// What stands before a number, without the `0x` before its digits.
fn without_mark(front: &[u8]) -> &[u8] {
    match front {
        [before @ .., b'0', b'x'] => before,
        _ => front,
    }
}

// Whether a text counts up from another: Some(false) where they are equal.
fn counts_up(one: &[u8], other: &[u8]) -> Option<bool> {
    if one == other {
        return Some(false);
    }
    let (front, number) = split_number(one)?;
    let (other_front, next) = split_number(other)?;
    let is_next = without_mark(front) == without_mark(other_front)
        && number.checked_add(1)? == next;
    if is_next { Some(true) } else { None }
}

fn place_step(one: &DeviceTexts<'_, '_>, other: &DeviceTexts<'_, '_>) -> Option<u64> {
    match (
        place_kind(one.container, &one.uid),
        place_kind(other.container, &other.uid),
    ) {
        (PlaceKind::Function(device, function), PlaceKind::Function(next, next_function)) => {
            let before = function_number(device, function);
            let step = function_number(next, next_function).checked_sub(before)?;
            if step == 1 || step == 8 {
                Some(step)
            } else {
                None
            }
        }
        (PlaceKind::Address(before), PlaceKind::Address(next)) => {
            let step = next.checked_sub(before)?;
            if step < 2 { Some(step) } else { None }
        }
        (PlaceKind::Uid, PlaceKind::Uid) => Some(0),
        (PlaceKind::Nothing, PlaceKind::Nothing) => Some(0),
        _ => None,
    }
}

// The decimal number that a short text is.
fn decimal(text: &[u8]) -> Option<u64> {
    if text.is_empty() || text.len() > 9 {
        return None;
    }
    let mut number = 0u64;
    for digit in text {
        if !digit.is_ascii_digit() {
            return None;
        }
        let digit = u64::from(digit.saturating_sub(b'0'));
        number = number.saturating_mul(10).saturating_add(digit);
    }
    Some(number)
}

// What the text of an interrupt says behind its number: `irq 5, edge, active high`.
fn signalling(text: &ResourceText) -> &[u8] {
    let from = text.short.len().saturating_add(4).min(text.full.len());
    &text.full[from..]
}

// Whether an interrupt is the one behind another, signalled alike.
fn is_next_interrupt(one: &ResourceText, other: &ResourceText) -> bool {
    let is_irq = one.kind == ResourceKind::Irq && other.kind == ResourceKind::Irq;
    match (decimal(&one.short), decimal(&other.short)) {
        (Some(before), Some(next)) => {
            is_irq && before.checked_add(1) == Some(next) && signalling(one) == signalling(other)
        }
        _ => false,
    }
}

// Whether the interrupts of a list count up from those of another, where nothing else differs.
fn list_step(one: &[ResourceText], other: &[ResourceText]) -> Option<bool> {
    if are_equal(one, other) {
        return Some(false);
    }
    let is_counted = one.len() == other.len()
        && one
            .iter()
            .zip(other.iter())
            .all(|(a, b)| a.full == b.full || is_next_interrupt(a, b));
    if is_counted { Some(true) } else { None }
}

// Whether the interrupts of a device count up from those of another, where nothing else differs: those between which it has a
// choice only where it has no others.
fn interrupts_step(one: &ResourceTexts, other: &ResourceTexts) -> Option<bool> {
    let current = list_step(&one.current, &other.current)?;
    let possible = list_step(&one.possible, &other.possible)?;
    let is_told_once = are_equal(&one.current, &one.possible);
    if possible && !is_told_once {
        return None;
    }
    Some(current)
}

// A number for the kind of an object below which others stand.
fn kind_number(kind: ObjectKind<'_>) -> u8 {
    match kind {
        ObjectKind::Device => 0,
        ObjectKind::Processor { .. } => 1,
        ObjectKind::Power { .. } => 2,
        ObjectKind::Thermal => 3,
        _ => 4,
    }
}

// Whether devices are equal in all that a row tells once.
fn have_one_row(one: &DeviceTexts<'_, '_>, other: &DeviceTexts<'_, '_>) -> bool {
    let (a, b) = (one.device, other.device);
    let (of_a, of_b) = (&one.container.counts, &other.container.counts);
    kind_number(one.container.object.kind) == kind_number(other.container.object.kind)
        && a.hid == b.hid
        && a.cids == b.cids
        && a.role == b.role
        && a.is_ejectable == b.is_ejectable
        && a.event == b.event
        && a.queries.len() == b.queries.len()
        && one.state == other.state
        && one.wake == other.wake
        && one.container.object.is_conditional == other.container.object.is_conditional
        && (of_a.methods, of_a.units, of_a.regions, of_a.names)
            == (of_b.methods, of_b.units, of_b.regions, of_b.names)
}

// How a device differs from one that has one row with it.
fn difference_of(one: &DeviceTexts<'_, '_>, other: &DeviceTexts<'_, '_>) -> Option<Differences> {
    if !have_one_row(one, other) {
        return None;
    }
    let called = match (one.device.called, other.device.called) {
        (Some(before), Some(next)) => counts_up(before, next)?,
        (None, None) => false,
        _ => return None,
    };
    Some(Differences {
        place: place_step(one, other)?,
        uid: counts_up(&one.uid, &other.uid)?,
        called,
        interrupts: interrupts_step(&one.resources, &other.resources)?,
    })
}

/// Devices that are alike so far.
#[derive(Drop)]
pub(crate) struct Alike {
    /// The numbers of their containers.
    pub(crate) numbers: Vec<usize>,
    steps: Steps,
    differences: Option<Differences>,
}

impl Alike {
    /// One device.
    pub(crate) fn new(numbers: Vec<usize>) -> Alike {
        Alike {
            numbers,
            steps: Steps::ANY,
            differences: None,
        }
    }

    /// Puts a device behind the last one, if it is alike; whether it is.
    pub(crate) fn put(
        &mut self,
        last: &DeviceTexts<'_, '_>,
        next: &DeviceTexts<'_, '_>,
        number: usize,
    ) -> Result<bool, AllocError> {
        let Some(steps) = self.steps.onward(&last.name, &next.name) else {
            return Ok(false);
        };
        let Some(found) = difference_of(last, next) else {
            return Ok(false);
        };
        if let Some(before) = &self.differences {
            if *before != found {
                return Ok(false);
            }
        }
        self.steps = steps;
        self.differences = Some(found);
        self.numbers.push(number)?;
        Ok(true)
    }
}
