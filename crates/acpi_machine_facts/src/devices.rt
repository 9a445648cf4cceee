//! Devices, processors, power resources and thermal zones.

use acpi_check_machine::{Machine, constant};
use acpi_events::{EventNumber, event_number};
use acpi_kinds::ObjectKind;
use acpi_overview::{Container, Object, Overview, Value};
use acpi_overview_text::{put_id, what_of};
use acpi_power::{PowerObject, Wake, power_objects, wake_of};
use acpi_tree::{Op, Operand, Term};
use std::alloc::AllocError;
use text_buffer::Text;

/// What a device without a known id is for sure.
#[derive(Debug, Clone, Copy, PartialEq, Eq)]
pub enum Role {
    /// A function of a PCI bus that is a bridge to another one.
    PciBridge,
    /// A display adapter: it has `_DOS` or `_DOD` (ACPI 6.5, appendix B).
    Display,
    /// Nothing is known.
    Unknown,
}

/// Whether a device is there, as `_STA` says (ACPI 6.5, 6.3.7).
#[derive(Debug, Drop)]
pub enum DeviceState {
    /// It has no `_STA`, or one that says that it is there, works and is shown.
    Present,
    /// A constant says that it is there and works, but isn't shown.
    Hidden,
    /// A constant says that it is never there.
    Absent,
    /// Another constant.
    Status(u64),
    /// One of these constants, by code.
    AnyOf(Vec<u64>),
    /// Code tells it.
    Code,
}

/// A device, processor, power resource or thermal zone.
#[derive(Debug, Drop)]
pub struct Device<'a> {
    /// The number of its container.
    pub container: usize,
    /// Its `_HID` as text, or nothing (6.1.5).
    pub hid: Vec<u8>,
    /// The ids of `_CID` as texts (6.1.2).
    pub cids: Vec<Vec<u8>>,
    /// What it is, by its ids or by its object.
    pub what: Option<&'static str>,
    /// What it is else.
    pub role: Role,
    /// What its maker calls it: `_DDN` (6.1.4) or `_STR` (6.1.10).
    pub called: Option<&'a [u8]>,
    /// Whether it is there.
    pub state: DeviceState,
    /// By which event it wakes the machine, where that is constant.
    pub wake: Option<Wake<'a>>,
    /// The general-purpose event of an embedded controller (12.11).
    pub event: Option<u64>,
    /// Whether it may be ejected: it has `_EJ0` (6.3.3).
    pub is_ejectable: bool,
    /// The methods that serve queries of an embedded controller (5.6.4.1.2).
    pub queries: Vec<Object<'a>>,
    /// The objects that say how it is powered.
    pub power: Vec<PowerObject<'a>>,
}

impl Device<'_> {
    /// Whether it has an id.
    pub fn has_id(&self, id: &[u8]) -> bool {
        self.hid.as_slice() == id || self.cids.iter().any(|c| c.as_slice() == id)
    }
}

// The text of an id; nothing where it isn't constant.
fn id_of(machine: &Machine<'_>, value: &Value<'_>) -> Result<Vec<u8>, AllocError> {
    let mut text = Text::new(machine.alloc);
    if let Value::Number(_) | Value::Text(_) = value {
        put_id(&mut text, value);
    }
    text.into_bytes()
}

// Puts the texts of the ids of a package.
fn put_ids(
    machine: &Machine<'_>,
    elements: &[Term],
    ids: &mut Vec<Vec<u8>>,
) -> Result<(), AllocError> {
    for element in elements {
        ids.push(id_of(machine, &Value::of_term(element))?)?;
    }
    Ok(())
}

// The texts of the ids of `_CID`.
fn cids_of(machine: &Machine<'_>, value: &Value<'_>) -> Result<Vec<Vec<u8>>, AllocError> {
    let mut ids = Vec::new(machine.alloc);
    match value {
        Value::Package(elements) => put_ids(machine, elements, &mut ids)?,
        Value::Number(_) | Value::Text(_) => ids.push(id_of(machine, value)?)?,
        _ => {}
    }
    Ok(ids)
}

fn role_of<'a>(machine: &Machine<'a>, container: &Container<'a>) -> Role {
    let device = &container.object;
    if container.is_pci_bridge {
        Role::PciBridge
    } else if machine.has(device, *b"_DOS") || machine.has(device, *b"_DOD") {
        Role::Display
    } else {
        Role::Unknown
    }
}

// What its maker calls a device.
fn called<'a>(container: &Container<'a>) -> Option<&'a [u8]> {
    match (container.values.ddn, container.values.str) {
        (Value::Text(text), _) => Some(text),
        (_, Value::Text(text)) => Some(text),
        _ => None,
    }
}

// ---- whether it is there

// The value of a Return, and whether a statement is one.
fn returned_number(statement: &Term) -> (bool, Option<u64>) {
    match statement {
        Term::Op(Op::Return, operands) => match operands.as_slice() {
            [Operand::Term(value)] => (true, constant(value)),
            _ => (true, None),
        },
        _ => (false, None),
    }
}

// The constants that the method of that entry returns, in order, where it returns nothing else.
fn numbers_returned(machine: &Machine<'_>, method: usize) -> Result<Option<Vec<u64>>, AllocError> {
    let Some(body) = machine.body(method) else {
        return Ok(None);
    };
    let mut numbers: Vec<u64> = Vec::new(machine.alloc);
    for line in &body.lines {
        match returned_number(line.statement) {
            (true, Some(number)) => {
                if !numbers.contains(&number) {
                    numbers.push(number)?;
                }
            }
            (true, None) => return Ok(None),
            (false, _) => {}
        }
    }
    numbers.sort_unstable();
    if numbers.is_empty() {
        return Ok(None);
    }
    Ok(Some(numbers))
}

fn state_of_number(number: u64) -> DeviceState {
    match number % 16 {
        0xF => DeviceState::Present,
        0xB => DeviceState::Hidden,
        0 => DeviceState::Absent,
        _ => DeviceState::Status(number),
    }
}

// What the method `_STA` of a device says.
fn state_by_code<'a>(
    machine: &Machine<'a>,
    device: &Object<'a>,
) -> Result<DeviceState, AllocError> {
    let [object] = machine.below(device, *b"_STA") else {
        return Ok(DeviceState::Code);
    };
    match numbers_returned(machine, object.number)? {
        Some(numbers) => Ok(DeviceState::AnyOf(numbers)),
        None => Ok(DeviceState::Code),
    }
}

fn state_of<'a>(
    machine: &Machine<'a>,
    container: &Container<'a>,
) -> Result<DeviceState, AllocError> {
    match (container.object.kind, container.values.sta) {
        (ObjectKind::Power { .. }, _) => Ok(DeviceState::Present),
        (_, Value::Missing) => Ok(DeviceState::Present),
        (_, Value::Number(number)) => Ok(state_of_number(number)),
        (_, Value::Method(_)) => state_by_code(machine, &container.object),
        _ => Ok(DeviceState::Code),
    }
}

// ---- all

// The device of the container of that number, without its queries.
fn device_of<'a>(
    machine: &Machine<'a>,
    overview: &Overview<'a>,
    container: &Container<'a>,
    number: usize,
) -> Result<Device<'a>, AllocError> {
    let values = &container.values;
    let mut device = Device {
        container: number,
        hid: id_of(machine, &values.hid)?,
        cids: cids_of(machine, &values.cid)?,
        what: what_of(machine.alloc, container)?,
        role: role_of(machine, container),
        called: called(container),
        state: state_of(machine, container)?,
        wake: wake_of(&values.prw),
        event: None,
        is_ejectable: machine.has(&container.object, *b"_EJ0"),
        queries: Vec::new(machine.alloc),
        power: power_objects(machine, overview, &container.object)?,
    };
    if device.has_id(b"PNP0C09") {
        device.event = values.gpe.number();
    }
    Ok(device)
}

fn is_device(container: &Container<'_>) -> bool {
    matches!(
        container.object.kind,
        ObjectKind::Device
            | ObjectKind::Processor { .. }
            | ObjectKind::Power { .. }
            | ObjectKind::Thermal
    )
}

// Puts the methods that serve queries to their devices.
fn put_queries<'a>(
    overview: &Overview<'a>,
    devices: &mut Vec<Option<Device<'a>>>,
) -> Result<(), AllocError> {
    for (object, around) in overview.objects.iter().zip(overview.tree.around.iter()) {
        let Some(EventNumber::Query(_)) = event_number(object) else {
            continue;
        };
        let Some(number) = *around else {
            continue;
        };
        if let Some(Some(device)) = devices.get_mut(number) {
            device.queries.push(*object)?;
        }
    }
    Ok(())
}

/// By the number of a container, the device that it is, if it is one.
pub(crate) fn devices_of<'a>(
    machine: &Machine<'a>,
    overview: &Overview<'a>,
) -> Result<Vec<Option<Device<'a>>>, AllocError> {
    let mut devices = Vec::new(machine.alloc);
    for (number, container) in overview.tree.containers.iter().enumerate() {
        if is_device(container) {
            devices.push(Some(device_of(machine, overview, container, number)?))?;
        } else {
            devices.push(None)?;
        }
    }
    put_queries(overview, &mut devices)?;
    Ok(devices)
}
