//! Where devices stand on their parents' buses.

ghost use Rattle.std.specs.Prelude.{◌≡◌};
ghost use Rattle.acpi_overview.specs.HostBridges.{is_bridge_id, is_bridge_term, is_bridge_text, is_host_bridge};

use crate::containers::Container;
use crate::value::{Value, integer_value};
use acpi_kinds::ObjectKind;
use acpi_tree::Term;
use std::alloc::{AllocError, Global};

/// Where a device stands on its parent's bus, as its `_ADR` says (ACPI 6.5, 6.1.1).
#[derive(Debug, Clone, Copy, PartialEq, Eq)]
pub enum Address {
    /// It has no `_ADR`.
    Missing,
    /// A method tells it: the number of bytes of its code.
    Method(usize),
    /// Something else tells it.
    Unknown,
    /// The device and function on a PCI bus; function FFFF stands for all.
    Pci {
        /// The number of the device on its bus.
        device: u16,
        /// The number of the function of that device, FFFF for all.
        function: u16,
    },
    /// The number that `_ADR` gives on another bus.
    Other(u64),
}

// PCI, PCI Express and CXL host bridges.
fn is_bridge_text(text: &[u8]) -> bool
    ensures { result ≡ is_bridge_text text.now }
{
    text == b"PNP0A03".as_slice() || text == b"PNP0A08".as_slice() || text == b"ACPI0016".as_slice()
}

fn is_bridge_id(value: &Value<'_>) -> bool
    ensures { result ≡ is_bridge_id value.now }
{
    match value {
        // PNP0A03 and PNP0A08 as EISA ids.
        Value::Number(number) => *number == 0x030A_D041 || *number == 0x080A_D041,
        Value::Text(text) => is_bridge_text(text),
        Value::Package(elements) => elements.iter().any(|e| is_bridge_term(e)),
        _ => false,
    }
}

fn is_bridge_term(term: &Term) -> bool
    ensures { result ≡ is_bridge_term term.now }
{
    match term {
        Term::Int(int) => match integer_value(*int) {
            Some(number) => number == 0x030A_D041 || number == 0x080A_D041,
            None => false,
        },
        Term::Str(text) => is_bridge_text(text),
        _ => false,
    }
}

// The device and function that a number is on a PCI bus.
fn pci_address(number: u64) -> Option<Address> {
    let (device, function) = (number / 0x1_0000, number % 0x1_0000);
    if device < 32 && (function < 8 || function == 0xFFFF) {
        Some(Address::Pci {
            device: device as u16,
            function: function as u16,
        })
    } else {
        None
    }
}

// Where a device stands whose `_ADR` is a number.
fn numbered_address(number: u64, is_on_pci_bus: bool) -> Address {
    if is_on_pci_bus {
        if let Some(address) = pci_address(number) {
            return address;
        }
    }
    Address::Other(number)
}

impl<'a> Container<'a> {
    /// Whether it is a PCI host bridge, by its ids.
    pub fn is_host_bridge(&self) -> bool
        ensures { result ≡ is_host_bridge self.now }
    {
        is_bridge_id(&self.values.hid) || is_bridge_id(&self.values.cid)
    }

    // Whether a PCI bus is directly below it.
    fn has_pci_bus(&self) -> bool {
        self.is_host_bridge() || self.is_pci_bridge
    }

    // Whether it may be a function of a PCI bus: a device that its address alone tells apart.
    fn may_be_function(&self) -> bool {
        matches!(self.object.kind, ObjectKind::Device) && self.values.hid.is_missing()
    }

    // Whether it shows that a PCI bus is around it: it has a region of PCI configuration space, or its address has a device
    // number.
    fn shows_pci_bus(&self) -> bool {
        let is_numbered = match self.values.adr {
            Value::Number(number) => number >= 0x1_0000 && pci_address(number).is_some(),
            _ => false,
        };
        self.may_be_function() && (self.counts.config_regions > 0 || is_numbered)
    }

    // Where it stands.
    fn place(&self, is_on_pci_bus: bool) -> Address {
        match &self.values.adr {
            Value::Missing => Address::Missing,
            Value::Number(number) => {
                numbered_address(*number, is_on_pci_bus && self.may_be_function())
            }
            Value::Method(code) => Address::Method(*code),
            _ => Address::Unknown,
        }
    }
}

// Of each container, whether a PCI bus is for sure below it, if it is a function of one: it has a `_PRT`, or what stands in it
// shows it, or has such a bus itself. A container stands behind its parent.
fn shown_buses(alloc: Global, containers: &[Container<'_>]) -> Result<Vec<bool>, AllocError> {
    let mut shown = Vec::new(alloc);
    for container in containers {
        shown.push(!container.values.prt.is_missing())?;
    }
    for (number, container) in containers.iter().enumerate().rev() {
        let has_bus = shown.get(number).copied().unwrap_or(false);
        let shows = container.shows_pci_bus() || (has_bus && container.may_be_function());
        if let Some(place) = container.parent.and_then(|n| shown.get_mut(n)) {
            *place = *place || shows;
        }
    }
    Ok(shown)
}

// Whether the container of that number has a PCI bus directly below it.
fn has_bus(containers: &[Container<'_>], parent: Option<usize>) -> bool {
    match parent.and_then(|n| containers.get(n)) {
        Some(container) => container.has_pci_bus(),
        None => false,
    }
}

/// Says where each of the containers stands, and which are bridges to a PCI bus.
pub(crate) fn set_addresses(
    alloc: Global,
    containers: &mut Vec<Container<'_>>,
) -> Result<(), AllocError> {
    let shown = shown_buses(alloc, containers)?;
    for number in 0..containers.len() {
        let is_on_bus = has_bus(containers, containers[number].parent);
        let address = containers[number].place(is_on_bus);
        containers[number].address = address;
        containers[number].is_pci_bridge = matches!(address, Address::Pci { .. })
            && shown.get(number).copied().unwrap_or(false);
    }
    Ok(())
}
