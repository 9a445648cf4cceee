//! Resources of devices in JSON (ACPI 6.5, 6.4).

use crate::connections::{put_gpio, put_serial_bus};
use crate::values::{last_of, put_some_u64_member};
use acpi_overview::Value;
use acpi_resources::{
    AddressKind, AddressSpace, Descriptor, ExtendedAddressSpace, ExtendedInterrupt, InterruptMode,
    Irq, split_descriptor,
};
use acpi_text::put_spaced;
use acpins_survey_json::{
    put_boolean_member, put_element_start, put_form_member, put_member, put_number_member,
    put_word_member,
};
use text_buffer::Text;

/// What a resource is of: its kind, and its first and last number, where it has some.
#[derive(Clone, Copy)]
pub(crate) struct Extent {
    pub kind: &'static str,
    pub from: Option<u64>,
    pub to: Option<u64>,
}

impl Extent {
    // Nothing but a kind.
    pub(crate) fn of_kind(kind: &'static str) -> Extent {
        Extent {
            kind,
            from: None,
            to: None,
        }
    }

    // One number.
    fn single(kind: &'static str, number: u64) -> Extent {
        Extent {
            kind,
            from: Some(number),
            to: Some(number),
        }
    }

    // So many addresses, the first of which is one of these.
    fn movable(kind: &'static str, min: u64, max: u64, count: u64) -> Extent {
        Extent {
            kind,
            from: Some(min),
            to: last_of(max, count),
        }
    }
}

/// Puts the members that each resource has, behind a brace: the kind, the first and the last number, and the bytes of the
/// descriptor.
pub(crate) fn put_front(text: &mut Text, is_first: bool, extent: Extent, bytes: &[u8]) {
    put_element_start(text, is_first);
    put_word_member(text, "{", "kind", extent.kind);
    put_some_u64_member(text, "from", extent.from);
    put_some_u64_member(text, "to", extent.to);
    let mut form = Text::new(text.alloc());
    put_spaced(&mut form, bytes);
    put_form_member(text, ",", "bytes", &form)
}

fn put_plain(text: &mut Text, is_first: bool, extent: Extent, bytes: &[u8]) {
    put_front(text, is_first, extent, bytes);
    text.put("}")
}

// ---- interrupts and DMA channels

// Puts how an interrupt is signalled.
fn put_mode(text: &mut Text, mode: InterruptMode) {
    let triggering = if mode.edge { "edge" } else { "level" };
    put_word_member(text, ",", "triggering", triggering);
    put_word_member(text, ",", "polarity", if mode.low { "low" } else { "high" });
    put_boolean_member(text, ",", "shared", mode.shared)
}

fn put_irq(text: &mut Text, is_first: bool, irq: &Irq, bytes: &[u8]) -> bool {
    let mut is_first = is_first;
    for line in 0..16u16 {
        if (irq.mask >> line) % 2 == 1 {
            let extent = Extent::single("irq", u64::from(line));
            put_front(text, is_first, extent, bytes);
            put_mode(text, irq.mode());
            text.put("}");
            is_first = false;
        }
    }
    is_first
}

fn put_interrupts(
    text: &mut Text,
    is_first: bool,
    interrupt: &ExtendedInterrupt<'_>,
    bytes: &[u8],
) -> bool {
    let mut is_first = is_first;
    for number in interrupt.numbers {
        let extent = Extent::single("irq", u64::from(u32::from_le_bytes(*number)));
        put_front(text, is_first, extent, bytes);
        put_mode(text, interrupt.mode());
        text.put("}");
        is_first = false;
    }
    is_first
}

fn put_channels(text: &mut Text, is_first: bool, mask: u8, bytes: &[u8]) -> bool {
    let mut is_first = is_first;
    for channel in 0..8u8 {
        if (mask >> channel) % 2 == 1 {
            let extent = Extent::single("dma", u64::from(channel));
            put_plain(text, is_first, extent, bytes);
            is_first = false;
        }
    }
    is_first
}

// ---- addresses

fn space_kind(kind: AddressKind) -> &'static str {
    match kind {
        AddressKind::Memory => "memory",
        AddressKind::Io => "io",
        AddressKind::Bus => "bus",
        AddressKind::Other(_) => "other",
    }
}

// Puts an address range: its numbers, and what is added to an address to give the one behind the bridge.
fn put_space(
    text: &mut Text,
    is_first: bool,
    kind: AddressKind,
    numbers: (u64, u64, u64, u64),
    bytes: &[u8],
) {
    let (min, max, length, translation) = numbers;
    let extent = Extent {
        kind: space_kind(kind),
        from: Some(min),
        to: if length == 0 { None } else { Some(max) },
    };
    put_front(text, is_first, extent, bytes);
    put_number_member(text, ",", "translation", translation);
    text.put("}")
}

fn put_address_space(text: &mut Text, is_first: bool, space: &AddressSpace<'_>, bytes: &[u8]) {
    let numbers = (space.min, space.max, space.length, space.translation);
    put_space(text, is_first, space.resource(), numbers, bytes)
}

fn put_extended_space(text: &mut Text, is_first: bool, space: &ExtendedAddressSpace, bytes: &[u8]) {
    let numbers = (space.min, space.max, space.length, space.translation);
    put_space(text, is_first, space.resource(), numbers, bytes)
}

// What a descriptor is of that has no members of its own.
fn extent_of(descriptor: &Descriptor<'_>) -> Extent {
    match descriptor {
        Descriptor::Io(io) => Extent::movable(
            "io",
            u64::from(io.min),
            u64::from(io.max),
            u64::from(io.length),
        ),
        Descriptor::FixedIo(io) => {
            let base = u64::from(io.base);
            Extent::movable("io", base, base, u64::from(io.length))
        }
        Descriptor::FixedDma(dma) => Extent::single("dma", u64::from(dma.channel)),
        Descriptor::Memory24(memory) => Extent::movable(
            "memory",
            u64::from(memory.min) << 8,
            u64::from(memory.max) << 8,
            u64::from(memory.length) << 8,
        ),
        Descriptor::Memory32(memory) => Extent::movable(
            "memory",
            u64::from(memory.min),
            u64::from(memory.max),
            u64::from(memory.length),
        ),
        Descriptor::FixedMemory32(memory) => {
            let base = u64::from(memory.base);
            Extent::movable("memory", base, base, u64::from(memory.length))
        }
        _ => Extent::of_kind("other"),
    }
}

// ---- descriptors

// Puts the resources of a descriptor; whether the next is the first.
fn put_descriptor(
    text: &mut Text,
    is_first: bool,
    descriptor: &Descriptor<'_>,
    bytes: &[u8],
) -> bool {
    match descriptor {
        Descriptor::EndTag(_) => return is_first,
        Descriptor::Irq(irq) => return put_irq(text, is_first, irq, bytes),
        Descriptor::ExtendedInterrupt(interrupt) => {
            return put_interrupts(text, is_first, interrupt, bytes);
        }
        Descriptor::Dma(dma) => return put_channels(text, is_first, dma.mask, bytes),
        Descriptor::AddressSpace(space) => put_address_space(text, is_first, space, bytes),
        Descriptor::ExtendedAddressSpace(space) => {
            put_extended_space(text, is_first, space, bytes)
        }
        Descriptor::Gpio(gpio) => put_gpio(text, is_first, gpio, bytes),
        Descriptor::SerialBus(bus) => put_serial_bus(text, is_first, bus, bytes),
        _ => put_plain(text, is_first, extent_of(descriptor), bytes),
    }
    false
}

// Puts an array of the resources in a template, up to its end tag or to where it can't be read.
fn put_template(text: &mut Text, template: &[u8]) {
    text.put("[");
    let mut rest = template;
    let mut is_first = true;
    for _ in 0..template.len() {
        let Some((descriptor, behind)) = split_descriptor(rest) else {
            break;
        };
        let count = rest.len().saturating_sub(behind.len());
        is_first = put_descriptor(text, is_first, &descriptor, &rest[..count.min(rest.len())]);
        if descriptor.is_end_tag() {
            break;
        }
        rest = behind;
    }
    text.put("]")
}

// Puts a member of the resources that a value says: null where only running code tells them.
fn put_list_member(text: &mut Text, name: &str, value: &Value<'_>) {
    put_member(text, ",", name);
    match value {
        Value::Missing => text.put("[]"),
        Value::Buffer(template) => put_template(text, template),
        _ => text.put("null"),
    }
}

/// Puts the member of the resources of a device (6.2.2), behind others.
pub(crate) fn put_resources_member(text: &mut Text, crs: &Value<'_>) {
    put_list_member(text, "resources", crs)
}

/// Puts the member of the resources between which a device has a choice (6.2.12), behind others.
pub(crate) fn put_choices_member(text: &mut Text, prs: &Value<'_>) {
    put_list_member(text, "choices", prs)
}
