//! Resource descriptors as people write them (ACPI 6.5, 6.4).

use crate::connections::{bus_draft, gpio_draft};
use crate::spaces::Space;
use acpi_infix::put_constant;
use acpi_overview::{Resource, Resources};
use acpi_overview_text::{put_counted, put_size, space_word};
use acpi_phrases::{put_decimal_runs, put_span};
use acpi_resources::{Descriptor, Dma, FixedMemory32, InterruptMode, Item, ItemKind};
use acpi_text::put_decimal;
use std::alloc::{AllocError, Global};
use text_buffer::Text;

/// Of what kind resources are, in the order in which they are listed.
#[derive(Debug, Clone, Copy, PartialEq, Eq)]
pub enum ResourceKind {
    /// Bus numbers.
    Bus,
    /// I/O ports.
    Ports,
    /// Memory.
    Memory,
    /// Interrupts.
    Irq,
    /// DMA channels.
    Dma,
    /// GPIO pins.
    Gpio,
    /// A device on an I2C bus.
    I2c,
    /// A device on an SPI bus.
    Spi,
    /// A device on a UART.
    Uart,
    /// Others.
    Other,
}

/// All kinds, in the order in which they are listed.
pub(crate) const KINDS: [ResourceKind; 10] = [
    ResourceKind::Bus,
    ResourceKind::Ports,
    ResourceKind::Memory,
    ResourceKind::Irq,
    ResourceKind::Dma,
    ResourceKind::Gpio,
    ResourceKind::I2c,
    ResourceKind::Spi,
    ResourceKind::Uart,
    ResourceKind::Other,
];

impl ResourceKind {
    /// The word for it.
    pub fn word(self) -> &'static str {
        match self {
            ResourceKind::Bus => "bus",
            ResourceKind::Ports => "ports",
            ResourceKind::Memory => "memory",
            ResourceKind::Irq => "irq",
            ResourceKind::Dma => "dma",
            ResourceKind::Gpio => "gpio",
            ResourceKind::I2c => "i2c",
            ResourceKind::Spi => "spi",
            ResourceKind::Uart => "uart",
            ResourceKind::Other => "",
        }
    }
}

/// The texts of a descriptor. A number that code sets is a `?`.
#[derive(Debug, Drop)]
pub struct ResourceText {
    /// Of what kind it is.
    pub kind: ResourceKind,
    /// All that it says.
    pub full: Vec<u8>,
    /// Its numbers, without a word before them.
    pub short: Vec<u8>,
    /// Its first and its last address, where they are known.
    pub range: Option<(u64, u64)>,
    /// Whether a bridge passes it on to the devices behind it.
    pub is_window: bool,
    /// Whether code sets one of its numbers.
    pub is_by_code: bool,
    /// The controller that it is a connection to.
    pub controller: Vec<u8>,
}

/// A descriptor while its texts are made.
#[derive(Drop)]
pub(crate) struct Draft {
    pub(crate) full: Text,
    pub(crate) short: Text,
    pub(crate) kind: ResourceKind,
    pub(crate) range: Option<(u64, u64)>,
    pub(crate) is_window: bool,
    pub(crate) is_by_code: bool,
    pub(crate) controller: Text,
}

impl Draft {
    /// Nothing is said of a resource of this kind.
    pub(crate) fn new(alloc: Global, kind: ResourceKind) -> Draft {
        Draft {
            full: Text::new(alloc),
            short: Text::new(alloc),
            kind,
            range: None,
            is_window: false,
            is_by_code: false,
            controller: Text::new(alloc),
        }
    }

    /// Puts words into both texts.
    pub(crate) fn put_both(&mut self, words: &str) {
        self.full.put(words);
        self.short.put(words)
    }

    fn finish(self) -> Result<ResourceText, AllocError> {
        Ok(ResourceText {
            kind: self.kind,
            full: self.full.into_bytes()?,
            short: self.short.into_bytes()?,
            range: self.range,
            is_window: self.is_window,
            is_by_code: self.is_by_code,
            controller: self.controller.into_bytes()?,
        })
    }
}

fn put_mode(text: &mut Text, mode: InterruptMode) {
    text.put(if mode.edge { "edge" } else { "level" });
    text.put(if mode.low {
        ", active low"
    } else {
        ", active high"
    });
    if mode.shared {
        text.put(", shared");
    }
    if mode.wake {
        text.put(", wakes");
    }
}

// The numbers of the bits that are set.
fn bits_of(alloc: Global, mask: u16) -> Result<Vec<u64>, AllocError> {
    let mut bits = Vec::new(alloc);
    for bit in 0..16u16 {
        if (mask >> bit) % 2 == 1 {
            bits.push(u64::from(bit))?;
        }
    }
    Ok(bits)
}

/// Puts numbers into both texts: `none` where there are none, and `?` where code sets them.
pub(crate) fn put_numbers(draft: &mut Draft, numbers: &[u64], is_written: bool) {
    if is_written {
        draft.is_by_code = true;
        draft.put_both("?")
    } else if numbers.is_empty() {
        draft.put_both("none")
    } else {
        put_decimal_runs(&mut draft.full, numbers);
        put_decimal_runs(&mut draft.short, numbers)
    }
}

fn irq_draft(
    alloc: Global,
    numbers: &[u64],
    is_written: bool,
    mode: InterruptMode,
    is_producer: bool,
) -> Draft {
    let mut draft = Draft::new(alloc, ResourceKind::Irq);
    draft.full.put("irq ");
    put_numbers(&mut draft, numbers, is_written);
    draft.full.put(", ");
    put_mode(&mut draft.full, mode);
    if is_producer {
        draft.full.put(", producer");
    }
    draft
}

fn dma_draft(alloc: Global, dma: &Dma) -> Result<Draft, AllocError> {
    let mut draft = Draft::new(alloc, ResourceKind::Dma);
    draft.full.put("dma ");
    put_numbers(&mut draft, &bits_of(alloc, u16::from(dma.mask))?, false);
    draft.full.put(match dma.flags % 4 {
        0 => ", 8 bit",
        1 => ", 8 and 16 bit",
        2 => ", 16 bit",
        _ => ", ?",
    });
    if dma.flags / 4 % 2 == 1 {
        draft.full.put(", bus master");
    }
    draft.full.put(match dma.flags / 32 % 4 {
        1 => ", type A",
        2 => ", type B",
        3 => ", type F",
        _ => "",
    });
    Ok(draft)
}

// Puts a range into both texts, and says that it is known.
fn put_range(draft: &mut Draft, from: u64, count: u64) {
    match count.checked_sub(1) {
        Some(rest) => {
            let last = from.saturating_add(rest);
            put_span(&mut draft.full, from, last);
            put_span(&mut draft.short, from, last);
            draft.range = Some((from, last));
        }
        None => {
            put_constant(&mut draft.full, from);
            put_constant(&mut draft.short, from);
            draft.put_both(" (size 0)")
        }
    }
}

// Puts where a range may begin, of so many bytes or ports.
fn put_movable(draft: &mut Draft, (min, max): (u64, u64), count: u64, alignment: u64) {
    draft.full.put(": ");
    put_size(&mut draft.full, count);
    draft.full.put(" from ");
    put_constant(&mut draft.full, min);
    draft.full.put(" to ");
    put_constant(&mut draft.full, max);
    draft.full.put(", aligned to ");
    put_constant(&mut draft.full, alignment);
    put_constant(&mut draft.short, min);
    draft.short.put("..");
    put_constant(&mut draft.short, max)
}

fn ports_draft(alloc: Global, (min, max): (u64, u64), count: u64, alignment: u64) -> Draft {
    let mut draft = Draft::new(alloc, ResourceKind::Ports);
    draft.full.put("ports");
    if min == max {
        draft.full.put(" ");
        put_range(&mut draft, min, count)
    } else {
        put_movable(&mut draft, (min, max), count, alignment)
    }
    draft
}

fn put_access(text: &mut Text, flags: u8) {
    text.put(if flags % 2 == 1 {
        ", read-write"
    } else {
        ", read-only"
    })
}

// Puts a size between parentheses.
fn put_size_behind(text: &mut Text, count: u64) {
    text.put(" (");
    put_size(text, count);
    text.put(")")
}

fn memory_draft(
    alloc: Global,
    (min, max): (u64, u64),
    count: u64,
    alignment: u64,
    flags: u8,
) -> Draft {
    let mut draft = Draft::new(alloc, ResourceKind::Memory);
    draft.full.put("memory");
    if min == max {
        draft.full.put(" ");
        put_range(&mut draft, min, count);
        if count > 0 {
            put_size_behind(&mut draft.full, count);
        }
    } else {
        put_movable(&mut draft, (min, max), count, alignment)
    }
    put_access(&mut draft.full, flags);
    draft
}

/// Puts a number, or a `?` where code sets it.
pub(crate) fn put_known(text: &mut Text, number: u64, is_written: bool) {
    if is_written {
        text.put("?")
    } else {
        put_constant(text, number)
    }
}

fn fixed_memory_draft(
    alloc: Global,
    memory: &FixedMemory32,
    is_base_written: bool,
    is_length_written: bool,
) -> Draft {
    let (base, length) = (u64::from(memory.base), u64::from(memory.length));
    if !is_base_written && !is_length_written {
        return memory_draft(alloc, (base, base), length, 0, memory.info);
    }
    let mut draft = Draft::new(alloc, ResourceKind::Memory);
    draft.is_by_code = true;
    draft.full.put("memory ");
    put_known(&mut draft.full, base, is_base_written);
    put_known(&mut draft.short, base, is_base_written);
    if is_length_written {
        draft.full.put(" (size ?)");
        draft.short.put("-?");
    } else {
        put_size_behind(&mut draft.full, length);
    }
    put_access(&mut draft.full, memory.info);
    draft
}

// ---- others

fn item_word(item: &Item<'_>) -> &'static str {
    match item.kind() {
        ItemKind::PinFunction => "pin function",
        ItemKind::PinConfiguration => "pin configuration",
        ItemKind::PinGroup => "pin group",
        ItemKind::PinGroupFunction => "pin group function",
        ItemKind::PinGroupConfiguration => "pin group configuration",
        ItemKind::ClockInput => "clock input",
        ItemKind::Other => "unknown descriptor",
    }
}

fn other_draft(alloc: Global, descriptor: &Descriptor<'_>) -> Draft {
    let mut draft = Draft::new(alloc, ResourceKind::Other);
    match descriptor {
        Descriptor::VendorShort(_) | Descriptor::VendorLong(_) => draft.put_both("vendor"),
        Descriptor::FixedDma(dma) => {
            draft.put_both("fixed dma");
            draft.full.put(" request ");
            put_decimal(&mut draft.full, u64::from(dma.request));
            draft.full.put(", channel ");
            put_decimal(&mut draft.full, u64::from(dma.channel))
        }
        Descriptor::GenericRegister(register) => {
            draft.put_both("register");
            draft.full.put(" ");
            draft.full.put(space_word(register.space));
            draft.full.put(" ");
            put_constant(&mut draft.full, register.address);
            draft.full.put(", ");
            put_counted(&mut draft.full, usize::from(register.bit_width), "bit")
        }
        Descriptor::Other(item) => draft.put_both(item_word(item)),
        _ => {}
    }
    draft
}

// The texts of a descriptor before they are finished; None of one that holds no resource.
fn draft_of(
    alloc: Global,
    resources: &Resources<'_>,
    resource: &Resource<'_>,
    is_bridge: bool,
) -> Result<Option<Draft>, AllocError> {
    let draft = match &resource.descriptor {
        Descriptor::StartDependent(_) | Descriptor::EndDependent | Descriptor::EndTag(_) => {
            return Ok(None);
        }
        Descriptor::Irq(irq) => {
            let is_written = resources.is_written(resource, 1, 2);
            irq_draft(
                alloc,
                &bits_of(alloc, irq.mask)?,
                is_written,
                irq.mode(),
                false,
            )
        }
        Descriptor::ExtendedInterrupt(interrupt) => {
            let mut numbers = Vec::new(alloc);
            for number in interrupt.numbers {
                numbers.push(u64::from(u32::from_le_bytes(*number)))?;
            }
            numbers.sort_unstable();
            let is_written = resources.is_written(resource, 5, 4);
            let is_producer = interrupt.flags % 2 == 0;
            irq_draft(alloc, &numbers, is_written, interrupt.mode(), is_producer)
        }
        Descriptor::Dma(dma) => dma_draft(alloc, dma)?,
        Descriptor::Io(io) => {
            let bounds = (u64::from(io.min), u64::from(io.max));
            let count = u64::from(io.length);
            let mut draft = ports_draft(alloc, bounds, count, u64::from(io.alignment));
            if io.info % 2 == 0 && io.min == io.max {
                draft.full.put(", decodes 10 bits");
            }
            draft
        }
        Descriptor::FixedIo(io) => {
            let base = u64::from(io.base);
            let mut draft = ports_draft(alloc, (base, base), u64::from(io.length), 1);
            draft.full.put(", decodes 10 bits");
            draft
        }
        Descriptor::FixedMemory32(memory) => {
            let is_base = resources.is_written(resource, 4, 4);
            let is_length = resources.is_written(resource, 8, 4);
            fixed_memory_draft(alloc, memory, is_base, is_length)
        }
        Descriptor::Memory24(m) => {
            let unit = |n: u16| u64::from(n) << 8;
            let bounds = (unit(m.min), unit(m.max));
            memory_draft(
                alloc,
                bounds,
                unit(m.length),
                u64::from(m.alignment),
                m.info,
            )
        }
        Descriptor::Memory32(m) => {
            let bounds = (u64::from(m.min), u64::from(m.max));
            let alignment = u64::from(m.alignment);
            memory_draft(alloc, bounds, u64::from(m.length), alignment, m.info)
        }
        Descriptor::AddressSpace(space) => {
            Space::of(space, resources, resource).draft(alloc, is_bridge)
        }
        Descriptor::ExtendedAddressSpace(space) => {
            Space::of_extended(space).draft(alloc, is_bridge)
        }
        Descriptor::Gpio(gpio) => gpio_draft(alloc, gpio)?,
        Descriptor::SerialBus(bus) => bus_draft(alloc, bus),
        other => other_draft(alloc, other),
    };
    Ok(Some(draft))
}

/// The texts of the resources of a device that may be a bridge.
pub fn resource_texts(
    alloc: Global,
    resources: &Resources<'_>,
    is_bridge: bool,
) -> Result<Vec<ResourceText>, AllocError> {
    let mut texts = Vec::new(alloc);
    for resource in &resources.items {
        if let Some(draft) = draft_of(alloc, resources, resource, is_bridge)? {
            texts.push(draft.finish()?)?;
        }
    }
    Ok(texts)
}
