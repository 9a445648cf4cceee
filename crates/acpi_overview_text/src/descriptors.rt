//! Texts of resource descriptors (ACPI 6.5, 6.4).

use crate::words::put_hex;
use acpi_resources::{
    AddressSpace, Descriptor, ExtendedAddressSpace, ExtendedInterrupt, FixedDma, FixedMemory32,
    GenericRegister, Gpio, Io, Irq, Memory24, Memory32, SerialBus,
};
use acpi_text::put_decimal;
use text_buffer::Text;

// Puts a first address and a length: `mem FED00000+400`.
fn put_range(text: &mut Text, word: &str, base: u64, length: u64) {
    text.put(word);
    put_hex(text, base, 1);
    text.put("+");
    put_hex(text, length, 1)
}

// Puts a range that may be moved between two first addresses: `io 3F0..7F0+8`.
fn put_movable(text: &mut Text, word: &str, min: u64, max: u64, length: u64) {
    if min == max {
        return put_range(text, word, min, length);
    }
    text.put(word);
    put_hex(text, min, 1);
    text.put("..");
    put_hex(text, max, 1);
    text.put("+");
    put_hex(text, length, 1)
}

// Puts the numbers of the bits that are set: `irq 3/4/5`.
fn put_bits(text: &mut Text, word: &str, mask: u16) {
    text.put(word);
    let mut separator = "";
    for bit in 0..16u16 {
        if (mask >> bit) % 2 == 1 {
            text.put(separator);
            separator = "/";
            put_decimal(text, u64::from(bit));
        }
    }
}

fn put_irq(text: &mut Text, irq: &Irq) {
    put_bits(text, "irq ", irq.mask)
}

fn space_word(kind: u8) -> &'static str {
    match kind {
        0 => "mem ",
        1 => "io ",
        2 => "bus ",
        _ => "space ",
    }
}

// Puts the lowest and the highest address: `mem A0000-BFFFF`.
fn put_address_range(text: &mut Text, kind: u8, min: u64, max: u64, length: u64) {
    text.put(space_word(kind));
    put_hex(text, min, 1);
    text.put("-");
    put_hex(text, max, 1);
    if length == 0 {
        text.put(" (none)");
    }
}

fn put_space(text: &mut Text, space: &AddressSpace<'_>) {
    put_address_range(text, space.kind, space.min, space.max, space.length)
}

fn put_extended_space(text: &mut Text, space: &ExtendedAddressSpace) {
    put_address_range(text, space.kind, space.min, space.max, space.length)
}

fn put_interrupts(text: &mut Text, interrupt: &ExtendedInterrupt<'_>) {
    text.put("irq ");
    let mut separator = "";
    for number in interrupt.numbers {
        text.put(separator);
        separator = "/";
        put_decimal(text, u64::from(u32::from_le_bytes(*number)));
    }
}

fn put_register(text: &mut Text, register: &GenericRegister) {
    text.put("register ");
    put_hex(text, u64::from(register.space), 2);
    text.put(":");
    put_hex(text, register.address, 1)
}

fn put_gpio(text: &mut Text, gpio: &Gpio<'_>) {
    text.put(match gpio.kind {
        0 => "gpio interrupt",
        _ => "gpio",
    })
}

fn put_bus(text: &mut Text, bus: &SerialBus<'_>) {
    text.put(match bus.kind {
        1 => "i2c",
        2 => "spi",
        3 => "uart",
        4 => "csi-2",
        _ => "serial bus",
    })
}

// Puts what is known by its tag and length alone: `tag 84+12`.
fn put_tag(text: &mut Text, tag: u8, length: usize) {
    text.put("tag ");
    put_hex(text, u64::from(tag), 2);
    text.put("+");
    put_hex(text, length as u64, 1)
}

fn put_io(text: &mut Text, io: &Io) {
    let (min, max) = (u64::from(io.min), u64::from(io.max));
    put_movable(text, "io ", min, max, u64::from(io.length))
}

// The first addresses and the length stand in units of 256 bytes.
fn put_memory24(text: &mut Text, memory: &Memory24) {
    let min = u64::from(memory.min).saturating_mul(256);
    let max = u64::from(memory.max).saturating_mul(256);
    let length = u64::from(memory.length).saturating_mul(256);
    put_movable(text, "mem ", min, max, length)
}

fn put_memory32(text: &mut Text, memory: &Memory32) {
    let (min, max) = (u64::from(memory.min), u64::from(memory.max));
    put_movable(text, "mem ", min, max, u64::from(memory.length))
}

fn put_fixed_memory(text: &mut Text, memory: &FixedMemory32) {
    put_range(
        text,
        "mem ",
        u64::from(memory.base),
        u64::from(memory.length),
    )
}

fn put_fixed_dma(text: &mut Text, dma: &FixedDma) {
    text.put("dma ");
    put_decimal(text, u64::from(dma.channel))
}

/// Puts a descriptor in a few words; nothing for the end tag.
pub fn put_descriptor(text: &mut Text, descriptor: &Descriptor<'_>) {
    match descriptor {
        Descriptor::Irq(irq) => put_irq(text, irq),
        Descriptor::Dma(dma) => put_bits(text, "dma ", u16::from(dma.mask)),
        Descriptor::StartDependent(_) => text.put("either("),
        Descriptor::EndDependent => text.put(")"),
        Descriptor::Io(io) => put_io(text, io),
        Descriptor::FixedIo(io) => {
            put_range(text, "io ", u64::from(io.base), u64::from(io.length))
        }
        Descriptor::FixedDma(dma) => put_fixed_dma(text, dma),
        Descriptor::VendorShort(bytes) => put_tag(text, 0x70, bytes.len()),
        Descriptor::EndTag(_) => {}
        Descriptor::Memory24(memory) => put_memory24(text, memory),
        Descriptor::VendorLong(bytes) => put_tag(text, 0x84, bytes.len()),
        Descriptor::Memory32(memory) => put_memory32(text, memory),
        Descriptor::FixedMemory32(memory) => put_fixed_memory(text, memory),
        Descriptor::AddressSpace(space) => put_space(text, space),
        Descriptor::ExtendedAddressSpace(space) => put_extended_space(text, space),
        Descriptor::ExtendedInterrupt(interrupt) => put_interrupts(text, interrupt),
        Descriptor::GenericRegister(register) => put_register(text, register),
        Descriptor::Gpio(gpio) => put_gpio(text, gpio),
        Descriptor::SerialBus(bus) => put_bus(text, bus),
        Descriptor::Other(item) => put_tag(text, item.tag, item.body.len()),
    }
}
