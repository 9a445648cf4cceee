//! Resource descriptors, field by field (ACPI 6.5, 6.4).
//!
//! Bytes of flags stand as they are, reserved bits too.

/// A descriptor of a resource template (ACPI 6.5, 6.4). Bytes of variable length are lent from the template.
#[derive(Debug, Clone, Copy, PartialEq, Eq)]
pub enum Descriptor<'a> {
    /// Interrupt lines of the PC's interrupt controller (6.4.2.1).
    Irq(Irq),
    /// Channels of the PC's DMA controller (6.4.2.2).
    Dma(Dma),
    /// The start of a set of dependent functions (6.4.2.3). The byte, if there is one, has the priorities: bits
    /// 1 to 0 of compatibility, bits 3 to 2 of performance and robustness.
    StartDependent(Option<u8>),
    /// The end of the dependent functions (6.4.2.4).
    EndDependent,
    /// A range of I/O ports (6.4.2.5).
    Io(Io),
    /// I/O ports at a fixed place (6.4.2.6).
    FixedIo(FixedIo),
    /// A DMA request line and channel (6.4.2.7).
    FixedDma(FixedDma),
    /// Up to seven bytes of a vendor's own (6.4.2.8).
    VendorShort(&'a [u8]),
    /// The end of the template (6.4.2.9). The byte brings the sum of all bytes to 0 modulo 256; 0 stands for no
    /// checksum.
    EndTag(u8),
    /// A memory range below 16 MiB (6.4.3.1).
    Memory24(Memory24),
    /// Bytes of a vendor's own (6.4.3.2): a byte of subtype, 16 bytes of UUID and data.
    VendorLong(&'a [u8]),
    /// A memory range below 4 GiB (6.4.3.3).
    Memory32(Memory32),
    /// A memory range at a fixed place below 4 GiB (6.4.3.4).
    FixedMemory32(FixedMemory32),
    /// An address range with numbers of 16, 32 or 64 bits (6.4.3.5.1 to 6.4.3.5.3).
    AddressSpace(AddressSpace<'a>),
    /// An address range with attributes (6.4.3.5.4).
    ExtendedAddressSpace(ExtendedAddressSpace),
    /// Interrupts by their global numbers (6.4.3.6).
    ExtendedInterrupt(ExtendedInterrupt<'a>),
    /// A register in any address space (6.4.3.7).
    GenericRegister(GenericRegister),
    /// A connection to GPIO pins (6.4.3.8.1).
    Gpio(Gpio<'a>),
    /// A connection to a serial bus (6.4.3.8.2).
    SerialBus(SerialBus<'a>),
    /// Any other item: one that is not described here, or whose length is not one of its kind. Pin functions, pin
    /// configurations, pin groups and clock inputs (6.4.3.9 to 6.4.3.14) are among them.
    Other(Item<'a>),
}

/// An item as it stands (ACPI 6.5, 6.4.2 and 6.4.3).
#[derive(Debug, Clone, Copy, PartialEq, Eq)]
pub struct Item<'a> {
    /// The first byte. Bit 7 is clear in a small item, whose bits 2 to 0 are the length; it is set in a large one.
    pub tag: u8,
    /// The bytes behind the tag and, in a large item, behind its length.
    pub body: &'a [u8],
}

/// Interrupt lines (ACPI 6.5, 6.4.2.1).
#[derive(Debug, Clone, Copy, PartialEq, Eq)]
pub struct Irq {
    /// A bit for each line, bit 0 for line 0.
    pub mask: u16,
    /// Bit 0: edge triggered. Bit 3: active low. Bit 4: shared. Bit 5: can wake. Without the byte the lines are
    /// edge triggered, active high and not shared.
    pub flags: Option<u8>,
}

/// DMA channels (ACPI 6.5, 6.4.2.2).
#[derive(Debug, Clone, Copy, PartialEq, Eq)]
pub struct Dma {
    /// A bit for each channel, bit 0 for channel 0.
    pub mask: u8,
    /// Bits 1 to 0: size of transfers. Bit 2: bus master. Bits 6 to 5: speed.
    pub flags: u8,
}

/// A range of I/O ports (ACPI 6.5, 6.4.2.5).
#[derive(Debug, Clone, Copy, PartialEq, Eq)]
pub struct Io {
    /// Bit 0: the device decodes 16 bits of the address. Clear: 10 bits.
    pub info: u8,
    /// The lowest first port.
    pub min: u16,
    /// The highest first port.
    pub max: u16,
    /// The first port is a multiple of this many ports.
    pub alignment: u8,
    /// The number of ports.
    pub length: u8,
}

/// I/O ports at a fixed place (ACPI 6.5, 6.4.2.6).
#[derive(Debug, Clone, Copy, PartialEq, Eq)]
pub struct FixedIo {
    /// The first port, of 10 bits.
    pub base: u16,
    /// The number of ports.
    pub length: u8,
}

/// A DMA request line and channel (ACPI 6.5, 6.4.2.7).
#[derive(Debug, Clone, Copy, PartialEq, Eq)]
pub struct FixedDma {
    /// The request line.
    pub request: u16,
    /// The channel.
    pub channel: u16,
    /// The width of a transfer: 0 to 5 for 8, 16, 32, 64, 128 and 256 bits.
    pub width: u8,
}

/// A memory range below 16 MiB (ACPI 6.5, 6.4.3.1).
#[derive(Debug, Clone, Copy, PartialEq, Eq)]
pub struct Memory24 {
    /// Bit 0: the memory may be written.
    pub info: u8,
    /// Bits 23 to 8 of the lowest first address.
    pub min: u16,
    /// Bits 23 to 8 of the highest first address.
    pub max: u16,
    /// The first address is a multiple of this many bytes; 0 stands for 64 KiB.
    pub alignment: u16,
    /// The length in units of 256 bytes.
    pub length: u16,
}

/// A memory range below 4 GiB (ACPI 6.5, 6.4.3.3).
#[derive(Debug, Clone, Copy, PartialEq, Eq)]
pub struct Memory32 {
    /// Bit 0: the memory may be written.
    pub info: u8,
    /// The lowest first address.
    pub min: u32,
    /// The highest first address.
    pub max: u32,
    /// The first address is a multiple of this many bytes.
    pub alignment: u32,
    /// The length in bytes.
    pub length: u32,
}

/// A memory range at a fixed place (ACPI 6.5, 6.4.3.4).
#[derive(Debug, Clone, Copy, PartialEq, Eq)]
pub struct FixedMemory32 {
    /// Bit 0: the memory may be written.
    pub info: u8,
    /// The first address.
    pub base: u32,
    /// The length in bytes.
    pub length: u32,
}

/// The width of the numbers of an address range.
#[derive(Debug, Clone, Copy, PartialEq, Eq)]
pub enum AddressWidth {
    /// 16 bits (ACPI 6.5, 6.4.3.5.3).
    Word,
    /// 32 bits (6.4.3.5.2).
    DWord,
    /// 64 bits (6.4.3.5.1).
    QWord,
}

/// An address range (ACPI 6.5, 6.4.3.5.1 to 6.4.3.5.3).
#[derive(Debug, Clone, Copy, PartialEq, Eq)]
pub struct AddressSpace<'a> {
    /// The width of the five numbers.
    pub width: AddressWidth,
    /// The type of the resource: 0 memory, 1 I/O, 2 bus numbers, 192 and above a vendor's own.
    pub kind: u8,
    /// Bit 1: subtractive decode. Bit 2: the minimum is fixed. Bit 3: the maximum is fixed.
    pub flags: u8,
    /// Flags of the type (6.4.3.5.5).
    pub kind_flags: u8,
    /// A set bit is one that the bridge decodes.
    pub granularity: u64,
    /// The lowest address.
    pub min: u64,
    /// The highest address.
    pub max: u64,
    /// What is added to an address on this side to give the one on the other side of the bridge.
    pub translation: u64,
    /// The length, in bytes, ports or buses.
    pub length: u64,
    /// Empty, or the index of the source and its name with a byte 0.
    pub source: &'a [u8],
}

/// An address range with attributes (ACPI 6.5, 6.4.3.5.4).
#[derive(Debug, Clone, Copy, PartialEq, Eq)]
pub struct ExtendedAddressSpace {
    /// The type of the resource, as in `AddressSpace`.
    pub kind: u8,
    /// Flags, as in `AddressSpace`.
    pub flags: u8,
    /// Flags of the type (6.4.3.5.5).
    pub kind_flags: u8,
    /// The revision of the descriptor's form.
    pub revision: u8,
    /// A byte without meaning.
    pub reserved: u8,
    /// A set bit is one that the bridge decodes.
    pub granularity: u64,
    /// The lowest address.
    pub min: u64,
    /// The highest address.
    pub max: u64,
    /// What is added to an address on this side to give the one on the other side of the bridge.
    pub translation: u64,
    /// The length, in bytes, ports or buses.
    pub length: u64,
    /// Attributes of the memory, a bit for each.
    pub attributes: u64,
}

/// Interrupts by their global numbers (ACPI 6.5, 6.4.3.6).
#[derive(Debug, Clone, Copy, PartialEq, Eq)]
pub struct ExtendedInterrupt<'a> {
    /// Bit 0: the device consumes the interrupt. Bit 1: edge triggered. Bit 2: active low. Bit 3: shared. Bit 4:
    /// can wake.
    pub flags: u8,
    /// The numbers, each in four bytes, the lowest first.
    pub numbers: &'a [[u8; 4]],
    /// Empty, or the index of the source and its name with a byte 0.
    pub source: &'a [u8],
}

/// A register (ACPI 6.5, 6.4.3.7).
#[derive(Debug, Clone, Copy, PartialEq, Eq)]
pub struct GenericRegister {
    /// The address space: 0 memory, 1 I/O, 2 PCI configuration, 3 embedded controller, 4 SMBus, 5 CMOS, 6 PCI BAR,
    /// 7 IPMI, 8 GPIO, 9 serial bus, 10 PCC, 127 fixed hardware.
    pub space: u8,
    /// The width in bits.
    pub bit_width: u8,
    /// The place of the lowest bit.
    pub bit_offset: u8,
    /// The size of an access: 0 undefined, 1 to 4 for 1, 2, 4 and 8 bytes.
    pub access: u8,
    /// The address in its space.
    pub address: u64,
}

/// A connection to GPIO pins (ACPI 6.5, 6.4.3.8.1).
#[derive(Debug, Clone, Copy, PartialEq, Eq)]
pub struct Gpio<'a> {
    /// The revision of the descriptor's form.
    pub revision: u8,
    /// 0 for an interrupt, 1 for input and output.
    pub kind: u8,
    /// Bit 0: the device consumes the connection.
    pub flags: u16,
    /// Interrupt: bit 0 edge triggered, bits 2 to 1 polarity, bit 3 shared, bit 4 can wake. Input and output: bits
    /// 1 to 0 restriction, bit 3 shared.
    pub pin_flags: u16,
    /// 0 default, 1 pull up, 2 pull down, 3 no pull.
    pub pull: u8,
    /// The strength of the output in hundredths of a milliampere.
    pub drive: u16,
    /// The debounce timeout in hundredths of a millisecond.
    pub debounce: u16,
    /// The place of the pins' numbers, in bytes from the descriptor's first.
    pub pins_place: u16,
    /// A byte without meaning, the index of the source.
    pub source_index: u8,
    /// The place of the source's name, in bytes from the descriptor's first.
    pub source_place: u16,
    /// The place of the vendor's bytes, in bytes from the descriptor's first.
    pub vendor_place: u16,
    /// The number of the vendor's bytes.
    pub vendor_length: u16,
    /// The pins' numbers, the source's name and the vendor's bytes.
    pub tail: &'a [u8],
}

/// A connection to a serial bus (ACPI 6.5, 6.4.3.8.2).
#[derive(Debug, Clone, Copy, PartialEq, Eq)]
pub struct SerialBus<'a> {
    /// The revision of the descriptor's form.
    pub revision: u8,
    /// The index of the source.
    pub source_index: u8,
    /// The bus: 1 I2C, 2 SPI, 3 UART, 4 CSI-2, 192 and above a vendor's own.
    pub kind: u8,
    /// Bit 0: the device is the bus's device, not its controller. Bit 1: consumes the connection. Bit 2: shared.
    pub flags: u8,
    /// Flags of the bus.
    pub kind_flags: u16,
    /// The revision of the form of the bus's data.
    pub kind_revision: u8,
    /// The number of bytes of the bus's data.
    pub data_length: u16,
    /// The bus's data, a vendor's among them, and the source's name with a byte 0.
    pub tail: &'a [u8],
}
