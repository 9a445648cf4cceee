//! What flags and numbers of kinds stand for.

ghost use Rattle.std.specs.Prelude.{◌≡◌, ◌<◌};
ghost use Rattle.acpi_resources.specs.Meaning.{has_bit, irq_mode, interrupt_mode, address_kind, bus_kind, item_kind};

use crate::descriptor::{
    AddressSpace, ExtendedAddressSpace, ExtendedInterrupt, Irq, Item, SerialBus,
};

/// How an interrupt is signalled (ACPI 6.5, 6.4.2.1 and 6.4.3.6).
#[derive(Debug, Clone, Copy, PartialEq, Eq)]
pub struct InterruptMode {
    /// Edge triggered; else level triggered.
    pub edge: bool,
    /// Active low; else active high.
    pub low: bool,
    /// Shared with other devices.
    pub shared: bool,
    /// Able to wake the system.
    pub wake: bool,
}

/// What an address range is of (ACPI 6.5, 6.4.3.5).
#[derive(Debug, Clone, Copy, PartialEq, Eq)]
pub enum AddressKind {
    /// Memory, type 0.
    Memory,
    /// I/O ports, type 1.
    Io,
    /// Bus numbers, type 2.
    Bus,
    /// Another type, by its number.
    Other(u8),
}

/// The kind of a serial bus (ACPI 6.5, 6.4.3.8.2).
#[derive(Debug, Clone, Copy, PartialEq, Eq)]
pub enum BusKind {
    /// I2C, type 1.
    I2c,
    /// SPI, type 2.
    Spi,
    /// UART, type 3.
    Uart,
    /// CSI-2, type 4.
    Csi2,
    /// Another type, by its number.
    Other(u8),
}

/// The kind of an item that no variant of `Descriptor` describes (ACPI 6.5, 6.4.3.9 to 6.4.3.14).
#[derive(Debug, Clone, Copy, PartialEq, Eq)]
pub enum ItemKind {
    /// A pin function, 8D.
    PinFunction,
    /// A pin configuration, 8F.
    PinConfiguration,
    /// A pin group, 90.
    PinGroup,
    /// A pin group function, 91.
    PinGroupFunction,
    /// A pin group configuration, 92.
    PinGroupConfiguration,
    /// A clock input, 93.
    ClockInput,
    /// Any other tag.
    Other,
}

// Whether the bit of this weight is set.
fn has_bit(flags: u8, weight: u8) -> bool
    requires { 0 < weight }
    ensures { result ≡ has_bit weight flags }
{
    flags / weight % 2 == 1
}

impl Irq {
    /// How the lines are signalled: by the flags, or edge triggered, active high and not shared (ACPI 6.5, 6.4.2.1).
    pub fn mode(&self) -> InterruptMode
        ensures { result ≡ irq_mode self.now.flags }
    {
        match self.flags {
            None => InterruptMode {
                edge: true,
                low: false,
                shared: false,
                wake: false,
            },
            Some(flags) => InterruptMode {
                edge: has_bit(flags, 1),
                low: has_bit(flags, 8),
                shared: has_bit(flags, 16),
                wake: has_bit(flags, 32),
            },
        }
    }
}

impl ExtendedInterrupt<'_> {
    /// How the interrupts are signalled (ACPI 6.5, 6.4.3.6).
    pub fn mode(&self) -> InterruptMode
        ensures { result ≡ interrupt_mode self.now.flags }
    {
        InterruptMode {
            edge: has_bit(self.flags, 2),
            low: has_bit(self.flags, 4),
            shared: has_bit(self.flags, 8),
            wake: has_bit(self.flags, 16),
        }
    }
}

impl AddressSpace<'_> {
    /// What the range is of (ACPI 6.5, 6.4.3.5).
    pub fn resource(&self) -> AddressKind
        ensures { result ≡ address_kind self.now.kind }
    {
        kind_of(self.kind)
    }
}

impl ExtendedAddressSpace {
    /// What the range is of (ACPI 6.5, 6.4.3.5).
    pub fn resource(&self) -> AddressKind
        ensures { result ≡ address_kind self.now.kind }
    {
        kind_of(self.kind)
    }
}

fn kind_of(number: u8) -> AddressKind
    ensures { result ≡ address_kind number }
{
    match number {
        0 => AddressKind::Memory,
        1 => AddressKind::Io,
        2 => AddressKind::Bus,
        _ => AddressKind::Other(number),
    }
}

impl SerialBus<'_> {
    /// The kind of the bus (ACPI 6.5, 6.4.3.8.2).
    pub fn bus(&self) -> BusKind
        ensures { result ≡ bus_kind self.now.kind }
    {
        match self.kind {
            1 => BusKind::I2c,
            2 => BusKind::Spi,
            3 => BusKind::Uart,
            4 => BusKind::Csi2,
            number => BusKind::Other(number),
        }
    }
}

impl Item<'_> {
    /// The item's kind by its tag (ACPI 6.5, 6.4.3, table of large items).
    pub fn kind(&self) -> ItemKind
        ensures { result ≡ item_kind self.now.tag }
    {
        match self.tag {
            0x8D => ItemKind::PinFunction,
            0x8F => ItemKind::PinConfiguration,
            0x90 => ItemKind::PinGroup,
            0x91 => ItemKind::PinGroupFunction,
            0x92 => ItemKind::PinGroupConfiguration,
            0x93 => ItemKind::ClockInput,
            _ => ItemKind::Other,
        }
    }
}
