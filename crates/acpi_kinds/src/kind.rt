//! The kinds of objects, and what is said of each.

use acpi_tree::{Term, Width};

/// The form in which a field element is declared.
#[derive(Debug, Clone, Copy)]
pub enum UnitForm<'a> {
    /// DefField.
    Field,
    /// DefIndexField.
    Index,
    /// DefBankField, with the value that selects the bank.
    Bank(&'a Term),
}

/// The kind of an object, with what its term says of it (ACPI 6.5, 5.3 and 20.2.5.2). Values are terms, since they may be
/// computed.
#[derive(Debug, Clone, Copy)]
pub enum ObjectKind<'a> {
    /// The root `\`.
    Root,
    /// A predefined scope, `\_SB_` say (5.3.1).
    Scope,
    /// A predefined object of which nothing more is known.
    Predefined,
    /// A device, by DefDevice.
    Device,
    /// A processor: ProcID, PblkAddr and PblkLen.
    Processor {
        /// ProcID.
        id: u8,
        /// PblkAddr: the address of its register block P_BLK in system I/O space.
        block: u32,
        /// PblkLen: how many bytes P_BLK has, 0 where there is none.
        length: u8,
    },
    /// A power resource, by DefPowerRes.
    Power {
        /// SystemLevel: the deepest sleep state that keeps the resource on, 0 for S0, 1 for S1 and so on.
        level: u8,
        /// ResourceOrder: resources go on from the least number to the greatest, and off from the greatest.
        order: u16,
    },
    /// A thermal zone, by DefThermalZone.
    Thermal,
    /// A name with its data, which may be lost.
    Name(Option<&'a Term>),
    /// A method, by its flags: bits 0 to 2 the argument count, bit 3 serialized, bits 4 to 7 the sync level.
    Method(u8),
    /// An operation region, by DefOpRegion.
    Region {
        /// RegionSpace: 0 SystemMemory, 1 SystemIO, 2 PCI_Config, .., and from 0x80 on those of an OEM.
        space: u8,
        /// RegionOffset: where it begins in its space, in bytes.
        offset: &'a Term,
        /// RegionLen: how many bytes it has.
        length: &'a Term,
    },
    /// A region of the bytes of a table, by DefDataRegion.
    TableRegion {
        /// The signature of the table.
        signature: &'a Term,
        /// Its OEM ID.
        oem_id: &'a Term,
        /// Its OEM table ID.
        oem_table_id: &'a Term,
    },
    /// A mutex, by its sync flags.
    Mutex(u8),
    /// An event, by DefEvent.
    Event,
    /// Another name for an object, by DefAlias.
    Alias,
    /// A named unit of a field list.
    Field {
        /// The term whose field list it is of.
        form: UnitForm<'a>,
        /// FieldFlags: bits 0 to 3 AccessType, bit 4 LockRule, bits 5 and 6 UpdateRule.
        flags: u8,
        /// Where it begins, in bits from the first of its field list.
        offset: u64,
        /// Its width, in bits.
        bits: u32,
    },
    /// A Create field of a fixed width.
    Create {
        /// Which term declares it, which is its width.
        width: Width,
        /// The buffer that it is of; none where that is a name, which has a link.
        source: Option<&'a Term>,
        /// ByteIndex: where it begins in its buffer, in bytes; of a bit field BitIndex, in bits.
        index: &'a Term,
    },
    /// A Create field of any width.
    CreateField {
        /// The buffer that it is of; none where that is a name, which has a link.
        source: Option<&'a Term>,
        /// BitIndex: where it begins in its buffer, in bits.
        index: &'a Term,
        /// NumBits: its width, in bits.
        bits: &'a Term,
    },
}
