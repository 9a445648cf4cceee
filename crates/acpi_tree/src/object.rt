//! What stands at a path of the namespace.

ghost use Rattle.std.specs.Prelude.{◌≡◌, ◌<◌};
ghost use Rattle.acpi_tree.specs.Objects.{object_view, args_of, opens_scope};

use crate::tree::{Data, Int, Width};

/// The form in which a field element was declared.
#[derive(Clone, Copy, Debug, PartialEq, Eq)]
pub enum FieldForm {
    /// DefField.
    Field,
    /// DefIndexField.
    Index,
    /// DefBankField, with the value that selects the bank.
    Bank(Int),
}

/// An object of the namespace (ACPI 6.5, 5.3). Constants stand in the form in which they were written.
#[derive(Debug, Drop)]
pub enum Object {
    /// The root `\`.
    Root,
    /// A predefined scope, `\_SB_` say (5.3.1).
    Scope,
    /// A predefined object of which nothing more is known.
    Predefined,
    /// A device, by DefDevice.
    Device,
    /// A processor, by DefProcessor, as ACPI 6.3 and earlier have it.
    Processor {
        /// ProcID.
        id: u8,
        /// PblkAddr: the address of its register block P_BLK in system I/O space.
        block: u32,
        /// PblkLen: how many bytes P_BLK has, 0 where there is none.
        length: u8,
    },
    /// A power resource, by DefPowerRes.
    Power {
        /// SystemLevel: the deepest sleep state that keeps the resource on, 0 for S0, 1 for S1 and so on.
        level: u8,
        /// ResourceOrder: resources go on from the least number to the greatest, and off from the greatest.
        order: u16,
    },
    /// A thermal zone, by DefThermalZone.
    Thermal,
    /// What a DefName gives a value: the data.
    Name(Data),
    /// A method, by its flags: bits 0 to 2 the argument count, bit 3 serialized, bits 4 to 7 the sync level.
    Method(u8),
    /// An operation region: space, offset and length in bytes.
    Region {
        /// RegionSpace: 0 SystemMemory, 1 SystemIO, 2 PCI_Config, .., and from 0x80 on those of an OEM.
        space: u8,
        /// RegionOffset: where it begins in its space, in bytes.
        offset: Int,
        /// RegionLen: how many bytes it has.
        length: Int,
    },
    /// A mutex, by its sync flags.
    Mutex(u8),
    /// An event, by DefEvent.
    Event,
    /// A field unit: flags of its field list, width and offset in bits.
    Field {
        /// The term that declares it.
        form: FieldForm,
        /// FieldFlags: bits 0 to 3 AccessType, bit 4 LockRule, bits 5 and 6 UpdateRule.
        flags: u8,
        /// Its width, in bits.
        bits: u32,
        /// Where it begins, in bits from the first of its field list.
        offset: u64,
    },
    /// A Create field of a fixed width: index in bytes, of a bit field in bits.
    Create {
        /// Which term declares it, which is its width.
        width: Width,
        /// ByteIndex: where it begins in its buffer, in bytes; of a bit field BitIndex, in bits.
        index: Int,
    },
    /// A Create field of any width: index and number of bits.
    CreateField {
        /// BitIndex: where it begins in its buffer, in bits.
        index: Int,
        /// NumBits: its width, in bits.
        bits: Int,
    },
}

impl Object {
    /// How many arguments a method takes; 0 of any other object.
    pub fn args(&self) -> u8
        ensures count { result ≡ args_of (object_view self.now) }
        ensures few { result < 8 }
    {
        match self {
            Object::Method(flags) => *flags % 8,
            _ => 0,
        }
    }

    /// Whether objects may be declared below this one.
    pub fn opens_scope(&self) -> bool
        ensures { result ≡ opens_scope (object_view self.now) }
    {
        matches!(
            self,
            Object::Root
                | Object::Scope
                | Object::Device
                | Object::Processor { .. }
                | Object::Power { .. }
                | Object::Thermal
        )
    }
}
