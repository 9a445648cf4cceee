//! Item trees.

ghost use Rattle.std.specs.Prelude.{◌≡◌};
ghost use Rattle.acpi_tree.specs.Tree as tree;
ghost use Rattle.acpi_tree.specs.View.{item_view, items_tree};

use acpi_name::{Name, Seg};
use bytes::Bytes;

/// A constant integer, in the form in which it was written.
#[derive(Clone, Copy, Debug, PartialEq, Eq)]
pub enum Int {
    /// ZeroOp, the number 0.
    Zero,
    /// OneOp, the number 1.
    One,
    /// OnesOp, all bits set.
    Ones,
    /// RevisionOp, the revision of the AML interpreter.
    Revision,
    /// ByteConst, a number of one byte.
    Byte(u8),
    /// WordConst, a number of two bytes.
    Word(u16),
    /// DWordConst, a number of four bytes.
    DWord(u32),
    /// QWordConst, a number of eight bytes.
    QWord(u64),
}

/// A constant data object.
#[cycle(data)]
#[derive(Debug, Drop)]
pub enum Data {
    /// A constant integer.
    Int(Int),
    /// A string, without the 00 that ends it.
    Str(Vec<u8>),
    /// A buffer: its size as written, and the bytes that are given.
    Buffer(Int, Vec<u8>),
    /// A package: its count as written, and the elements that are given.
    Package(u8, Vec<Elem>),
    /// A package whose count is a term: its count as written, and the elements that are given.
    VarPackage(Int, Vec<Elem>),
}

/// An element of a package.
#[cycle(data)]
#[derive(Debug, Drop)]
pub enum Elem {
    /// A DataObject.
    Data(Data),
    /// A NameString, not resolved.
    Name(Name),
}

/// An element of a field list.
#[derive(Debug, Drop)]
pub enum FieldElem {
    /// A named field unit, and its width in bits.
    Unit(Seg, u32),
    /// Bits that no name stands for.
    Reserved(u32),
    /// AccessField: access type and attribute.
    Access(u8, u8),
    /// ConnectField by the name of a connection.
    ConnectName(Name),
    /// ConnectField by a buffer: its size as written, and the bytes that are given.
    ConnectBuffer(Int, Vec<u8>),
    /// ExtendedAccessField: access type, attribute and length.
    Extended(u8, u8, u8),
}

/// The declaration of a name that another table defines.
#[derive(Debug, Drop)]
pub struct External {
    /// The declared name, not resolved.
    pub name: Name,
    /// ObjectType, 8 for a method.
    pub kind: u8,
    /// ArgumentCount, 0 to 7.
    pub args: u8,
}

/// The width of a Create field.
#[derive(Clone, Copy, Debug, PartialEq, Eq)]
pub enum Width {
    /// CreateDWordField, 32 bits.
    DWord,
    /// CreateWordField, 16 bits.
    Word,
    /// CreateByteField, 8 bits.
    Byte,
    /// CreateBitField, one bit.
    Bit,
    /// CreateQWordField, 64 bits.
    QWord,
}

/// What opens a scope for items, with what stands between its name and them (ACPI 6.5, 20.2.5.1, 20.2.5.2).
#[derive(Clone, Copy, Debug, PartialEq, Eq)]
pub enum ScopeKind {
    /// DefScope
    Scope,
    /// DefDevice
    Device,
    /// DefProcessor, as ACPI 6.3 and earlier have it: its number, and the address and length of its register block.
    Processor { id: u8, block: u32, length: u8 },
    /// DefPowerRes: the deepest sleep state in which it is on, and its place in the order of power resources.
    Power { level: u8, order: u16 },
    /// DefThermalZone
    Thermal,
}

/// A module-level term.
#[derive(Debug, Drop)]
pub enum Item {
    /// DefName: a name and its data.
    Name(Name, Data),
    /// DefScope: the name of the scope that is opened, and what stands in it.
    Scope(Name, Vec<Item>),
    /// DefMethod: the code is kept as bytes.
    Method {
        /// The declared name, not resolved.
        name: Name,
        /// Bits 0 to 2 the argument count, bit 3 serialized, bits 4 to 7 the sync level.
        flags: u8,
        /// The bytes of its TermList, which are not read.
        code: Bytes,
    },
    /// DefExternal: a name that another table declares.
    External(External),
    /// `If (Zero)` round External items alone, as compilers write them.
    ExternalBlock(Vec<External>),
    /// DefCreateDWordField and the like: source, index in bytes (bits for a bit field), declared name.
    Create {
        /// Which term it is, which is the width of the field.
        width: Width,
        /// SourceBuff: the name of the buffer in which the field lies, not resolved.
        source: Name,
        /// ByteIndex: where the field begins in the buffer, in bytes; of a bit field BitIndex, in bits.
        index: Int,
        /// The declared name, not resolved.
        name: Name,
    },
    /// DefCreateField: source, index and number in bits, declared name.
    CreateField {
        /// SourceBuff: the name of the buffer in which the field lies, not resolved.
        source: Name,
        /// BitIndex: where the field begins in the buffer, in bits.
        index: Int,
        /// NumBits: the width of the field, in bits.
        bits: Int,
        /// The declared name, not resolved.
        name: Name,
    },
    /// DefMutex: name and sync flags.
    Mutex(Name, u8),
    /// DefEvent: the declared name.
    Event(Name),
    /// DefOpRegion: space, offset and length in bytes.
    Region {
        /// The declared name, not resolved.
        name: Name,
        /// RegionSpace: 0 SystemMemory, 1 SystemIO, 2 PCI_Config, .., and from 0x80 on those of an OEM.
        space: u8,
        /// RegionOffset: where the region begins in its space, in bytes.
        offset: Int,
        /// RegionLen: how many bytes it has.
        length: Int,
    },
    /// DefField: units of an operation region.
    Field {
        /// The name of the operation region, not resolved.
        region: Name,
        /// FieldFlags: bits 0 to 3 AccessType, bit 4 LockRule, bits 5 and 6 UpdateRule.
        flags: u8,
        /// FieldList: each element begins at the bit behind the one before it, the first at 0.
        elems: Vec<FieldElem>,
    },
    /// DefIndexField: units that are reached by an index register and a data register.
    IndexField {
        /// The name of the index register, not resolved.
        index: Name,
        /// The name of the data register, not resolved.
        datum: Name,
        /// FieldFlags: bits 0 to 3 AccessType, bit 4 LockRule, bits 5 and 6 UpdateRule.
        flags: u8,
        /// FieldList: each element begins at the bit behind the one before it, the first at 0.
        elems: Vec<FieldElem>,
    },
    /// DefBankField: units of an operation region, of one of the banks that a register selects.
    BankField {
        /// The name of the operation region, not resolved.
        region: Name,
        /// The name of the bank register, not resolved.
        bank: Name,
        /// BankValue: what the bank register gets before a unit is accessed.
        value: Int,
        /// FieldFlags: bits 0 to 3 AccessType, bit 4 LockRule, bits 5 and 6 UpdateRule.
        flags: u8,
        /// FieldList: each element begins at the bit behind the one before it, the first at 0.
        elems: Vec<FieldElem>,
    },
    /// DefDevice: the declared name, and what stands in its scope.
    Device(Name, Vec<Item>),
    /// DefProcessor, as ACPI 6.3 and earlier have it.
    Processor {
        /// The declared name, not resolved.
        name: Name,
        /// ProcID.
        id: u8,
        /// PblkAddr: the address of its register block P_BLK in system I/O space.
        block: u32,
        /// PblkLen: how many bytes P_BLK has, 0 where there is none.
        length: u8,
        /// What stands in the scope of the processor.
        items: Vec<Item>,
    },
    /// DefPowerRes: a power resource.
    Power {
        /// The declared name, not resolved.
        name: Name,
        /// SystemLevel: the deepest sleep state that keeps the resource on, 0 for S0, 1 for S1 and so on.
        level: u8,
        /// ResourceOrder: resources go on from the least number to the greatest, and off from the greatest.
        order: u16,
        /// What stands in the scope of the resource.
        items: Vec<Item>,
    },
    /// DefThermalZone: the declared name, and what stands in its scope.
    Thermal(Name, Vec<Item>),
}

impl ScopeKind {
    /// The item that opens a scope of this kind.
    pub fn item(self, name: Name, items: Vec<Item>) -> Item
        ensures { item_view result ≡ tree.scope self name (items_tree items.items) }
    {
        match self {
            ScopeKind::Scope => Item::Scope(name, items),
            ScopeKind::Device => Item::Device(name, items),
            ScopeKind::Processor { id, block, length } => Item::Processor {
                name,
                id,
                block,
                length,
                items,
            },
            ScopeKind::Power { level, order } => Item::Power {
                name,
                level,
                order,
                items,
            },
            ScopeKind::Thermal => Item::Thermal(name, items),
        }
    }
}
