//! Terms of method bodies.

use crate::op::Op;
use crate::tree::{FieldElem, Int, Width};
use acpi_name::Name;

/// An operand of an operator.
#[cycle(term)]
#[derive(Debug, Drop)]
pub enum Operand {
    /// A value, a super name, a target or a simple name, as the operator has it there.
    Term(Term),
    /// ByteData: a raw byte.
    Byte(u8),
    /// WordData: two raw bytes.
    Word(u16),
    /// DWordData: four raw bytes.
    DWord(u32),
}

/// A term of a method body: a value, a name or a statement (ACPI 6.5, 20.2.5).
#[cycle(term)]
#[derive(Debug, Drop)]
pub enum Term {
    /// A constant integer.
    Int(Int),
    /// A string, without the 00 that ends it.
    Str(Vec<u8>),
    /// DefBuffer: its size, and the bytes that are given.
    Buffer(Box<Term>, Vec<u8>),
    /// DefPackage: its count as written, and the elements that are given.
    Package(u8, Vec<Term>),
    /// DefVarPackage: its count, and the elements that are given.
    VarPackage(Box<Term>, Vec<Term>),
    /// LocalObj, 0 to 7.
    Local(u8),
    /// ArgObj, 0 to 6.
    Arg(u8),
    /// DebugObj.
    Debug,
    /// The NullName of a target: the result is put nowhere.
    NoTarget,
    /// A name where it is never a call: a super name, a target, a simple name, or an element of a package.
    Ref(Name),
    /// A name where a value or a statement stands, and the arguments that follow it.
    Call(Name, Vec<Term>),
    /// An operator and its operands.
    Op(Op, Vec<Operand>),
    /// DefIfElse: the predicate, the statements behind it, and those of Else where it has one.
    If(Box<Term>, Vec<Term>, Option<Vec<Term>>),
    /// DefWhile: the predicate, and the statements behind it.
    While(Box<Term>, Vec<Term>),
    /// A declaration. It is rare and large, so it lies apart.
    Declare(Box<Decl>),
}

/// A declaration in a method body, with terms where one at module level has constants (ACPI 6.5, 20.2.5.2).
#[cycle(term)]
#[derive(Debug, Drop)]
pub enum Decl {
    /// DefName: a name and its data.
    Name(Name, Box<Term>),
    /// DefCreateDWordField and the like: source, index in bytes (bits for a bit field), declared name.
    Create {
        /// Which term it is, which is the width of the field.
        width: Width,
        /// SourceBuff: the buffer in which the field lies.
        source: Box<Term>,
        /// ByteIndex: where the field begins in the buffer, in bytes; of a bit field BitIndex, in bits.
        index: Box<Term>,
        /// The declared name, not resolved.
        name: Name,
    },
    /// DefCreateField: source, index and number in bits, declared name.
    CreateField {
        /// SourceBuff: the buffer in which the field lies.
        source: Box<Term>,
        /// BitIndex: where the field begins in the buffer, in bits.
        index: Box<Term>,
        /// NumBits: the width of the field, in bits.
        bits: Box<Term>,
        /// The declared name, not resolved.
        name: Name,
    },
    /// DefMutex: name and sync flags.
    Mutex(Name, u8),
    /// DefEvent: the declared name.
    Event(Name),
    /// DefOpRegion: space, offset and length in bytes.
    Region {
        /// The declared name, not resolved.
        name: Name,
        /// RegionSpace: 0 SystemMemory, 1 SystemIO, 2 PCI_Config, .., and from 0x80 on those of an OEM.
        space: u8,
        /// RegionOffset: where the region begins in its space, in bytes.
        offset: Box<Term>,
        /// RegionLen: how many bytes it has.
        length: Box<Term>,
    },
    /// DefField: units of an operation region.
    Field {
        /// The name of the operation region, not resolved.
        region: Name,
        /// FieldFlags: bits 0 to 3 AccessType, bit 4 LockRule, bits 5 and 6 UpdateRule.
        flags: u8,
        /// FieldList: each element begins at the bit behind the one before it, the first at 0.
        elems: Vec<FieldElem>,
    },
    /// DefIndexField: units that are reached by an index register and a data register.
    IndexField {
        /// The name of the index register, not resolved.
        index: Name,
        /// The name of the data register, not resolved.
        datum: Name,
        /// FieldFlags: bits 0 to 3 AccessType, bit 4 LockRule, bits 5 and 6 UpdateRule.
        flags: u8,
        /// FieldList: each element begins at the bit behind the one before it, the first at 0.
        elems: Vec<FieldElem>,
    },
    /// DefBankField: units of an operation region, of one of the banks that a register selects.
    BankField {
        /// The name of the operation region, not resolved.
        region: Name,
        /// The name of the bank register, not resolved.
        bank: Name,
        /// BankValue: what the bank register gets before a unit is accessed.
        value: Box<Term>,
        /// FieldFlags: bits 0 to 3 AccessType, bit 4 LockRule, bits 5 and 6 UpdateRule.
        flags: u8,
        /// FieldList: each element begins at the bit behind the one before it, the first at 0.
        elems: Vec<FieldElem>,
    },
}
