//! Nodes: what the code of any table is read as (ACPI 6.5, 20.2.5).

use crate::fault::LostFault;
use crate::form::{DataForm, PackedForm};
use acpi_name::Name;
use acpi_tree::{External, FieldElem, Term};
use bytes::Bytes;

/// A term in which no nodes stand.
#[derive(Debug, Drop)]
pub enum Plain {
    /// A declaration, a statement, or what has no effect where a statement stands.
    Term(Term),
    /// The declaration of a name that another table defines.
    External(External),
    /// Another name for an object: the object's name, and the other one.
    Alias(Name, Name),
    /// A DefDataRegion: its name, and the signature, OEM ID and OEM table ID of the table.
    TableRegion(Name, Box<Term>, Box<Term>, Box<Term>),
}

/// The fixed arguments of a package, which stand in it before a list.
#[derive(Debug, Drop)]
pub enum Fixed {
    /// The name of a DefScope.
    Scope(Name),
    /// The name of a DefDevice.
    Device(Name),
    /// The name, ProcID, PblkAddr and PblkLen of a DefProcessor.
    Processor(Name, u8, u32, u8),
    /// The name, SystemLevel and ResourceOrder of a DefPowerRes.
    Power(Name, u8, u16),
    /// The name of a DefThermalZone.
    Thermal(Name),
    /// The name and flags of a DefMethod.
    Method(Name, u8),
    /// The predicate of a DefIfElse.
    If(Box<Term>),
    /// A DefElse has none.
    Else,
    /// The predicate of a DefWhile.
    While(Box<Term>),
    /// The region and flags of a DefField.
    Field(Name, u8),
    /// The index, data and flags of a DefIndexField.
    IndexField(Name, Name, u8),
    /// The region, bank, bank value and flags of a DefBankField.
    BankField(Name, Name, Box<Term>, u8),
}

/// What stands for some bytes of a list.
#[cycle(node)]
#[derive(Debug, Drop)]
pub enum Node {
    /// A term without nodes in it.
    Plain(Plain),
    /// A package, and the nodes in it.
    Holds(Fixed, Nodes),
    /// A package, the elements of the field list in it, and where the rest of them is lost.
    Fields(Fixed, Vec<PlacedField>, Option<Lost>),
    /// A package that is not gone into, and the bytes behind its fixed arguments.
    Closed(Fixed, Bytes),
    /// A package whose fixed arguments can't be read, and why.
    PackageLost(PackedForm, LostFault),
    /// A statement that is data in a package and can't be read, and why.
    DataLost(DataForm, LostFault),
    /// A DefName whose data is a package that can't be read, and why.
    NameLost(Name, DataForm, LostFault),
}

/// A node, and the place of its first byte in the code.
#[cycle(node)]
#[derive(Debug, Drop)]
pub struct PlacedNode {
    /// Where it begins, in bytes from the code's first.
    pub place: usize,
    /// What stands there.
    pub node: Node,
}

/// An element of a field list, and where it stands.
#[derive(Debug, Drop)]
pub struct PlacedField {
    /// Where it begins, in bytes from the code's first.
    pub place: usize,
    /// The number of bits before it in the list, at most 2^64 - 1.
    pub offset: u64,
    /// The element, as the field list has it.
    pub element: FieldElem,
}

/// Where the rest of a list is lost, and why.
#[derive(Clone, Copy, Debug)]
pub struct Lost {
    /// Where it begins, in bytes from the code's first.
    pub place: usize,
    /// What can't be read there.
    pub fault: LostFault,
}

/// The nodes of a list, which tile its bytes.
#[cycle(node)]
#[derive(Debug, Drop)]
pub struct Nodes {
    /// The nodes that were read, in order.
    pub read: Vec<PlacedNode>,
    /// What is lost behind them.
    pub lost: Option<Lost>,
}
