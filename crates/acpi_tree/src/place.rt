//! What may stand where in a method body.

use crate::tree::Width;

/// A place at which a term stands: in a method body, or the source of a Create field at module level
/// (ACPI 6.5, 20.2.5).
#[derive(Clone, Copy, Debug, PartialEq, Eq)]
pub enum Place {
    /// TermArg
    Value,
    /// SuperName
    SuperName,
    /// SimpleName
    SimpleName,
    /// PackageElement
    Element,
    /// DataRefObject, the data of a Name.
    Data,
    /// TermObj
    Statement,
    /// SourceBuff of a Create field at module level (20.2.5.2): a name, which is never a call, or a value but a call.
    Source,
}

/// What one operand of an operator is.
#[derive(Clone, Copy, Debug, PartialEq, Eq)]
pub enum OperandKind {
    /// A term, as one stands at that place.
    At(Place),
    /// Target: a super name, or the byte 00 for none.
    Target,
    /// ByteData
    Byte,
    /// WordData
    Word,
    /// DWordData
    DWord,
}

/// A declaration of one name in a method body, by its form (ACPI 6.5, 20.2.5.1 and 20.2.5.2).
#[derive(Clone, Copy, Debug, PartialEq, Eq)]
pub enum NamedForm {
    /// DefName
    Name,
    /// DefCreateDWordField and the like.
    Create(Width),
    /// DefCreateField
    CreateField,
    /// DefOpRegion
    Region,
    /// DefMutex
    Mutex,
    /// DefEvent
    Event,
}

/// A declaration of field units in a method body, by its form (ACPI 6.5, 20.2.5.2).
#[derive(Clone, Copy, Debug, PartialEq, Eq)]
pub enum UnitsForm {
    /// DefField
    Field,
    /// DefIndexField
    IndexField,
    /// DefBankField
    BankField,
}
