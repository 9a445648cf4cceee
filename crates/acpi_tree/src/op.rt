//! The operators.

ghost use Rattle.std.specs.Prelude.{◌≡◌};
ghost use Rattle.acpi_tree.specs.Operators.{row_of, operands_of, is_expression, is_reference, is_load};

use crate::place::{OperandKind, Place};
use OpClass::{Expression, Reference, Statement, TableLoad};

/// An operator (ACPI 6.5, 20.2.5.3 and 20.2.5.4), by its name there without `Def` or `Op`. Unload is that of ACPI 6.4
/// and earlier. Method bodies have no LoadTable, Load or Unload.
#[derive(Clone, Copy, Debug, PartialEq, Eq)]
pub enum Op {
    /// Puts a value into an object.
    Store,
    /// A reference to an object.
    RefOf,
    /// The sum of two integers.
    Add,
    /// Two integers, strings or buffers, one behind the other.
    Concat,
    /// The first integer less the second.
    Subtract,
    /// Adds one to an integer object.
    Increment,
    /// Takes one from an integer object.
    Decrement,
    /// The product of two integers.
    Multiply,
    /// The first integer by the second: its targets get the remainder and then the quotient.
    Divide,
    /// The first integer, shifted left by as many bits as the second says.
    ShiftLeft,
    /// The first integer, shifted right by as many bits as the second says.
    ShiftRight,
    /// The bits that both integers have.
    And,
    /// The bits that not both integers have.
    NAnd,
    /// The bits that one or both integers have.
    Or,
    /// The bits that neither integer has.
    NOr,
    /// The bits that exactly one of two integers has.
    XOr,
    /// The bits that an integer has not.
    Not,
    /// The number of the highest bit that is set, from 1; 0 where none is.
    FindSetLeftBit,
    /// The number of the lowest bit that is set, from 1; 0 where none is.
    FindSetRightBit,
    /// The object that a reference, or a string with its name, refers to.
    DerefOf,
    /// Two resource templates, one behind the other, with one end tag.
    ConcatRes,
    /// The remainder of the first integer by the second.
    Mod,
    /// Tells the system of a device, processor or thermal zone, with an integer that says what of it.
    Notify,
    /// The size of an object: bytes of a buffer or a string, elements of a package.
    SizeOf,
    /// A reference to an element of a package, or a byte of a buffer or a string, by its number from 0.
    Index,
    /// The number of the first element of a package, from an index on, of which two comparisons hold.
    Match,
    /// The number of the type that an object has.
    ObjectType,
    /// Whether both integers are nonzero.
    LAnd,
    /// Whether one or both integers are nonzero.
    LOr,
    /// Whether an integer is zero.
    LNot,
    /// Whether two values are equal.
    LEqual,
    /// Whether the first value is greater than the second.
    LGreater,
    /// Whether the first value is less than the second.
    LLess,
    /// A value as a buffer.
    ToBuffer,
    /// A value as a string of decimal numbers.
    ToDecimalString,
    /// A value as a string of hexadecimal numbers.
    ToHexString,
    /// A value as an integer.
    ToInteger,
    /// The bytes of a buffer as a string, of at most a given length.
    ToString,
    /// Puts a copy of an object into a name, whose type becomes that of the object.
    CopyObject,
    /// A part of a buffer or a string, from a byte on, of at most a given length.
    Mid,
    /// Goes on with the next round of the innermost While.
    Continue,
    /// Does nothing.
    Noop,
    /// Ends the method and gives its value.
    Return,
    /// Ends the innermost While.
    Break,
    /// Stops in a debugger, if there is one.
    BreakPoint,
    /// Whether an object exists; if so, the target gets a reference to it.
    CondRefOf,
    /// Waits as many microseconds, and keeps the processor.
    Stall,
    /// Waits as many milliseconds, and gives the processor away.
    Sleep,
    /// Takes a mutex, for which it waits as many milliseconds at most; whether it timed out.
    Acquire,
    /// Signals an event.
    Signal,
    /// Waits for an event, as many milliseconds at most; whether it timed out.
    Wait,
    /// Takes back all signals of an event.
    Reset,
    /// Releases a mutex.
    Release,
    /// The integer that binary coded decimal digits spell.
    FromBCD,
    /// An integer as binary coded decimal digits.
    ToBCD,
    /// Tells the system of an error after which it shuts down: its type, its code and an argument.
    Fatal,
    /// The time since an arbitrary moment, in units of 100 nanoseconds.
    Timer,
    /// Loads a table that the system has, by its signature, OEM ID and OEM table ID.
    LoadTable,
    /// Loads a definition block out of an object; whether it was loaded.
    Load,
    /// Unloads what a Load has loaded.
    Unload,
}

/// What an operator is for (ACPI 6.5, 20.2.5.3 and 20.2.5.4).
#[derive(Clone, Copy, Debug, PartialEq, Eq)]
pub enum OpClass {
    /// A statement alone: it has no value (StatementOpcode).
    Statement,
    /// It has a value, so that it may stand where a value does (ExpressionOpcode).
    Expression,
    /// An expression that tells of a place, so that it may stand where a super name does (ReferenceTypeOpcode).
    Reference,
    /// An expression that loads or unloads a table. Method bodies have none.
    TableLoad,
}

/// What the standard says of an operator.
#[derive(Clone, Copy, Debug)]
pub struct OpRow {
    /// The bytes of its opcode (ACPI 6.5, 20.3).
    pub opcode: &'static [u8],
    /// Its name, without `Def` or `Op`.
    pub word: &'static str,
    /// What its operands are, in order.
    pub operands: &'static [OperandKind],
    /// What it is for.
    pub class: OpClass,
}

const VALUE: OperandKind = OperandKind::At(Place::Value);

const SUPER_NAME: OperandKind = OperandKind::At(Place::SuperName);

const SIMPLE_NAME: OperandKind = OperandKind::At(Place::SimpleName);

const TARGET: OperandKind = OperandKind::Target;

const BYTE: OperandKind = OperandKind::Byte;

const WORD: OperandKind = OperandKind::Word;

const DWORD: OperandKind = OperandKind::DWord;

#[inline(always)]
fn row(
    opcode: &'static [u8],
    word: &'static str,
    operands: &'static [OperandKind],
    class: OpClass,
) -> OpRow
    ensures opcode { result.opcode.now ≡ opcode.now }
    ensures word { result.word.now ≡ word.now }
    ensures operands { result.operands.now ≡ operands.now }
    ensures class { result.class ≡ class }
{
    OpRow {
        opcode,
        word,
        operands,
        class,
    }
}

impl Op {
    /// What the standard says of it (ACPI 6.5, 20.2.5.3, 20.2.5.4 and 20.3).
    #[inline(always)]
    pub fn row(self) -> OpRow
        ensures opcode { result.opcode.now ≡ (row_of self).opcode }
        ensures word { result.word.now ≡ (row_of self).word }
        ensures operands { result.operands.now ≡ (row_of self).operands }
        ensures class { result.class ≡ (row_of self).class }
    {
        match self {
            Op::Store => row(&[0x70], "Store", &[VALUE, SUPER_NAME], Expression),
            Op::RefOf => row(&[0x71], "RefOf", &[SUPER_NAME], Reference),
            Op::Add => row(&[0x72], "Add", &[VALUE, VALUE, TARGET], Expression),
            Op::Concat => row(&[0x73], "Concat", &[VALUE, VALUE, TARGET], Expression),
            Op::Subtract => row(&[0x74], "Subtract", &[VALUE, VALUE, TARGET], Expression),
            Op::Increment => row(&[0x75], "Increment", &[SUPER_NAME], Expression),
            Op::Decrement => row(&[0x76], "Decrement", &[SUPER_NAME], Expression),
            Op::Multiply => row(&[0x77], "Multiply", &[VALUE, VALUE, TARGET], Expression),
            Op::Divide => row(
                &[0x78],
                "Divide",
                &[VALUE, VALUE, TARGET, TARGET],
                Expression,
            ),
            Op::ShiftLeft => row(&[0x79], "ShiftLeft", &[VALUE, VALUE, TARGET], Expression),
            Op::ShiftRight => row(&[0x7A], "ShiftRight", &[VALUE, VALUE, TARGET], Expression),
            Op::And => row(&[0x7B], "And", &[VALUE, VALUE, TARGET], Expression),
            Op::NAnd => row(&[0x7C], "NAnd", &[VALUE, VALUE, TARGET], Expression),
            Op::Or => row(&[0x7D], "Or", &[VALUE, VALUE, TARGET], Expression),
            Op::NOr => row(&[0x7E], "NOr", &[VALUE, VALUE, TARGET], Expression),
            Op::XOr => row(&[0x7F], "XOr", &[VALUE, VALUE, TARGET], Expression),
            Op::Not => row(&[0x80], "Not", &[VALUE, TARGET], Expression),
            Op::FindSetLeftBit => row(&[0x81], "FindSetLeftBit", &[VALUE, TARGET], Expression),
            Op::FindSetRightBit => row(&[0x82], "FindSetRightBit", &[VALUE, TARGET], Expression),
            Op::DerefOf => row(&[0x83], "DerefOf", &[VALUE], Reference),
            Op::ConcatRes => row(&[0x84], "ConcatRes", &[VALUE, VALUE, TARGET], Expression),
            Op::Mod => row(&[0x85], "Mod", &[VALUE, VALUE, TARGET], Expression),
            Op::Notify => row(&[0x86], "Notify", &[SUPER_NAME, VALUE], Statement),
            Op::SizeOf => row(&[0x87], "SizeOf", &[SUPER_NAME], Expression),
            Op::Index => row(&[0x88], "Index", &[VALUE, VALUE, TARGET], Reference),
            Op::Match => row(
                &[0x89],
                "Match",
                &[VALUE, BYTE, VALUE, BYTE, VALUE, VALUE],
                Expression,
            ),
            Op::ObjectType => row(&[0x8E], "ObjectType", &[SUPER_NAME], Expression),
            Op::LAnd => row(&[0x90], "LAnd", &[VALUE, VALUE], Expression),
            Op::LOr => row(&[0x91], "LOr", &[VALUE, VALUE], Expression),
            Op::LNot => row(&[0x92], "LNot", &[VALUE], Expression),
            Op::LEqual => row(&[0x93], "LEqual", &[VALUE, VALUE], Expression),
            Op::LGreater => row(&[0x94], "LGreater", &[VALUE, VALUE], Expression),
            Op::LLess => row(&[0x95], "LLess", &[VALUE, VALUE], Expression),
            Op::ToBuffer => row(&[0x96], "ToBuffer", &[VALUE, TARGET], Expression),
            Op::ToDecimalString => row(&[0x97], "ToDecimalString", &[VALUE, TARGET], Expression),
            Op::ToHexString => row(&[0x98], "ToHexString", &[VALUE, TARGET], Expression),
            Op::ToInteger => row(&[0x99], "ToInteger", &[VALUE, TARGET], Expression),
            Op::ToString => row(&[0x9C], "ToString", &[VALUE, VALUE, TARGET], Expression),
            Op::CopyObject => row(&[0x9D], "CopyObject", &[VALUE, SIMPLE_NAME], Expression),
            Op::Mid => row(&[0x9E], "Mid", &[VALUE, VALUE, VALUE, TARGET], Expression),
            Op::Continue => row(&[0x9F], "Continue", &[], Statement),
            Op::Noop => row(&[0xA3], "Noop", &[], Statement),
            Op::Return => row(&[0xA4], "Return", &[VALUE], Statement),
            Op::Break => row(&[0xA5], "Break", &[], Statement),
            Op::BreakPoint => row(&[0xCC], "BreakPoint", &[], Statement),
            Op::CondRefOf => row(
                &[0x5B, 0x12],
                "CondRefOf",
                &[SUPER_NAME, TARGET],
                Expression,
            ),
            Op::Stall => row(&[0x5B, 0x21], "Stall", &[VALUE], Statement),
            Op::Sleep => row(&[0x5B, 0x22], "Sleep", &[VALUE], Statement),
            Op::Acquire => row(&[0x5B, 0x23], "Acquire", &[SUPER_NAME, WORD], Expression),
            Op::Signal => row(&[0x5B, 0x24], "Signal", &[SUPER_NAME], Statement),
            Op::Wait => row(&[0x5B, 0x25], "Wait", &[SUPER_NAME, VALUE], Expression),
            Op::Reset => row(&[0x5B, 0x26], "Reset", &[SUPER_NAME], Statement),
            Op::Release => row(&[0x5B, 0x27], "Release", &[SUPER_NAME], Statement),
            Op::FromBCD => row(&[0x5B, 0x28], "FromBCD", &[VALUE, TARGET], Expression),
            Op::ToBCD => row(&[0x5B, 0x29], "ToBCD", &[VALUE, TARGET], Expression),
            Op::Fatal => row(&[0x5B, 0x32], "Fatal", &[BYTE, DWORD, VALUE], Statement),
            Op::Timer => row(&[0x5B, 0x33], "Timer", &[], Expression),
            Op::LoadTable => row(
                &[0x5B, 0x1F],
                "LoadTable",
                &[VALUE, VALUE, VALUE, VALUE, VALUE, VALUE],
                TableLoad,
            ),
            Op::Load => row(&[0x5B, 0x20], "Load", &[SIMPLE_NAME, TARGET], TableLoad),
            Op::Unload => row(&[0x5B, 0x2A], "Unload", &[SUPER_NAME], TableLoad),
        }
    }

    /// What its operands are, in order (ACPI 6.5, 20.2.5.3 and 20.2.5.4).
    #[inline]
    pub fn operands(self) -> &'static [OperandKind]
        ensures { result.now ≡ operands_of self }
    {
        self.row().operands
    }

    /// Whether it has a value, so that it may stand where a value does. The others are statements alone.
    #[inline]
    pub fn is_expression(self) -> bool
        ensures { result ≡ is_expression self }
    {
        self.row().class != Statement
    }

    /// Whether it tells of a place, so that it may stand where a super name does: RefOf, DerefOf and Index.
    #[inline]
    pub fn is_reference(self) -> bool
        ensures { result ≡ is_reference self }
    {
        self.row().class == Reference
    }

    /// Whether it loads or unloads a table: LoadTable, Load and Unload.
    #[inline]
    pub fn is_load(self) -> bool
        ensures { result ≡ is_load self }
    {
        self.row().class == TableLoad
    }
}
