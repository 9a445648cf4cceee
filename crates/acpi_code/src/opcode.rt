//! What begins with which bytes.

ghost use Rattle.std.specs.Prelude.{◌≡◌};
ghost use Rattle.acpi_code.specs.Opcodes.{is_name_opcode, is_name_start};
ghost use Rattle.acpi_code.specs.steps.Opcodes.{plain_opcode_of, extended_opcode_of};
ghost use Rattle.acpi_code.specs.steps.Reading.{opcode_at};
ghost use Rattle.acpi_code.specs.steps.Cursor.{Finds};

use crate::code::Code;
use crate::fault::CodeFault;
use acpi_name::is_lead_char;
use acpi_tree::{Op, Width};

/// How a constant integer is written (ACPI 6.5, 20.2.3 ComputationalData).
#[derive(Clone, Copy, Debug, PartialEq, Eq)]
pub enum ConstantForm {
    /// ZeroOp, 00.
    Zero,
    /// OneOp, 01.
    One,
    /// OnesOp, FF.
    Ones,
    /// RevisionOp, 5B 30.
    Revision,
    /// BytePrefix, 0A, behind which one byte stands.
    Byte,
    /// WordPrefix, 0B, behind which two bytes stand.
    Word,
    /// DWordPrefix, 0C, behind which four bytes stand.
    DWord,
    /// QWordPrefix, 0E, behind which eight bytes stand.
    QWord,
}

/// What begins with an opcode (ACPI 6.5, 20.3).
#[derive(Clone, Copy, Debug, PartialEq, Eq)]
pub enum Opcode {
    /// A constant integer.
    Constant(ConstantForm),
    /// StringPrefix, 0D.
    Str,
    /// BufferOp, 11.
    Buffer,
    /// PackageOp, 12.
    Package,
    /// VarPackageOp, 13.
    VarPackage,
    /// A NameString whose first byte is not 00.
    Name,
    /// Local0Op to Local7Op, 60 to 67: the number of the local.
    Local(u8),
    /// Arg0Op to Arg6Op, 68 to 6E: the number of the argument.
    Arg(u8),
    /// DebugOp, 5B 31.
    Debug,
    /// An operator (20.2.5.3, 20.2.5.4), or Unload of older editions.
    Operator(Op),
    /// IfOp, A0.
    If,
    /// ElseOp, A1.
    Else,
    /// WhileOp, A2.
    While,
    /// NameOp, 08.
    DeclareName,
    /// ScopeOp, 10.
    Scope,
    /// MethodOp, 14.
    Method,
    /// ExternalOp, 15.
    External,
    /// CreateDWordFieldOp and the like, 8A to 8D and 8F: the width of the field.
    Create(Width),
    /// CreateFieldOp, 5B 13.
    CreateField,
    /// MutexOp, 5B 01.
    Mutex,
    /// EventOp, 5B 02.
    Event,
    /// OpRegionOp, 5B 80.
    Region,
    /// FieldOp, 5B 81.
    Field,
    /// DeviceOp, 5B 82.
    Device,
    /// ProcessorOp, 5B 83, as ACPI 6.3 and earlier have it.
    Processor,
    /// PowerResOp, 5B 84.
    Power,
    /// ThermalZoneOp, 5B 85.
    Thermal,
    /// IndexFieldOp, 5B 86.
    IndexField,
    /// BankFieldOp, 5B 87.
    BankField,
    /// AliasOp, 06.
    Alias,
    /// DataRegionOp, 5B 88.
    DataRegion,
    /// No opcode that is read here.
    Nothing,
}

/// Whether a name in the place of a term begins with the byte: '\\', '^', '.', '/', a capital letter or '_'
/// (ACPI 6.5, 20.2.2).
pub fn name_start(b: u8) -> bool
    ensures { result ≡ is_name_start b }
{
    b == b'\\' || b == b'^' || b == b'.' || b == b'/' || is_lead_char(b)
}

fn plain_opcode(b: u8) -> Opcode
    ensures { result ≡ plain_opcode_of b }
{
    if name_start(b) {
        return Opcode::Name;
    }
    if b > 0x5F && b < 0x68 {
        return Opcode::Local(b - 0x60);
    }
    if b > 0x67 && b < 0x6F {
        return Opcode::Arg(b - 0x68);
    }
    match b {
        0x00 => Opcode::Constant(ConstantForm::Zero),
        0x01 => Opcode::Constant(ConstantForm::One),
        0xFF => Opcode::Constant(ConstantForm::Ones),
        0x0A => Opcode::Constant(ConstantForm::Byte),
        0x0B => Opcode::Constant(ConstantForm::Word),
        0x0C => Opcode::Constant(ConstantForm::DWord),
        0x0E => Opcode::Constant(ConstantForm::QWord),
        0x0D => Opcode::Str,
        0x11 => Opcode::Buffer,
        0x12 => Opcode::Package,
        0x13 => Opcode::VarPackage,
        0x08 => Opcode::DeclareName,
        0x10 => Opcode::Scope,
        0x14 => Opcode::Method,
        0x15 => Opcode::External,
        0x8A => Opcode::Create(Width::DWord),
        0x8B => Opcode::Create(Width::Word),
        0x8C => Opcode::Create(Width::Byte),
        0x8D => Opcode::Create(Width::Bit),
        0x8F => Opcode::Create(Width::QWord),
        0xA0 => Opcode::If,
        0xA1 => Opcode::Else,
        0xA2 => Opcode::While,
        0x06 => Opcode::Alias,
        0x70 => Opcode::Operator(Op::Store),
        0x71 => Opcode::Operator(Op::RefOf),
        0x72 => Opcode::Operator(Op::Add),
        0x73 => Opcode::Operator(Op::Concat),
        0x74 => Opcode::Operator(Op::Subtract),
        0x75 => Opcode::Operator(Op::Increment),
        0x76 => Opcode::Operator(Op::Decrement),
        0x77 => Opcode::Operator(Op::Multiply),
        0x78 => Opcode::Operator(Op::Divide),
        0x79 => Opcode::Operator(Op::ShiftLeft),
        0x7A => Opcode::Operator(Op::ShiftRight),
        0x7B => Opcode::Operator(Op::And),
        0x7C => Opcode::Operator(Op::NAnd),
        0x7D => Opcode::Operator(Op::Or),
        0x7E => Opcode::Operator(Op::NOr),
        0x7F => Opcode::Operator(Op::XOr),
        0x80 => Opcode::Operator(Op::Not),
        0x81 => Opcode::Operator(Op::FindSetLeftBit),
        0x82 => Opcode::Operator(Op::FindSetRightBit),
        0x83 => Opcode::Operator(Op::DerefOf),
        0x84 => Opcode::Operator(Op::ConcatRes),
        0x85 => Opcode::Operator(Op::Mod),
        0x86 => Opcode::Operator(Op::Notify),
        0x87 => Opcode::Operator(Op::SizeOf),
        0x88 => Opcode::Operator(Op::Index),
        0x89 => Opcode::Operator(Op::Match),
        0x8E => Opcode::Operator(Op::ObjectType),
        0x90 => Opcode::Operator(Op::LAnd),
        0x91 => Opcode::Operator(Op::LOr),
        0x92 => Opcode::Operator(Op::LNot),
        0x93 => Opcode::Operator(Op::LEqual),
        0x94 => Opcode::Operator(Op::LGreater),
        0x95 => Opcode::Operator(Op::LLess),
        0x96 => Opcode::Operator(Op::ToBuffer),
        0x97 => Opcode::Operator(Op::ToDecimalString),
        0x98 => Opcode::Operator(Op::ToHexString),
        0x99 => Opcode::Operator(Op::ToInteger),
        0x9C => Opcode::Operator(Op::ToString),
        0x9D => Opcode::Operator(Op::CopyObject),
        0x9E => Opcode::Operator(Op::Mid),
        0x9F => Opcode::Operator(Op::Continue),
        0xA3 => Opcode::Operator(Op::Noop),
        0xA4 => Opcode::Operator(Op::Return),
        0xA5 => Opcode::Operator(Op::Break),
        0xCC => Opcode::Operator(Op::BreakPoint),
        _ => Opcode::Nothing,
    }
}

// What begins with 5B and the byte.
fn extended_opcode(b: u8) -> Opcode
    ensures { result ≡ extended_opcode_of b }
{
    match b {
        0x30 => Opcode::Constant(ConstantForm::Revision),
        0x31 => Opcode::Debug,
        0x01 => Opcode::Mutex,
        0x02 => Opcode::Event,
        0x13 => Opcode::CreateField,
        0x80 => Opcode::Region,
        0x81 => Opcode::Field,
        0x82 => Opcode::Device,
        0x83 => Opcode::Processor,
        0x84 => Opcode::Power,
        0x85 => Opcode::Thermal,
        0x86 => Opcode::IndexField,
        0x87 => Opcode::BankField,
        0x88 => Opcode::DataRegion,
        0x1F => Opcode::Operator(Op::LoadTable),
        0x20 => Opcode::Operator(Op::Load),
        0x2A => Opcode::Operator(Op::Unload),
        0x12 => Opcode::Operator(Op::CondRefOf),
        0x21 => Opcode::Operator(Op::Stall),
        0x22 => Opcode::Operator(Op::Sleep),
        0x23 => Opcode::Operator(Op::Acquire),
        0x24 => Opcode::Operator(Op::Signal),
        0x25 => Opcode::Operator(Op::Wait),
        0x26 => Opcode::Operator(Op::Reset),
        0x27 => Opcode::Operator(Op::Release),
        0x28 => Opcode::Operator(Op::FromBCD),
        0x29 => Opcode::Operator(Op::ToBCD),
        0x32 => Opcode::Operator(Op::Fatal),
        0x33 => Opcode::Operator(Op::Timer),
        _ => Opcode::Nothing,
    }
}

/// Whether it is a name.
pub fn is_name(opcode: Opcode) -> bool
    ensures { result ≡ is_name_opcode opcode }
{
    match opcode {
        Opcode::Name => true,
        _ => false,
    }
}

impl Code<'_> {
    /// What begins there; what is behind its one or two bytes is left (ACPI 6.5, 20.3). Of a name the first byte is
    /// taken alone. `Nothing` where no opcode is known; `Cut` where nothing is left, or a 5B alone.
    #[tactic(auto, unfolding(crate::specs::steps::Reading::opcode_at))]
    pub fn opcode(&mut self) -> Result<Opcode, CodeFault>
        ensures { Finds (λ o. o) opcode_at self.old self.new result }
    {
        let first = self.byte()?;
        if first != 0x5B {
            return Ok(plain_opcode(first));
        }
        Ok(extended_opcode(self.byte()?))
    }
}
