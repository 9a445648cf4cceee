//! Operands that are a Local or an Arg, as most are. A reader of terms hands on as much room as the largest term
//! takes; these are put among the operands at once.

ghost use Rattle.std.specs.Prelude.{◌≡◌, ◌++◌, ◌∷◌, [], true, false, drop, IfOk, OnOk};
ghost use Rattle.acpi_tree.specs.TermView.{operands_view};
ghost use Rattle.acpi_values.specs.steps.Registers.{holds_register, takes_register, is_register, register_at, begins_register, front_register};

use acpi_code::Code;
use acpi_tree::{Operand, OperandKind, Place, Term};
use std::alloc::AllocError;

fn holds_register(place: Place) -> bool
    ensures { result ≡ holds_register place }
{
    match place {
        Place::Value => true,
        Place::SuperName => true,
        Place::SimpleName => true,
        Place::Source => true,
        _ => false,
    }
}

fn takes_register(kind: OperandKind) -> bool
    ensures { result ≡ takes_register kind }
{
    match kind {
        OperandKind::At(place) => holds_register(place),
        OperandKind::Target => true,
        _ => false,
    }
}

// Local0Op to Local7Op and Arg0Op to Arg6Op, which follow one another.
fn is_register(byte: u8) -> bool
    ensures { result ≡ is_register byte }
{
    0x5F < byte && byte < 0x6F
}

fn put_register(found: &mut Vec<Operand>, byte: u8) -> Result<(), AllocError>
    requires { is_register byte ≡ true }
    ensures { OnOk result (operands_view found.new.items ≡ operands_view found.old.items
        ++ register_at byte ∷ []) }
{
    if byte < 0x68 {
        found.push(Operand::Term(Term::Local(byte - 0x60)))?;
    } else {
        found.push(Operand::Term(Term::Arg(byte - 0x68)))?;
    }
    Ok(())
}

/// Puts the Local or Arg behind the operands that begins there, if one does, may stand there and has a level left.
/// Else nothing changes.
pub(crate) fn add_register(
    level: u32,
    kind: OperandKind,
    code: &mut Code<'_>,
    found: &mut Vec<Operand>,
) -> Result<bool, AllocError>
    ensures told { IfOk result (λ done. done ≡ begins_register level kind code.old.bytes) }
    ensures behind { IfOk result (λ done. done ≡ true → (code.new.bytes ≡ drop 1 code.old.bytes)
        × (code.new.end ≡ code.old.end)) }
    ensures put { IfOk result (λ done. done ≡ true → operands_view found.new.items
        ≡ operands_view found.old.items ++ front_register code.old.bytes ∷ []) }
    ensures kept { IfOk result (λ done. done ≡ false → (code.new ≡ code.old)
        × (found.new.items ≡ found.old.items)) }
{
    match code.left() {
        [byte, ..] if 0 < level && takes_register(kind) && is_register(*byte) => {
            code.skip(1);
            put_register(found, *byte)?;
            Ok(true)
        }
        _ => Ok(false),
    }
}
