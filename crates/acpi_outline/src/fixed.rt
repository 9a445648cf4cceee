//! Reading the fixed arguments of packages.

ghost use Rattle.std.specs.Prelude.{◌≡◌, IfOk, box_value};
ghost use Rattle.acpi_tree.specs.TermView.{term_view};
ghost use Rattle.acpi_outline.specs.Nodes.{has_fields};
ghost use Rattle.acpi_outline.specs.View.{fixed_view};
ghost use Rattle.acpi_outline.specs.Rules.{goes_into};
ghost use Rattle.acpi_outline.specs.steps.Reading.{test_in, container_in, units_in, fixed_in};
ghost use Rattle.acpi_outline.specs.steps.Cursor.{Reads, ReadsOn};

use crate::fault::LostError;
use crate::form::{ContainerForm, PackedForm};
use crate::known::Known;
use crate::node::Fixed;
use crate::plain::{owned_name, value};
use acpi_code::Code;
use acpi_tree::{Int, Term, UnitsForm};
use std::alloc::{AllocError, Global};

// The predicate of an If or While; the byte 00 has no level.
#[inline(never)]
fn test<K: Known>(known: &K, level: u32, code: &mut Code<'_>) -> Result<Box<Term>, LostError>
    ensures { Reads (λ b. term_view (box_value b)) (test_in K.rules level known.now)
        code.old code.new result }
{
    if code.left().first() == Some(&0x00) {
        code.skip(1);
        return Ok(Box::new(known.alloc(), Term::Int(Int::Zero))?);
    }
    value(known, level, code)
}

// The name and the numbers of a package with a scope of its own.
#[inline(never)]
#[tactic(auto, using(crate::proofs::Parts::part_fails), unfolding(crate::specs::steps::Reading::container_in, acpi_values::specs::steps::Reading::operands_at, acpi_values::specs::steps::Reading::operand_at))]
fn container<K: Known>(
    known: &K,
    level: u32,
    form: ContainerForm,
    code: &mut Code<'_>,
) -> Result<Fixed, LostError>
    ensures { Reads fixed_view (container_in K.rules level known.now form)
        code.old code.new result }
{
    let name = owned_name(known.alloc(), code)?;
    match form {
        ContainerForm::Device => Ok(Fixed::Device(name)),
        ContainerForm::Processor => {
            let id = code.byte()?;
            let block = code.dword()?;
            let length = code.byte()?;
            Ok(Fixed::Processor(name, id, block, length))
        }
        ContainerForm::Power => {
            let system_level = code.byte()?;
            let order = code.word()?;
            Ok(Fixed::Power(name, system_level, order))
        }
        ContainerForm::Thermal => Ok(Fixed::Thermal(name)),
    }
}

// The names and operands of a declaration of field units.
#[inline(never)]
#[tactic(auto, using(crate::proofs::Parts::part_fails), unfolding(crate::specs::steps::Reading::units_in, crate::specs::steps::Reading::names_in, acpi_values::specs::steps::Reading::operands_at, acpi_values::specs::steps::Reading::operand_at))]
fn units<K: Known>(
    known: &K,
    level: u32,
    form: UnitsForm,
    code: &mut Code<'_>,
) -> Result<Fixed, LostError>
    ensures { Reads fixed_view (units_in K.rules level known.now form)
        code.old code.new result }
{
    let first = owned_name(known.alloc(), code)?;
    match form {
        UnitsForm::Field => Ok(Fixed::Field(first, code.byte()?)),
        UnitsForm::IndexField => {
            let data = owned_name(known.alloc(), code)?;
            Ok(Fixed::IndexField(first, data, code.byte()?))
        }
        UnitsForm::BankField => {
            let bank = owned_name(known.alloc(), code)?;
            let value = value(known, level, code)?;
            Ok(Fixed::BankField(first, bank, value, code.byte()?))
        }
    }
}

/// The fixed arguments of a package of that form; `level` levels are left inside it.
#[inline(never)]
#[tactic(auto, using(crate::proofs::Parts::part_fails), unfolding(crate::specs::steps::Reading::fixed_in))]
pub(crate) fn fixed<K: Known>(
    known: &K,
    level: u32,
    form: PackedForm,
    code: &mut Code<'_>,
) -> Result<Fixed, LostError>
    ensures { ReadsOn fixed_view (fixed_in K.rules level known.now form)
        code.old code.new result }
{
    match form {
        PackedForm::Scope => Ok(Fixed::Scope(code.name()?.own(known.alloc())?)),
        PackedForm::Container(form) => container(known, level, form, code),
        PackedForm::Method => {
            let name = code.name()?;
            let flags = code.byte()?;
            Ok(Fixed::Method(name.own(known.alloc())?, flags))
        }
        PackedForm::If => Ok(Fixed::If(test(known, level, code)?)),
        PackedForm::Else => Ok(Fixed::Else),
        PackedForm::While => Ok(Fixed::While(test(known, level, code)?)),
        PackedForm::Units(form) => units(known, level, form, code),
    }
}

/// Whether a field list stands behind them.
pub(crate) fn holds_fields(fixed: &Fixed) -> bool
    ensures { result ≡ has_fields (fixed_view fixed.now) }
{
    match fixed {
        Fixed::Field(_, _) => true,
        Fixed::IndexField(_, _, _) => true,
        Fixed::BankField(_, _, _, _) => true,
        _ => false,
    }
}

/// Whether one goes into the package; the code of a method is never gone into.
pub(crate) fn goes_in<K: Known>(known: &K, fixed: &Fixed) -> Result<bool, AllocError>
    ensures { IfOk result (λ b. b ≡ goes_into K.rules known.now (fixed_view fixed.now)) }
{
    match fixed {
        Fixed::Method(_, _) => Ok(false),
        Fixed::Field(_, _) => Ok(false),
        Fixed::IndexField(_, _, _) => Ok(false),
        Fixed::BankField(_, _, _, _) => Ok(false),
        _ => known.opens(fixed),
    }
}
