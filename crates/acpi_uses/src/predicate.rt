//! The names that a predicate shows to be declared.

ghost use Rattle.std.specs.Prelude.{◌≡◌, ◌++◌, IfOk, OnOk};
ghost use Rattle.acpi_tree.specs.Terms.{terms_of};
ghost use Rattle.acpi_tree.specs.TermView.{term_view, operand_view, operands_view};
ghost use Rattle.acpi_uses.specs.ShownNames as defined;
ghost use Rattle.acpi_uses.specs.ShownNames.{cond_ref_names, has_zero, is_false, names_shown_inside, operand_value};
ghost use Rattle.acpi_uses.specs.Truth as truth;
ghost use Rattle.acpi_uses.specs.UseViews.{names_view};

use crate::constant::truth_of;
use acpi_name::Name;
use acpi_tree::{Op, Operand, Term};
use std::alloc::{AllocError, Global};

fn is_zero(operand: &Operand) -> bool
    ensures { result ≡ is_false (truth.truth_of (operand_view operand.now)) }
{
    match operand {
        Operand::Term(term) => truth_of(term) == Some(false),
        _ => false,
    }
}

fn has_zero(operands: &[Operand]) -> bool
    ensures { result ≡ has_zero (terms_of (operands_view operands.now)) }
{
    'each: for operand in operands {
        if is_zero(operand) {
            return true;
        }
    }
    false
}

// The value that the operands have, but for a constant, where the operator has the value, if that tells it.
fn operand_value(op: Op, value: bool, operands: &[Operand]) -> Option<bool>
    ensures { result ≡ operand_value op value (terms_of (operands_view operands.now)) }
{
    match (op, value) {
        (Op::LAnd, true) => Some(true),
        (Op::LOr, false) => Some(false),
        (Op::LNot, _) => Some(!value),
        (Op::LEqual, _) => {
            if has_zero(operands) {
                return Some(!value);
            }
            None
        }
        _ => None,
    }
}

// Puts the name that CondRefOf asks for behind others, where it is true.
fn add_cond_ref<'a>(
    names: &mut Vec<&'a Name>,
    op: Op,
    value: bool,
    operands: &'a [Operand],
) -> Result<(), AllocError>
    ensures { OnOk result (names_view names.new.items ≡ names_view names.old.items
        ++ cond_ref_names op value (terms_of (operands_view operands.now))) }
{
    if let (Op::CondRefOf, true, Some(Operand::Term(Term::Ref(name)))) = (
        op,
        value,
        operands.first(),
    ) {
        names.push(name)?;
    }
    Ok(())
}

#[cycle(shown_names)]
fn add_inside<'a>(
    names: &mut Vec<&'a Name>,
    value: Option<bool>,
    operands: &'a [Operand],
) -> Result<(), AllocError>
    ensures { OnOk result (names_view names.new.items ≡ names_view names.old.items
        ++ names_shown_inside value (terms_of (operands_view operands.now))) }
{
    let Some(value) = value else {
        return Ok(());
    };
    'each: for operand in operands {
        add_operand(names, value, operand)?;
    }
    Ok(())
}

#[cycle(shown_names)]
fn add_operand<'a>(
    names: &mut Vec<&'a Name>,
    value: bool,
    operand: &'a Operand,
) -> Result<(), AllocError>
    ensures { OnOk result (names_view names.new.items
        ≡ names_view names.old.items ++ defined.shown_names value (operand_view operand.now)) }
{
    match operand {
        Operand::Term(term) => add(names, value, term),
        _ => Ok(()),
    }
}

// Puts the names that a predicate shows where it has the value behind others.
#[cycle(shown_names)]
fn add<'a>(names: &mut Vec<&'a Name>, value: bool, predicate: &'a Term) -> Result<(), AllocError>
    ensures { OnOk result (names_view names.new.items
        ≡ names_view names.old.items ++ defined.shown_names value (term_view predicate.now)) }
{
    match predicate {
        Term::Op(op, operands) => {
            add_cond_ref(names, *op, value, operands)?;
            add_inside(names, operand_value(*op, value, operands), operands)
        }
        _ => Ok(()),
    }
}

/// The names that a predicate shows to be declared where it has the value.
pub fn shown_names<'a>(
    alloc: Global,
    value: bool,
    predicate: &'a Term,
) -> Result<Vec<&'a Name>, AllocError>
    ensures { IfOk result (λ v. names_view v.items
        ≡ defined.shown_names value (term_view predicate.now)) }
{
    let mut names = Vec::new(alloc);
    add(&mut names, value, predicate)?;
    Ok(names)
}
