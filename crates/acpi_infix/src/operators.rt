//! Operators in infix form.

use crate::pieces::{Piece, Pieces};
use crate::signs::{comparison_of, ends_with_target, is_clear, negation_of, sign_of};
use crate::terms::put_head;
use acpi_overview::integer_value;
use acpi_tree::{Op, Operand, Term};
use std::alloc::AllocError;

// ---- operands

// Two values with a sign between them.
fn put_between<'t>(
    pieces: &mut Pieces<'t>,
    left: &'t Term,
    sign: &'t str,
    right: &'t Term,
) -> Result<(), AllocError> {
    put_operand(pieces, left, sign)?;
    pieces.put_text(" ")?;
    pieces.put_text(sign)?;
    pieces.put_text(" ")?;
    put_right(pieces, sign, right)
}

// A value beside a sign, in parentheses where it isn't clear without.
fn put_operand<'t>(pieces: &mut Pieces<'t>, term: &'t Term, sign: &str) -> Result<(), AllocError> {
    if is_clear(sign, term) {
        pieces.put(Piece::Term(term))
    } else {
        pieces.put(Piece::Value(term))
    }
}

// A value behind a sign: a number of bits by which is shifted has decimal digits, and a mask with many ones is the complement
// of one with few.
fn put_right<'t>(pieces: &mut Pieces<'t>, sign: &str, term: &'t Term) -> Result<(), AllocError> {
    match (sign, number_of(term)) {
        ("<<" | ">>", Some(count)) => pieces.put(Piece::Decimal(count)),
        ("&", Some(mask)) if mask != u64::MAX && mask >> 40 == 0xFF_FFFF => {
            pieces.put_text("~")?;
            pieces.put(Piece::Number(u64::MAX - mask))
        }
        _ => put_operand(pieces, term, sign),
    }
}

fn number_of(term: &Term) -> Option<u64> {
    match term {
        Term::Int(int) => integer_value(*int),
        _ => None,
    }
}

// A value, and what stands behind it.
fn put_before<'t>(
    pieces: &mut Pieces<'t>,
    term: &'t Term,
    behind: &'t str,
) -> Result<(), AllocError> {
    pieces.put(Piece::Value(term))?;
    pieces.put_text(behind)
}

// A target and an equals sign; nothing where there is no target.
fn put_target<'t>(pieces: &mut Pieces<'t>, target: &'t Term) -> Result<(), AllocError> {
    if let Term::NoTarget = target {
        return Ok(());
    }
    pieces.put(Piece::Term(target))?;
    pieces.put_text(" = ")
}

// An operand.
fn piece_of<'t>(operand: &'t Operand) -> Piece<'t> {
    match operand {
        Operand::Term(term) => Piece::Term(term),
        Operand::Byte(number) => Piece::Number(u64::from(*number)),
        Operand::Word(number) => Piece::Number(u64::from(*number)),
        Operand::DWord(number) => Piece::Number(u64::from(*number)),
    }
}

// The word of an operator, and its operands in parentheses, but for targets that are none.
fn put_call<'t>(
    pieces: &mut Pieces<'t>,
    op: Op,
    operands: &'t [Operand],
) -> Result<(), AllocError> {
    pieces.put_text(op.row().word)?;
    let mut is_first = true;
    for operand in operands {
        if let Operand::Term(Term::NoTarget) = operand {
            continue;
        }
        pieces.put_text(if is_first { "(" } else { ", " })?;
        is_first = false;
        pieces.put(piece_of(operand))?;
    }
    if !is_first {
        pieces.put_text(")")?;
    }
    Ok(())
}

// ---- operators

// Whether a value is what a target is: a name stands for a value as a call without arguments.
fn is_same_place(value: &Term, target: &Term) -> bool {
    match (value, target) {
        (Term::Call(name, values), Term::Ref(other)) => values.is_empty() && name == other,
        _ => value == target,
    }
}

// An operator with a sign, whose result is put into a target: `CNT += 1` where that is the first operand.
fn put_computed<'t>(
    pieces: &mut Pieces<'t>,
    (left, sign, right): (&'t Term, &'t str, &'t Term),
    target: &'t Term,
) -> Result<(), AllocError> {
    if is_same_place(left, target) {
        pieces.put(Piece::Term(left))?;
        pieces.put_text(" ")?;
        pieces.put_text(sign)?;
        pieces.put_text("= ")?;
        return put_right(pieces, sign, right);
    }
    put_target(pieces, target)?;
    put_between(pieces, left, sign, right)
}

// A value that is put into a target.
fn put_store<'t>(
    pieces: &mut Pieces<'t>,
    value: &'t Term,
    target: &'t Term,
) -> Result<(), AllocError> {
    if let Term::Op(op, operands) = value {
        if let (
            Some(sign),
            [
                Operand::Term(left),
                Operand::Term(right),
                Operand::Term(Term::NoTarget),
            ],
        ) = (sign_of(*op), operands.as_slice())
        {
            return put_computed(pieces, (left, sign, right), target);
        }
    }
    put_target(pieces, target)?;
    pieces.put(Piece::Term(value))
}

// What is not so.
fn put_not<'t>(pieces: &mut Pieces<'t>, value: &'t Term) -> Result<(), AllocError> {
    if let Term::Op(op, operands) = value {
        if let (Some(sign), [Operand::Term(left), Operand::Term(right)]) = (
            negation_of(*op),
            operands.as_slice(),
        ) {
            return put_between(pieces, left, sign, right);
        }
    }
    pieces.put_text("!")?;
    pieces.put(Piece::Value(value))
}

// An operator whose result is put into its last operand.
fn put_putting<'t>(
    pieces: &mut Pieces<'t>,
    op: Op,
    operands: &'t [Operand],
) -> Result<(), AllocError> {
    let [values @ .., Operand::Term(target)] = operands else {
        return put_call(pieces, op, operands);
    };
    put_target(pieces, target)?;
    match (op, values) {
        (Op::Index, [Operand::Term(list), Operand::Term(index)]) => {
            put_before(pieces, list, "[")?;
            pieces.put(Piece::Term(index))?;
            pieces.put_text("]")
        }
        _ => put_call(pieces, op, values),
    }
}

// An operator without a form of its own, by its signs.
fn put_signed<'t>(
    pieces: &mut Pieces<'t>,
    op: Op,
    operands: &'t [Operand],
) -> Result<(), AllocError> {
    match (sign_of(op), comparison_of(op), operands) {
        (
            Some(sign),
            _,
            [
                Operand::Term(left),
                Operand::Term(right),
                Operand::Term(target),
            ],
        ) => { put_computed(pieces, (left, sign, right), target) }
        (_, Some(sign), [Operand::Term(left), Operand::Term(right)]) => {
            put_between(pieces, left, sign, right)
        }
        _ if ends_with_target(op) => put_putting(pieces, op, operands),
        _ => put_call(pieces, op, operands),
    }
}

/// Puts an operator and its operands.
pub(crate) fn put_op<'t>(
    pieces: &mut Pieces<'t>,
    op: Op,
    operands: &'t [Operand],
) -> Result<(), AllocError> {
    match (op, operands) {
        (Op::Store, [Operand::Term(value), Operand::Term(target)]) => {
            put_store(pieces, value, target)
        }
        (
            Op::Divide,
            [
                Operand::Term(left),
                Operand::Term(right),
                Operand::Term(Term::NoTarget),
                Operand::Term(target),
            ],
        ) => {
            put_target(pieces, target)?;
            put_between(pieces, left, "/", right)
        }
        (Op::LNot, [Operand::Term(value)]) => put_not(pieces, value),
        (Op::Increment, [Operand::Term(target)]) => put_before(pieces, target, "++"),
        (Op::Decrement, [Operand::Term(target)]) => put_before(pieces, target, "--"),
        (Op::Return, [Operand::Term(value)]) => put_head(pieces, "Return (", value),
        _ => put_signed(pieces, op, operands),
    }
}
