//! Operators that have signs.

use acpi_tree::{Op, Operand, OperandKind, Term};

/// The sign of an operator of two operands and a target.
pub(crate) fn sign_of(op: Op) -> Option<&'static str> {
    match op {
        Op::Add => Some("+"),
        Op::Subtract => Some("-"),
        Op::Multiply => Some("*"),
        Op::Mod => Some("%"),
        Op::And => Some("&"),
        Op::Or => Some("|"),
        Op::XOr => Some("^"),
        Op::ShiftLeft => Some("<<"),
        Op::ShiftRight => Some(">>"),
        _ => None,
    }
}

/// The sign of a comparison, or of a logical operator of two operands.
pub(crate) fn comparison_of(op: Op) -> Option<&'static str> {
    match op {
        Op::LEqual => Some("=="),
        Op::LLess => Some("<"),
        Op::LGreater => Some(">"),
        Op::LAnd => Some("&&"),
        Op::LOr => Some("||"),
        _ => None,
    }
}

/// The sign of what is so where a comparison is not.
pub(crate) fn negation_of(op: Op) -> Option<&'static str> {
    match op {
        Op::LEqual => Some("!="),
        Op::LLess => Some(">="),
        Op::LGreater => Some("<="),
        _ => None,
    }
}

/// Whether the result of an operator is put into its last operand, a target (ACPI 6.5, 20.2.5.4).
pub(crate) fn ends_with_target(op: Op) -> bool {
    match op {
        Op::CondRefOf | Op::Load | Op::Divide => false,
        _ => matches!(op.operands().last(), Some(OperandKind::Target)),
    }
}

// Whether a sign is that of a comparison.
fn is_comparison(sign: &str) -> bool {
    matches!(sign, "==" | "!=" | "<" | ">" | "<=" | ">=")
}

// The sign of a term whose result is put nowhere.
fn plain_sign(term: &Term) -> Option<&'static str> {
    let Term::Op(op, operands) = term else {
        return None;
    };
    match operands.as_slice() {
        [_, _, Operand::Term(Term::NoTarget)] => sign_of(*op),
        [_, _] => comparison_of(*op),
        [Operand::Term(Term::Op(negated, _))] if *op == Op::LNot => negation_of(*negated),
        _ => None,
    }
}

/// Whether a term is clear as an operand of a sign without parentheses: comparisons between `&&` and `||`, sums and products
/// between comparisons, and chains of one of `+`, `|` and `&`.
pub(crate) fn is_clear(sign: &str, term: &Term) -> bool {
    match plain_sign(term) {
        Some(inner) => match sign {
            "&&" | "||" => is_comparison(inner),
            "+" | "|" | "&" => inner == sign,
            _ => is_comparison(sign) && matches!(inner, "+" | "-" | "*"),
        },
        None => matches!(sign, "&&" | "||") && matches!(term, Term::Op(Op::LNot, _)),
    }
}

/// Whether the text of a term has a sign outside of parentheses, so that it stands in parentheses as an operand.
pub(crate) fn has_sign(term: &Term) -> bool {
    let Term::Op(op, operands) = term else {
        return false;
    };
    match op {
        Op::Store | Op::Divide | Op::LNot => true,
        _ => {
            let is_put = ends_with_target(*op)
                && !matches!(operands.last(), Some(Operand::Term(Term::NoTarget)));
            is_put || sign_of(*op).is_some() || comparison_of(*op).is_some()
        }
    }
}
