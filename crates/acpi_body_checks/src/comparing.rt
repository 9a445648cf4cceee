//! Comparisons of two values.

use acpi_tree::{Op, Operand, Term};

/// A comparison by LEqual, LGreater or LLess (ACPI 6.5, 20.2.5.4).
#[derive(Debug, Clone, Copy)]
pub(crate) struct Comparison<'a> {
    pub(crate) op: Op,
    pub(crate) first: &'a Term,
    pub(crate) second: &'a Term,
}

/// The comparison that a term is.
pub(crate) fn comparison_of(term: &Term) -> Option<Comparison<'_>> {
    let Term::Op(op, operands) = term else {
        return None;
    };
    if !matches!(op, Op::LEqual | Op::LGreater | Op::LLess) {
        return None;
    }
    match operands.as_slice() {
        [Operand::Term(first), Operand::Term(second)] => Some(Comparison {
            op: *op,
            first,
            second,
        }),
        _ => None,
    }
}
