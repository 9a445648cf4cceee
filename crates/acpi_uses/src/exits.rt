//! By what control can leave statements.

ghost use Rattle.std.specs.Prelude.{◌≡◌};
ghost use Rattle.acpi_tree.specs.TermView.{term_view, terms_tree};
ghost use Rattle.acpi_uses.specs.Exits as defined;
ghost use Rattle.acpi_uses.specs.Exits.{either, exits_in, if_exits, in_turn, op_exits, while_exits};

use crate::constant::truth_of;
use acpi_tree::{Op, Term};

/// By what control can leave statements.
#[derive(Debug, Clone, Copy, PartialEq, Eq)]
pub struct Exits {
    /// At their end.
    pub end: bool,
    /// By Return, or by Fatal.
    pub by_return: bool,
    /// By a Break that ends a While around.
    pub by_break: bool,
    /// By a Continue that goes on with a While around.
    pub by_continue: bool,
}

/// Of a statement that control only passes.
pub(crate) const AT_END: Exits = Exits {
    end: true,
    by_return: false,
    by_break: false,
    by_continue: false,
};

// No way out.
const NONE: Exits = Exits {
    end: false,
    by_return: false,
    by_break: false,
    by_continue: false,
};

// Of an operator that stands as a statement.
fn op_exits(op: Op) -> Exits
    ensures { result ≡ op_exits op }
{
    match op {
        Op::Return => Exits {
            by_return: true,
            ..NONE
        },
        Op::Fatal => Exits {
            by_return: true,
            ..NONE
        },
        Op::Break => Exits {
            by_break: true,
            ..NONE
        },
        Op::Continue => Exits {
            by_continue: true,
            ..NONE
        },
        _ => AT_END,
    }
}

impl Exits {
    // Of statements one of which is run.
    fn either(self, other: Exits) -> Exits
        ensures { result ≡ either self other }
    {
        Exits {
            end: self.end || other.end,
            by_return: self.by_return || other.by_return,
            by_break: self.by_break || other.by_break,
            by_continue: self.by_continue || other.by_continue,
        }
    }

    /// With statements that are run behind the end of these.
    pub(crate) fn in_turn(self, next: Exits) -> Exits
        ensures { result ≡ in_turn self next }
    {
        Exits {
            end: self.end && next.end,
            by_return: self.by_return || (self.end && next.by_return),
            by_break: self.by_break || (self.end && next.by_break),
            by_continue: self.by_continue || (self.end && next.by_continue),
        }
    }
}

/// Of an If, by its predicate, where it is a constant, and both branches.
pub(crate) fn if_exits(predicate: Option<bool>, then: Exits, other: Exits) -> Exits
    ensures { result ≡ if_exits predicate then other }
{
    match predicate {
        None => then.either(other),
        Some(true) => then,
        Some(false) => other,
    }
}

/// Of a While, by its predicate, where it is a constant, and the statements in it.
pub(crate) fn while_exits(predicate: Option<bool>, inside: Exits) -> Exits
    ensures { result ≡ while_exits predicate inside }
{
    match predicate {
        None => Exits {
            by_return: inside.by_return,
            ..AT_END
        },
        Some(true) => Exits {
            end: inside.by_break,
            by_return: inside.by_return,
            ..NONE
        },
        Some(false) => AT_END,
    }
}

/// By what control can leave a statement.
#[cycle(exits)]
pub(crate) fn exits_in(term: &Term) -> Exits
    ensures { result ≡ exits_in (term_view term.now) }
{
    match term {
        Term::Op(op, _) => op_exits(*op),
        Term::If(predicate, then, None) => { if_exits(truth_of(predicate), exits_of(then), AT_END) }
        Term::If(predicate, then, Some(other)) => {
            if_exits(truth_of(predicate), exits_of(then), exits_of(other))
        }
        Term::While(predicate, body) => while_exits(truth_of(predicate), exits_of(body)),
        _ => AT_END,
    }
}

/// By what control can leave a list of statements, as far as predicates that are constants tell.
#[cycle(exits)]
pub fn exits_of(terms: &[Term]) -> Exits
    ensures { result ≡ defined.exits_of (terms_tree terms.now) }
{
    let mut exits = AT_END;
    'each: for term in terms {
        exits = exits.in_turn(exits_in(term));
    }
    exits
}
