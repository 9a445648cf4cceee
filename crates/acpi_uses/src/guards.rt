//! The statements of a body, and the names that the predicates around and before them show to be declared.

ghost use Rattle.std.specs.Prelude.{◌≡◌, ◌≤◌, ◌++◌, ◌∷◌, [], IfOk, OnOk, false, length, take, true};
ghost use Rattle.acpi_tree.specs.TermView.{else_view, term_view, terms_tree};
ghost use Rattle.acpi_uses.specs.Exits as leaves;
ghost use Rattle.acpi_uses.specs.Guards.{guarded_in, guarded_in_else, guarded_of, shown_behind, unless_at_end};
ghost use Rattle.acpi_uses.specs.GuardSteps.{guarded_by};
ghost use Rattle.acpi_uses.specs.ShownNames as shows;
ghost use Rattle.acpi_uses.specs.steps.GuardWalks.{found_by, shown_behind_all, shown_by};

use crate::constant::truth_of;
use crate::exits::{AT_END, Exits, exits_in, if_exits, while_exits};
use crate::predicate::shown_names;
use acpi_name::Name;
use acpi_tree::Term;
use std::alloc::{AllocError, Global};

/// A step of a walk over a body, statement after statement.
#[derive(Debug, Clone, Copy)]
pub enum GuardStep<'a> {
    /// From here on the name is shown to be declared.
    Show(&'a Name),
    /// From here on only the first of the shown names are, so many.
    Keep(usize),
    /// A statement.
    Statement(&'a Term),
}

// A walk over a body: its steps so far, and how many names are shown behind them.
#[derive(Drop)]
struct GuardWalk<'a> {
    alloc: Global,
    steps: Vec<GuardStep<'a>>,
    count: usize,
    ghost counted: { count ≡ length (shown_by steps.items) },
}

impl<'a> GuardWalk<'a> {
    #[tactic(auto, using(crate::proofs::Walks::guarded_by_one_more, crate::proofs::Walks::names_after_one_more))]
    fn add_statement(&mut self, statement: &'a Term) -> Result<(), AllocError>
        ensures statements { OnOk result (found_by self.new.steps.items
            ≡ found_by self.old.steps.items
            ++ (shown_by self.old.steps.items, term_view statement.now) ∷ []) }
        ensures names { OnOk result (shown_by self.new.steps.items
            ≡ shown_by self.old.steps.items) }
    {
        self.steps.push(GuardStep::Statement(statement))?;
        Ok(())
    }

    #[tactic(auto, using(crate::proofs::Walks::names_after_one_more, crate::proofs::Walks::names_are_few))]
    fn add_name(&mut self, name: &'a Name) -> Result<(), AllocError>
        ensures statements { OnOk result (found_by self.new.steps.items
            ≡ found_by self.old.steps.items) }
        ensures names { OnOk result (shown_by self.new.steps.items
            ≡ shown_by self.old.steps.items ++ name.now ∷ []) }
    {
        self.steps.push(GuardStep::Show(name))?;
        self.count += 1;
        Ok(())
    }

    #[tactic(auto, using(crate::proofs::Walks::names_after_one_more))]
    fn keep(&mut self, count: usize) -> Result<(), AllocError>
        requires { count ≤ length (shown_by self.old.steps.items) }
        ensures statements { OnOk result (found_by self.new.steps.items
            ≡ found_by self.old.steps.items) }
        ensures names { OnOk result (shown_by self.new.steps.items
            ≡ take count (shown_by self.old.steps.items)) }
    {
        self.steps.push(GuardStep::Keep(count))?;
        self.count = count;
        Ok(())
    }

    // Shows the names that a predicate does where it has the value.
    fn show(&mut self, value: bool, predicate: &'a Term) -> Result<(), AllocError>
        ensures statements { OnOk result (found_by self.new.steps.items
            ≡ found_by self.old.steps.items) }
        ensures names { OnOk result (shown_by self.new.steps.items
            ≡ shown_by self.old.steps.items
            ++ shows.shown_names value (term_view predicate.now)) }
    {
        let names = shown_names(self.alloc, value, predicate)?;
        'each: for name in &names {
            self.add_name(*name)?;
        }
        Ok(())
    }

    // Shows what the predicate does behind a branch whose end control can't come to, if it was taken.
    #[tactic(auto, unfolding(crate::specs::Guards::unless_at_end))]
    fn show_unless_at_end(
        &mut self,
        branch: Exits,
        value: bool,
        predicate: &'a Term,
    ) -> Result<(), AllocError>
        ensures statements { OnOk result (found_by self.new.steps.items
            ≡ found_by self.old.steps.items) }
        ensures names { OnOk result (shown_by self.new.steps.items
            ≡ shown_by self.old.steps.items
            ++ unless_at_end branch (shows.shown_names value (term_view predicate.now))) }
    {
        if branch.end {
            return Ok(());
        }
        self.show(value, predicate)
    }

    // Shows what the predicate of an If does behind it, by the exits of both branches.
    fn show_behind(
        &mut self,
        predicate: &'a Term,
        taken: Exits,
        skipped: Exits,
    ) -> Result<(), AllocError>
        ensures statements { OnOk result (found_by self.new.steps.items
            ≡ found_by self.old.steps.items) }
        ensures names { OnOk result (shown_by self.new.steps.items
            ≡ shown_by self.old.steps.items
            ++ (unless_at_end taken (shows.shown_names false (term_view predicate.now))
            ++ unless_at_end skipped (shows.shown_names true (term_view predicate.now)))) }
    {
        self.show_unless_at_end(taken, false, predicate)?;
        self.show_unless_at_end(skipped, true, predicate)
    }

    // Adds the statements of a branch, which is taken where the predicate has the value.
    #[cycle(guarded)]
    fn add_branch(
        &mut self,
        value: bool,
        predicate: &'a Term,
        branch: &'a [Term],
    ) -> Result<Exits, AllocError>
        ensures statements { OnOk result (found_by self.new.steps.items
            ≡ found_by self.old.steps.items ++ guarded_of
            (shown_by self.old.steps.items ++ shows.shown_names value (term_view predicate.now))
            (terms_tree branch.now)) }
        ensures names { OnOk result (shown_by self.new.steps.items
            ≡ shown_by self.old.steps.items) }
        ensures exits { IfOk result (λ e. e ≡ leaves.exits_of (terms_tree branch.now)) }
    {
        let count = self.count;
        self.show(value, predicate)?;
        let exits = self.add_all(branch)?;
        self.keep(count)?;
        Ok(exits)
    }

    #[cycle(guarded)]
    fn add_else(
        &mut self,
        predicate: &'a Term,
        branch: &'a Option<Vec<Term>>,
    ) -> Result<Exits, AllocError>
        ensures statements { OnOk result (found_by self.new.steps.items
            ≡ found_by self.old.steps.items ++ guarded_in_else
            (shown_by self.old.steps.items ++ shows.shown_names false (term_view predicate.now))
            (else_view branch.now)) }
        ensures names { OnOk result (shown_by self.new.steps.items
            ≡ shown_by self.old.steps.items) }
        ensures exits { IfOk result (λ e. e ≡ leaves.exits_of_else (else_view branch.now)) }
    {
        match branch {
            Some(branch) => self.add_branch(false, predicate, branch),
            None => Ok(AT_END),
        }
    }

    #[cycle(guarded)]
    fn add_all(&mut self, terms: &'a [Term]) -> Result<Exits, AllocError>
        ensures statements { OnOk result (found_by self.new.steps.items
            ≡ found_by self.old.steps.items
            ++ guarded_of (shown_by self.old.steps.items) (terms_tree terms.now)) }
        ensures names { OnOk result (shown_by self.new.steps.items
            ≡ shown_by self.old.steps.items ++ shown_behind_all (terms_tree terms.now)) }
        ensures exits { IfOk result (λ e. e ≡ leaves.exits_of (terms_tree terms.now)) }
    {
        let mut exits = AT_END;
        'each: for term in terms {
            self.add_statement(term)?;
            let next = self.add_inside(term)?;
            exits = exits.in_turn(next);
        }
        Ok(exits)
    }

    // Adds the statements in a statement.
    #[cycle(guarded)]
    fn add_inside(&mut self, term: &'a Term) -> Result<Exits, AllocError>
        ensures statements { OnOk result (found_by self.new.steps.items
            ≡ found_by self.old.steps.items
            ++ guarded_in (shown_by self.old.steps.items) (term_view term.now)) }
        ensures names { OnOk result (shown_by self.new.steps.items
            ≡ shown_by self.old.steps.items ++ shown_behind (term_view term.now)) }
        ensures exits { IfOk result (λ e. e ≡ leaves.exits_in (term_view term.now)) }
    {
        match term {
            Term::If(predicate, then, other) => {
                let taken = self.add_branch(true, predicate, then)?;
                let skipped = self.add_else(predicate, other)?;
                self.show_behind(predicate, taken, skipped)?;
                Ok(if_exits(truth_of(predicate), taken, skipped))
            }
            Term::While(predicate, body) => {
                let inside = self.add_branch(true, predicate, body)?;
                Ok(while_exits(truth_of(predicate), inside))
            }
            _ => Ok(exits_in(term)),
        }
    }
}

/// The statements of a body by their lines, and where names begin and end to be shown to be declared: by the predicate of an
/// If or a While around, or by that of an If before, one of whose branches control can't leave at its end.
pub fn guard_steps<'a>(alloc: Global, body: &'a [Term]) -> Result<Vec<GuardStep<'a>>, AllocError>
    ensures { IfOk result (λ v. guarded_by [] v.items ≡ guarded_of [] (terms_tree body.now)) }
{
    let mut walk = GuardWalk {
        alloc,
        steps: Vec::new(alloc),
        count: 0,
    };
    walk.add_all(body)?;
    Ok(walk.steps)
}
