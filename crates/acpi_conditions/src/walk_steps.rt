//! The steps of a walk over nodes.

ghost use Rattle.std.specs.Prelude.{◌≡◌, ◌++◌, ◌∷◌, [], Ok, is_ok, IfOk, IfErr, OnOk};
ghost use Rattle.acpi_name.specs.NameRefs.{name_parts};
ghost use Rattle.acpi_conditions.specs.EntryForms.{term_view};
ghost use Rattle.acpi_conditions.specs.Turns.{stop_of};
ghost use Rattle.acpi_conditions.specs.Entries.{asks_nothing};
ghost use Rattle.acpi_conditions.specs.Known.{declared_at, opened_at, settled};
ghost use Rattle.acpi_conditions.specs.Walk.{declare, end_table, enter_body, enter_first, enter_other, enter_scope, enter_term, into_term, leave, package_at, pass, predefine, stop_at};
ghost use Rattle.acpi_conditions.specs.steps.Moves.{entry_here, with_certain, with_entry};

use crate::entry::{Asks, Term};
use crate::facts::raised;
use crate::packages::Kind;
use crate::placing::{PlacingFault, declare_at, open_at};
use crate::statuses::{Presence, Statuses};
use crate::stops::Stop;
use crate::targets::{Target, target_of};
use crate::turns::Turn;
use crate::walk::Walk;
use acpi_name::{NameRef, Path};
use std::alloc::AllocError;

impl Walk {
    // Puts the entry of a term that stands here behind the others. Its object is certain.
    fn put_certain(&mut self, term: Term, target: Target) -> Result<(), AllocError>
        ensures { OnOk result (self.new ≡ with_certain
            (record { path = target.path; is_scope = term.is_scope } ∷ self.old.known.certain)
            (with_entry (entry_here self.old (term_view term) target) self.old)) }
    {
        let presence = raised(term.is_scope, Presence::Nothing);
        let number = self.put(term, target)?;
        self.certify_entry(number, presence)
    }

    // Puts the entry of a term that stands here behind the others, and makes certain what it settles.
    fn put_settled(&mut self, term: Term, target: Target) -> Result<(), AllocError>
        ensures { OnOk result (self.new ≡ with_certain
            (settled (entry_here self.old (term_view term) target) ++ self.old.known.certain)
            (with_entry (entry_here self.old (term_view term) target) self.old)) }
    {
        let number = self.put(term, target)?;
        self.settle(number)
    }

    /// Puts an object that is there before all tables, at a path, and stands at the start of a table.
    pub fn predefine(&mut self, term: Term, path: Path) -> Result<(), AllocError>
        ensures { OnOk result (self.new ≡ predefine (term_view term) path self.old) }
    {
        self.start_table();
        let asks = Asks {
            has: false,
            no: false,
            needs: Vec::new(self.alloc()),
        };
        self.put_certain(term, Target { path, asks })?;
        self.start_table();
        Ok(())
    }

    /// Whether a term of this name can be declared here (ACPI 6.5, 5.3).
    pub fn can_declare(&self, name: NameRef<'_>) -> Result<bool, AllocError>
        ensures { IfOk result (λ b. b ≡ is_ok
            (declared_at self.now.known self.now.around.scope (name_parts name.entry))) }
    {
        let scope = self.scope().copy()?;
        match declare_at(self.alloc(), self, &scope, name) {
            Ok(_) => Ok(true),
            Err(PlacingFault::Refused(_)) => Ok(false),
            Err(PlacingFault::Memory) => Err(AllocError),
        }
    }

    /// Whether a Scope of this name opens a scope here (ACPI 6.5, 5.3 and 20.2.5.1).
    pub fn can_open(&self, name: NameRef<'_>) -> Result<bool, AllocError>
        ensures { IfOk result (λ b. b ≡ is_ok
            (opened_at self.now.known self.now.around.scope (name_parts name.entry))) }
    {
        let scope = self.scope().copy()?;
        match open_at(self.alloc(), self, &scope, name) {
            Ok(_) => Ok(true),
            Err(PlacingFault::Refused(_)) => Ok(false),
            Err(PlacingFault::Memory) => Err(AllocError),
        }
    }

    /// Passes a term with nothing inside: an entry, or a refusal. Whether it is an entry.
    pub fn declare(&mut self, term: Term) -> Result<bool, AllocError>
        ensures walk { OnOk result (self.new ≡ declare (term_view term) self.old) }
        ensures entry { IfOk result (λ b. b ≡ is_ok
            (declared_at self.old.known self.old.around.scope term.name)) }
    {
        let scope = self.scope().copy()?;
        match target_of(self.alloc(), self, &scope, &term) {
            Ok(target) => {
                self.list(term, target)?;
                Ok(true)
            }
            Err(PlacingFault::Refused(reason)) => {
                self.refuse(term.place, reason)?;
                Ok(false)
            }
            Err(PlacingFault::Memory) => Err(AllocError),
        }
    }

    // Passes a term with nothing inside that can be declared.
    fn list(&mut self, term: Term, target: Target) -> Result<(), AllocError>
        ensures { OnOk result (self.new ≡ pass (with_certain
            (settled (entry_here self.old (term_view term) target) ++ self.old.known.certain)
            (with_entry (entry_here self.old (term_view term) target) self.old))) }
    {
        self.put_settled(term, target)?;
        self.pass();
        Ok(())
    }

    /// Goes into a term that can be declared; its entry stands before those inside. A term that can't be declared is
    /// refused, and nothing is entered. Whether it is entered.
    pub fn enter_term(&mut self, term: Term) -> Result<bool, AllocError>
        ensures walk { OnOk result (self.new ≡ enter_term (term_view term) self.old) }
        ensures entered { IfOk result (λ b. b ≡ is_ok
            (declared_at self.old.known self.old.around.scope term.name)) }
    {
        let scope = self.scope().copy()?;
        match target_of(self.alloc(), self, &scope, &term) {
            Ok(target) => {
                self.go_into(term, target)?;
                Ok(true)
            }
            Err(PlacingFault::Refused(reason)) => {
                self.refuse(term.place, reason)?;
                Ok(false)
            }
            Err(PlacingFault::Memory) => Err(AllocError),
        }
    }

    // Goes into a term that can be declared.
    fn go_into(&mut self, term: Term, target: Target) -> Result<(), AllocError>
        ensures { OnOk result (self.new
            ≡ into_term (entry_here self.old (term_view term) target) self.old) }
    {
        let place = term.place;
        let free = target.asks.is_empty();
        let path = target.path.copy()?;
        self.enter(Kind::Term, place)?;
        self.put_certain(term, target)?;
        self.turn_unless(free, Turn::Within(place))?;
        self.set_scope(path);
        Ok(())
    }

    /// Goes into a Scope that opens a scope. One that opens none is refused, and nothing is entered. Whether it is
    /// entered.
    pub fn enter_scope(&mut self, place: u128, name: NameRef<'_>) -> Result<bool, AllocError>
        ensures walk { OnOk result (self.new ≡ enter_scope place (name_parts name.entry) self.old) }
        ensures entered { IfOk result (λ b. b ≡ is_ok
            (opened_at self.old.known self.old.around.scope (name_parts name.entry))) }
    {
        let scope = self.scope().copy()?;
        match open_at(self.alloc(), self, &scope, name) {
            Ok(path) => {
                let is_certain = self.status(&path).certain.is_a_scope();
                self.enter(Kind::Scope(is_certain), place)?;
                self.turn_unless(is_certain, Turn::Within(place))?;
                self.certify(&path, true)?;
                self.set_scope(path);
                Ok(true)
            }
            Err(PlacingFault::Refused(reason)) => {
                self.refuse(place, reason)?;
                Ok(false)
            }
            Err(PlacingFault::Memory) => Err(AllocError),
        }
    }

    /// Goes into the first branch of an If.
    pub fn enter_first(&mut self, place: u128) -> Result<(), AllocError>
        ensures { OnOk result (self.new ≡ enter_first place self.old) }
    {
        self.enter(Kind::First, place)?;
        self.turn(Turn::Then(place))
    }

    /// Goes into an Else: the other branch of the If directly before, which knows nothing of the first. With no If
    /// before it the Else is as that of an If at its place whose first branch is empty.
    pub fn enter_other(&mut self, place: u128) -> Result<(), AllocError>
        ensures { OnOk result (self.new ≡ enter_other place self.old) }
    {
        match self.take_if()? {
            Some(first) => {
                self.go_back()?;
                self.turn(Turn::Else(first))
            }
            None => {
                self.enter(Kind::Other, place)?;
                self.turn(Turn::Else(place))
            }
        }
    }

    /// Goes into the body of a While.
    pub fn enter_body(&mut self, place: u128) -> Result<(), AllocError>
        ensures { OnOk result (self.new ≡ enter_body place self.old) }
    {
        self.enter(Kind::Body, place)?;
        self.turn(Turn::Round(place))?;
        self.enter_loop();
        Ok(())
    }

    /// Goes out of the innermost package. With none around nothing changes.
    pub fn leave(&mut self) -> Result<(), AllocError>
        ensures { OnOk result (self.new ≡ leave self.old) }
    {
        match self.kind() {
            None => Ok(()),
            Some(Kind::Term) => self.leave_term(),
            Some(Kind::Scope(is_certain)) => self.go_out(is_certain),
            Some(Kind::First) => self.go_out(false),
            Some(Kind::Other) => self.go_out(false),
            Some(Kind::Body) => {
                self.keep_returns()?;
                self.go_out(false)
            }
        }
    }

    /// Passes a Return, a Break or a Continue.
    pub fn stop(&mut self, place: u128, kind: Stop) -> Result<(), AllocError>
        ensures { OnOk result (self.new ≡ stop_at place (stop_of kind) self.old) }
    {
        self.put_stop(place, kind)?;
        self.turn(Turn::Past(place))?;
        self.pass();
        Ok(())
    }

    /// Ends a table, wherever the walk stands in it: what is known then is what was known before the table, and its
    /// entries; certain is also what its entries settle that have no turn on their way.
    pub fn end_table(&mut self) -> Result<(), AllocError>
        ensures { OnOk result (self.new ≡ end_table self.old) }
    {
        let first = self.start_count();
        let mut number = self.count().max(first);
        self.go_to_start();
        while number > first {
            number -= 1;
            self.certify_lasting(number)?;
        }
        self.start_table();
        Ok(())
    }
}
