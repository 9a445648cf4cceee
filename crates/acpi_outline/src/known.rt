//! What is known so far, whatever keeps it.

ghost use Rattle.std.specs.Prelude.{◌≡◌, IfOk, OnOk};
ghost use Rattle.acpi_name.specs.NameRefs.{name_parts};
ghost use Rattle.acpi_tree.specs.View.{field_view};
ghost use Rattle.acpi_outline.specs.Rules.{grammar_at};
ghost use Rattle.acpi_outline.specs.View.{fixed_view, plain_view};

use crate::form::PackedForm;
use crate::node::{Fixed, Plain};
use acpi_name::{Name, NameRef};
use acpi_tree::FieldElem;
use acpi_values::Counting;
use bytes::Bytes;
use std::alloc::{AllocError, Global};

/// What is known so far, on which the reading of nodes depends, and how it goes on.
pub trait Known {
    ghost use Rattle.acpi_outline.specs.Rules.{Rules};

    ghost rules: { Rules Self };

    /// Where nodes take their memory.
    fn alloc(&self) -> Global;

    /// How many values follow the name, where a value or a statement stands; None where that isn't sure.
    fn count(&self, name: NameRef<'_>) -> Result<Option<u8>, AllocError>
        ensures { IfOk result (λ n. n ≡ rules.args self.now (name_parts name.entry)) };

    /// Whether one may go into a package with these fixed arguments.
    fn opens(&self, fixed: &Fixed) -> Result<bool, AllocError>
        ensures { IfOk result (λ b. b ≡ rules.opens self.now (fixed_view fixed.now)) };

    /// Goes past a plain node at the place.
    fn pass_plain(&mut self, place: usize, plain: &Plain) -> Result<(), AllocError>
        ensures { OnOk result
            (self.new ≡ rules.after_plain self.old place (plain_view plain.now)) };

    /// Goes past a Name at the place, whose data is lost.
    fn pass_name(&mut self, place: usize, name: &Name) -> Result<(), AllocError>
        ensures { OnOk result (self.new ≡ rules.after_name self.old place name.now) };

    /// Goes past a package of that form at the place, whose fixed arguments are lost; with no form, past a statement
    /// whose data is lost.
    fn pass_lost(&mut self, place: usize, form: Option<PackedForm>) -> Result<(), AllocError>
        ensures { OnOk result (self.new ≡ rules.after_lost self.old place form) };

    /// Goes into a package at the place.
    fn enter(&mut self, place: usize, fixed: &Fixed) -> Result<(), AllocError>
        ensures { OnOk result (self.new ≡ rules.enter self.old place (fixed_view fixed.now)) };

    /// Goes out of the package that was entered last.
    fn leave(&mut self) -> Result<(), AllocError>
        ensures { OnOk result (self.new ≡ rules.leave self.old) };

    /// Comes to the field list of a package at the place, behind the fixed arguments.
    fn begin_fields(&mut self, place: usize, fixed: &Fixed) -> Result<(), AllocError>
        ensures { OnOk result (self.new
            ≡ rules.begin_fields self.old place (fixed_view fixed.now)) };

    /// Goes past an element, at the place, of the field list behind the fixed arguments.
    fn pass_field(
        &mut self,
        place: usize,
        fixed: &Fixed,
        element: &FieldElem,
    ) -> Result<(), AllocError>
        ensures { OnOk result (self.new
            ≡ rules.after_field self.old place (fixed_view fixed.now) (field_view element.now)) };

    /// Goes past a package at the place, that is not gone into.
    fn pass_closed(
        &mut self,
        place: usize,
        fixed: &Fixed,
        content: &Bytes,
    ) -> Result<(), AllocError>
        ensures { OnOk result (self.new
            ≡ rules.after_closed self.old place (fixed_view fixed.now) content.now) };
}

/// What is known, as what counts the values behind a name.
#[derive(Drop)]
pub(crate) struct Counted<'a, K: Known> {
    pub(crate) known: &'a K,
}

impl<'a, K: Known> Counting for Counted<'a, K> {
    ghost grammar = { λ c. grammar_at K.rules c.known.now };

    fn alloc(&self) -> Global {
        self.known.alloc()
    }

    fn count(&self, name: NameRef<'_>) -> Result<Option<u8>, AllocError> {
        self.known.count(name)
    }

    fn loads(&self) -> bool {
        true
    }
}
