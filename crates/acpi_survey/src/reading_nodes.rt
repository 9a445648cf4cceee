//! What is known behind the nodes of tables.

ghost use Rattle.std.specs.Prelude.{◌≡◌, ◌+◌, ◌%◌, ◌++◌, ◌∷◌, [], true, false, Some, IfOk, OnOk};
ghost use Rattle.acpi_name.specs.Names.{NameParts};
ghost use Rattle.acpi_tree.specs.Terms.{no_terms, more};
ghost use Rattle.acpi_tree.specs.TermView.{term_view, decl_view};
ghost use Rattle.acpi_outline.specs.Nodes as outline;
ghost use Rattle.acpi_outline.specs.View.{fixed_view, plain_view};
ghost use Rattle.acpi_conditions.specs.EntryForms.{term_view as declaring_view};
ghost use Rattle.acpi_conditions.specs.Nodes.{no_nodes};
ghost use Rattle.acpi_conditions.specs.Walk as walks;
ghost use Rattle.acpi_needs.specs.Needs.{names_in_all, with_names};
ghost use Rattle.acpi_survey.specs.Nodes.{operator_at, term_at, unit_at, operands_of};
ghost use Rattle.acpi_survey.specs.Reading.{after_doing, past_plain, count_at, declaring, entering, opened_behind, passing};

use crate::names::segment_name;
use crate::reading::Reading;
use acpi_conditions::{Stop, Term as Declaring};
use acpi_name::{Name, Seg};
use acpi_needs::{needs_of, needs_of_three, needs_of_value};
use acpi_outline::{Fixed, Plain};
use acpi_tree::{Decl, Op, Term};
use std::alloc::{AllocError, Global};

// What the elements of the field list behind fixed arguments need.
fn needs_of_list(alloc: Global, fixed: &Fixed) -> Result<Vec<Name>, AllocError>
    ensures { IfOk result (λ v. v.items
        ≡ with_names [] (names_in_all (operands_of (fixed_view fixed.now)))) }
{
    match fixed {
        Fixed::BankField(_, _, value, _) => needs_of_value(alloc, value),
        _ => Ok(Vec::new(alloc)),
    }
}

impl Reading {
    // Passes a declaration of one name.
    fn declare_named(
        &mut self,
        offset: usize,
        name: Name,
        needs: Vec<Name>,
        count: Option<u8>,
    ) -> Result<(), AllocError>
        ensures { OnOk result (self.new ≡ declaring (record {
          place = self.old.base + offset;
          name = name;
          is_scope = false;
          needs = needs.items;
        }) count self.old) }
    {
        let place = self.place(offset);
        let term = Declaring {
            place,
            name,
            is_scope: false,
            needs,
        };
        self.declare(term, count)
    }

    /// Passes a declaration of one name, that needs none and takes so many arguments.
    pub(crate) fn pass_named(
        &mut self,
        offset: usize,
        name: &Name,
        count: u8,
    ) -> Result<(), AllocError>
        ensures { OnOk result (self.new ≡ declaring
            (term_at (self.old.base + offset) name.now false []) (Some count) self.old) }
    {
        let needs = Vec::new(self.memory());
        self.declare_named(offset, name.copy()?, needs, Some(count))
    }

    fn pass_decl(&mut self, offset: usize, decl: &Decl) -> Result<(), AllocError>
        ensures { OnOk result (self.new
            ≡ past_plain self.old offset (outline.term (decl_view decl.now))) }
    {
        let needs = needs_of(self.memory(), decl)?;
        match decl {
            Decl::Name(name, _) => self.declare_named(offset, name.copy()?, needs, Some(0)),
            Decl::Create { name, .. } => self.declare_named(offset, name.copy()?, needs, Some(0)),
            Decl::CreateField { name, .. } => self.declare_named(
                offset,
                name.copy()?,
                needs,
                Some(0),
            ),
            Decl::Mutex(name, _) => self.declare_named(offset, name.copy()?, needs, Some(0)),
            Decl::Event(name) => self.declare_named(offset, name.copy()?, needs, Some(0)),
            Decl::Region { name, .. } => self.declare_named(offset, name.copy()?, needs, Some(0)),
            Decl::Field { .. } => self.pass_other(),
            Decl::IndexField { .. } => self.pass_other(),
            Decl::BankField { .. } => self.pass_other(),
        }
    }

    // Passes what has no effect on what is declared.
    pub(crate) fn pass_other(&mut self) -> Result<(), AllocError>
        ensures { OnOk result (self.new ≡ passing self.old) }
    {
        self.pass();
        Ok(())
    }

    fn pass_operator(&mut self, offset: usize, op: Op) -> Result<(), AllocError>
        ensures { OnOk result (self.new ≡ after_doing
            (operator_at (self.old.base + offset) op no_nodes) (Some 0) self.old) }
    {
        let place = self.place(offset);
        match op {
            Op::Return => self.stop(place, Stop::Returns),
            Op::Break => self.stop(place, Stop::Breaks),
            Op::Continue => self.stop(place, Stop::Continues),
            _ => self.pass_other(),
        }
    }

    fn pass_term(&mut self, offset: usize, term: &Term) -> Result<(), AllocError>
        ensures { OnOk result (self.new
            ≡ past_plain self.old offset (outline.term (term_view term.now))) }
    {
        match term {
            Term::Declare(decl) => self.pass_decl(offset, decl),
            Term::Op(op, _) => self.pass_operator(offset, *op),
            _ => self.pass_other(),
        }
    }

    // Passes an alias, which may be called as its source is.
    fn pass_alias(&mut self, offset: usize, source: &Name, name: &Name) -> Result<(), AllocError>
        ensures { OnOk result (self.new
            ≡ past_plain self.old offset (outline.alias source.now name.now)) }
    {
        let count = self.count_at(source.view())?;
        self.keep_source(offset, source)?;
        let mut needs = Vec::new(self.memory());
        needs.push(source.copy()?)?;
        self.declare_named(offset, name.copy()?, needs, count)
    }

    // Passes a DefDataRegion.
    fn pass_table_region(
        &mut self,
        offset: usize,
        name: &Name,
        signature: &Term,
        oem: &Term,
        table: &Term,
    ) -> Result<(), AllocError>
        ensures { OnOk result (self.new ≡ past_plain self.old offset
            (outline.table_region name.now (more (term_view signature.now)
            (more (term_view oem.now) (more (term_view table.now) no_terms))))) }
    {
        let needs = needs_of_three(self.memory(), signature, oem, table)?;
        self.declare_named(offset, name.copy()?, needs, Some(0))
    }

    /// Passes a plain node.
    pub(crate) fn pass_node(&mut self, offset: usize, plain: &Plain) -> Result<(), AllocError>
        ensures { OnOk result (self.new ≡ past_plain self.old offset (plain_view plain.now)) }
    {
        match plain {
            Plain::Term(term) => self.pass_term(offset, term),
            Plain::External(external) => self.expect(external),
            Plain::Alias(source, name) => self.pass_alias(offset, source, name),
            Plain::TableRegion(name, signature, oem, table) => {
                self.pass_table_region(offset, name, signature, oem, table)
            }
        }
    }

    // The term of a container.
    fn container(&self, offset: usize, name: &Name) -> Result<Declaring, AllocError>
        ensures { IfOk result (λ t. declaring_view t
            ≡ term_at (self.now.base + offset) name.now true []) }
    {
        Ok(Declaring {
            place: self.place(offset),
            name: name.copy()?,
            is_scope: true,
            needs: Vec::new(self.memory()),
        })
    }

    /// Goes into a container, where it can be declared.
    pub(crate) fn enter_container(&mut self, offset: usize, name: &Name) -> Result<(), AllocError>
        ensures { OnOk result (self.new
            ≡ entering (term_at (self.old.base + offset) name.now true []) self.old) }
    {
        let term = self.container(offset, name)?;
        self.enter_term(term)
    }

    /// Passes a container that isn't gone into.
    pub(crate) fn pass_container(&mut self, offset: usize, name: &Name) -> Result<(), AllocError>
        ensures { OnOk result (self.new
            ≡ declaring (term_at (self.old.base + offset) name.now true []) (Some 0) self.old) }
    {
        let term = self.container(offset, name)?;
        self.declare(term, Some(0))
    }

    /// Goes into a Scope, where it opens a scope.
    pub(crate) fn enter_scope_of(&mut self, offset: usize, name: &Name) -> Result<(), AllocError>
        ensures { OnOk result (self.new ≡ record self.old {
          walk = walks.enter_scope
              (self.old.base + offset) name.now self.old.walk;
          opened = opened_behind self.old (self.old.base + offset) name.now;
        }) }
    {
        let place = self.place(offset);
        let _entered = self.enter_scope(place, name.view())?;
        Ok(())
    }

    /// Passes a Scope that isn't gone into.
    pub(crate) fn pass_scope(&mut self, offset: usize, name: &Name) -> Result<(), AllocError>
        ensures { OnOk result (self.new ≡ record self.old {
          walk = walks.walked_scope
              (self.old.base + offset) name.now (λ w. w) self.old.walk;
          opened = opened_behind self.old (self.old.base + offset) name.now;
        }) }
    {
        let place = self.place(offset);
        if self.enter_scope(place, name.view())? {
            self.leave_package()?;
        }
        Ok(())
    }

    /// Passes an element that declares its segment, of the field list behind these fixed arguments.
    pub(crate) fn declare_unit(
        &mut self,
        offset: usize,
        seg: Seg,
        fixed: &Fixed,
    ) -> Result<(), AllocError>
        ensures { OnOk result (self.new ≡ declaring (unit_at (self.old.base + offset) seg
            (operands_of (fixed_view fixed.now))) (Some 0) self.old) }
    {
        let needs = needs_of_list(self.memory(), fixed)?;
        let name = segment_name(self.memory(), seg)?;
        self.declare_named(offset, name, needs, Some(0))
    }
}
