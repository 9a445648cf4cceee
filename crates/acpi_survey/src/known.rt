//! What is known while tables are read, as the reading of nodes asks it.

ghost use Rattle.acpi_survey.specs.Reading.{survey_rules};

use crate::name_uses::{NameUse, names_in_fixed, names_in_plain};
use crate::reading::Reading;
use acpi_name::{Name, NameRef};
use acpi_outline::{Fixed, Known, PackedForm, Plain};
use acpi_tree::FieldElem;
use bytes::Bytes;
use std::alloc::{AllocError, Global};

impl Known for Reading {
    ghost rules = { survey_rules };

    fn alloc(&self) -> Global {
        self.memory()
    }

    fn count(&self, name: NameRef<'_>) -> Result<Option<u8>, AllocError> {
        self.count_at(name)
    }

    fn opens(&self, fixed: &Fixed) -> Result<bool, AllocError> {
        match fixed {
            Fixed::Scope(name) => self.can_open(name.view()),
            Fixed::Device(name) => self.can_declare(name.view()),
            Fixed::Processor(name, _, _, _) => self.can_declare(name.view()),
            Fixed::Power(name, _, _) => self.can_declare(name.view()),
            Fixed::Thermal(name) => self.can_declare(name.view()),
            _ => Ok(true),
        }
    }

    fn pass_plain(&mut self, place: usize, plain: &Plain) -> Result<(), AllocError> {
        let calls = names_in_plain(self.memory(), NameUse::Call, plain)?;
        self.keep_unknown(self.place(place), &calls)?;
        self.pass_node(place, plain)
    }

    fn pass_name(&mut self, place: usize, name: &Name) -> Result<(), AllocError> {
        self.pass_named(place, name, 0)
    }

    fn pass_lost(&mut self, place: usize, form: Option<PackedForm>) -> Result<(), AllocError> {
        match form {
            Some(PackedForm::If) => self.lost_if(self.place(place)),
            _ => self.pass_other(),
        }
    }

    fn enter(&mut self, place: usize, fixed: &Fixed) -> Result<(), AllocError> {
        let calls = names_in_fixed(self.memory(), NameUse::Call, fixed)?;
        self.keep_unknown(self.place(place), &calls)?;
        match fixed {
            Fixed::Scope(name) => self.enter_scope_of(place, name),
            Fixed::Device(name) => self.enter_container(place, name),
            Fixed::Processor(name, _, _, _) => self.enter_container(place, name),
            Fixed::Power(name, _, _) => self.enter_container(place, name),
            Fixed::Thermal(name) => self.enter_container(place, name),
            Fixed::If(_) => self.enter_first(self.place(place)),
            Fixed::Else => self.enter_other(self.place(place)),
            Fixed::While(_) => self.enter_body(self.place(place)),
            _ => Ok(()),
        }
    }

    fn leave(&mut self) -> Result<(), AllocError> {
        self.leave_package()
    }

    fn begin_fields(&mut self, place: usize, fixed: &Fixed) -> Result<(), AllocError> {
        let calls = names_in_fixed(self.memory(), NameUse::Call, fixed)?;
        self.keep_unknown(self.place(place), &calls)?;
        self.pass_other()
    }

    fn pass_field(
        &mut self,
        place: usize,
        fixed: &Fixed,
        element: &FieldElem,
    ) -> Result<(), AllocError> {
        match element {
            FieldElem::Unit(seg, _) => self.declare_unit(place, *seg, fixed),
            _ => self.pass_other(),
        }
    }

    fn pass_closed(
        &mut self,
        place: usize,
        fixed: &Fixed,
        _content: &Bytes,
    ) -> Result<(), AllocError> {
        match fixed {
            Fixed::Scope(name) => self.pass_scope(place, name),
            Fixed::Device(name) => self.pass_container(place, name),
            Fixed::Processor(name, _, _, _) => self.pass_container(place, name),
            Fixed::Power(name, _, _) => self.pass_container(place, name),
            Fixed::Thermal(name) => self.pass_container(place, name),
            Fixed::Method(name, flags) => self.pass_named(place, name, *flags % 8),
            _ => self.pass_other(),
        }
    }
}
