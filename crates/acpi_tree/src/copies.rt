//! Equal values with memory of their own.

ghost use Rattle.std.specs.Prelude.{◌≡◌, IfOk};
ghost use Rattle.acpi_tree.specs.View.{data_view, elem_view, elems_view, field_view, fields_view};
ghost use Rattle.acpi_tree.specs.Objects.{object_view};

use crate::object::Object;
use crate::tree::{Data, Elem, FieldElem};
use std::alloc::{AllocError, Global};

impl Data {
    /// Equal data with memory of its own.
    #[cycle(copy)]
    pub fn copy(&self, alloc: Global) -> Result<Data, AllocError>
        ensures { IfOk result (λ d. data_view d ≡ data_view self.now) }
    {
        match self {
            Data::Int(i) => Ok(Data::Int(*i)),
            Data::Str(s) => Ok(Data::Str(Vec::from_slice(alloc, s)?)),
            Data::Buffer(size, bytes) => Ok(Data::Buffer(*size, Vec::from_slice(alloc, bytes)?)),
            Data::Package(n, elems) => Ok(Data::Package(*n, copy_elems(alloc, elems)?)),
            Data::VarPackage(n, elems) => Ok(Data::VarPackage(*n, copy_elems(alloc, elems)?)),
        }
    }
}

impl Elem {
    /// An equal element with memory of its own.
    #[cycle(copy)]
    pub fn copy(&self, alloc: Global) -> Result<Elem, AllocError>
        ensures { IfOk result (λ e. elem_view e ≡ elem_view self.now) }
    {
        match self {
            Elem::Data(d) => Ok(Elem::Data(d.copy(alloc)?)),
            Elem::Name(n) => Ok(Elem::Name(n.copy()?)),
        }
    }
}

#[cycle(copy)]
fn copy_elems(alloc: Global, elems: &[Elem]) -> Result<Vec<Elem>, AllocError>
    ensures { IfOk result (λ v. elems_view v.items ≡ elems_view elems.now) }
{
    let mut copies = Vec::new(alloc);
    for e in elems {
        copies.push(e.copy(alloc)?)?;
    }
    Ok(copies)
}

impl FieldElem {
    /// An equal element with memory of its own.
    pub fn copy(&self, alloc: Global) -> Result<FieldElem, AllocError>
        ensures { IfOk result (λ e. field_view e ≡ field_view self.now) }
    {
        match self {
            FieldElem::Unit(seg, bits) => Ok(FieldElem::Unit(*seg, *bits)),
            FieldElem::Reserved(bits) => Ok(FieldElem::Reserved(*bits)),
            FieldElem::Access(kind, attribute) => Ok(FieldElem::Access(*kind, *attribute)),
            FieldElem::ConnectName(name) => Ok(FieldElem::ConnectName(name.copy()?)),
            FieldElem::ConnectBuffer(size, bytes) => {
                Ok(FieldElem::ConnectBuffer(*size, Vec::from_slice(alloc, bytes)?))
            }
            FieldElem::Extended(kind, attribute, bytes) => {
                Ok(FieldElem::Extended(*kind, *attribute, *bytes))
            }
        }
    }
}

pub(crate) fn copy_fields(alloc: Global, elems: &[FieldElem]) -> Result<Vec<FieldElem>, AllocError>
    ensures { IfOk result (λ v. fields_view v.items ≡ fields_view elems.now) }
{
    let mut copies = Vec::new(alloc);
    for e in elems {
        copies.push(e.copy(alloc)?)?;
    }
    Ok(copies)
}

impl Object {
    /// An equal object with memory of its own.
    pub fn copy(&self, alloc: Global) -> Result<Object, AllocError>
        ensures { IfOk result (λ o. object_view o ≡ object_view self.now) }
    {
        match self {
            Object::Root => Ok(Object::Root),
            Object::Scope => Ok(Object::Scope),
            Object::Predefined => Ok(Object::Predefined),
            Object::Device => Ok(Object::Device),
            Object::Processor { id, block, length } => Ok(Object::Processor {
                id: *id,
                block: *block,
                length: *length,
            }),
            Object::Power { level, order } => Ok(Object::Power {
                level: *level,
                order: *order,
            }),
            Object::Thermal => Ok(Object::Thermal),
            Object::Name(data) => Ok(Object::Name(data.copy(alloc)?)),
            Object::Method(flags) => Ok(Object::Method(*flags)),
            Object::Region {
                space,
                offset,
                length,
            } => Ok(Object::Region {
                space: *space,
                offset: *offset,
                length: *length,
            }),
            Object::Mutex(flags) => Ok(Object::Mutex(*flags)),
            Object::Event => Ok(Object::Event),
            Object::Field {
                form,
                flags,
                offset,
                bits,
            } => Ok(Object::Field {
                form: *form,
                flags: *flags,
                offset: *offset,
                bits: *bits,
            }),
            Object::Create { width, index } => Ok(Object::Create {
                width: *width,
                index: *index,
            }),
            Object::CreateField { index, bits } => Ok(Object::CreateField {
                index: *index,
                bits: *bits,
            }),
        }
    }
}
