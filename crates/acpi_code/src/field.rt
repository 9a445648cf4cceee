//! Reading the elements of field lists.

ghost use Rattle.acpi_tree.specs.View.{field_view, fields_view};
ghost use Rattle.acpi_code.specs.steps.Fields.{connect_buffer_at, connect_name_at, connect_at, unit_at, reserved_at, access_at, extended_at, field_at, fields_in};
ghost use Rattle.acpi_code.specs.steps.Cursor.{Reads, ReadsAll};

use crate::code::Code;
use crate::fault::FieldFault;
use acpi_tree::FieldElem;
use std::alloc::Global;

#[tactic(auto, unfolding(crate::specs::steps::Fields::connect_buffer_at))]
fn connect_buffer(alloc: Global, code: &mut Code<'_>) -> Result<FieldElem, FieldFault>
    ensures { Reads field_view connect_buffer_at code.old code.new result }
{
    let mut inner = code.package()?;
    let size = inner.int()?;
    let bytes = Vec::from_slice(alloc, inner.left())?;
    Ok(FieldElem::ConnectBuffer(size, bytes))
}

#[tactic(auto, unfolding(crate::specs::steps::Fields::connect_name_at))]
fn connect_name(alloc: Global, code: &mut Code<'_>) -> Result<FieldElem, FieldFault>
    ensures { Reads field_view connect_name_at code.old code.new result }
{
    let name = code.name()?;
    Ok(FieldElem::ConnectName(name.own(alloc)?))
}

#[tactic(auto, unfolding(crate::specs::steps::Fields::connect_at))]
fn connect(alloc: Global, code: &mut Code<'_>) -> Result<FieldElem, FieldFault>
    ensures { Reads field_view connect_at code.old code.new result }
{
    let mut behind = code.fork();
    if behind.byte()? == 0x11 {
        *code = behind;
        connect_buffer(alloc, code)
    } else {
        connect_name(alloc, code)
    }
}

#[tactic(auto, unfolding(crate::specs::steps::Fields::unit_at))]
fn unit(code: &mut Code<'_>) -> Result<FieldElem, FieldFault>
    ensures { Reads field_view unit_at code.old code.new result }
{
    let seg = code.segment()?;
    let bits = code.pkg_length()?;
    Ok(FieldElem::Unit(seg, bits))
}

#[tactic(auto, unfolding(crate::specs::steps::Fields::reserved_at))]
fn reserved(code: &mut Code<'_>) -> Result<FieldElem, FieldFault>
    ensures { Reads field_view reserved_at code.old code.new result }
{
    Ok(FieldElem::Reserved(code.pkg_length()?))
}

#[tactic(auto, unfolding(crate::specs::steps::Fields::access_at))]
fn access(code: &mut Code<'_>) -> Result<FieldElem, FieldFault>
    ensures { Reads field_view access_at code.old code.new result }
{
    let kind = code.byte()?;
    let attribute = code.byte()?;
    Ok(FieldElem::Access(kind, attribute))
}

#[tactic(auto, unfolding(crate::specs::steps::Fields::extended_at))]
fn extended(code: &mut Code<'_>) -> Result<FieldElem, FieldFault>
    ensures { Reads field_view extended_at code.old code.new result }
{
    let kind = code.byte()?;
    let attribute = code.byte()?;
    let len = code.byte()?;
    Ok(FieldElem::Extended(kind, attribute, len))
}

/// A field element, by its first byte (ACPI 6.5, 20.2.5.2 FieldElement).
#[tactic(auto, unfolding(crate::specs::steps::Fields::field_at))]
pub fn field_element(alloc: Global, code: &mut Code<'_>) -> Result<FieldElem, FieldFault>
    ensures { Reads field_view field_at code.old code.new result }
{
    let front = code.fork();
    match code.byte()? {
        0 => reserved(code),
        1 => access(code),
        2 => connect(alloc, code),
        3 => extended(code),
        _ => {
            *code = front;
            unit(code)
        }
    }
}

/// The field elements that are left, to the end of the list.
pub fn field_elements(alloc: Global, code: &mut Code<'_>) -> Result<Vec<FieldElem>, FieldFault>
    ensures { ReadsAll (λ v. fields_view v.items) fields_in code.old result }
{
    let mut found = Vec::new(alloc);
    'each: while !code.is_empty() {
        found.push(field_element(alloc, code)?)?;
    }
    Ok(found)
}
