//! Reading the elements of field lists.

ghost use Rattle.std.specs.Prelude.{◌≡◌, ◌++◌, ◌∷◌, [], IfOk, OnOk};
ghost use Rattle.acpi_tree.specs.Offsets.{element_bits};
ghost use Rattle.acpi_tree.specs.View.{field_view};
ghost use Rattle.acpi_outline.specs.Outline.{bits_behind};
ghost use Rattle.acpi_outline.specs.View.{fixed_view, placed_fields, fields_before, fields_end};
ghost use Rattle.acpi_outline.specs.Rules.{after_fields};
ghost use Rattle.acpi_outline.specs.steps.Reading.{fields_at};
ghost use Rattle.acpi_outline.specs.steps.Elements.{ReadsField};

use crate::fault::LostFault;
use crate::known::Known;
use crate::node::{Fixed, Lost, PlacedField};
use acpi_code::{Code, FieldFault, field_element};
use acpi_tree::FieldElem;
use std::alloc::{AllocError, Global};

// The next element, or why none is read.
#[inline(never)]
fn next_field(
    alloc: Global,
    code: &mut Code<'_>,
) -> Result<Result<FieldElem, LostFault>, AllocError>
    ensures { IfOk result (ReadsField code.old code.new) }
{
    match field_element(alloc, code) {
        Ok(element) => Ok(Ok(element)),
        Err(FieldFault::At(fault)) => Ok(Err(fault.into())),
        Err(FieldFault::Memory) => Err(AllocError),
    }
}

// The number of bits that an element takes.
fn element_bits(element: &FieldElem) -> u64
    ensures { result ≡ element_bits (field_view element.now) }
{
    match element {
        FieldElem::Unit(_, bits) => u64::from(*bits),
        FieldElem::Reserved(bits) => u64::from(*bits),
        _ => 0,
    }
}

// The number of bits before the next element.
fn bits_behind(offset: u64, element: &FieldElem) -> u64
    ensures { result ≡ bits_behind offset (field_view element.now) }
{
    offset.saturating_add(element_bits(element))
}

fn put_field(
    read: &mut Vec<PlacedField>,
    place: usize,
    offset: u64,
    element: FieldElem,
) -> Result<(), AllocError>
    ensures { OnOk result (placed_fields read.new.items
        ≡ placed_fields read.old.items ++ (place, offset, field_view element) ∷ []) }
{
    read.push(PlacedField {
        place,
        offset,
        element,
    })?;
    Ok(())
}

/// The elements that are left, to the end or to where the rest is lost.
#[inline(never)]
pub(crate) fn fields<K: Known>(
    known: &mut K,
    fixed: &Fixed,
    code: &mut Code<'_>,
) -> Result<(Vec<PlacedField>, Option<Lost>), AllocError>
    ensures exact { IfOk result (λ fs. fields_before (placed_fields fs.0.items) (fields_end fs.1)
        ≡ fields_at code.old.end code.old.bytes) }
    ensures state { IfOk result (λ fs. known.new ≡ after_fields K.rules known.old
        (fixed_view fixed.now) (fields_before (placed_fields fs.0.items) (fields_end fs.1))) }
{
    let mut read = Vec::new(known.alloc());
    let mut offset = 0u64;
    'each: while !code.is_empty() {
        let place = code.place();
        match next_field(known.alloc(), code)? {
            Ok(element) => {
                known.pass_field(place, fixed, &element)?;
                let behind = bits_behind(offset, &element);
                put_field(&mut read, place, offset, element)?;
                offset = behind;
            }
            Err(fault) => return Ok((read, Some(Lost { place, fault }))),
        }
    }
    Ok((read, None))
}
