//! Fields that end behind their region or buffer (ACPI 6.5, 19.6.46 and 19.6.21).

use crate::texts::put_large;
use crate::units::{Declared, Unit, first_found, first_linked, units_of};
use acpi_check_machine::{Body, CheckId, Finding, FoundObject, Machine, constant};
use acpi_kinds::ObjectKind;
use acpi_name::Path;
use acpi_overview::Object;
use acpi_tree::{Term, Width};
use acpi_trimmed::put_trimmed_path;
use std::alloc::{AllocError, Global};
use text_buffer::Text;

const REGION_LIMIT: &str = " (Linux aborts its use: AE_AML_REGION_LIMIT)";

const BUFFER_LIMIT: &str = " (Linux aborts: AE_AML_BUFFER_LIMIT)";

// `ends at byte 3 of \REG0, which has 2 (..)`, of a field whose last bit is the one before that.
fn text_of(alloc: Global, end: u128, around: &Path, bytes: u64, limit: &str) -> Text {
    let mut text = Text::new(alloc);
    text.put("ends at byte ");
    put_large(&mut text, end.saturating_add(7) / 8);
    text.put(" of ");
    put_trimmed_path(&mut text, around);
    text.put(", which has ");
    put_large(&mut text, u128::from(bytes));
    text.put(limit);
    text
}

fn is_past(end: u128, bytes: u64) -> bool {
    end > u128::from(bytes).saturating_mul(8)
}

// ---- field units

fn past_region(alloc: Global, unit: &Unit<'_, '_>) -> Option<Text> {
    let ObjectKind::Region { length, .. } = unit.region.kind() else {
        return None;
    };
    let length = constant(length)?;
    let end = u128::from(unit.offset).saturating_add(u128::from(unit.bits));
    if is_past(end, length) {
        Some(text_of(alloc, end, unit.region.path(), length, REGION_LIMIT))
    } else {
        None
    }
}

// ---- Create fields

fn width_of(width: Width) -> u64 {
    match width {
        Width::Bit => 1,
        Width::Byte => 8,
        Width::Word => 16,
        Width::DWord => 32,
        Width::QWord => 64,
    }
}

// The first bit behind a Create field of constant place and width.
fn end_of(kind: ObjectKind<'_>) -> Option<u128> {
    let (index, bits, unit) = match kind {
        ObjectKind::Create { width, index, .. } => {
            let unit = if width == Width::Bit { 1 } else { 8 };
            (index, width_of(width), unit)
        }
        ObjectKind::CreateField { index, bits, .. } => (index, constant(bits)?, 1),
        _ => return None,
    };
    let first = u128::from(constant(index)?).saturating_mul(unit);
    Some(first.saturating_add(u128::from(bits)))
}

// How many bytes a buffer of constant size has: the size that is said or the bytes that are given, if these are more.
fn bytes_of(kind: ObjectKind<'_>) -> Option<u64> {
    match kind {
        ObjectKind::Name(Some(Term::Buffer(size, bytes))) => {
            Some(constant(size)?.max(bytes.len() as u64))
        }
        _ => None,
    }
}

fn past_buffer(
    alloc: Global,
    kind: ObjectKind<'_>,
    source: Option<FoundObject<'_, '_>>,
) -> Option<Text> {
    let source = source?;
    let bytes = bytes_of(source.kind())?;
    let end = end_of(kind)?;
    if is_past(end, bytes) {
        Some(text_of(alloc, end, source.path(), bytes, BUFFER_LIMIT))
    } else {
        None
    }
}

// Puts a finding of a Create field of a table, if it ends behind its buffer.
fn check_entry<'a>(
    machine: &Machine<'a>,
    object: &Object<'a>,
    found: &mut Vec<Finding>,
) -> Result<(), AllocError> {
    if end_of(object.kind).is_none() {
        return Ok(());
    }
    let source = first_linked(machine, object.number)?;
    match past_buffer(machine.alloc, object.kind, source) {
        Some(text) => Declared::of_table(object).put_finding(found, CheckId::Past, text),
        None => Ok(()),
    }
}

// Puts a finding of each Create field of a body that ends behind its buffer.
fn check_body<'m, 'a>(
    machine: &'m Machine<'a>,
    body: &'m Body<'a>,
    found: &mut Vec<Finding>,
) -> Result<(), AllocError> {
    for local in body.locals_by_path(machine.alloc)? {
        let source = first_found(machine, body, local);
        if let Some(text) = past_buffer(machine.alloc, local.object, source) {
            Declared::of_body(body, local).put_finding(found, CheckId::Past, text)?;
        }
    }
    Ok(())
}

/// Field units that end behind their region, and Create fields that end behind their buffer: the only object that their
/// name may find, and of constant length.
pub(crate) fn fields_past(
    machine: &Machine<'_>,
    found: &mut Vec<Finding>,
) -> Result<(), AllocError> {
    for unit in &units_of(machine)? {
        if let Some(text) = past_region(machine.alloc, unit) {
            unit.declared.put_finding(found, CheckId::Past, text)?;
        }
    }
    for object in &machine.objects {
        check_entry(machine, object, found)?;
    }
    for body in &machine.bodies {
        check_body(machine, body, found)?;
    }
    Ok(())
}
