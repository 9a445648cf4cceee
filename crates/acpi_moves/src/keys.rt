//! Keys of objects: bytes that are the same where what is compared of two objects is.

use acpi_kinds::ObjectKind;
use acpi_name::{Path, Seg};
use acpi_overview::{Container, Value};
use std::alloc::{AllocError, Global};

/// The number of what an object is: the same for two objects that have one word.
pub(crate) fn kind_number(kind: ObjectKind<'_>) -> u8 {
    match kind {
        ObjectKind::Root | ObjectKind::Scope => 0,
        ObjectKind::Predefined => 1,
        ObjectKind::Device => 2,
        ObjectKind::Processor { .. } => 3,
        ObjectKind::Power { .. } => 4,
        ObjectKind::Thermal => 5,
        ObjectKind::Name(_) => 6,
        ObjectKind::Method(_) => 7,
        ObjectKind::Region { .. } => 8,
        ObjectKind::TableRegion { .. } => 9,
        ObjectKind::Mutex(_) => 10,
        ObjectKind::Event => 11,
        ObjectKind::Alias => 12,
        ObjectKind::Field { .. } => 13,
        ObjectKind::Create { .. } | ObjectKind::CreateField { .. } => 14,
    }
}

/// The word for what an object is: `device`, `field unit`.
pub fn kind_word(kind: ObjectKind<'_>) -> &'static str {
    match kind_number(kind) {
        0 => "scope",
        1 => "predefined object",
        2 => "device",
        3 => "processor",
        4 => "power resource",
        5 => "thermal zone",
        6 => "name",
        7 => "method",
        8 => "region",
        9 => "table region",
        10 => "mutex",
        11 => "event",
        12 => "alias",
        13 => "field unit",
        _ => "buffer field",
    }
}

// Puts a part of a key, so that no two lists of parts have one key.
fn put_part(key: &mut Vec<u8>, part: &[u8]) -> Result<(), AllocError> {
    key.extend_from_slice(&(part.len() as u64).to_be_bytes())?;
    key.extend_from_slice(part)?;
    Ok(())
}

fn put_path(key: &mut Vec<u8>, path: &[Seg]) -> Result<(), AllocError> {
    put_part(key, &(path.len() as u64).to_be_bytes())?;
    for segment in path {
        put_part(key, &segment.bytes())?;
    }
    Ok(())
}

// Puts a value that is a constant number or a string, and answers whether it is one.
fn put_value(key: &mut Vec<u8>, value: &Value<'_>) -> Result<bool, AllocError> {
    match value {
        Value::Number(number) => put_part(key, &number.to_be_bytes())?,
        Value::Text(bytes) => put_part(key, bytes)?,
        Value::Missing => put_part(key, b"")?,
        _ => return Ok(false),
    }
    Ok(true)
}

// The segments before the last one of a path.
fn around(path: &Path) -> &[Seg] {
    match path.segs() {
        [around @ .., _] => around,
        [] => &[],
    }
}

/// The key of what a device is by its `_HID` and `_UID` (ACPI 6.5, 6.1.5 and 6.1.12); none without a `_HID`.
pub(crate) fn id_key(
    alloc: Global,
    container: &Container<'_>,
) -> Result<Option<Vec<u8>>, AllocError> {
    let mut key = Vec::from_slice(alloc, &[kind_number(container.object.kind)])?;
    if container.values.hid.is_missing() {
        return Ok(None);
    }
    if put_value(&mut key, &container.values.hid)? && put_value(&mut key, &container.values.uid)? {
        return Ok(Some(key));
    }
    Ok(None)
}

// The key of the kind and the `_HID` of a container, if it has none or a constant one.
fn begin_key(alloc: Global, container: &Container<'_>) -> Result<Option<Vec<u8>>, AllocError> {
    let mut key = Vec::from_slice(alloc, &[kind_number(container.object.kind)])?;
    if put_value(&mut key, &container.values.hid)? {
        return Ok(Some(key));
    }
    Ok(None)
}

/// The key of a container by its `_ADR` and the container around it (ACPI 6.5, 6.1.1), at its path in the new version.
pub(crate) fn address_key(
    alloc: Global,
    container: &Container<'_>,
    path: &Path,
) -> Result<Option<Vec<u8>>, AllocError> {
    let Some(mut key) = begin_key(alloc, container)? else {
        return Ok(None);
    };
    if container.values.adr.is_missing() || !put_value(&mut key, &container.values.adr)? {
        return Ok(None);
    }
    put_path(&mut key, around(path))?;
    Ok(Some(key))
}

/// The key of a container by what stands in it and its own name, or the container around it; none where nothing stands in
/// it.
pub(crate) fn member_key(
    alloc: Global,
    container: &Container<'_>,
    path: &Path,
    members: &[Seg],
    is_by_name: bool,
) -> Result<Option<Vec<u8>>, AllocError> {
    let Some(mut key) = begin_key(alloc, container)? else {
        return Ok(None);
    };
    if members.is_empty() {
        return Ok(None);
    }
    put_path(&mut key, members)?;
    match path.segs() {
        [_around @ .., last] if is_by_name => put_part(&mut key, &last.bytes())?,
        _ => put_path(&mut key, around(path))?,
    }
    Ok(Some(key))
}
