//! The `id`s of devices, regions, methods and bytes, by which links lead to them.

use acpi_kinds::ObjectKind;
use acpi_machine_facts::MachineFacts;
use acpi_name::Path;
use acpi_overview::{Object, Site};
use acpi_overview_text::put_hex;
use acpi_text::put_decimal;
use acpi_trimmed::put_trimmed_segment;
use std::alloc::{AllocError, Global};
use text_buffer::Text;

// A letter, and the segments of a path with dots between them.
fn id_of(alloc: Global, letter: &str, path: &Path) -> Text {
    let mut id = Text::new(alloc);
    id.put(letter);
    let mut separator = "-";
    for segment in path.segs() {
        id.put(separator);
        separator = ".";
        put_trimmed_segment(&mut id, *segment);
    }
    id
}

/// The `id` of the device at a path.
pub(crate) fn device_id(alloc: Global, path: &Path) -> Text {
    id_of(alloc, "d", path)
}

/// The `id` of an object among others at its path: the first has the letter and the path, others the place of their term too.
fn object_id(facts: &MachineFacts<'_, '_>, letter: &str, object: &Object<'_>) -> Text {
    let mut id = id_of(facts.machine.alloc, letter, object.path);
    let is_first = match facts.machine.at(object.path) {
        [first, ..] => first.number == object.number,
        [] => true,
    };
    if let (false, Some(site)) = (is_first, object.site) {
        id.put("-");
        put_decimal(&mut id, site.table as u64);
        id.put("-");
        put_hex(&mut id, site.offset as u64, 1);
    }
    id
}

/// The `id` of a region of a table.
pub(crate) fn region_id(facts: &MachineFacts<'_, '_>, object: &Object<'_>) -> Text {
    object_id(facts, "r", object)
}

/// The `id` of a method.
pub(crate) fn method_id(facts: &MachineFacts<'_, '_>, object: &Object<'_>) -> Text {
    object_id(facts, "m", object)
}

/// The `id` of the bytes of a table from one on.
pub(crate) fn bytes_id(alloc: Global, site: Site) -> Text {
    let mut id = Text::new(alloc);
    id.put("b-");
    put_decimal(&mut id, site.table as u64);
    id.put("-");
    put_hex(&mut id, site.offset as u64, 1);
    id
}

/// The methods of tables, by path.
pub(crate) fn methods_of<'a>(facts: &MachineFacts<'_, 'a>) -> Result<Vec<Object<'a>>, AllocError> {
    let mut methods = Vec::new(facts.machine.alloc);
    for object in &facts.machine.objects {
        if matches!(object.kind, ObjectKind::Method(_)) && object.site.is_some() {
            methods.push(*object)?;
        }
    }
    Ok(methods)
}
