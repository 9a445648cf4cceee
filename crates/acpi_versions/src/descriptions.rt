//! Objects in a few words.

use crate::names::{Names, TermPlace};
use crate::sides::Side;
use acpi_entries::{Link, links_of};
use acpi_infix::{TermStyle, put_infix};
use acpi_kinds::ObjectKind;
use acpi_moves::kind_word;
use acpi_name::Path;
use acpi_overview::{Object, Value};
use acpi_overview_text::{put_hex, put_id, space_word};
use acpi_text::put_decimal;
use acpi_tree::{Term, Width};
use std::alloc::AllocError;
use text_buffer::Text;

/// An object in a few words.
#[derive(Debug, Drop)]
pub struct Description {
    /// What it is: `name`, `method`.
    pub word: &'static str,
    /// What is said of it, as it is compared.
    pub exact: Vec<u8>,
    /// What is said of it, as it is printed.
    pub shown: Vec<u8>,
}

fn put_arguments(text: &mut Text, flags: u8) {
    let count = flags % 8;
    put_decimal(text, u64::from(count));
    text.put(if count == 1 {
        " argument"
    } else {
        " arguments"
    })
}

// A number behind a word, in hexadecimal.
fn put_part(text: &mut Text, word: &str, number: u64) {
    text.put(word);
    put_hex(text, number, 1)
}

// Whether the name of an object is that of ids (ACPI 6.5, 6.1.2 and 6.1.5).
fn has_ids(object: &Object<'_>) -> bool {
    match object.path.segs().last() {
        Some(segment) => matches!(&segment.bytes(), b"_HID" | b"_CID"),
        None => false,
    }
}

fn put_value(
    text: &mut Text,
    names: &Names<'_, '_>,
    object: &Object<'_>,
    value: Option<&Term>,
) -> Result<(), AllocError> {
    match value {
        Some(term) if names.around.is_some() && has_ids(object) => {
            put_id(text, &Value::of_term(term));
            Ok(())
        }
        Some(term) => put_infix(text, names, term),
        None => {
            text.put("?");
            Ok(())
        }
    }
}

fn put_space(text: &mut Text, space: u8) {
    match space_word(space) {
        "vendor" => put_part(text, "space ", u64::from(space)),
        word => text.put(word),
    }
}

// The number of a constant.
fn number_of(term: &Term) -> Option<u64> {
    Value::of_term(term).number()
}

// The first and the last address of a region, or where it begins and its length.
fn put_region(
    text: &mut Text,
    names: &Names<'_, '_>,
    space: u8,
    offset: &Term,
    length: &Term,
) -> Result<(), AllocError> {
    put_space(text, space);
    if let (Some(from), Some(count @ 1..)) = (number_of(offset), number_of(length)) {
        put_part(text, " ", from);
        put_part(text, "-", from.saturating_add(count - 1));
        return Ok(());
    }
    text.put(" at ");
    put_infix(text, names, offset)?;
    text.put(", ");
    put_infix(text, names, length)?;
    text.put(" bytes");
    Ok(())
}

// What a link finds.
fn put_link(text: &mut Text, names: &Names<'_, '_>, link: &Link<'_>) -> Result<(), AllocError> {
    match link.paths.as_slice() {
        [path] => {
            names.put_path(text, &names.side.moves.new_path(path)?);
            Ok(())
        }
        _ => names.put_name(text, link.name),
    }
}

fn put_links(
    text: &mut Text,
    names: &Names<'_, '_>,
    object: &Object<'_>,
) -> Result<(), AllocError> {
    let mut separator = match object.kind {
        ObjectKind::Alias => "of ",
        _ => " of ",
    };
    for link in &links_of(names.side.machine.survey, object.number)? {
        text.put(separator);
        separator = ", ";
        put_link(text, names, link)?;
    }
    Ok(())
}

fn bits_of(width: Width) -> u64 {
    match width {
        Width::Bit => 1,
        Width::Byte => 8,
        Width::Word => 16,
        Width::DWord => 32,
        Width::QWord => 64,
    }
}

// Where a Create field of a fixed width stands.
fn put_create(
    text: &mut Text,
    names: &Names<'_, '_>,
    width: Width,
    source: Option<&Term>,
    index: &Term,
) -> Result<(), AllocError> {
    put_decimal(text, bits_of(width));
    text.put(if bits_of(width) == 1 {
        " bit at bit "
    } else {
        " bits at byte "
    });
    put_infix(text, names, index)?;
    put_source(text, names, source)
}

fn put_source(
    text: &mut Text,
    names: &Names<'_, '_>,
    source: Option<&Term>,
) -> Result<(), AllocError> {
    match source {
        Some(term) => {
            text.put(" of ");
            put_infix(text, names, term)
        }
        None => Ok(()),
    }
}

// Where a buffer field stands, and what an object with links is of.
fn put_linked(
    text: &mut Text,
    names: &Names<'_, '_>,
    object: &Object<'_>,
) -> Result<(), AllocError> {
    match object.kind {
        ObjectKind::Create {
            width,
            source,
            index,
        } => put_create(text, names, width, source, index)?,
        ObjectKind::CreateField {
            source,
            index,
            bits,
        } => {
            put_infix(text, names, bits)?;
            text.put(" bits at bit ");
            put_infix(text, names, index)?;
            put_source(text, names, source)?;
        }
        _ => {}
    }
    put_links(text, names, object)
}

// What is said of an object beside what it is.
fn put_object(
    text: &mut Text,
    names: &Names<'_, '_>,
    object: &Object<'_>,
) -> Result<(), AllocError> {
    match object.kind {
        ObjectKind::Name(value) => put_value(text, names, object, value)?,
        ObjectKind::Method(flags) => put_arguments(text, flags),
        ObjectKind::Region {
            space,
            offset,
            length,
        } => put_region(text, names, space, offset, length)?,
        ObjectKind::TableRegion {
            signature,
            oem_id,
            oem_table_id,
        } => {
            let mut separator = "";
            for part in [signature, oem_id, oem_table_id] {
                text.put(separator);
                separator = " ";
                put_infix(text, names, part)?;
            }
        }
        ObjectKind::Mutex(flags) => put_part(text, "level ", u64::from(flags % 16)),
        ObjectKind::Processor { id, block, length } => {
            put_part(text, "id ", u64::from(id));
            put_part(text, " block ", u64::from(block));
            put_part(text, " length ", u64::from(length));
        }
        ObjectKind::Power { level, order } => {
            put_part(text, "level ", u64::from(level));
            put_part(text, " order ", u64::from(order));
        }
        ObjectKind::Alias | ObjectKind::Create { .. } | ObjectKind::CreateField { .. } => {
            put_linked(text, names, object)?
        }
        _ => {}
    }
    Ok(())
}

/// An object of a version in a few words; the container around it stands at a path of the new version.
pub fn describe<'m, 'a>(
    side: Side<'m, 'a>,
    object: &'m Object<'a>,
    around: &'m Path,
) -> Result<Description, AllocError> {
    let alloc = side.machine.alloc;
    let mut names = Names {
        side,
        place: TermPlace::Object(object),
        around: None,
    };
    let mut exact = Text::new(alloc);
    put_object(&mut exact, &names, object)?;
    names.around = Some(around);
    let mut shown = Text::new(alloc);
    put_object(&mut shown, &names, object)?;
    Ok(Description {
        word: kind_word(object.kind),
        exact: exact.into_bytes()?,
        shown: shown.into_bytes()?,
    })
}
