//! Resource templates of two versions (ACPI 6.5, 6.4).

use acpi_kinds::ObjectKind;
use acpi_overview::Object;
use acpi_overview_text::put_descriptor;
use acpi_resources::{Descriptor, Template, decode, split_descriptor};
use acpi_text::put_spaced;
use acpi_tree::Term;
use std::alloc::{AllocError, Global};
use std::collections::BTreeSet;
use text_buffer::Text;

/// The descriptors of bytes that are a resource template, all of them of known kinds, with one at least beside the end tag.
pub(crate) fn template_of(alloc: Global, bytes: &[u8]) -> Result<Option<Template<'_>>, AllocError> {
    if bytes.len() < 4 {
        return Ok(None);
    }
    let template = decode(alloc, bytes)?;
    let is_known = template.stop.is_none()
        && !template
            .descriptors
            .iter()
            .any(|d| matches!(d, Descriptor::Other(_)));
    if is_known {
        Ok(Some(template))
    } else {
        Ok(None)
    }
}

// The bytes of a buffer that is the value of an object.
fn buffer_of<'a>(object: &Object<'a>) -> Option<&'a [u8]> {
    match object.kind {
        ObjectKind::Name(Some(Term::Buffer(_, bytes))) => Some(bytes.as_slice()),
        _ => None,
    }
}

/// A descriptor, and its bytes.
#[derive(Debug, Clone, Copy)]
struct SpelledDescriptor<'b> {
    descriptor: Descriptor<'b>,
    bytes: &'b [u8],
}

// The descriptors of a template with their bytes.
fn descriptors_of(alloc: Global, bytes: &[u8]) -> Result<Vec<SpelledDescriptor<'_>>, AllocError> {
    let mut list = Vec::new(alloc);
    let mut rest = bytes;
    for _ in 0..bytes.len() {
        let Some((descriptor, behind)) = split_descriptor(rest) else {
            break;
        };
        let length = rest.len().saturating_sub(behind.len());
        list.push(SpelledDescriptor {
            descriptor,
            bytes: rest.get(..length).unwrap_or(rest),
        })?;
        rest = behind;
    }
    Ok(list)
}

// The descriptors of a list that another hasn't, with their bytes or without.
fn put_missing(
    text: &mut Text,
    list: &[SpelledDescriptor<'_>],
    other: &[SpelledDescriptor<'_>],
    has_bytes: bool,
) -> Result<(), AllocError> {
    let mut known = BTreeSet::new(text.alloc());
    for found in other {
        known.insert(found.bytes)?;
    }
    let mut separator = "";
    for found in list {
        let is_end = matches!(found.descriptor, Descriptor::EndTag(_));
        if is_end || known.contains(&found.bytes) {
            continue;
        }
        text.put(separator);
        separator = ", ";
        put_descriptor(text, &found.descriptor);
        if has_bytes {
            text.put(" {");
            put_spaced(text, found.bytes);
            text.put("}");
        }
    }
    Ok(())
}

// .. of each of two lists.
fn missing(
    alloc: Global,
    old: &[SpelledDescriptor<'_>],
    new: &[SpelledDescriptor<'_>],
    has_bytes: bool,
) -> Result<(Vec<u8>, Vec<u8>), AllocError> {
    let mut gone = Text::new(alloc);
    put_missing(&mut gone, old, new, has_bytes)?;
    let mut come = Text::new(alloc);
    put_missing(&mut come, new, old, has_bytes)?;
    Ok((gone.into_bytes()?, come.into_bytes()?))
}

/// The descriptors of two templates that only one has, with their bytes where their texts are the same.
pub fn missing_descriptors(
    alloc: Global,
    old: &[u8],
    new: &[u8],
) -> Result<(Vec<u8>, Vec<u8>), AllocError> {
    let old = descriptors_of(alloc, old)?;
    let new = descriptors_of(alloc, new)?;
    let (gone, come) = missing(alloc, &old, &new, false)?;
    if gone == come {
        return missing(alloc, &old, &new, true);
    }
    Ok((gone, come))
}

/// The bytes of two objects whose values are buffers that are resource templates.
pub fn templates_of<'a>(
    alloc: Global,
    old: &Object<'a>,
    new: &Object<'a>,
) -> Result<Option<(&'a [u8], &'a [u8])>, AllocError> {
    let (Some(from), Some(to)) = (buffer_of(old), buffer_of(new)) else {
        return Ok(None);
    };
    if template_of(alloc, from)?.is_none() || template_of(alloc, to)?.is_none() {
        return Ok(None);
    }
    Ok(Some((from, to)))
}
