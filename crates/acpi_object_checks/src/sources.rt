//! Names in resource descriptors (ACPI 6.5, 6.4.3.5 and 19.2.2).

use acpi_name::Seg;
use std::alloc::{AllocError, Global};

/// A name while its characters are gone through.
#[derive(Debug, Drop)]
struct Segments {
    bytes: Vec<u8>,
    count: u8,
}

// The segment that a text begins, with `_` behind it.
fn segment_of(text: &[u8]) -> Option<Seg> {
    let bytes = match text {
        [a] => [*a, b'_', b'_', b'_'],
        [a, b] => [*a, *b, b'_', b'_'],
        [a, b, c] => [*a, *b, *c, b'_'],
        [a, b, c, d] => [*a, *b, *c, *d],
        _ => return None,
    };
    Seg::new(bytes)
}

// The segments of a text, which stand between dots.
fn segments_of(alloc: Global, text: &[u8]) -> Result<Option<Segments>, AllocError> {
    let mut bytes = Vec::new(alloc);
    let mut count = 0u8;
    if text.is_empty() {
        return Ok(Some(Segments { bytes, count }));
    }
    for part in text.split(|b| *b == b'.') {
        let (Some(seg), Some(next)) = (segment_of(part), count.checked_add(1)) else {
            return Ok(None);
        };
        bytes.extend_from_slice(&seg.bytes())?;
        count = next;
    }
    Ok(Some(Segments { bytes, count }))
}

// Puts what stands before segments (20.2.2 NamePath).
fn put_path_prefix(spelling: &mut Vec<u8>, count: u8) -> Result<(), AllocError> {
    match count {
        0 => spelling.push(0x00)?,
        1 => {}
        2 => spelling.push(0x2E)?,
        _ => spelling.extend_from_slice(&[0x2F, count])?,
    }
    Ok(())
}

/// The bytes that spell the name of a text in a table's code (20.2.2 NameString), if it is one: a backslash or carets,
/// and segments of one to four characters with dots between them.
pub(crate) fn spelling_of(alloc: Global, text: &[u8]) -> Result<Option<Vec<u8>>, AllocError> {
    let mut spelling = Vec::new(alloc);
    let rest = match text {
        [b'\\', rest @ ..] => {
            spelling.push(b'\\')?;
            rest
        }
        _ => {
            let carets = text.iter().take_while(|b| **b == b'^').count();
            for _ in 0..carets {
                spelling.push(b'^')?;
            }
            text.get(carets..).unwrap_or(&[])
        }
    };
    let Some(segments) = segments_of(alloc, rest)? else {
        return Ok(None);
    };
    put_path_prefix(&mut spelling, segments.count)?;
    spelling.extend_from_slice(&segments.bytes)?;
    Ok(Some(spelling))
}
