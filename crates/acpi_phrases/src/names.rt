//! The last segments of paths.

use acpi_name::Path;
use acpi_trimmed::put_trimmed_segment;
use std::alloc::{AllocError, Global};
use text_buffer::Text;

/// Puts the last segment of a path; a backslash for the root.
pub fn put_last(text: &mut Text, path: &Path) {
    match path.segs().last() {
        Some(segment) => put_trimmed_segment(text, *segment),
        None => text.put("\\"),
    }
}

/// The last segment of a path.
pub fn last_name(alloc: Global, path: &Path) -> Result<Vec<u8>, AllocError> {
    let mut text = Text::new(alloc);
    put_last(&mut text, path);
    text.into_bytes()
}

/// Puts the last two segments of a path.
pub fn put_last_two(text: &mut Text, path: &Path) {
    if let [.., parent, _] = path.segs() {
        put_trimmed_segment(text, *parent);
        text.put(".");
    }
    put_last(text, path)
}

/// The last two segments of a path.
pub fn last_two(alloc: Global, path: &Path) -> Result<Vec<u8>, AllocError> {
    let mut text = Text::new(alloc);
    put_last_two(&mut text, path);
    text.into_bytes()
}

/// The path around a path.
pub fn around(path: &Path) -> Result<Path, AllocError> {
    let mut path = path.copy()?;
    path.pop();
    Ok(path)
}
