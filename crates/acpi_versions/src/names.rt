//! Names and bytes in terms, as they are compared and as they are printed.

use crate::resources::template_of;
use crate::sides::Side;
use acpi_check_machine::Line;
use acpi_infix::TermStyle;
use acpi_name::{Name, NameRef, Path, Seg};
use acpi_overview::Object;
use acpi_overview_text::put_descriptor;
use acpi_resources::Descriptor;
use acpi_trimmed::{put_trimmed_name, put_trimmed_path, put_trimmed_segment};
use std::alloc::AllocError;
use text_buffer::Text;

/// Where a term stands.
#[derive(Clone, Copy)]
pub enum TermPlace<'m, 'a> {
    /// It is part of the term of an object.
    Object(&'m Object<'a>),
    /// It stands on a line of the body of a method, which stands at a path of the new version.
    Line(&'m Line<'a>, &'m Path),
}

/// How the names and bytes of terms at a place are printed. A name is that of the path in the new version at which it is
/// found, if that is the only one.
#[derive(Clone, Copy)]
pub struct Names<'m, 'a> {
    /// The version in which the terms stand.
    pub side: Side<'m, 'a>,
    /// Where they stand.
    pub place: TermPlace<'m, 'a>,
    /// Where they are printed for people, the container around: names are as short as they are clear there, and resources are
    /// decoded. Where they are compared, none: paths and bytes are whole.
    pub around: Option<&'m Path>,
}

// The only one of some paths.
fn only(paths: &[Path]) -> Option<&Path> {
    match paths {
        [path] => Some(path),
        _ => None,
    }
}

fn put_segments(text: &mut Text, segments: &[Seg]) {
    let mut separator = "";
    for segment in segments {
        text.put(separator);
        separator = ".";
        put_trimmed_segment(text, *segment);
    }
}

// The last segment of a name.
fn last_of(name: NameRef<'_>) -> Option<Seg> {
    let last = name.len().checked_sub(1)?;
    Some(name.seg(last))
}

// What of a path stands behind that of a scope, if it stands below it.
fn part_below<'p>(path: &'p Path, scope: &Path) -> Option<&'p [Seg]> {
    if path.len() > scope.len() && path.segs().starts_with(scope.segs()) {
        path.segs().get(scope.len()..)
    } else {
        None
    }
}

// The last segment of a path that stands directly in a scope around another, which isn't the root.
fn part_around<'p>(path: &'p Path, scope: &Path) -> Option<&'p [Seg]> {
    let [before @ .., last] = path.segs() else {
        return None;
    };
    if !before.is_empty() && scope.segs().starts_with(before) {
        Some(std::slice::from_ref(last))
    } else {
        None
    }
}

impl<'m, 'a> Names<'m, 'a> {
    // The path in the new version at which a name is found, if it is the only one.
    fn find(&self, name: &Name) -> Result<Option<Path>, AllocError> {
        match self.place {
            TermPlace::Line(line, _) => match line.name(name).and_then(|n| only(&n.paths)) {
                Some(path) => Ok(Some(self.side.moves.new_path(path)?)),
                None => Ok(None),
            },
            TermPlace::Object(object) => {
                let Some(found) = self.side.machine.search(object, name.view())? else {
                    return Ok(None);
                };
                match only(&found.paths) {
                    Some(path) => Ok(Some(self.side.moves.new_path(path)?)),
                    None => Ok(None),
                }
            }
        }
    }

    // Whether a name that ends with the segment may mean one thing in both versions.
    fn is_common(&self, segment: Seg) -> bool {
        self.side.common.contains(&segment)
    }

    // What of a path is clear within a container: what stands in it or around it by its name, what stands below it or below
    // the method by the way.
    fn clear_part<'p>(&self, path: &'p Path, around: &Path) -> Option<&'p [Seg]> {
        if let TermPlace::Line(_, method) = self.place {
            if let Some(segments) = part_below(path, method) {
                return Some(segments);
            }
        }
        match part_below(path, around) {
            Some(segments) => Some(segments),
            None => part_around(path, around),
        }
    }

    /// Puts a path of the new version.
    pub fn put_path(&self, text: &mut Text, path: &Path) {
        match (self.around, path.segs().last()) {
            (Some(around), _) => match self.clear_part(path, around) {
                Some(segments) => put_segments(text, segments),
                None => put_trimmed_path(text, path),
            },
            (None, Some(last)) if !self.is_common(*last) => put_trimmed_segment(text, *last),
            (None, _) => put_trimmed_path(text, path),
        }
    }

    // Puts a name that is found at no path, or at several.
    fn put_spelled(&self, text: &mut Text, name: NameRef<'_>) {
        match last_of(name) {
            Some(last) if self.around.is_none() && !self.is_common(last) => {
                put_trimmed_segment(text, last)
            }
            _ => put_trimmed_name(text, name),
        }
    }
}

impl<'m, 'a> TermStyle for Names<'m, 'a> {
    fn put_name(&self, text: &mut Text, name: &Name) -> Result<(), AllocError> {
        match self.find(name)? {
            Some(path) => self.put_path(text, &path),
            None => self.put_spelled(text, name.view()),
        }
        Ok(())
    }

    fn put_bytes(&self, text: &mut Text, bytes: &[u8]) -> Result<bool, AllocError> {
        if self.around.is_none() {
            return Ok(false);
        }
        let Some(template) = template_of(text.alloc(), bytes)? else {
            return Ok(false);
        };
        text.put("Resources{");
        let mut separator = "";
        for descriptor in &template.descriptors {
            if let Descriptor::EndTag(_) = descriptor {
                continue;
            }
            text.put(separator);
            separator = ", ";
            put_descriptor(text, descriptor);
        }
        text.put("}");
        Ok(true)
    }
}
