//! Paths and names.

ghost use Rattle.std.specs.Prelude.{◌≡◌, ◌++◌, ◌∷◌, replicate};
ghost use Rattle.acpi_name.specs.Text.{dotted, name_text, path_text};
ghost use Rattle.acpi_name.specs.NameRefs.{name_parts};

use acpi_name::{NameRef, Path, Seg};
use text_buffer::Text;

// A segment's four characters.
pub(crate) fn put_segment(text: &mut Text, seg: Seg)
    ensures { text.new ≡ text.old ++ seg }
{
    text.put_all(&seg.bytes())
}

// A dot, and a segment's four characters.
fn put_dot_segment(text: &mut Text, seg: Seg)
    ensures { text.new ≡ text.old ++ 46 ∷ seg }
{
    let [a, b, c, d] = seg.bytes();
    text.put_all(&[b'.', a, b, c, d])
}

/// Puts a path (ACPI 6.5, 5.3): a backslash, and the segments with a dot between each two.
pub fn put_path(text: &mut Text, path: &Path)
    ensures { text.new ≡ text.old ++ path_text path.now }
{
    text.put("\\");
    match path.segs() {
        [] => {}
        [first, rest @ ..] => {
            put_segment(text, *first);
            for seg in rest {
                put_dot_segment(text, *seg);
            }
        }
    }
}

// Segments with a dot between each two.
fn put_dotted(text: &mut Text, name: NameRef<'_>)
    ensures { text.new ≡ text.old ++ dotted (name_parts name.entry).segments }
{
    if name.is_empty() {
        return;
    }
    put_segment(text, name.seg(0));
    for i in 1..name.len() {
        put_dot_segment(text, name.seg(i));
    }
}

// A caret for each parent.
fn put_carets(text: &mut Text, count: usize)
    ensures { text.new ≡ text.old ++ replicate count 94 }
{
    for _ in 0..count {
        text.put_one(b'^');
    }
}

/// Puts a name (ACPI 6.5, 20.2.2): `\` if it is rooted, a `^` for each parent, and the segments with a dot
/// between each two; the name without anything is `.`.
pub fn put_name(text: &mut Text, name: NameRef<'_>)
    ensures { text.new ≡ text.old ++ name_text (name_parts name.entry) }
{
    if !name.rooted() && name.parents() == 0 && name.is_empty() {
        return text.put(".");
    }
    if name.rooted() {
        text.put("\\");
    }
    put_carets(text, name.parents());
    put_dotted(text, name)
}
