//! Links of fields, and lines of a listing.

ghost use Rattle.std.specs.Prelude.{◌≡◌, ◌++◌};
ghost use Rattle.acpi_tree.specs.Objects.{object_view};
ghost use Rattle.acpi_text.specs.Lines.{link_text, links_text, line_text};

use crate::names::put_path;
use crate::objects::put_object;
use acpi_name::Path;
use acpi_tree::Object;
use text_buffer::Text;

// What a link answers; without an answer `-`.
fn put_link(text: &mut Text, link: &Option<Path>)
    ensures { text.new ≡ text.old ++ link_text link.now }
{
    match link {
        Some(path) => put_path(text, path),
        None => text.put("-"),
    }
}

/// Puts an arrow and what an object's links answer, with a comma between each two; a link without an answer
/// is `-`. Where there are no links nothing is put.
pub fn put_links(text: &mut Text, links: &[Option<Path>])
    ensures { text.new ≡ text.old ++ links_text links.now }
{
    match links {
        [] => {}
        [first, rest @ ..] => {
            text.put(" -> ");
            put_link(text, first);
            for link in rest {
                text.put(", ");
                put_link(text, link);
            }
        }
    }
}

/// Puts a line: the path, the object, what its links answer, and a line end.
pub fn put_line(text: &mut Text, path: &Path, object: &Object, links: &[Option<Path>])
    ensures { text.new ≡ text.old ++ line_text path.now (object_view object.now) links.now }
{
    put_path(text, path);
    text.put(" ");
    put_object(text, object);
    put_links(text, links);
    text.put("\n")
}
