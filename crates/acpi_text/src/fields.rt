//! Field lists of method bodies.

ghost use Rattle.std.specs.Prelude.{◌≡◌, ◌++◌, map, codes};
ghost use Rattle.acpi_tree.specs.View.{field_view, fields_view};
ghost use Rattle.acpi_text.specs.Terms.{braces_text, field_text, raw_text};

use crate::bytes::put_bytes;
use crate::data::put_sized;
use crate::names::{put_name, put_segment};
use crate::numbers::{put_number, put_raw};
use acpi_tree::FieldElem;
use text_buffer::Text;

// A word, access type and attribute of an element.
fn put_access(text: &mut Text, word: &str, kind: u8, attribute: u8)
    ensures { text.new ≡ text.old ++ (word.now ++ raw_text 1 kind ++ codes " " ++ raw_text 1
        attribute) }
{
    put_raw(text, word, kind);
    put_raw(text, " ", attribute)
}

fn put_field_elem(text: &mut Text, elem: &FieldElem)
    ensures { text.new ≡ text.old ++ field_text (field_view elem.now) }
{
    match elem {
        FieldElem::Unit(seg, bits) => {
            put_segment(text, *seg);
            put_number(text, " ", u64::from(*bits))
        }
        FieldElem::Reserved(bits) => put_number(text, "Reserved ", u64::from(*bits)),
        FieldElem::Access(kind, attribute) => put_access(text, "Access ", *kind, *attribute),
        FieldElem::ConnectName(name) => {
            text.put("Connect ");
            put_name(text, name.view())
        }
        FieldElem::ConnectBuffer(size, bytes) => {
            put_sized(text, "Connect Buffer", *size);
            put_bytes(text, bytes)
        }
        FieldElem::Extended(kind, attribute, count) => {
            put_access(text, "Extended ", *kind, *attribute);
            put_raw(text, " ", *count)
        }
    }
}

// The elements of a field list, in braces.
pub(crate) fn put_fields(text: &mut Text, elems: &[FieldElem])
    ensures { text.new ≡ text.old ++ braces_text (map field_text (fields_view elems.now)) }
{
    match elems {
        [] => text.put("{}"),
        [first, rest @ ..] => {
            text.put("{");
            put_field_elem(text, first);
            for elem in rest {
                text.put(", ");
                put_field_elem(text, elem);
            }
            text.put("}")
        }
    }
}
