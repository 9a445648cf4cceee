//! Constant data.

ghost use Rattle.std.specs.Prelude.{◌≡◌, ◌++◌, codes, decimal};
ghost use Rattle.acpi_tree.specs.Tree.{elems_of};
ghost use Rattle.acpi_tree.specs.DataTerms.{data_term, elem_term, elem_terms};
ghost use Rattle.acpi_tree.specs.View.{data_view, elem_view, elems_view};
ghost use Rattle.acpi_text.specs.Constants.{int_text};
ghost use Rattle.acpi_text.specs.Terms.{braces_text, term_text, term_texts};

use crate::bytes::{put_bytes, put_string};
use crate::names::put_name;
use crate::numbers::{put_int, put_number};
use acpi_tree::{Data, Elem, Int};
use text_buffer::Text;

// A word, and a constant in parentheses.
pub(crate) fn put_sized(text: &mut Text, word: &str, size: Int)
    ensures { text.new ≡ text.old ++ (word.now ++ codes "(" ++ int_text size ++ codes ")") }
{
    text.put(word);
    text.put("(");
    put_int(text, size);
    text.put(")")
}

// The count of a package's elements.
pub(crate) fn put_count(text: &mut Text, count: u64)
    ensures { text.new ≡ text.old ++ (codes "Package(" ++ decimal count ++ codes ")") }
{
    put_number(text, "Package(", count);
    text.put(")")
}

#[cycle(put_data)]
fn put_elem(text: &mut Text, elem: &Elem)
    ensures { text.new ≡ text.old ++ term_text (elem_term (elem_view elem.now)) }
{
    match elem {
        Elem::Data(data) => put_data(text, data),
        Elem::Name(name) => put_name(text, name.view()),
    }
}

// Elements in braces.
#[cycle(put_data)]
fn put_elems(text: &mut Text, elems: &[Elem])
    ensures { text.new ≡ text.old
        ++ braces_text (term_texts (elem_terms (elems_of (elems_view elems.now)))) }
{
    match elems {
        [] => text.put("{}"),
        [first, rest @ ..] => {
            text.put("{");
            put_elem(text, first);
            for elem in rest {
                text.put(", ");
                put_elem(text, elem);
            }
            text.put("}")
        }
    }
}

/// Puts data in the form in which it was written (ACPI 6.5, 20.2.3): a constant, a string between quotes,
/// `Buffer(0x02){01 02}`, `Package(2){Zero, \_SB_.PCI0}` or `VarPackage(0x02){One}`.
#[cycle(put_data)]
pub fn put_data(text: &mut Text, data: &Data)
    ensures { text.new ≡ text.old ++ term_text (data_term (data_view «data».now)) }
{
    match data {
        Data::Int(int) => put_int(text, *int),
        Data::Str(bytes) => put_string(text, bytes),
        Data::Buffer(size, bytes) => {
            put_sized(text, "Buffer", *size);
            put_bytes(text, bytes)
        }
        Data::Package(count, elems) => {
            put_count(text, u64::from(*count));
            put_elems(text, elems)
        }
        Data::VarPackage(count, elems) => {
            put_sized(text, "VarPackage", *count);
            put_elems(text, elems)
        }
    }
}
