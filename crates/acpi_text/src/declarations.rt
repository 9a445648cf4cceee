//! Declarations of method bodies.

ghost use Rattle.std.specs.Prelude.{◌≡◌, ◌++◌, ◌∷◌, [], codes, map};
ghost use Rattle.acpi_name.specs.Text.{name_text};
ghost use Rattle.acpi_tree.specs.Terms.{declare, declare_units, more, no_terms, raw};
ghost use Rattle.acpi_tree.specs.View.{fields_view};
ghost use Rattle.acpi_tree.specs.TermView.{term_view, decl_view};
ghost use Rattle.acpi_tree.specs.declared.place.NamedForm.TheVariants as named;
ghost use Rattle.acpi_tree.specs.declared.place.UnitsForm.TheVariants as units;
ghost use Rattle.acpi_text.specs.Terms.{braces_text, field_text, term_text, raw_text};
ghost use Rattle.acpi_text.specs.Terms.{width_text};

use crate::fields::put_fields;
use crate::names::put_name;
use crate::numbers::put_raw;
use crate::objects::put_width;
use crate::terms::put_term;
use acpi_name::Name;
use acpi_tree::{Decl, FieldElem, Term, Width};
use text_buffer::Text;

// The word of a declaration, a parenthesis, and the name that comes first.
fn put_first_name(text: &mut Text, word: &str, name: &Name)
    ensures { text.new ≡ text.old ++ (word.now ++ codes "(" ++ name_text name.now) }
{
    text.put(word);
    text.put("(");
    put_name(text, name.view())
}

// .. and one more, behind which other arguments stand
fn put_two_names(text: &mut Text, word: &str, name: &Name, next: &Name)
    ensures { text.new ≡ text.old ++ (word.now ++ codes "(" ++ name_text name.now ++ codes ", " ++
        name_text next.now) }
{
    put_first_name(text, word, name);
    put_next_name(text, next)
}

// One more argument: a name.
fn put_next_name(text: &mut Text, name: &Name)
    ensures { text.new ≡ text.old ++ (codes ", " ++ name_text name.now) }
{
    text.put(", ");
    put_name(text, name.view())
}

// The last argument: a name.
fn put_last_name(text: &mut Text, name: &Name)
    ensures { text.new ≡ text.old ++ (codes ", " ++ name_text name.now ++ codes ")") }
{
    put_next_name(text, name);
    text.put(")")
}

// The word of a Create declaration, and a parenthesis.
fn put_create(text: &mut Text, width: Width)
    ensures { text.new ≡ text.old ++ (codes "Create" ++ width_text width ++ codes "Field(") }
{
    text.put("Create");
    put_width(text, width);
    text.put("Field(")
}

// The name of a region, and its space.
fn put_space(text: &mut Text, name: &Name, space: u8)
    ensures { text.new ≡ text.old ++ (codes "OperationRegion(" ++ name_text name.now ++ codes ", "
        ++ raw_text 1 space) }
{
    put_first_name(text, "OperationRegion", name);
    put_raw(text, ", ", space)
}

// One more argument: a term.
#[cycle(put_term)]
fn put_next_term(text: &mut Text, term: &Term)
    ensures { text.new ≡ text.old ++ (codes ", " ++ term_text (term_view term.now)) }
{
    text.put(", ");
    put_term(text, term)
}

// A declaration.
#[cycle(put_term)]
#[inline(never)]
pub(crate) fn put_decl(text: &mut Text, decl: &Decl)
    ensures { text.new ≡ text.old ++ term_text (decl_view decl.now) }
{
    match decl {
        Decl::Name(name, data) => {
            put_first_name(text, "Name", name);
            put_next_term(text, data);
            text.put(")")
        }
        Decl::Create {
            width,
            source,
            index,
            name,
        } => {
            put_create(text, *width);
            put_term(text, source);
            put_next_term(text, index);
            put_last_name(text, name)
        }
        Decl::CreateField {
            source,
            index,
            bits,
            name,
        } => {
            text.put("CreateField(");
            put_term(text, source);
            put_next_term(text, index);
            put_next_term(text, bits);
            put_last_name(text, name)
        }
        Decl::Mutex(name, flags) => put_mutex(text, name, *flags),
        Decl::Event(name) => put_event(text, name),
        Decl::Region {
            name,
            space,
            offset,
            length,
        } => {
            put_space(text, name, *space);
            put_next_term(text, offset);
            put_next_term(text, length);
            text.put(")")
        }
        Decl::Field {
            region,
            flags,
            elems,
        } => put_field(text, region, *flags, elems),
        Decl::IndexField {
            index,
            datum,
            flags,
            elems,
        } => put_index_field(text, index, datum, *flags, elems),
        Decl::BankField {
            region,
            bank,
            value,
            flags,
            elems,
        } => put_bank_field(text, region, bank, value, *flags, elems),
    }
}

// The forms apart, but for those with several terms, whose proof goes down them together.

fn put_mutex(text: &mut Text, name: &Name, flags: u8)
    ensures { text.new ≡ text.old ++ term_text (declare named.Mutex no_terms name.now (more (raw 1
        flags) no_terms)) }
{
    put_first_name(text, "Mutex", name);
    put_raw(text, ", ", flags);
    text.put(")")
}

fn put_event(text: &mut Text, name: &Name)
    ensures { text.new ≡ text.old ++ term_text (declare named.Event no_terms name.now no_terms) }
{
    put_first_name(text, "Event", name);
    text.put(")")
}

// The flags of field units, which are the last argument, and the units.
fn put_units(text: &mut Text, flags: u8, elems: &[FieldElem])
    ensures { text.new ≡ text.old ++ (codes ", " ++ raw_text 1 flags ++ codes ") " ++ braces_text
        (map field_text (fields_view elems.now))) }
{
    put_raw(text, ", ", flags);
    text.put(") ");
    put_fields(text, elems)
}

fn put_field(text: &mut Text, region: &Name, flags: u8, elems: &[FieldElem])
    ensures { text.new ≡ text.old ++ term_text (declare_units units.Field (region.now ∷ []) (more
        (raw 1 flags) no_terms) (fields_view elems.now)) }
{
    put_first_name(text, "Field", region);
    put_units(text, flags, elems)
}

fn put_index_field(text: &mut Text, index: &Name, datum: &Name, flags: u8, elems: &[FieldElem])
    ensures { text.new ≡ text.old ++ term_text (declare_units units.IndexField (index.now ∷
        datum.now ∷ []) (more (raw 1 flags) no_terms) (fields_view elems.now)) }
{
    put_two_names(text, "IndexField", index, datum);
    put_units(text, flags, elems)
}

#[cycle(put_term)]
fn put_bank_field(
    text: &mut Text,
    region: &Name,
    bank: &Name,
    value: &Term,
    flags: u8,
    elems: &[FieldElem],
)
    ensures { text.new ≡ text.old ++ term_text (declare_units units.BankField (region.now ∷ bank.now
        ∷ []) (more (term_view value.now) (more (raw 1 flags) no_terms)) (fields_view elems.now)) }
{
    put_two_names(text, "BankField", region, bank);
    put_next_term(text, value);
    put_units(text, flags, elems)
}
