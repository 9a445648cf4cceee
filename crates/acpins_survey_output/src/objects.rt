//! The text of objects.

ghost use Rattle.std.specs.Prelude.{◌≡◌, ◌++◌, codes};
ghost use Rattle.std.specs.Option.{option_map};
ghost use Rattle.acpi_tree.specs.TermView.{term_view};
ghost use Rattle.acpi_text.specs.Terms.{term_text};
ghost use Rattle.acpi_text.specs.Terms.{width_text};
ghost use Rattle.acpi_objects.specs.Objects.{region, table_region, bank_unit};
ghost use Rattle.acpi_objects.specs.Views.{kind_view, lent_view, unit_view};
ghost use Rattle.acpins_survey_output.specs.Objects.{named_text, parts_text, source_of};

use acpi_objects::{ObjectKind, UnitForm};
use acpi_text::{put_byte, put_decimal, put_object, put_term};
use acpi_tree::{FieldForm, Object, Term, Width};
use text_buffer::Text;

// What stands before a term, and the term.
fn put_behind(text: &mut Text, before: &str, term: &Term)
    ensures { text.new ≡ text.old ++ (before.now ++ term_text (term_view term.now)) }
{
    text.put(before);
    put_term(text, term)
}

fn put_name(text: &mut Text, value: Option<&Term>)
    ensures { text.new ≡ text.old ++ named_text (option_map lent_view value.entry) }
{
    match value {
        Some(term) => put_behind(text, "Name ", term),
        None => text.put("Name ?"),
    }
}

fn put_region(text: &mut Text, space: u8, offset: &Term, length: &Term)
    ensures { text.new ≡ text.old ++ parts_text (region space (term_view offset.now)
        (term_view length.now)) }
{
    text.put("OperationRegion space=");
    put_byte(text, space);
    put_behind(text, " offset=", offset);
    put_behind(text, " length=", length)
}

fn put_table_region(text: &mut Text, signature: &Term, oem_id: &Term, oem_table_id: &Term)
    ensures { text.new ≡ text.old ++ parts_text (table_region (term_view signature.now)
        (term_view oem_id.now) (term_view oem_table_id.now)) }
{
    put_behind(text, "DataTableRegion signature=", signature);
    put_behind(text, " oem=", oem_id);
    put_behind(text, " table=", oem_table_id)
}

fn put_bank_field(text: &mut Text, value: &Term, flags: u8, offset: u64, bits: u32)
    ensures { text.new
        ≡ text.old ++ parts_text (bank_unit (term_view value.now) flags offset bits) }
{
    text.put("BankField offset=");
    put_decimal(text, offset);
    text.put(" bits=");
    put_decimal(text, u64::from(bits));
    text.put(" flags=");
    put_byte(text, flags);
    put_behind(text, " value=", value)
}

fn put_field(text: &mut Text, form: UnitForm<'_>, flags: u8, offset: u64, bits: u32)
    ensures { text.new ≡ text.old ++ parts_text (unit_view form.entry flags offset bits) }
{
    let form = match form {
        UnitForm::Field => FieldForm::Field,
        UnitForm::Index => FieldForm::Index,
        UnitForm::Bank(value) => return put_bank_field(text, value, flags, offset, bits),
    };
    put_object(
        text,
        &Object::Field {
            form,
            flags,
            offset,
            bits,
        },
    )
}

// The name of a Create field's form.
fn create_name(width: Width) -> &'static str
    ensures { result.now ≡ codes "Create" ++ width_text width ++ codes "Field" }
{
    match width {
        Width::DWord => "CreateDWordField",
        Width::Word => "CreateWordField",
        Width::Byte => "CreateByteField",
        Width::Bit => "CreateBitField",
        Width::QWord => "CreateQWordField",
    }
}

fn put_create(text: &mut Text, width: Width, index: &Term)
    ensures { text.new
        ≡ text.old ++ (codes "Create" ++ width_text width ++ codes "Field index=" ++ term_text
        (term_view index.now)) }
{
    text.put(create_name(width));
    put_behind(text, " index=", index)
}

fn put_create_field(text: &mut Text, index: &Term, bits: &Term)
    ensures { text.new ≡ text.old ++ (codes "CreateField index=" ++ term_text (term_view index.now)
        ++ codes " bits=" ++ term_text (term_view bits.now)) }
{
    put_behind(text, "CreateField index=", index);
    put_behind(text, " bits=", bits)
}

/// Puts the kind of an object and what its term says of it, without links. Offsets and widths of field elements are in
/// bits.
pub fn put_kind(text: &mut Text, kind: &ObjectKind<'_>)
    ensures { text.new ≡ text.old ++ parts_text (kind_view kind.now) }
{
    match *kind {
        ObjectKind::Root => put_object(text, &Object::Root),
        ObjectKind::Scope => put_object(text, &Object::Scope),
        ObjectKind::Predefined => put_object(text, &Object::Predefined),
        ObjectKind::Device => put_object(text, &Object::Device),
        ObjectKind::Processor { id, block, length } => {
            put_object(text, &Object::Processor { id, block, length })
        }
        ObjectKind::Power { level, order } => put_object(text, &Object::Power { level, order }),
        ObjectKind::Thermal => put_object(text, &Object::Thermal),
        ObjectKind::Name(value) => put_name(text, value),
        ObjectKind::Method(flags) => put_object(text, &Object::Method(flags)),
        ObjectKind::Region {
            space,
            offset,
            length,
        } => put_region(text, space, offset, length),
        ObjectKind::TableRegion {
            signature,
            oem_id,
            oem_table_id,
        } => put_table_region(text, signature, oem_id, oem_table_id),
        ObjectKind::Mutex(flags) => put_object(text, &Object::Mutex(flags)),
        ObjectKind::Event => put_object(text, &Object::Event),
        ObjectKind::Alias => text.put("Alias"),
        ObjectKind::Field {
            form,
            flags,
            offset,
            bits,
        } => put_field(text, form, flags, offset, bits),
        ObjectKind::Create { width, index, .. } => put_create(text, width, index),
        ObjectKind::CreateField { index, bits, .. } => put_create_field(text, index, bits),
    }
}

/// The source of a Create field, where it is no name.
pub(crate) fn computed_source<'a>(kind: &ObjectKind<'a>) -> Option<&'a Term>
    ensures { option_map lent_view result ≡ source_of (kind_view kind.now) }
{
    match *kind {
        ObjectKind::Create { source, .. } => source,
        ObjectKind::CreateField { source, .. } => source,
        _ => None,
    }
}
