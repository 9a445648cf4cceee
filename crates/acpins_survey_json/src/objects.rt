//! Objects in JSON.

ghost use Rattle.std.specs.Prelude.{◌≡◌, ◌++◌, codes};
ghost use Rattle.std.specs.Option.{option_map};
ghost use Rattle.acpi_tree.specs.Objects.{mutex_object};
ghost use Rattle.acpi_tree.specs.TermView.{term_view};
ghost use Rattle.acpins_survey_json.specs.Json.{Members, member, more_members_text, no_members, object, value_text};
ghost use Rattle.acpins_survey_json.specs.JsonObjects.{create_members, kind_members, fields_value, kind_of, method_members, power_members, processor_members, region_members, table_members, unit_members, width_kind};
ghost use Rattle.acpins_survey_json.specs.JsonValues.{term_value};
ghost use Rattle.acpi_objects.specs.Objects.{constant, named};
ghost use Rattle.acpi_objects.specs.Views.{kind_view, lent_view, unit_view};
ghost use Rattle.acpins_survey_json.specs.steps.JsonPuts.{PutsMembers};

use crate::members::{
    put_boolean_member, put_member, put_number_member, put_some_value_member, put_value_member,
    put_word_member,
};
use acpi_objects::{ObjectKind, UnitForm};
use acpi_tree::{Term, Width};
use text_buffer::Text;

// ---- kinds

fn create_kind(width: Width) -> &'static str
    ensures { result.now ≡ width_kind width }
{
    match width {
        Width::DWord => "create_dword_field",
        Width::Word => "create_word_field",
        Width::Byte => "create_byte_field",
        Width::Bit => "create_bit_field",
        Width::QWord => "create_qword_field",
    }
}

fn unit_kind(form: UnitForm<'_>) -> &'static str
    ensures { result.now ≡ kind_of (unit_view form.entry 0 0 0) }
{
    match form {
        UnitForm::Field => "field",
        UnitForm::Index => "index_field",
        UnitForm::Bank(_) => "bank_field",
    }
}

fn kind_word(kind: &ObjectKind<'_>) -> &'static str
    ensures { result.now ≡ kind_of (kind_view kind.now) }
{
    match *kind {
        ObjectKind::Root => "root",
        ObjectKind::Scope => "scope",
        ObjectKind::Predefined => "predefined",
        ObjectKind::Device => "device",
        ObjectKind::Processor { .. } => "processor",
        ObjectKind::Power { .. } => "power_resource",
        ObjectKind::Thermal => "thermal_zone",
        ObjectKind::Name(_) => "name",
        ObjectKind::Method(_) => "method",
        ObjectKind::Region { .. } => "operation_region",
        ObjectKind::TableRegion { .. } => "data_table_region",
        ObjectKind::Mutex(_) => "mutex",
        ObjectKind::Event => "event",
        ObjectKind::Alias => "alias",
        ObjectKind::Field { form, .. } => unit_kind(form),
        ObjectKind::Create { width, .. } => create_kind(width),
        ObjectKind::CreateField { .. } => "create_field",
    }
}

// ---- what is known of an object

fn put_method(text: &mut Text, flags: u8)
    ensures { text.new ≡ text.old ++ value_text (object (method_members flags)) }
{
    put_number_member(text, "{", "arguments", u64::from(flags % 8));
    put_boolean_member(text, ",", "serialized", flags / 8 % 2 == 1);
    put_number_member(text, ",", "sync_level", u64::from(flags / 16));
    text.put("}")
}

fn put_processor(text: &mut Text, id: u8, block: u32, length: u8)
    ensures { text.new ≡ text.old ++ value_text (object (processor_members id block length)) }
{
    put_number_member(text, "{", "id", u64::from(id));
    put_number_member(text, ",", "block", u64::from(block));
    put_number_member(text, ",", "length", u64::from(length));
    text.put("}")
}

fn put_power(text: &mut Text, level: u8, order: u16)
    ensures { text.new ≡ text.old ++ value_text (object (power_members level order)) }
{
    put_number_member(text, "{", "level", u64::from(level));
    put_number_member(text, ",", "order", u64::from(order));
    text.put("}")
}

fn put_mutex(text: &mut Text, flags: u8)
    ensures { text.new ≡ text.old
        ++ value_text (fields_value (constant (mutex_object flags))) }
{
    put_number_member(text, "{", "flags", u64::from(flags));
    text.put("}")
}

fn put_region(text: &mut Text, space: u8, offset: &Term, length: &Term)
    ensures { text.new ≡ text.old ++ value_text (object
        (region_members space (term_view offset.now) (term_view length.now))) }
{
    put_number_member(text, "{", "space", u64::from(space));
    put_value_member(text, ",", "offset", offset);
    put_value_member(text, ",", "length", length);
    text.put("}")
}

fn put_table_region(text: &mut Text, signature: &Term, oem_id: &Term, oem_table_id: &Term)
    ensures { text.new ≡ text.old ++ value_text (object (table_members
        (term_view signature.now) (term_view oem_id.now) (term_view oem_table_id.now))) }
{
    put_value_member(text, "{", "signature", signature);
    put_value_member(text, ",", "oem_id", oem_id);
    put_value_member(text, ",", "oem_table_id", oem_table_id);
    text.put("}")
}

// The offset, the width and the flags of a field element, behind a brace.
fn put_unit(text: &mut Text, flags: u8, offset: u64, bits: u32)
    ensures { (ms : Members) → text.new ++ more_members_text ms
        ≡ text.old ++ value_text (object (unit_members flags offset bits ms)) }
{
    put_number_member(text, "{", "offset", offset);
    put_number_member(text, ",", "bits", u64::from(bits));
    put_number_member(text, ",", "flags", u64::from(flags))
}

fn put_plain_field(text: &mut Text, flags: u8, offset: u64, bits: u32)
    ensures { text.new ≡ text.old
        ++ value_text (object (unit_members flags offset bits no_members)) }
{
    put_unit(text, flags, offset, bits);
    text.put("}")
}

fn put_bank_field(text: &mut Text, value: &Term, flags: u8, offset: u64, bits: u32)
    ensures { text.new ≡ text.old ++ value_text (object (unit_members
        flags offset bits
        (member (codes "value") (term_value (term_view value.now)) no_members))) }
{
    put_unit(text, flags, offset, bits);
    put_value_member(text, ",", "value", value);
    text.put("}")
}

fn put_field(text: &mut Text, form: UnitForm<'_>, flags: u8, offset: u64, bits: u32)
    ensures { text.new ≡ text.old
        ++ value_text (fields_value (unit_view form.entry flags offset bits)) }
{
    match form {
        UnitForm::Field => put_plain_field(text, flags, offset, bits),
        UnitForm::Index => put_plain_field(text, flags, offset, bits),
        UnitForm::Bank(value) => put_bank_field(text, value, flags, offset, bits),
    }
}

// The source and the index of a Create field, behind a brace.
fn put_create(text: &mut Text, source: Option<&Term>, index: &Term)
    ensures { (ms : Members) → text.new ++ more_members_text ms
        ≡ text.old ++ value_text (object (create_members
        (option_map lent_view source.entry) (term_view index.now) ms)) }
{
    put_some_value_member(text, "{", "source", source);
    put_value_member(text, ",", "index", index)
}

fn put_create_fixed(text: &mut Text, source: Option<&Term>, index: &Term)
    ensures { text.new ≡ text.old ++ value_text (object (create_members
        (option_map lent_view source.entry) (term_view index.now) no_members)) }
{
    put_create(text, source, index);
    text.put("}")
}

fn put_create_field(text: &mut Text, source: Option<&Term>, index: &Term, bits: &Term)
    ensures { text.new ≡ text.old ++ value_text (object (create_members
        (option_map lent_view source.entry) (term_view index.now)
        (member (codes "bits") (term_value (term_view bits.now)) no_members))) }
{
    put_create(text, source, index);
    put_value_member(text, ",", "bits", bits);
    text.put("}")
}

fn put_name(text: &mut Text, value: Option<&Term>)
    ensures { text.new ≡ text.old
        ++ value_text (fields_value (named (option_map lent_view value.entry))) }
{
    put_some_value_member(text, "{", "value", value);
    text.put("}")
}

// What is known of an object.
fn put_fields(text: &mut Text, kind: &ObjectKind<'_>)
    ensures { text.new ≡ text.old
        ++ value_text (fields_value (kind_view kind.now)) }
{
    match *kind {
        ObjectKind::Processor { id, block, length } => put_processor(text, id, block, length),
        ObjectKind::Power { level, order } => put_power(text, level, order),
        ObjectKind::Name(value) => put_name(text, value),
        ObjectKind::Method(flags) => put_method(text, flags),
        ObjectKind::Region {
            space,
            offset,
            length,
        } => put_region(text, space, offset, length),
        ObjectKind::TableRegion {
            signature,
            oem_id,
            oem_table_id,
        } => put_table_region(text, signature, oem_id, oem_table_id),
        ObjectKind::Mutex(flags) => put_mutex(text, flags),
        ObjectKind::Field {
            form,
            flags,
            offset,
            bits,
        } => put_field(text, form, flags, offset, bits),
        ObjectKind::Create { source, index, .. } => put_create_fixed(text, source, index),
        ObjectKind::CreateField {
            source,
            index,
            bits,
        } => put_create_field(text, source, index, bits),
        _ => text.put("{}"),
    }
}

/// Puts the members that say what an object is, behind others.
pub fn put_object(text: &mut Text, kind: &ObjectKind<'_>)
    ensures { PutsMembers (kind_members (kind_view kind.now))
        text.old text.new }
{
    put_word_member(text, ",", "kind", kind_word(kind));
    put_member(text, ",", "fields");
    put_fields(text, kind)
}
