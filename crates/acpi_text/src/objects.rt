//! Objects of a namespace.

ghost use Rattle.std.specs.Prelude.{◌≡◌, ◌++◌};
ghost use Rattle.acpi_tree.specs.View.{data_view};
ghost use Rattle.acpi_tree.specs.Objects.{object_view, processor_object, power_object, region_object, mutex_object, field_object, create_object, create_field_object, name_object};
ghost use Rattle.acpi_text.specs.Constants.{hex_digits, int_text};
ghost use Rattle.acpi_text.specs.Objects.{method_text, form_text, bank_text, object_text};
ghost use Rattle.acpi_text.specs.Terms.{width_text};

use crate::data::put_data;
use crate::numbers::{put_byte, put_dword, put_int, put_number, put_word};
use acpi_tree::{Data, FieldForm, Int, Object, Width};
use text_buffer::Text;

// A method: its arguments, whether it is serialized, and its sync level.
fn put_method(text: &mut Text, flags: u8)
    ensures { text.new ≡ text.old ++ method_text flags }
{
    let (args, serialized, level) = (flags % 8, flags / 8 % 2 == 1, flags / 16);
    put_number(text, "Method ", u64::from(args));
    if serialized {
        text.put(" Serialized");
    }
    if level > 0 {
        put_number(text, " Sync ", u64::from(level));
    }
}

// What stands before a byte, and its two digits.
fn put_digits(text: &mut Text, before: &str, n: u8)
    ensures { text.new ≡ text.old ++ (before.now ++ hex_digits 2 n) }
{
    text.put(before);
    put_byte(text, n)
}

// What stands before a constant, and the constant.
fn put_constant(text: &mut Text, before: &str, int: Int)
    ensures { text.new ≡ text.old ++ (before.now ++ int_text int) }
{
    text.put(before);
    put_int(text, int)
}

fn put_processor(text: &mut Text, id: u8, block: u32, length: u8)
    ensures { text.new ≡ text.old ++ object_text (processor_object id block length) }
{
    put_digits(text, "Processor id=", id);
    text.put(" block=");
    put_dword(text, block);
    put_digits(text, " length=", length)
}

fn put_power(text: &mut Text, level: u8, order: u16)
    ensures { text.new ≡ text.old ++ object_text (power_object level order) }
{
    put_digits(text, "PowerResource level=", level);
    text.put(" order=");
    put_word(text, order)
}

fn put_region(text: &mut Text, space: u8, offset: Int, length: Int)
    ensures { text.new ≡ text.old ++ object_text (region_object space offset length) }
{
    put_digits(text, "OperationRegion space=", space);
    put_constant(text, " offset=", offset);
    put_constant(text, " length=", length)
}

// The kind of a field unit.
fn put_form(text: &mut Text, form: FieldForm)
    ensures { text.new ≡ text.old ++ form_text form }
{
    text.put(match form {
        FieldForm::Field => "Field",
        FieldForm::Index => "IndexField",
        FieldForm::Bank(_) => "BankField",
    })
}

// The value that selects the bank.
fn put_bank(text: &mut Text, form: FieldForm)
    ensures { text.new ≡ text.old ++ bank_text form }
{
    match form {
        FieldForm::Field | FieldForm::Index => {}
        FieldForm::Bank(value) => put_constant(text, " value=", value),
    }
}

fn put_field(text: &mut Text, form: FieldForm, flags: u8, offset: u64, bits: u32)
    ensures { text.new ≡ text.old ++ object_text (field_object form flags offset bits) }
{
    put_form(text, form);
    put_number(text, " offset=", offset);
    put_number(text, " bits=", u64::from(bits));
    put_digits(text, " flags=", flags);
    put_bank(text, form)
}

// The width of a Create field, as it stands in the field's kind.
pub(crate) fn put_width(text: &mut Text, width: Width)
    ensures { text.new ≡ text.old ++ width_text width }
{
    text.put(match width {
        Width::DWord => "DWord",
        Width::Word => "Word",
        Width::Byte => "Byte",
        Width::Bit => "Bit",
        Width::QWord => "QWord",
    })
}

fn put_create(text: &mut Text, width: Width, index: Int)
    ensures { text.new ≡ text.old ++ object_text (create_object width index) }
{
    text.put("Create");
    put_width(text, width);
    put_constant(text, "Field index=", index)
}

fn put_create_field(text: &mut Text, index: Int, bits: Int)
    ensures { text.new ≡ text.old ++ object_text (create_field_object index bits) }
{
    put_constant(text, "CreateField index=", index);
    put_constant(text, " bits=", bits)
}

// A name's data.
fn put_named(text: &mut Text, data: &Data)
    ensures { text.new ≡ text.old ++ object_text (name_object (data_view «data».now)) }
{
    text.put("Name ");
    put_data(text, data)
}

fn put_mutex(text: &mut Text, flags: u8)
    ensures { text.new ≡ text.old ++ object_text (mutex_object flags) }
{
    put_digits(text, "Mutex ", flags)
}

/// Puts an object without its links (docs/COMMAND.md): its kind, and what is known of it. Offsets and widths
/// of field units are in bits.
pub fn put_object(text: &mut Text, object: &Object)
    ensures { text.new ≡ text.old ++ object_text (object_view object.now) }
{
    match object {
        Object::Root => text.put("Root"),
        Object::Scope => text.put("Scope"),
        Object::Predefined => text.put("Predefined"),
        Object::Device => text.put("Device"),
        Object::Processor { id, block, length } => put_processor(text, *id, *block, *length),
        Object::Power { level, order } => put_power(text, *level, *order),
        Object::Thermal => text.put("ThermalZone"),
        Object::Name(data) => put_named(text, data),
        Object::Method(flags) => put_method(text, *flags),
        Object::Region {
            space,
            offset,
            length,
        } => put_region(text, *space, *offset, *length),
        Object::Mutex(flags) => put_mutex(text, *flags),
        Object::Event => text.put("Event"),
        Object::Field {
            form,
            flags,
            offset,
            bits,
        } => put_field(text, *form, *flags, *offset, *bits),
        Object::Create { width, index } => put_create(text, *width, *index),
        Object::CreateField { index, bits } => put_create_field(text, *index, *bits),
    }
}
