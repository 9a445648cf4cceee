//! Kinds and numbers of objects.

ghost use Rattle.std.specs.Prelude.{◌≡◌};
ghost use Rattle.acpi_tree.specs.Objects.{object_view};
ghost use Rattle.acpi_tree.specs.View.{data_view};
ghost use Rattle.acpins_records.specs.Constants.{form_of, value_of};
ghost use Rattle.acpins_records.specs.Records.{bits_of, bank_of, field_kind_of, kind_of, data_numbers, numbers_of};

use acpi_tree::{Data, FieldForm, Int, Object, Width};

/// In which form a constant was written.
pub(crate) fn form_of(int: Int) -> u64
    ensures { result ≡ form_of int }
{
    match int {
        Int::Zero => 0,
        Int::One => 1,
        Int::Ones => 2,
        Int::Revision => 3,
        Int::Byte(_) => 4,
        Int::Word(_) => 5,
        Int::DWord(_) => 6,
        Int::QWord(_) => 7,
    }
}

/// Its value; 0 of a Revision.
pub(crate) fn value_of(int: Int) -> u64
    ensures { result ≡ value_of int }
{
    match int {
        Int::Zero | Int::Revision => 0,
        Int::One => 1,
        Int::Ones => 18_446_744_073_709_551_615,
        Int::Byte(n) => u64::from(n),
        Int::Word(n) => u64::from(n),
        Int::DWord(n) => u64::from(n),
        Int::QWord(n) => n,
    }
}

fn bits_of(width: Width) -> u64
    ensures { result ≡ bits_of width }
{
    match width {
        Width::Bit => 1,
        Width::Byte => 8,
        Width::Word => 16,
        Width::DWord => 32,
        Width::QWord => 64,
    }
}

// The value that selects the bank.
fn bank_of(form: FieldForm) -> Int
    ensures { result ≡ bank_of form }
{
    match form {
        FieldForm::Field | FieldForm::Index => Int::Zero,
        FieldForm::Bank(value) => value,
    }
}

fn field_kind_of(form: FieldForm) -> u64
    ensures { result ≡ field_kind_of form }
{
    match form {
        FieldForm::Field => 12,
        FieldForm::Index => 13,
        FieldForm::Bank(_) => 14,
    }
}

/// The kind of an object.
pub(crate) fn kind_of(object: &Object) -> u64
    ensures { result ≡ kind_of (object_view object.now) }
{
    match object {
        Object::Root => 0,
        Object::Scope => 1,
        Object::Predefined => 2,
        Object::Device => 3,
        Object::Processor { .. } => 4,
        Object::Power { .. } => 5,
        Object::Thermal => 6,
        Object::Name(_) => 7,
        Object::Method(_) => 8,
        Object::Region { .. } => 9,
        Object::Mutex(_) => 10,
        Object::Event => 11,
        Object::Field { form, .. } => field_kind_of(*form),
        Object::Create { .. } => 15,
        Object::CreateField { .. } => 16,
    }
}

// What is known of a name's data: in which form it was written, and its value or how much it holds.
fn data_numbers(data: &Data) -> [u64; 6]
    ensures { result ≡ data_numbers (data_view «data».now) }
{
    match data {
        Data::Int(int) => [0, form_of(*int), value_of(*int), 0, 0, 0],
        Data::Str(bytes) => [1, bytes.len() as u64, 0, 0, 0, 0],
        Data::Buffer(size, bytes) => [2, form_of(*size), value_of(*size), bytes.len() as u64, 0, 0],
        Data::Package(count, _) => [3, u64::from(*count), 0, 0, 0, 0],
        Data::VarPackage(count, _) => [4, form_of(*count), value_of(*count), 0, 0, 0],
    }
}

/// What is known of an object, by its kind.
pub(crate) fn numbers_of(object: &Object) -> [u64; 6]
    ensures { result ≡ numbers_of (object_view object.now) }
{
    match object {
        Object::Processor { id, block, length } => [
            u64::from(*id),
            u64::from(*block),
            u64::from(*length),
            0,
            0,
            0,
        ],
        Object::Power { level, order } => [u64::from(*level), u64::from(*order), 0, 0, 0, 0],
        Object::Name(data) => data_numbers(data),
        Object::Method(flags) => [u64::from(*flags), 0, 0, 0, 0, 0],
        Object::Region {
            space,
            offset,
            length,
        } => [
            u64::from(*space),
            form_of(*offset),
            value_of(*offset),
            form_of(*length),
            value_of(*length),
            0,
        ],
        Object::Mutex(flags) => [u64::from(*flags), 0, 0, 0, 0, 0],
        Object::Field {
            form,
            flags,
            bits,
            offset,
        } => [
            u64::from(*flags),
            *offset,
            u64::from(*bits),
            form_of(bank_of(*form)),
            value_of(bank_of(*form)),
            0,
        ],
        Object::Create { width, index } => [
            bits_of(*width),
            form_of(*index),
            value_of(*index),
            0,
            0,
            0,
        ],
        Object::CreateField { index, bits } => [
            form_of(*index),
            value_of(*index),
            form_of(*bits),
            value_of(*bits),
            0,
            0,
        ],
        Object::Root
        | Object::Scope
        | Object::Predefined
        | Object::Device
        | Object::Thermal
        | Object::Event => [0; 6],
    }
}
