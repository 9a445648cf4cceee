//! Kinds and numbers of entries.

use acpi_objects::{ObjectKind, UnitForm};
use acpi_tree::{Int, Term, Width};

/// The form of a constant that only running the code tells.
pub(crate) const COMPUTED_FORM: u64 = 8;

/// In which form a constant was written.
pub(crate) fn form_of(int: Int) -> u64 {
    match int {
        Int::Zero => 0,
        Int::One => 1,
        Int::Ones => 2,
        Int::Revision => 3,
        Int::Byte(_) => 4,
        Int::Word(_) => 5,
        Int::DWord(_) => 6,
        Int::QWord(_) => 7,
    }
}

/// Its value; 0 of a Revision.
pub(crate) fn value_of(int: Int) -> u64 {
    match int {
        Int::Zero | Int::Revision => 0,
        Int::One => 1,
        Int::Ones => 18_446_744_073_709_551_615,
        Int::Byte(n) => u64::from(n),
        Int::Word(n) => u64::from(n),
        Int::DWord(n) => u64::from(n),
        Int::QWord(n) => n,
    }
}

/// The form and the value of a term; of one that only running the code tells `COMPUTED_FORM` and 0.
pub(crate) fn constant_of(term: &Term) -> (u64, u64) {
    match term {
        Term::Int(int) => (form_of(*int), value_of(*int)),
        _ => (COMPUTED_FORM, 0),
    }
}

fn bits_of(width: Width) -> u64 {
    match width {
        Width::Bit => 1,
        Width::Byte => 8,
        Width::Word => 16,
        Width::DWord => 32,
        Width::QWord => 64,
    }
}

fn field_kind_of(form: UnitForm<'_>) -> u64 {
    match form {
        UnitForm::Field => 12,
        UnitForm::Index => 13,
        UnitForm::Bank(_) => 14,
    }
}

/// The kind of an entry.
pub(crate) fn kind_number(kind: &ObjectKind<'_>) -> u64 {
    match kind {
        ObjectKind::Root => 0,
        ObjectKind::Scope => 1,
        ObjectKind::Predefined => 2,
        ObjectKind::Device => 3,
        ObjectKind::Processor { .. } => 4,
        ObjectKind::Power { .. } => 5,
        ObjectKind::Thermal => 6,
        ObjectKind::Name(_) => 7,
        ObjectKind::Method(_) => 8,
        ObjectKind::Region { .. } => 9,
        ObjectKind::Mutex(_) => 10,
        ObjectKind::Event => 11,
        ObjectKind::Field { form, .. } => field_kind_of(*form),
        ObjectKind::Create { .. } => 15,
        ObjectKind::CreateField { .. } => 16,
        ObjectKind::Alias => 17,
        ObjectKind::TableRegion { .. } => 18,
    }
}

// What is known of a Name's data: what it is, in which form it was written, and its value or how much it holds.
fn data_numbers(term: &Term) -> [u64; 6] {
    match term {
        Term::Int(int) => [0, form_of(*int), value_of(*int), 0, 0, 0],
        Term::Str(bytes) => [1, bytes.len() as u64, 0, 0, 0, 0],
        Term::Buffer(size, bytes) => {
            let (form, value) = constant_of(size);
            [2, form, value, bytes.len() as u64, 0, 0]
        }
        Term::Package(count, _) => [3, u64::from(*count), 0, 0, 0, 0],
        Term::VarPackage(count, _) => {
            let (form, value) = constant_of(count);
            [4, form, value, 0, 0, 0]
        }
        _ => [6, 0, 0, 0, 0, 0],
    }
}

fn region_numbers(space: u8, offset: &Term, length: &Term) -> [u64; 6] {
    let (offset_form, offset) = constant_of(offset);
    let (length_form, length) = constant_of(length);
    [
        u64::from(space),
        offset_form,
        offset,
        length_form,
        length,
        0,
    ]
}

fn field_numbers(form: UnitForm<'_>, flags: u8, offset: u64, bits: u32) -> [u64; 6] {
    let (bank_form, bank) = match form {
        UnitForm::Field | UnitForm::Index => (0, 0),
        UnitForm::Bank(value) => constant_of(value),
    };
    [
        u64::from(flags),
        offset,
        u64::from(bits),
        bank_form,
        bank,
        0,
    ]
}

/// What is known of an entry, by its kind.
pub(crate) fn numbers_of(kind: &ObjectKind<'_>) -> [u64; 6] {
    match *kind {
        ObjectKind::Processor { id, block, length } => {
            [u64::from(id), u64::from(block), u64::from(length), 0, 0, 0]
        }
        ObjectKind::Power { level, order } => [u64::from(level), u64::from(order), 0, 0, 0, 0],
        ObjectKind::Name(Some(value)) => data_numbers(value),
        ObjectKind::Name(None) => [6, 0, 0, 0, 0, 0],
        ObjectKind::Method(flags) | ObjectKind::Mutex(flags) => [u64::from(flags), 0, 0, 0, 0, 0],
        ObjectKind::Region {
            space,
            offset,
            length,
        } => region_numbers(space, offset, length),
        ObjectKind::Field {
            form,
            flags,
            offset,
            bits,
        } => field_numbers(form, flags, offset, bits),
        ObjectKind::Create { width, index, .. } => {
            let (form, value) = constant_of(index);
            [bits_of(width), form, value, 0, 0, 0]
        }
        ObjectKind::CreateField { index, bits, .. } => {
            let (index_form, index) = constant_of(index);
            let (bits_form, bits) = constant_of(bits);
            [index_form, index, bits_form, bits, 0, 0]
        }
        _ => [0; 6],
    }
}

fn is_constant(term: &Term) -> bool {
    match term {
        Term::Int(_) => true,
        _ => false,
    }
}

// The bits, if a term is none that is known.
fn bits_unless(term: &Term, bits: u64) -> u64 {
    if is_constant(term) { 0 } else { bits }
}

fn data_computed(term: &Term) -> u64 {
    match term {
        Term::Int(_) | Term::Str(_) | Term::Package(_, _) => 0,
        Term::Buffer(size, _) => bits_unless(size, 0b110),
        Term::VarPackage(count, _) => bits_unless(count, 0b110),
        _ => 0b1,
    }
}

/// Which of these numbers only running the code tells, bit by bit.
pub(crate) fn computed_bits(kind: &ObjectKind<'_>) -> u64 {
    match *kind {
        ObjectKind::Name(Some(value)) => data_computed(value),
        ObjectKind::Name(None) => 0b1,
        ObjectKind::Region { offset, length, .. } => {
            bits_unless(offset, 0b110) | bits_unless(length, 0b11000)
        }
        ObjectKind::Field {
            form: UnitForm::Bank(value),
            ..
        } => bits_unless(value, 0b11000),
        ObjectKind::Create { index, .. } => bits_unless(index, 0b110),
        ObjectKind::CreateField { index, bits, .. } => {
            bits_unless(index, 0b11) | bits_unless(bits, 0b1100)
        }
        _ => 0,
    }
}
