//! What is known of an object's value without running code.

ghost use Rattle.std.specs.Prelude.{◌≡◌, ℕ};
ghost use Rattle.acpi_overview.specs.Numbers.{integer_value, is_missing, term_number, value_number};
ghost use Rattle.acpi_kinds.specs.declared.kind.ObjectKind.TheVariants as objects;
ghost use Rattle.acpi_overview.specs.declared.value.Value.TheVariants as known;

use crate::objects::Object;
use acpi_kinds::ObjectKind;
use acpi_tree::{Int, Term};
use std::alloc::{AllocError, Global};

/// What is known of an object's value without running code (ACPI 6.5, 19.6).
#[derive(Debug, Clone, Copy)]
pub enum Value<'a> {
    /// Nothing declares it.
    Missing,
    /// A constant integer, by its value.
    Number(u64),
    /// A string, without the 00 that ends it.
    Text(&'a [u8]),
    /// A buffer: the bytes that are given.
    Buffer(&'a [u8]),
    /// A package: the elements that are given.
    Package(&'a [Term]),
    /// A method, by the number of bytes of its code. Only running it gives the value.
    Method(usize),
    /// Something else, several objects, or one that has a condition of its own.
    Unknown,
}

/// The number of a constant; Revision has none before a program runs.
pub fn integer_value(int: Int) -> Option<u64>
    ensures { result ≡ integer_value int }
{
    match int {
        Int::Zero => Some(0),
        Int::One => Some(1),
        Int::Ones => Some(u64::MAX),
        Int::Revision => None,
        Int::Byte(n) => Some(u64::from(n)),
        Int::Word(n) => Some(u64::from(n)),
        Int::DWord(n) => Some(u64::from(n)),
        Int::QWord(n) => Some(n),
    }
}

impl<'a> Value<'a> {
    /// What is known of a term's value.
    pub fn of_term(term: &'a Term) -> Value<'a>
        ensures { value_number result ≡ term_number term.now }
    {
        match term {
            Term::Int(int) => match integer_value(*int) {
                Some(number) => Value::Number(number),
                None => Value::Unknown,
            },
            Term::Str(bytes) => Value::Text(bytes),
            Term::Buffer(_, bytes) => Value::Buffer(bytes),
            Term::Package(_, elements) => Value::Package(elements),
            _ => Value::Unknown,
        }
    }

    /// What is known of the value of what a term declares; a method has `code` bytes.
    pub fn of_object(kind: ObjectKind<'a>, code: usize) -> Value<'a>
        ensures { (flags : ℕ) → kind.entry ≡ objects.Method flags → result ≡ known.Method code }
    {
        match kind {
            ObjectKind::Name(Some(term)) => Value::of_term(term),
            ObjectKind::Method(_) => Value::Method(code),
            _ => Value::Unknown,
        }
    }

    /// Whether it is known: a constant.
    pub fn is_constant(&self) -> bool {
        !matches!(self, Value::Missing | Value::Method(_) | Value::Unknown)
    }

    /// Whether nothing declares it.
    pub fn is_missing(&self) -> bool
        ensures { result ≡ is_missing self.now }
    {
        matches!(self, Value::Missing)
    }

    /// The number, where it is a constant integer.
    pub fn number(&self) -> Option<u64>
        ensures { result ≡ value_number self.now }
    {
        match self {
            Value::Number(number) => Some(*number),
            _ => None,
        }
    }
}

/// What the terms of objects say of their values, where no body is read.
pub fn declared_values<'a>(
    alloc: Global,
    objects: &[Object<'a>],
) -> Result<Vec<Value<'a>>, AllocError> {
    let mut values = Vec::new(alloc);
    for object in objects {
        values.push(Value::of_object(object.kind, object.code))?;
    }
    Ok(values)
}
