//! Values that are constants.

use crate::machine::{Machine, first_fixed};
use crate::terms::{constant, is_data, package_of};
use acpi_kinds::ObjectKind;
use acpi_overview::Object;
use acpi_tree::{Op, Operand, Term};
use std::alloc::{AllocError, Global};
use std::slice::from_ref;

// The value of a Return, where it is a data object.
fn returned(term: &Term) -> Option<&Term> {
    let Term::Op(Op::Return, operands) = term else {
        return None;
    };
    match operands.as_slice() {
        [Operand::Term(value)] if is_data(value) => Some(value),
        _ => None,
    }
}

// The character of five bits: `A` for 1.
fn letter(bits: u32) -> u8 {
    0x40 + (bits % 32) as u8
}

fn digit(n: u8) -> u8 {
    let n = n % 16;
    if n < 10 { b'0' + n } else { b'A' + (n - 10) }
}

// The seven characters of a number, whatever they are: the low four bytes hold the id (ACPI 6.5, 19.3.4).
fn decoded_id(number: u64) -> [u8; 7] {
    let [a, b, c, d, _, _, _, _] = number.to_le_bytes();
    let letters = u32::from_be_bytes([a, b, c, d]) >> 16;
    [
        letter(letters >> 10),
        letter(letters >> 5),
        letter(letters),
        digit(c / 16),
        digit(c),
        digit(d / 16),
        digit(d),
    ]
}

/// An id of a device as text: a string, or the id that a number stands for (ACPI 6.5, 6.1.5 and 19.3.4).
pub fn id_text(alloc: Global, term: &Term) -> Result<Option<Vec<u8>>, AllocError> {
    match term {
        Term::Str(bytes) => Ok(Some(Vec::from_slice(alloc, bytes)?)),
        _ => match constant(term) {
            Some(number) => Ok(Some(Vec::from_slice(alloc, &decoded_id(number))?)),
            None => Ok(None),
        },
    }
}

impl<'a> Machine<'a> {
    /// The data object that a Name has, or that a method is one Return of.
    pub fn value_of(&self, object: &Object<'a>) -> Option<&'a Term> {
        match object.kind {
            ObjectKind::Name(Some(term)) if is_data(term) => Some(term),
            ObjectKind::Method(_) => match self.body(object.number)?.terms {
                [term] => returned(term),
                _ => None,
            },
            _ => None,
        }
    }

    /// The value of the first object of that name directly in an object that a table declares without a condition.
    pub fn value_below(&self, object: &Object<'a>, name: [u8; 4]) -> Option<&'a Term> {
        self.value_of(first_fixed(self.below(object, name))?)
    }

    /// The ids that `_HID` or `_CID` of a device are, as texts: nothing where they aren't constant.
    pub fn ids(
        &self,
        device: &Object<'a>,
        name: [u8; 4],
    ) -> Result<Option<Vec<Vec<u8>>>, AllocError> {
        let mut ids = Vec::new(self.alloc);
        if !self.has(device, name) {
            return Ok(Some(ids));
        }
        let Some(value) = self.value_below(device, name) else {
            return Ok(None);
        };
        for term in package_of(value).unwrap_or(from_ref(value)) {
            if let Some(id) = id_text(self.alloc, term)? {
                ids.push(id)?;
            }
        }
        Ok(Some(ids))
    }

    /// The first id that `_HID` of a device is, as text (ACPI 6.5, 6.1.5).
    pub fn hid(&self, device: &Object<'a>) -> Result<Option<Vec<u8>>, AllocError> {
        let Some(ids) = self.ids(device, *b"_HID")? else {
            return Ok(None);
        };
        Ok(ids.into_iter().next())
    }
}
