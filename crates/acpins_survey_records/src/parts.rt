//! The data of Names as flat parts.

use crate::numbers::constant_of;
use crate::records::PartRecord;
use acpi_name::Name;
use acpi_text::put_name;
use acpi_tree::Term;
use std::alloc::{AllocError, Global};
use text_buffer::Text;

// The kinds of parts.
const INTEGER: u64 = 0;

const STRING: u64 = 1;

const BUFFER: u64 = 2;

const PACKAGE: u64 = 3;

const VAR_PACKAGE: u64 = 4;

const NAME: u64 = 5;

const COMPUTED: u64 = 6;

// The form of a constant of one byte.
const BYTE_FORM: u64 = 4;

/// Parts of data, and the bytes that they hold.
#[derive(Drop)]
pub(crate) struct Parts {
    /// The parts of some data, one data object behind the other.
    pub parts: Vec<PartRecord>,
    /// The bytes of all parts, in their order.
    pub bytes: Vec<u8>,
}

impl Parts {
    /// No parts.
    pub(crate) fn new(alloc: Global) -> Parts {
        Parts {
            parts: Vec::new(alloc),
            bytes: Vec::new(alloc),
        }
    }

    // Puts a part, as of what has no elements.
    fn put_part(
        &mut self,
        kind: u64,
        constant: (u64, u64),
        byte: u64,
        bytes: u64,
    ) -> Result<(), AllocError> {
        self.parts.push(PartRecord {
            kind,
            form: constant.0,
            value: constant.1,
            byte,
            bytes,
            behind: self.parts.len() as u64 + 1,
        })?;
        Ok(())
    }

    // Puts a part that holds bytes.
    fn put_bytes(
        &mut self,
        kind: u64,
        constant: (u64, u64),
        bytes: &[u8],
    ) -> Result<(), AllocError> {
        let byte = self.bytes.len() as u64;
        self.bytes.extend_from_slice(bytes)?;
        self.put_part(kind, constant, byte, bytes.len() as u64)
    }

    // Puts a name, whose text is its bytes.
    fn put_name(&mut self, name: &Name) -> Result<(), AllocError> {
        let mut form = Text::new(*self.bytes.allocator());
        put_name(&mut form, name.view());
        self.put_bytes(NAME, (0, 0), form.bytes()?)
    }

    // Puts a package before its elements.
    #[cycle(put_data)]
    fn put_package(
        &mut self,
        kind: u64,
        count: (u64, u64),
        elements: &[Term],
    ) -> Result<(), AllocError> {
        let place = self.parts.len();
        self.put_part(kind, count, 0, 0)?;
        for element in elements {
            self.put_data(element)?;
        }
        let behind = self.parts.len() as u64;
        if let Some(part) = self.parts.get_mut(place) {
            part.behind = behind;
        }
        Ok(())
    }

    /// Puts the parts of some data behind the others. Only an allocation failure is an error.
    #[cycle(put_data)]
    pub(crate) fn put_data(&mut self, term: &Term) -> Result<(), AllocError> {
        match term {
            Term::Int(_) => self.put_part(INTEGER, constant_of(term), 0, 0),
            Term::Str(bytes) => self.put_bytes(STRING, (0, 0), bytes),
            Term::Buffer(size, bytes) => self.put_bytes(BUFFER, constant_of(size), bytes),
            Term::Package(count, elements) => {
                self.put_package(PACKAGE, (BYTE_FORM, u64::from(*count)), elements)
            }
            Term::VarPackage(count, elements) => {
                self.put_package(VAR_PACKAGE, constant_of(count), elements)
            }
            Term::Ref(name) => self.put_name(name),
            _ => self.put_part(COMPUTED, (0, 0), 0, 0),
        }
    }
}
