//! Constant data as flat parts, as those of `Package(2){0x05, "AB"}`, whose bytes are `AB`:
//!
//! ```text
//!                kind  form  value  byte  bytes  behind
//! 0  Package        3     4      2     0      0       3
//! 1  Integer        0     4      5     0      0       2
//! 2  String         1     0      0     0      2       3
//! ```

ghost use Rattle.std.specs.Prelude.{◌≡◌, ◌+◌, ◌++◌, ◌∷◌, [], length, OnOk};
ghost use Rattle.acpi_tree.specs.Tree.{elems_of, of_name};
ghost use Rattle.acpi_tree.specs.View.{data_view, elem_view, elems_view};

use crate::numbers::{form_of, value_of};
use acpi_name::Name;
use acpi_text::put_name;
use acpi_tree::{Data, Elem, Int};
use std::alloc::{AllocError, Global};
use text_buffer::Text;

// The kinds of parts.
const INTEGER: u64 = 0;

const STRING: u64 = 1;

const BUFFER: u64 = 2;

const PACKAGE: u64 = 3;

const VAR_PACKAGE: u64 = 4;

const NAME: u64 = 5;

/// A part of constant data (ACPI 6.5, 20.2.3 and 20.2.5.4); each package stands before its elements.
#[repr(C)]
#[derive(Clone, Copy, Debug)]
pub struct PartRecord {
    /// The kind: 0 Integer, 1 String, 2 Buffer, 3 Package, 4 VarPackage, 5 Name, which is not searched.
    pub kind: u64,
    /// The form of its constant: 0 Zero, 1 One, 2 Ones, 3 Revision, 4 Byte, 5 Word, 6 DWord, 7 QWord. The constant is
    /// the Integer, the size of a Buffer as written, the count of a VarPackage as written, or the count of a Package
    /// as a Byte. A String and a Name have none: 0.
    pub form: u64,
    /// The value of its constant; 0 of a Revision, and where there is none.
    pub value: u64,
    /// The place of its first byte in the list of bytes. A String has its bytes there without the 00 that ends it, a
    /// Buffer those that are given, a Name its text, as `^FOO_.BAR_`. Any other part has none: 0.
    pub byte: u64,
    /// How many bytes it has there.
    pub bytes: u64,
    /// The place of the part behind its last element and behind all elements of that; without elements the next place.
    pub behind: u64,
}

/// Parts of constant data, and the bytes that they hold.
#[derive(Drop)]
pub(crate) struct Parts {
    /// The parts of some data, one data object behind the other.
    pub parts: Vec<PartRecord>,
    /// The bytes of all parts, in their order.
    pub bytes: Vec<u8>,
}

impl Parts {
    ghost use Rattle.acpins_records.specs.Parts.{part};
    ghost use Rattle.acpins_records.specs.steps.AddingParts.{AddsHolder, AddsPackage, AddsElem, AddsParts};

    /// No parts.
    pub(crate) fn new(alloc: Global) -> Parts
        ensures parts { result.parts.items ≡ [] }
        ensures bytes { result.bytes.items ≡ [] }
    {
        Parts {
            parts: Vec::new(alloc),
            bytes: Vec::new(alloc),
        }
    }

    // Puts a part, as of what has no elements.
    #[inline(never)]
    fn put_part(
        &mut self,
        kind: u64,
        constant: Int,
        byte: u64,
        bytes: u64,
    ) -> Result<(), AllocError>
        ensures parts { OnOk result (self.new.parts.items ≡ self.old.parts.items
            ++ part kind constant byte bytes (length self.old.parts.items + 1) ∷ []) }
        ensures bytes { self.new.bytes.items ≡ self.old.bytes.items }
    {
        self.parts.push(PartRecord {
            kind,
            form: form_of(constant),
            value: value_of(constant),
            byte,
            bytes,
            behind: self.parts.len() as u64 + 1,
        })?;
        Ok(())
    }

    // Puts a part that holds bytes.
    #[inline(never)]
    fn put_bytes(&mut self, kind: u64, constant: Int, bytes: &[u8]) -> Result<(), AllocError>
        ensures { OnOk result (AddsHolder kind constant bytes.now self.old self.new) }
    {
        let byte = self.bytes.len() as u64;
        self.bytes.extend_from_slice(bytes)?;
        self.put_part(kind, constant, byte, bytes.len() as u64)
    }

    // Puts a name, whose text is its bytes.
    #[inline(never)]
    fn put_name(&mut self, name: &Name) -> Result<(), AllocError>
        ensures { OnOk result (AddsElem (of_name name.now) self.old self.new) }
    {
        let mut form = Text::new(*self.bytes.allocator());
        put_name(&mut form, name.view());
        self.put_bytes(NAME, Int::Zero, form.bytes()?)
    }

    #[cycle(put_data)]
    fn put_elem(&mut self, elem: &Elem) -> Result<(), AllocError>
        ensures { OnOk result (AddsElem (elem_view elem.now) self.old self.new) }
    {
        match elem {
            Elem::Data(data) => self.put_data(data),
            Elem::Name(name) => self.put_name(name),
        }
    }

    // Puts a package before its elements.
    #[cycle(put_data)]
    fn put_package(&mut self, kind: u64, count: Int, elems: &[Elem]) -> Result<(), AllocError>
        ensures { OnOk result (AddsPackage kind count
            (elems_of (elems_view elems.now)) self.old self.new) }
    {
        let place = self.parts.len();
        self.put_part(kind, count, 0, 0)?;
        for elem in elems {
            self.put_elem(elem)?;
        }
        self.parts[place].behind = self.parts.len() as u64;
        Ok(())
    }

    /// Puts the parts of some data behind the others. Only an allocation failure is an error, and nothing is said of the
    /// parts then.
    #[cycle(put_data)]
    pub(crate) fn put_data(&mut self, data: &Data) -> Result<(), AllocError>
        ensures { OnOk result (AddsParts (data_view «data».now) self.old self.new) }
    {
        match data {
            Data::Int(int) => self.put_part(INTEGER, *int, 0, 0),
            Data::Str(bytes) => self.put_bytes(STRING, Int::Zero, bytes),
            Data::Buffer(size, bytes) => self.put_bytes(BUFFER, *size, bytes),
            Data::Package(count, elems) => self.put_package(PACKAGE, Int::Byte(*count), elems),
            Data::VarPackage(count, elems) => self.put_package(VAR_PACKAGE, *count, elems),
        }
    }
}
