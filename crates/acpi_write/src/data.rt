//! Data and field elements.

ghost use Rattle.std.specs.Prelude.{◌++◌, ◌∷◌, [], Some, OnOk};
ghost use Rattle.acpi_tree.specs.View.{data_view, elem_view, elems_view, field_view, fields_view};
ghost use Rattle.acpi_tree.specs.Tree.{elems_of};
ghost use Rattle.acpi_tree.specs.DataTerms.{data_term, elem_term, elem_terms};
ghost use Rattle.acpi_write.specs.Canonical.{int_bytes, filled_with, bits_bytes, field_bytes, fields_bytes};
ghost use Rattle.acpi_write.specs.CanonicalTerms.{term_bytes, terms_bytes};
ghost use Rattle.acpi_write.specs.steps.Writing.{Puts};
ghost use Rattle.std.specs.List.{AllByRecursion};
ghost use Rattle.acpi_write.specs.Laws.{IsIntTyped, IsTermTyped, AreTermsTyped, IsFieldTyped};

use crate::fault::WriteFault;
use crate::writer::{Argument, Writer};
use acpi_table::write_pkg_length;
use acpi_tree::{Data, Elem, FieldElem, Int};

impl Writer {
    /// A string, with the 00 that ends it (ACPI 6.5, 20.2.3).
    pub(crate) fn string(&mut self, text: &[u8]) -> Result<(), WriteFault>
        ensures { Puts result (Some (0x0D ∷ (text.now ++ 0x00 ∷ []))) self.old self.new }
    {
        self.byte(0x00)?;
        self.bytes(text)?;
        self.byte(0x0D)?;
        Ok(())
    }

    fn buffer(&mut self, opcode: &[u8], size: Int, content: &[u8]) -> Result<(), WriteFault>
        ensures put { Puts result (filled_with opcode.now (int_bytes size) (Some content.now))
            self.old self.new }
        ensures typed { OnOk result (IsIntTyped size) }
    {
        let end = self.len();
        self.bytes(content)?;
        self.fill(end, opcode, &[Argument::Int(size)])
    }

    /// Data (20.2.3, 20.2.5.4).
    #[cycle(data)]
    pub(crate) fn data(&mut self, data: &Data) -> Result<(), WriteFault>
        ensures put { Puts result (term_bytes (data_term (data_view «data».now))) self.old
            self.new }
        ensures typed { OnOk result (IsTermTyped (data_term (data_view «data».now))) }
    {
        match data {
            Data::Int(int) => {
                self.int(*int)?;
                Ok(())
            }
            Data::Str(text) => self.string(text),
            Data::Buffer(size, bytes) => self.buffer(&[0x11], *size, bytes),
            Data::Package(count, elems) => {
                let end = self.len();
                self.elems(elems)?;
                self.fill(end, &[0x12], &[Argument::Byte(*count)])
            }
            Data::VarPackage(count, elems) => {
                let end = self.len();
                self.elems(elems)?;
                self.fill(end, &[0x13], &[Argument::Int(*count)])
            }
        }
    }

    #[cycle(data)]
    fn elem(&mut self, elem: &Elem) -> Result<(), WriteFault>
        ensures put { Puts result (term_bytes (elem_term (elem_view elem.now))) self.old self.new }
        ensures typed { OnOk result (IsTermTyped (elem_term (elem_view elem.now))) }
    {
        match elem {
            Elem::Data(data) => self.data(data),
            Elem::Name(name) => {
                self.name(name)?;
                Ok(())
            }
        }
    }

    #[cycle(data)]
    fn elems(&mut self, elems: &[Elem]) -> Result<(), WriteFault>
        ensures put { Puts result (terms_bytes (elem_terms (elems_of (elems_view elems.now))))
            self.old self.new }
        ensures typed { OnOk result (AreTermsTyped (elem_terms (elems_of (elems_view elems.now)))) }
    {
        for i in (0..elems.len()).rev() {
            self.elem(&elems[i])?;
        }
        Ok(())
    }

    /// A number of bits, which counts no bytes of its own (20.2.4).
    fn bits(&mut self, bits: u32) -> Result<(), WriteFault>
        ensures { Puts result (bits_bytes bits) self.old self.new }
    {
        let Some(bytes) = write_pkg_length(bits) else {
            return Err(WriteFault::TooLong);
        };
        self.bytes(bytes.bytes())?;
        Ok(())
    }

    fn field(&mut self, elem: &FieldElem) -> Result<(), WriteFault>
        ensures put { Puts result (field_bytes (field_view elem.now)) self.old self.new }
        ensures typed { OnOk result (IsFieldTyped (field_view elem.now)) }
    {
        match elem {
            FieldElem::Unit(seg, bits) => {
                self.bits(*bits)?;
                self.bytes(&seg.bytes())?;
                Ok(())
            }
            FieldElem::Reserved(bits) => {
                self.bits(*bits)?;
                self.byte(0x00)?;
                Ok(())
            }
            FieldElem::Access(kind, attribute) => {
                self.bytes(&[0x01, *kind, *attribute])?;
                Ok(())
            }
            FieldElem::ConnectName(name) => {
                self.name(name)?;
                self.byte(0x02)?;
                Ok(())
            }
            FieldElem::ConnectBuffer(size, bytes) => self.buffer(&[0x02, 0x11], *size, bytes),
            FieldElem::Extended(kind, attribute, length) => {
                self.bytes(&[0x03, *kind, *attribute, *length])?;
                Ok(())
            }
        }
    }

    /// A field list (20.2.5.2 FieldList).
    pub(crate) fn fields(&mut self, elems: &[FieldElem]) -> Result<(), WriteFault>
        ensures put { Puts result (fields_bytes (fields_view elems.now)) self.old self.new }
        ensures typed { OnOk result (AllByRecursion IsFieldTyped (fields_view elems.now)) }
    {
        for i in (0..elems.len()).rev() {
            self.field(&elems[i])?;
        }
        Ok(())
    }
}
