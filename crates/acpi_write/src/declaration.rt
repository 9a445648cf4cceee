//! Declarations in method bodies.

ghost use Rattle.std.specs.Prelude.{◌++◌, Some, OnOk};
ghost use Rattle.std.specs.Fmt.{option_append};
ghost use Rattle.acpi_name.specs.Spelling.{name_bytes};
ghost use Rattle.byteorder.specs.Endian.{little_bytes};
ghost use Rattle.acpi_tree.specs.TermView.{decl_view};
ghost use Rattle.acpi_tree.specs.View.{fields_view};
ghost use Rattle.acpi_write.specs.Canonical.{fields_bytes};
ghost use Rattle.acpi_write.specs.CanonicalTerms.{term_bytes};
ghost use Rattle.acpi_write.specs.steps.Writing.{Puts};
ghost use Rattle.std.specs.List.{AllByRecursion};
ghost use Rattle.acpi_name.specs.Names.{IsName};
ghost use Rattle.acpi_write.specs.Laws.{IsFieldTyped, IsTermTyped};

use crate::fault::WriteFault;
use crate::item::width_opcode;
use crate::writer::{Argument, Writer};
use acpi_name::Name;
use acpi_tree::{Decl, FieldElem};

impl Writer {
    /// A declaration (ACPI 6.5, 20.2.5.1 and 20.2.5.2).
    #[cycle(terms)]
    #[inline(never)]
    pub(crate) fn declaration(&mut self, decl: &Decl) -> Result<(), WriteFault>
        ensures put { Puts result (term_bytes (decl_view decl.now)) self.old self.new }
        ensures typed { OnOk result (IsTermTyped (decl_view decl.now)) }
    {
        match decl {
            Decl::Name(name, data) => {
                self.term(data)?;
                self.fronted(&[0x08], name)
            }
            Decl::Create {
                width,
                source,
                index,
                name,
            } => {
                self.reference(name)?;
                self.term(index)?;
                self.term(source)?;
                self.fixed(&[width_opcode(*width)])
            }
            Decl::CreateField {
                source,
                index,
                bits,
                name,
            } => {
                self.reference(name)?;
                self.term(bits)?;
                self.term(index)?;
                self.term(source)?;
                self.fixed(&[0x5B, 0x13])
            }
            Decl::Mutex(name, flags) => {
                self.raw_byte(*flags)?;
                self.fronted(&[0x5B, 0x01], name)
            }
            Decl::Event(name) => self.fronted(&[0x5B, 0x02], name),
            Decl::Region {
                name,
                space,
                offset,
                length,
            } => {
                self.term(length)?;
                self.term(offset)?;
                self.raw_byte(*space)?;
                self.fronted(&[0x5B, 0x80], name)
            }
            Decl::Field {
                region,
                flags,
                elems,
            } => {
                let end = self.len();
                self.flagged(*flags, elems)?;
                self.fill(end, &[0x5B, 0x81], &[Argument::Name(region)])
            }
            Decl::IndexField {
                index,
                datum,
                flags,
                elems,
            } => {
                let end = self.len();
                self.flagged(*flags, elems)?;
                self.fill(
                    end,
                    &[0x5B, 0x86],
                    &[Argument::Name(index), Argument::Name(datum)],
                )
            }
            Decl::BankField {
                region,
                bank,
                value,
                flags,
                elems,
            } => {
                let end = self.len();
                self.flagged(*flags, elems)?;
                self.term(value)?;
                self.fill(
                    end,
                    &[0x5B, 0x87],
                    &[Argument::Name(region), Argument::Name(bank)],
                )
            }
        }
    }

    // An opcode and the name that it declares.
    #[inline(never)]
    fn fronted(&mut self, opcode: &[u8], name: &Name) -> Result<(), WriteFault>
        ensures put { Puts result (Some (opcode.now ++ name_bytes name.now)) self.old self.new }
        ensures typed { IsName name.now }
    {
        self.name(name)?;
        self.bytes(opcode)?;
        Ok(())
    }

    // ByteData
    #[inline(never)]
    pub(crate) fn raw_byte(&mut self, number: u8) -> Result<(), WriteFault>
        ensures { Puts result (Some (little_bytes 1 number)) self.old self.new }
    {
        self.bytes(&number.to_le_bytes())?;
        Ok(())
    }

    // The flags of a Field and its field list.
    #[inline(never)]
    fn flagged(&mut self, flags: u8, elems: &[FieldElem]) -> Result<(), WriteFault>
        ensures put { Puts result (option_append (Some (little_bytes 1 flags))
            (fields_bytes (fields_view elems.now))) self.old self.new }
        ensures typed { OnOk result (AllByRecursion IsFieldTyped (fields_view elems.now)) }
    {
        self.fields(elems)?;
        self.raw_byte(flags)
    }
}
