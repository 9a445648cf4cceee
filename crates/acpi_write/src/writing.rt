//! Items and tables as bytes.

ghost use Rattle.std.specs.Prelude.{◌≡◌, ◌+◌, ◌<◌, ◌≤◌, ◌++◌, ℕ, List, IfOk, OnOk, IsTrue, Some, None, Err, drop, length};
ghost use Rattle.std.specs.FinMap as finite;
ghost use Rattle.acpi_name.specs.Names.{Segment};
ghost use Rattle.acpi_table.specs.Tables.{IsTable, header_of};
ghost use Rattle.acpi_tree.specs.View.{items_tree};
ghost use Rattle.acpi_tree.specs.TermView.{terms_tree};
ghost use Rattle.acpi_tree.specs.TermFits.{terms_fit};
ghost use Rattle.acpi_tree.specs.Fits.{items_fit};
ghost use Rattle.acpi_terms.specs.Spelling.{SpellsItems};
ghost use Rattle.acpi_body.specs.Arguments.{BodyGrammar};
ghost use Rattle.acpi_body.specs.Spelling.{heights};
ghost use Rattle.acpi_body.specs.Statements.{ReadsBody};
ghost use Rattle.acpi_write.specs.CanonicalItems.{items_bytes};
ghost use Rattle.acpi_write.specs.CanonicalTerms.{terms_bytes};
ghost use Rattle.acpi_write.specs.TermLaws.{AllMayStandIn};
ghost use Rattle.acpi_write.specs.Tables.{header_for};
ghost use Rattle.acpi_write.specs.steps.Writing.{header_bytes, HasWidths};

use crate::fault::WriteFault;
use crate::writer::Writer;
use acpi_table::{HEADER_BYTES, Header, TABLE_LIMIT, checksum_for};
use acpi_tree::{Item, Term};
use std::alloc::{AllocError, Global};

/// The shortest spelling of items (ACPI 6.5, 20.2.5), which have one but for the lengths of their packages.
/// `TooLong` exactly where a package would have more than 268,435,455 bytes.
pub fn write_items(alloc: Global, items: &[Item]) -> Result<Vec<u8>, WriteFault>
    requires fit { IsTrue (items_fit (items_tree items.now)) }
    ensures ok { IfOk result (λ bytes. items_bytes (items_tree items.now) ≡ Some bytes.items) }
    ensures long { result ≡ Err WriteFault.TooLong → items_bytes (items_tree items.now) ≡ None }
    // So they are read from it again.
    ensures spells { IfOk result (λ bytes. SpellsItems (items_tree items.now) bytes.items) }
{
    let mut writer = Writer::new(alloc);
    writer.items(items)?;
    Ok(writer.into_bytes())
}

/// The shortest spelling of the terms of a method body (ACPI 6.5, 20.2.5), which have one but for the lengths of
/// their packages. `TooLong` exactly where a package would have more than 268,435,455 bytes.
pub fn write_terms(alloc: Global, terms: &[Term]) -> Result<Vec<u8>, WriteFault>
    requires fit { IsTrue (terms_fit (terms_tree terms.now)) }
    ensures ok { IfOk result (λ bytes. terms_bytes (terms_tree terms.now) ≡ Some bytes.items) }
    ensures long { result ≡ Err WriteFault.TooLong → terms_bytes (terms_tree terms.now) ≡ None }
    // So they are read from it again, where each call has the arguments that its name asks for and each declared name
    // has a place, at any depth not below their height.
    ensures spells { IfOk result (λ bytes. (g : BodyGrammar) (s : List Segment) (depth : ℕ)
        → AllMayStandIn g s finite.empty (terms_tree terms.now) → heights (terms_tree terms.now)
        ≤ depth
        → ReadsBody g s depth bytes.items (terms_tree terms.now)) }
{
    let mut writer = Writer::new(alloc);
    writer.terms(terms)?;
    Ok(writer.into_bytes())
}

/// A table of the shortest spelling of items (ACPI 6.5, 5.2.6). Length and Checksum are computed, and the
/// other fields are the header's. `TooLong` exactly where a package would have more than 268,435,455 bytes,
/// or the table more than 16,777,216.
pub fn write_table(alloc: Global, header: &Header, items: &[Item]) -> Result<Vec<u8>, WriteFault>
    requires fit { IsTrue (items_fit (items_tree items.now)) }
    ensures table { IfOk result (λ bytes. IsTable bytes.items) }
    ensures header { IfOk result (λ bytes. header_of bytes.items
        ≡ header_for header.now bytes.items) }
    ensures code { IfOk result (λ bytes. items_bytes (items_tree items.now)
        ≡ Some (drop 36 bytes.items)) }
    ensures spells { IfOk result (λ bytes. SpellsItems (items_tree items.now)
        (drop 36 bytes.items)) }
    ensures long { result ≡ Err WriteFault.TooLong → (code : List ℕ)
        → items_bytes (items_tree items.now) ≡ Some code → 16777216 < 36 + length code }
{
    let mut writer = Writer::new(alloc);
    writer.items(items)?;
    if writer.len() > TABLE_LIMIT - HEADER_BYTES {
        return Err(WriteFault::TooLong);
    }
    let length = HEADER_BYTES + writer.len();
    writer.header(header, length as u32)?;
    let mut bytes = writer.into_bytes();
    bytes[9] = checksum_for(&bytes);
    Ok(bytes)
}

impl Writer {
    /// A header with this Length, and 0 for Checksum.
    fn header(&mut self, header: &Header, length: u32) -> Result<(), AllocError>
        ensures put { OnOk result (self.new ≡ header_bytes header.now length 0 ++ self.old) }
        ensures widths { OnOk result (HasWidths header.now) }
    {
        self.bytes(&header.creator_revision.to_le_bytes())?;
        self.bytes(&header.creator_id)?;
        self.bytes(&header.oem_revision.to_le_bytes())?;
        self.bytes(&header.oem_table_id)?;
        self.bytes(&header.oem_id)?;
        self.byte(0)?;
        self.byte(header.revision)?;
        self.bytes(&length.to_le_bytes())?;
        self.bytes(&header.signature)
    }
}
