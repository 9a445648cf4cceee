//! Items.

ghost use Rattle.std.specs.Prelude.{◌≡◌, ◌∷◌, [], Some, false, OnOk};
ghost use Rattle.acpi_code.specs.Opcodes.{width_bytes};
ghost use Rattle.acpi_tree.specs.Tree.{name as named_item, method as method_item, external_block as external_block_item, create as create_item, create_field as create_field_item, region as region_item};
ghost use Rattle.acpi_tree.specs.View.{data_view, external_view, externals_view, fields_view, item_view, items_tree};
ghost use Rattle.acpi_tree.specs.DataTerms.{data_term};
ghost use Rattle.acpi_tree.specs.Fits.{holds_items};
ghost use Rattle.acpi_write.specs.Canonical.{each_bytes, filled_with, fields_bytes};
ghost use Rattle.acpi_write.specs.CanonicalItems.{external_bytes, item_bytes, items_bytes};
ghost use Rattle.acpi_write.specs.steps.Writing.{Puts, pieces, AreArgumentsTyped};
ghost use Rattle.std.specs.List.{AllByRecursion};
ghost use Rattle.acpi_name.specs.Names.{IsName};
ghost use Rattle.acpi_write.specs.Laws.{IsTermTyped, IsFieldTyped, IsExternalTyped, IsItemTyped, AreItemsTyped};

use crate::fault::WriteFault;
use crate::writer::{Argument, Writer};
use acpi_name::Name;
use acpi_tree::{Data, External, FieldElem, Int, Item, Width};

// CreateDWordFieldOp and the like (ACPI 6.5, 20.2.5.2)
pub(crate) fn width_opcode(width: Width) -> u8
    ensures { width_bytes width ≡ result ∷ [] }
{
    match width {
        Width::DWord => 0x8A,
        Width::Word => 0x8B,
        Width::Byte => 0x8C,
        Width::Bit => 0x8D,
        Width::QWord => 0x8F,
    }
}

impl Writer {
    /// Items one after another (20.2.5).
    #[cycle(items)]
    pub(crate) fn items(&mut self, items: &[Item]) -> Result<(), WriteFault>
        ensures put { Puts result (items_bytes (items_tree items.now)) self.old self.new }
        ensures typed { OnOk result (AreItemsTyped (items_tree items.now)) }
    {
        for i in (0..items.len()).rev() {
            self.item(&items[i])?;
        }
        Ok(())
    }

    #[cycle(items)]
    fn item(&mut self, item: &Item) -> Result<(), WriteFault>
        ensures put { Puts result (item_bytes (item_view item.now)) self.old self.new }
        ensures typed { OnOk result (IsItemTyped (item_view item.now)) }
    {
        let end = self.len();
        match item {
            Item::Scope(name, items) => {
                self.items(items)?;
                self.fill(end, &[0x10], &[Argument::Name(name)])
            }
            Item::Device(name, items) => {
                self.items(items)?;
                self.fill(end, &[0x5B, 0x82], &[Argument::Name(name)])
            }
            Item::Processor {
                name,
                id,
                block,
                length,
                items,
            } => {
                self.items(items)?;
                let front = [
                    Argument::Name(name),
                    Argument::Byte(*id),
                    Argument::DWord(*block),
                    Argument::Byte(*length),
                ];
                self.fill(end, &[0x5B, 0x83], &front)
            }
            Item::Power {
                name,
                level,
                order,
                items,
            } => {
                self.items(items)?;
                let front = [
                    Argument::Name(name),
                    Argument::Byte(*level),
                    Argument::Word(*order),
                ];
                self.fill(end, &[0x5B, 0x84], &front)
            }
            Item::Thermal(name, items) => {
                self.items(items)?;
                self.fill(end, &[0x5B, 0x85], &[Argument::Name(name)])
            }
            _ => self.leaf(item),
        }
    }

    // Apart from the items that hold items, so that a level of these costs little stack.
    #[inline(never)]
    fn leaf(&mut self, item: &Item) -> Result<(), WriteFault>
        requires { holds_items (item_view item.now) ≡ false }
        ensures put { Puts result (item_bytes (item_view item.now)) self.old self.new }
        ensures typed { OnOk result (IsItemTyped (item_view item.now)) }
    {
        match item {
            Item::Name(name, data) => self.named(name, data),
            Item::Method { name, flags, code } => self.method(name, *flags, code),
            Item::External(external) => self.external(external),
            Item::ExternalBlock(externals) => self.external_block(externals),
            Item::Create {
                width,
                source,
                index,
                name,
            } => self.create(*width, source, *index, name),
            Item::CreateField {
                source,
                index,
                bits,
                name,
            } => self.create_field(source, *index, *bits, name),
            Item::Mutex(name, flags) => self.form(
                &[0x5B, 0x01],
                &[Argument::Name(name), Argument::Byte(*flags)],
            ),
            Item::Event(name) => self.form(&[0x5B, 0x02], &[Argument::Name(name)]),
            Item::Region {
                name,
                space,
                offset,
                length,
            } => self.region(name, *space, *offset, *length),
            Item::Field {
                region,
                flags,
                elems,
            } => self.units(
                &[0x5B, 0x81],
                &[Argument::Name(region), Argument::Byte(*flags)],
                elems,
            ),
            Item::IndexField {
                index,
                datum,
                flags,
                elems,
            } => {
                let front = [
                    Argument::Name(index),
                    Argument::Name(datum),
                    Argument::Byte(*flags),
                ];
                self.units(&[0x5B, 0x86], &front, elems)
            }
            Item::BankField {
                region,
                bank,
                value,
                flags,
                elems,
            } => {
                let front = [
                    Argument::Name(region),
                    Argument::Name(bank),
                    Argument::Int(*value),
                    Argument::Byte(*flags),
                ];
                self.units(&[0x5B, 0x87], &front, elems)
            }
            Item::Scope(..)
            | Item::Device(..)
            | Item::Processor { .. }
            | Item::Power { .. }
            | Item::Thermal(..) => unreachable!(),
        }
    }

    // DefName
    fn named(&mut self, name: &Name, data: &Data) -> Result<(), WriteFault>
        ensures put { Puts result (item_bytes (named_item name.now (data_view «data».now)))
            self.old self.new }
        ensures typed { OnOk result (IsName name.now
            × IsTermTyped (data_term (data_view «data».now))) }
    {
        self.data(data)?;
        self.name(name)?;
        self.byte(0x08)?;
        Ok(())
    }

    // DefMethod
    fn method(&mut self, name: &Name, flags: u8, code: &[u8]) -> Result<(), WriteFault>
        ensures put { Puts result (item_bytes (method_item name.now flags code.now)) self.old
            self.new }
        ensures typed { OnOk result (IsItemTyped (method_item name.now flags code.now)) }
    {
        let end = self.len();
        self.bytes(code)?;
        self.fill(end, &[0x14], &[Argument::Name(name), Argument::Byte(flags)])
    }

    // CreateDWordFieldOp and the like
    fn create<'a>(
        &mut self,
        width: Width,
        source: &'a Name,
        index: Int,
        name: &'a Name,
    ) -> Result<(), WriteFault>
        ensures put { Puts result (item_bytes (create_item width source.now index name.now))
            self.old self.new }
        ensures typed { OnOk result (IsItemTyped (create_item width source.now index name.now)) }
    {
        let parts = [
            Argument::Name(source),
            Argument::Int(index),
            Argument::Name(name),
        ];
        self.form(&[width_opcode(width)], &parts)
    }

    // DefCreateField
    fn create_field<'a>(
        &mut self,
        source: &'a Name,
        index: Int,
        bits: Int,
        name: &'a Name,
    ) -> Result<(), WriteFault>
        ensures put { Puts result (item_bytes (create_field_item source.now index bits name.now))
            self.old self.new }
        ensures typed { OnOk result (IsItemTyped
            (create_field_item source.now index bits name.now)) }
    {
        let parts = [
            Argument::Name(source),
            Argument::Int(index),
            Argument::Int(bits),
            Argument::Name(name),
        ];
        self.form(&[0x5B, 0x13], &parts)
    }

    // DefOpRegion
    fn region(&mut self, name: &Name, space: u8, offset: Int, length: Int) -> Result<(), WriteFault>
        ensures put { Puts result (item_bytes (region_item name.now space offset length)) self.old
            self.new }
        ensures typed { OnOk result (IsItemTyped (region_item name.now space offset length)) }
    {
        let parts = [
            Argument::Name(name),
            Argument::Byte(space),
            Argument::Int(offset),
            Argument::Int(length),
        ];
        self.form(&[0x5B, 0x80], &parts)
    }

    // DefExternal
    fn external(&mut self, external: &External) -> Result<(), WriteFault>
        ensures put { Puts result (Some (external_bytes (external_view external.now))) self.old
            self.new }
        ensures typed { OnOk result (IsExternalTyped (external_view external.now)) }
    {
        let parts = [
            Argument::Name(&external.name),
            Argument::Byte(external.kind),
            Argument::Byte(external.args),
        ];
        self.form(&[0x15], &parts)
    }

    fn externals(&mut self, externals: &[External]) -> Result<(), WriteFault>
        ensures put { Puts result (each_bytes (λ x. Some (external_bytes x))
            (externals_view externals.now)) self.old self.new }
        ensures typed { OnOk result (AllByRecursion IsExternalTyped
            (externals_view externals.now)) }
    {
        for i in (0..externals.len()).rev() {
            self.external(&externals[i])?;
        }
        Ok(())
    }

    // An If whose test is Zero, with Externals alone
    fn external_block(&mut self, externals: &[External]) -> Result<(), WriteFault>
        ensures put { Puts result (item_bytes (external_block_item (externals_view externals.now)))
            self.old self.new }
        ensures typed { OnOk result (IsItemTyped
            (external_block_item (externals_view externals.now))) }
    {
        let end = self.len();
        self.externals(externals)?;
        self.fill(end, &[0xA0], &[Argument::Int(Int::Zero)])
    }

    // A package of fixed arguments and a field list.
    fn units(
        &mut self,
        opcode: &[u8],
        front: &[Argument<'_>],
        elems: &[FieldElem],
    ) -> Result<(), WriteFault>
        ensures put { Puts result (filled_with opcode.now (pieces front.now)
            (fields_bytes (fields_view elems.now))) self.old self.new }
        ensures typed { OnOk result (AreArgumentsTyped front.now
            × AllByRecursion IsFieldTyped (fields_view elems.now)) }
    {
        let end = self.len();
        self.fields(elems)?;
        self.fill(end, opcode, front)
    }
}
