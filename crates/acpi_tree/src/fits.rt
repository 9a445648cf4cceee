//! Whether items have a spelling.

ghost use Rattle.std.specs.Prelude.{◌≡◌, length};
ghost use Rattle.std.specs.List.{list_all};
ghost use Rattle.acpi_tree.specs.Tree.{elems_of};
ghost use Rattle.acpi_tree.specs.View.{data_view, elem_view, elems_view, field_view, fields_view, external_view, externals_view, item_view, items_tree};
ghost use Rattle.acpi_name.specs.Names.{is_null_name};
ghost use Rattle.acpi_tree.specs.Fits.{text_fits, data_fits, elem_fits, elems_fit, bits_fit, field_fits, external_fits, item_fits};
ghost use Rattle.acpi_tree.specs.Fits as fits;

use crate::tree::{Data, Elem, External, FieldElem, Item};
use acpi_name::Name;

pub(crate) fn is_text(bytes: &[u8]) -> bool
    ensures { result ≡ list_all text_fits bytes.now }
{
    bytes.iter().all(|b| *b > 0 && *b < 128)
}

// Whether it is the name that the byte 00 spells.
pub(crate) fn is_null(name: &Name) -> bool
    ensures { result ≡ is_null_name name.now }
{
    let name = name.view();
    !name.rooted() && name.parents() == 0 && name.len() == 0
}

#[cycle(fits)]
fn data_may_stand(value: &Data) -> bool
    ensures { result ≡ data_fits (data_view value.now) }
{
    match value {
        Data::Str(text) => is_text(text),
        Data::Package(_, elems) => elems_may_stand(elems),
        Data::VarPackage(_, elems) => elems_may_stand(elems),
        _ => true,
    }
}

#[cycle(fits)]
fn elem_may_stand(elem: &Elem) -> bool
    ensures { result ≡ elem_fits (elem_view elem.now) }
{
    match elem {
        Elem::Data(data) => data_may_stand(data),
        Elem::Name(name) => !is_null(name),
    }
}

#[cycle(fits)]
fn elems_may_stand(elems: &[Elem]) -> bool
    ensures { result ≡ elems_fit (elems_of (elems_view elems.now)) }
{
    for elem in elems {
        if !elem_may_stand(elem) {
            return false;
        }
    }
    true
}

fn bits_may_stand(bits: u32) -> bool
    ensures { result ≡ bits_fit bits }
{
    bits <= 268_435_455
}

fn field_may_stand(elem: &FieldElem) -> bool
    ensures { result ≡ field_fits (field_view elem.now) }
{
    match elem {
        FieldElem::Unit(_, bits) => bits_may_stand(*bits),
        FieldElem::Reserved(bits) => bits_may_stand(*bits),
        _ => true,
    }
}

pub(crate) fn fields_may_stand(elems: &[FieldElem]) -> bool
    ensures { result ≡ list_all field_fits (fields_view elems.now) }
{
    for elem in elems {
        if !field_may_stand(elem) {
            return false;
        }
    }
    true
}

fn external_may_stand(external: &External) -> bool
    ensures { result ≡ external_fits (external_view external.now) }
{
    external.args <= 7
}

fn externals_may_stand(externals: &[External]) -> bool
    ensures { result ≡ list_all external_fits (externals_view externals.now) }
{
    for external in externals {
        if !external_may_stand(external) {
            return false;
        }
    }
    true
}

#[cycle(items_fit)]
fn item_may_stand(item: &Item) -> bool
    ensures { result ≡ item_fits (item_view item.now) }
{
    match item {
        Item::Name(_, data) => data_may_stand(data),
        Item::Scope(_, items) => items_fit(items),
        Item::External(external) => external_may_stand(external),
        Item::ExternalBlock(externals) => externals_may_stand(externals),
        Item::Create { source, .. } => !is_null(source),
        Item::CreateField { source, .. } => !is_null(source),
        Item::Field { elems, .. } => fields_may_stand(elems),
        Item::IndexField { elems, .. } => fields_may_stand(elems),
        Item::BankField { elems, .. } => fields_may_stand(elems),
        Item::Device(_, items) => items_fit(items),
        Item::Processor { items, .. } => items_fit(items),
        Item::Power { items, .. } => items_fit(items),
        Item::Thermal(_, items) => items_fit(items),
        Item::Method { .. } => true,
        Item::Mutex(..) => true,
        Item::Event(_) => true,
        Item::Region { .. } => true,
    }
}

/// Whether the items have a spelling, but for the lengths of their packages: strings hold bytes 01 to 7F, an
/// External has at most 7 arguments, a bit count fits 28 bits, and neither a package element nor the source
/// of a Create field is the name that the byte 00 spells. It takes no memory.
#[cycle(items_fit)]
pub fn items_fit(items: &[Item]) -> bool
    ensures { result ≡ fits.items_fit (items_tree items.now) }
{
    for item in items {
        if !item_may_stand(item) {
            return false;
        }
    }
    true
}
