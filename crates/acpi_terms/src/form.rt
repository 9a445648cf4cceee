//! Reading items that hold no items.

ghost use Rattle.std.specs.Prelude.{◌≤◌, IfOk};
ghost use Rattle.acpi_tree.specs.View.{item_view, external_view};
ghost use Rattle.acpi_terms.specs.steps.Reading.{args_in, name_item, method_item, parts_at, external_item, create_item, create_field_item, mutex_item, event_item, region_item, field_item, index_field_item, bank_field_item};
ghost use Rattle.acpi_terms.specs.steps.Cursor.{Reads};

use crate::constant::{int, source};
use crate::data::data;
use crate::fault::{ItemFault, ItemReason, refused};
use acpi_code::{Code, field_elements};
use acpi_tree::{External, Item, Width};
use std::alloc::Global;

#[inline(never)]
#[tactic(auto, using(crate::proofs::Parts::part_fails))]
pub(crate) fn name_form(alloc: Global, level: u32, code: &mut Code<'_>) -> Result<Item, ItemFault>
    ensures { Reads item_view (name_item level) code.old code.new result }
{
    let name = code.name()?;
    let data = data(alloc, level, code)?;
    Ok(Item::Name(name.own(alloc)?, data))
}

#[inline(never)]
#[tactic(auto, using(crate::proofs::Parts::part_fails))]
pub(crate) fn method_form(alloc: Global, code: &mut Code<'_>) -> Result<Item, ItemFault>
    ensures { Reads item_view (method_item 0) code.old code.new result }
{
    let mut inner = code.package()?;
    let name = inner.name()?;
    let flags = inner.byte()?;
    let code = inner.share(alloc)?;
    let name = name.own(alloc)?;
    Ok(Item::Method { name, flags, code })
}

// The number of arguments of an External.
#[tactic(auto, using(crate::proofs::Parts::part_fails), unfolding(crate::specs::steps::Reading::args_in))]
fn args(code: &mut Code<'_>) -> Result<u8, ItemFault>
    ensures exact { Reads (λ n. n) args_in code.old code.new result }
    ensures few { IfOk result (λ n. n ≤ 7) }
{
    let front = code.fork();
    let number = code.byte()?;
    if number > 7 {
        return Err(refused(&front, ItemReason::ReservedBits));
    }
    Ok(number)
}

#[tactic(auto, using(crate::proofs::Parts::part_fails), unfolding(crate::specs::steps::Reading::parts_at))]
pub(crate) fn external(alloc: Global, code: &mut Code<'_>) -> Result<External, ItemFault>
    ensures { Reads external_view parts_at code.old code.new result }
{
    let name = code.name()?;
    let kind = code.byte()?;
    let args = args(code)?;
    let name = name.own(alloc)?;
    Ok(External { name, kind, args })
}

#[inline(never)]
#[tactic(auto, using(crate::proofs::Parts::part_fails))]
pub(crate) fn external_form(alloc: Global, code: &mut Code<'_>) -> Result<Item, ItemFault>
    ensures { Reads item_view external_item code.old code.new result }
{
    let external = external(alloc, code)?;
    Ok(Item::External(external))
}

#[inline(never)]
#[tactic(auto, using(crate::proofs::Parts::part_fails))]
pub(crate) fn create_form(
    alloc: Global,
    level: u32,
    width: Width,
    code: &mut Code<'_>,
) -> Result<Item, ItemFault>
    ensures { Reads item_view (create_item width level) code.old code.new result }
{
    let source = source(code)?;
    let index = int(level, code)?;
    let name = code.name()?;
    let source = source.own(alloc)?;
    let name = name.own(alloc)?;
    Ok(Item::Create {
        width,
        source,
        index,
        name,
    })
}

#[inline(never)]
#[tactic(auto, using(crate::proofs::Parts::part_fails))]
pub(crate) fn create_field_form(
    alloc: Global,
    level: u32,
    code: &mut Code<'_>,
) -> Result<Item, ItemFault>
    ensures { Reads item_view (create_field_item level) code.old code.new result }
{
    let source = source(code)?;
    let index = int(level, code)?;
    let bits = int(level, code)?;
    let name = code.name()?;
    let source = source.own(alloc)?;
    let name = name.own(alloc)?;
    Ok(Item::CreateField {
        source,
        index,
        bits,
        name,
    })
}

#[inline(never)]
#[tactic(auto, using(crate::proofs::Parts::part_fails))]
pub(crate) fn mutex_form(alloc: Global, code: &mut Code<'_>) -> Result<Item, ItemFault>
    ensures { Reads item_view (mutex_item 0) code.old code.new result }
{
    let name = code.name()?;
    let flags = code.byte()?;
    Ok(Item::Mutex(name.own(alloc)?, flags))
}

#[inline(never)]
#[tactic(auto, using(crate::proofs::Parts::part_fails))]
pub(crate) fn event_form(alloc: Global, code: &mut Code<'_>) -> Result<Item, ItemFault>
    ensures { Reads item_view (event_item 0) code.old code.new result }
{
    let name = code.name()?;
    Ok(Item::Event(name.own(alloc)?))
}

#[inline(never)]
#[tactic(auto, using(crate::proofs::Parts::part_fails))]
pub(crate) fn region_form(alloc: Global, level: u32, code: &mut Code<'_>) -> Result<Item, ItemFault>
    ensures { Reads item_view (region_item level) code.old code.new result }
{
    let name = code.name()?;
    let space = code.byte()?;
    let offset = int(level, code)?;
    let length = int(level, code)?;
    let name = name.own(alloc)?;
    Ok(Item::Region {
        name,
        space,
        offset,
        length,
    })
}

#[inline(never)]
#[tactic(auto, using(crate::proofs::Parts::part_fails, crate::proofs::Parts::field_fails))]
pub(crate) fn field_form(alloc: Global, code: &mut Code<'_>) -> Result<Item, ItemFault>
    ensures { Reads item_view (field_item 0) code.old code.new result }
{
    let mut inner = code.package()?;
    let region = inner.name()?;
    let flags = inner.byte()?;
    let elems = field_elements(alloc, &mut inner)?;
    let region = region.own(alloc)?;
    Ok(Item::Field {
        region,
        flags,
        elems,
    })
}

#[inline(never)]
#[tactic(auto, using(crate::proofs::Parts::part_fails, crate::proofs::Parts::field_fails))]
pub(crate) fn index_field_form(alloc: Global, code: &mut Code<'_>) -> Result<Item, ItemFault>
    ensures { Reads item_view (index_field_item 0) code.old code.new result }
{
    let mut inner = code.package()?;
    let index = inner.name()?;
    let datum = inner.name()?;
    let flags = inner.byte()?;
    let elems = field_elements(alloc, &mut inner)?;
    let index = index.own(alloc)?;
    let datum = datum.own(alloc)?;
    Ok(Item::IndexField {
        index,
        datum,
        flags,
        elems,
    })
}

#[inline(never)]
#[tactic(auto, using(crate::proofs::Parts::part_fails, crate::proofs::Parts::field_fails))]
pub(crate) fn bank_field_form(
    alloc: Global,
    level: u32,
    code: &mut Code<'_>,
) -> Result<Item, ItemFault>
    ensures { Reads item_view (bank_field_item level) code.old code.new result }
{
    let mut inner = code.package()?;
    let region = inner.name()?;
    let bank = inner.name()?;
    let value = int(level, &mut inner)?;
    let flags = inner.byte()?;
    let elems = field_elements(alloc, &mut inner)?;
    let region = region.own(alloc)?;
    let bank = bank.own(alloc)?;
    Ok(Item::BankField {
        region,
        bank,
        value,
        flags,
        elems,
    })
}
