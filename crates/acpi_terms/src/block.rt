//! Reading the block of Externals that compilers write: `If (Zero)` round them.

ghost use Rattle.std.specs.Prelude.{◌≡◌};
ghost use Rattle.acpi_tree.specs.View.{item_view, external_view, externals_view};
ghost use Rattle.acpi_code.specs.steps.Reading.{each_at};
ghost use Rattle.acpi_terms.specs.steps.Reading.{external_at, block_content, block_answer, block_item};
ghost use Rattle.acpi_terms.specs.steps.Cursor.{Reads, ReadsAll};

use crate::fault::{ItemFault, ItemReason, refused};
use crate::form::external;
use acpi_code::{Code, Opcode};
use acpi_tree::{External, Item};
use std::alloc::Global;

#[tactic(auto, using(crate::proofs::Parts::part_fails), unfolding(crate::specs::steps::Reading::external_at))]
fn external_term(alloc: Global, level: u32, code: &mut Code<'_>) -> Result<External, ItemFault>
    ensures { Reads external_view (external_at level) code.old code.new result }
{
    if level == 0 {
        return Err(code.too_deep().into());
    }
    let front = code.fork();
    match code.opcode()? {
        Opcode::External => external(alloc, code),
        _ => Err(refused(&front, ItemReason::ModuleIf)),
    }
}

fn externals(alloc: Global, level: u32, code: &mut Code<'_>) -> Result<Vec<External>, ItemFault>
    ensures { ReadsAll (λ v. externals_view v.items)
        (λ end. each_at (external_at level end)) code.old result }
{
    let mut found = Vec::new(alloc);
    'each: while !code.is_empty() {
        found.push(external_term(alloc, level, code)?)?;
    }
    Ok(found)
}

#[tactic(auto, using(crate::proofs::Parts::part_fails), unfolding(crate::specs::steps::Reading::block_content))]
fn content(alloc: Global, level: u32, code: &mut Code<'_>) -> Result<Vec<External>, ItemFault>
    ensures { ReadsAll (λ v. externals_view v.items) (block_content level) code.old result }
{
    let front = code.fork();
    if code.byte()? != 0 {
        return Err(refused(&front, ItemReason::ModuleIf));
    }
    externals(alloc, level, code)
}

// The fault of a block whose If stands at a place, by the fault of its content.
fn fault_of_block(fault: ItemFault, of_if: ItemFault) -> ItemFault
    ensures { result ≡ block_answer of_if fault }
{
    match fault {
        ItemFault::At {
            reason: ItemReason::TooDeep,
            ..
        } => fault,
        ItemFault::At { .. } => of_if,
        ItemFault::Memory => ItemFault::Memory,
    }
}

/// The block whose If, behind `front`, was read.
#[inline(never)]
#[tactic(auto, using(crate::proofs::Parts::part_fails))]
pub(crate) fn block_form(
    alloc: Global,
    level: u32,
    front: &Code<'_>,
    code: &mut Code<'_>,
) -> Result<Item, ItemFault>
    requires { front.now.end ≡ code.old.end }
    ensures { Reads item_view (λ end rest. block_item level end front.now.bytes rest) code.old
        code.new result }
{
    let mut inner = code.package()?;
    match content(alloc, level, &mut inner) {
        Ok(externals) => Ok(Item::ExternalBlock(externals)),
        Err(fault) => Err(fault_of_block(fault, refused(front, ItemReason::ModuleIf))),
    }
}
