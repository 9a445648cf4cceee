//! Reading items.

ghost use Rattle.std.specs.Prelude.{◌≡◌, ◌≤◌, ◌++◌, [], ℕ, true, false, List, length, IfOk, IfErr};
ghost use Rattle.acpi_tree.specs.Tree.{ItemTrees, items_of};
ghost use Rattle.acpi_terms.specs.Spelling.{SpellsItems, items_height};
ghost use Rattle.acpi_terms.specs.Faults.{operator_reason, IsTrueFault, Refused, OrMemory, IsToldAt};
ghost use Rattle.acpi_tree.specs.Fits.{items_fit};
ghost use Rattle.acpi_tree.specs.Offsets.{OffsetsFit};
ghost use Rattle.acpi_terms.specs.declared.fault.ItemReason.{ItemReason};
ghost use Rattle.acpi_tree.specs.View.{item_view, items_view, items_tree};
ghost use Rattle.acpi_terms.specs.steps.Reading.{item_by, item_at, items_with, items_at};
ghost use Rattle.acpi_terms.specs.steps.ScopeBlocks.{opens_items, GivesNext, ReadsNext};
ghost use Rattle.acpi_terms.specs.steps.Cursor.{Gives, Reads, ReadsAll};

use crate::block::block_form;
use crate::fault::{ItemFault, ItemReason, refused};
use crate::form::{
    bank_field_form, create_field_form, create_form, event_form, external_form, field_form,
    index_field_form, method_form, mutex_form, name_form, region_form,
};
use crate::scope_block::{ScopeBlock, open_block, opens_items};
use acpi_code::{Code, Depth, Opcode};
use acpi_tree::{Item, Op};
use bytes::Bytes;
use std::alloc::{AllocError, Global};

// Why an operator is no item.
fn operator_reason(op: Op) -> ItemReason
    ensures { result ≡ operator_reason op }
{
    if op.is_load() {
        ItemReason::Load
    } else {
        ItemReason::ModuleCode
    }
}

// An item that holds none, whose first opcode, behind `front`, was read; `level` levels are left inside it.
fn leaf(
    alloc: Global,
    level: u32,
    front: &Code<'_>,
    opcode: Opcode,
    code: &mut Code<'_>,
) -> Result<Item, ItemFault>
    requires ends { front.now.end ≡ code.old.end }
    requires none { opens_items opcode ≡ false }
    ensures { Reads item_view (λ end rest. item_by
        (items_with (item_at level)) level end front.now.bytes opcode rest) code.old code.new
        result }
{
    match opcode {
        Opcode::DeclareName => name_form(alloc, level, code),
        Opcode::Method => method_form(alloc, code),
        Opcode::External => external_form(alloc, code),
        Opcode::If => block_form(alloc, level, front, code),
        Opcode::Create(width) => create_form(alloc, level, width, code),
        Opcode::CreateField => create_field_form(alloc, level, code),
        Opcode::Mutex => mutex_form(alloc, code),
        Opcode::Event => event_form(alloc, code),
        Opcode::Region => region_form(alloc, level, code),
        Opcode::Field => field_form(alloc, code),
        Opcode::IndexField => index_field_form(alloc, code),
        Opcode::BankField => bank_field_form(alloc, level, code),
        Opcode::Scope | Opcode::Device | Opcode::Processor | Opcode::Power | Opcode::Thermal =>
            unreachable!(),
        Opcode::Nothing => Err(refused(front, ItemReason::BadOpcode)),
        Opcode::Alias => Err(refused(front, ItemReason::Alias)),
        Opcode::Else => Err(refused(front, ItemReason::ModuleIf)),
        Opcode::While => Err(refused(front, ItemReason::ModuleIf)),
        Opcode::Operator(op) => Err(refused(front, operator_reason(op))),
        Opcode::DataRegion => Err(refused(front, ItemReason::DataRegion)),
        _ => Err(refused(front, ItemReason::ModuleCode)),
    }
}

/// The next item of some code.
#[derive(Drop)]
pub enum NextItem<'a> {
    /// An item that holds no items.
    Leaf(Item),
    /// What stands before the items of an item that holds some, and their code.
    ScopeBlock(ScopeBlock<'a>),
}

/// The next item that the code spells (ACPI 6.5, 20.2.5), `level` levels being left for it (for those of the outermost
/// list as many as the depth has); or, where it holds items, what stands before these, which have one level less. So
/// the items of a table can be gone through without a list of them. A fault is that of `read_items`; `code` is not to
/// be read on behind one.
#[tactic(auto, using(crate::proofs::Parts::part_fails), unfolding(crate::specs::steps::Reading::item_at))]
pub fn next_item<'a>(
    alloc: Global,
    level: u32,
    code: &mut Code<'a>,
) -> Result<NextItem<'a>, ItemFault>
    ensures { GivesNext level code.old code.new result }
{
    if level == 0 {
        return Err(code.too_deep().into());
    }
    let front = code.fork();
    let opcode = code.opcode()?;
    if opens_items(opcode) {
        Ok(NextItem::ScopeBlock(open_block(alloc, opcode, code)?))
    } else {
        Ok(NextItem::Leaf(leaf(alloc, level - 1, &front, opcode, code)?))
    }
}

// The next item, `level` levels being left for it: adds it to those found; or, where it holds items, answers what
// stands before these. It is no part of the recursion, so that a level of this costs little stack.
#[inline(never)]
fn next<'a>(
    alloc: Global,
    level: u32,
    code: &mut Code<'a>,
    found: &mut Vec<Item>,
) -> Result<Option<ScopeBlock<'a>>, ItemFault>
    ensures { ReadsNext level code.old code.new (items_view found.old.items)
        (items_view found.new.items) result }
{
    match next_item(alloc, level, code)? {
        NextItem::ScopeBlock(block) => Ok(Some(block)),
        NextItem::Leaf(item) => {
            found.push(item)?;
            Ok(None)
        }
    }
}

// The items of a list, `level` levels being left for each.
#[cycle(items)]
fn find_items(
    alloc: Global,
    level: u32,
    code: &mut Code<'_>,
    found: &mut Vec<Item>,
) -> Result<(), ItemFault>
    requires { found.old.items ≡ [] }
    ensures { ReadsAll (λ _. items_tree found.new.items)
        (items_with (item_at level)) code.old result }
{
    'each: while !code.is_empty() {
        match next(alloc, level, code, found)? {
            Some(block) => {
                let ScopeBlock { front, inner } = block;
                let mut inner = inner;
                let items = items(alloc, level - 1, &mut inner)?;
                front.put(items, found)?;
            }
            None => {}
        }
    }
    Ok(())
}

// Lets go of items, apart from the recursion, for the same reason.
#[inline(never)]
fn let_go(_items: Vec<Item>) {}

#[cycle(items)]
fn items(alloc: Global, level: u32, code: &mut Code<'_>) -> Result<Vec<Item>, ItemFault>
    ensures { ReadsAll (λ v. items_tree v.items) (items_with (item_at level)) code.old result }
{
    let mut found = Vec::new(alloc);
    match find_items(alloc, level, code, &mut found) {
        Ok(()) => Ok(found),
        Err(fault) => {
            let_go(found);
            Err(fault)
        }
    }
}

fn all_items(alloc: Global, depth: u32, shared: &Bytes, code: &[u8]) -> Result<Vec<Item>, ItemFault>
    requires { shared.now ≡ code.now }
    ensures fits { IfOk result (λ v. items_fit (items_tree v.items) ≡ true) }
    ensures offsets { length code.now ≤ 16777216
        → IfOk result (λ v. OffsetsFit (items_tree v.items)) }
    ensures exact { Gives (λ v. items_tree v.items) result (items_at depth code.now) }
{
    items(alloc, depth, &mut Code::shared(shared))
}

/// The module-level terms that the code spells, all of it, with at most `depth` levels (ACPI 6.5, 20.2.5). The
/// methods share the code's bytes. A fault tells the first reason from the left, and its place in bytes from the
/// code's first byte; or that a growth of memory was refused.
pub fn read_items_shared(alloc: Global, code: &Bytes, depth: Depth) -> Result<Vec<Item>, ItemFault>
    // What is read is spelled so, within the limit.
    ensures found { IfOk result (λ v. SpellsItems (items_tree v.items) code.now
        × (items_height (items_tree v.items) ≤ depth)) }
    // What is spelled so within the limit is read, unless memory runs out. So a fault means that nothing is.
    ensures only { (is : ItemTrees) → SpellsItems is code.now → items_height is ≤ depth
        → OrMemory result (λ v. items_tree v.items ≡ is) }
    // A fault is of the first part, from the left, that isn't spelled; no other is true of the code.
    ensures faults { IfErr result (λ e. IsTrueFault depth code.now e) }
    // Behind items, the first term that can't be an item is reported at its place, unless memory runs out.
    ensures next { (u w : List ℕ) (is : ItemTrees) (why : ItemReason) → code.now ≡ u ++ w
        → SpellsItems is u → items_height is ≤ depth
        → Refused why w 0 → IsToldAt result why (length u) }
    // What is read fits.
    ensures fits { IfOk result (λ v. items_fit (items_tree v.items) ≡ true) }
    // Where the code is no longer than a table, the bits of each field list are a number of 64 bits.
    ensures offsets { length code.now ≤ 16777216
        → IfOk result (λ v. OffsetsFit (items_tree v.items)) }
{
    all_items(alloc, depth.get(), code, code.as_slice())
}

/// The module-level terms that the code spells, all of it, with at most `depth` levels (ACPI 6.5, 20.2.5). A
/// fault tells the first reason from the left, and its place in bytes from the code's first byte; or that a
/// growth of memory was refused.
pub fn read_items(alloc: Global, code: &[u8], depth: Depth) -> Result<Vec<Item>, ItemFault>
    // What is read is spelled so, within the limit.
    ensures found { IfOk result (λ v. SpellsItems (items_tree v.items) code.now
        × (items_height (items_tree v.items) ≤ depth)) }
    // What is spelled so within the limit is read, unless memory runs out. So a fault means that nothing is.
    ensures only { (is : ItemTrees) → SpellsItems is code.now → items_height is ≤ depth
        → OrMemory result (λ v. items_tree v.items ≡ is) }
    // A fault is of the first part, from the left, that isn't spelled; no other is true of the code.
    ensures faults { IfErr result (λ e. IsTrueFault depth code.now e) }
    // Behind items, the first term that can't be an item is reported at its place, unless memory runs out.
    ensures next { (u w : List ℕ) (is : ItemTrees) (why : ItemReason) → code.now ≡ u ++ w
        → SpellsItems is u → items_height is ≤ depth
        → Refused why w 0 → IsToldAt result why (length u) }
    // What is read fits.
    ensures fits { IfOk result (λ v. items_fit (items_tree v.items) ≡ true) }
    // Where the code is no longer than a table, the bits of each field list are a number of 64 bits.
    ensures offsets { length code.now ≤ 16777216
        → IfOk result (λ v. OffsetsFit (items_tree v.items)) }
{
    let code = Bytes::copy_from_slice(alloc, code)?;
    read_items_shared(alloc, &code, depth)
}
