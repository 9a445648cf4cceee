//! The places of the code of methods, item after item.

ghost use Rattle.std.specs.Prelude.{◌≡◌, ◌<◌, ◌≤◌, ◌++◌, length, false, IfOk, OnOk};
ghost use Rattle.acpi_code.specs.steps.Remaining.{Advances};
ghost use Rattle.acpi_tree.specs.Tree.{ItemTrees};
ghost use Rattle.acpi_tree.specs.View.{item_view};
ghost use Rattle.acpi_places.specs.steps.Walking.{AddsPlaces, GoesOn, IsSpelled, code_length, leaf_places};

use crate::place::CodePlace;
use acpi_code::Code;
use acpi_terms::{Item, ItemFault, NextItem, next_item};
use std::alloc::{AllocError, Global};

// Adds the place of the code of a method: it ends where the item does.
fn add_place(
    table: usize,
    end: usize,
    item: Item,
    places: &mut Vec<CodePlace>,
) -> Result<(), AllocError>
    requires { code_length (item_view item) ≤ end }
    ensures { OnOk result (places.new.items ≡ places.old.items
        ++ leaf_places table end (item_view item)) }
{
    match item {
        Item::Method { code, .. } => {
            let length = code.len();
            places.push(CodePlace {
                table,
                place: end - length,
                length,
            })?;
            Ok(())
        }
        _ => Ok(()),
    }
}

// Goes past the next item, and adds the place of its code if it is a method; or gives the code of the items that it
// holds. It is no part of the recursion, which so holds no item on the stack.
#[inline(never)]
fn next<'c>(
    alloc: Global,
    table: usize,
    level: u32,
    code: &mut Code<'c>,
    places: &mut Vec<CodePlace>,
) -> Result<Option<Code<'c>>, AllocError>
    requires some { 0 < length code.old.bytes }
    requires items { (is : ItemTrees) × IsSpelled level code.old is }
    ensures next { (is : ItemTrees) → IsSpelled level code.old is
        → IfOk result (λ e. GoesOn table level code.old is code.new places.old.items
        places.new.items e) }
    ensures level { IfOk result (λ _. 0 < level) }
    ensures shorter { OnOk result (Advances code.old code.new) }
{
    match next_item(alloc, level, code) {
        Ok(NextItem::Leaf(item)) => {
            add_place(table, code.place(), item, places)?;
            Ok(None)
        }
        Ok(NextItem::ScopeBlock(block)) => Ok(Some(block.inner)),
        Err(ItemFault::At { .. }) => unreachable!(),
        Err(ItemFault::Memory) => Err(AllocError),
    }
}

/// Adds the places of the code of the methods that some code declares, in byte order; `level` levels are left for its
/// items.
pub(crate) fn add_places(
    alloc: Global,
    table: usize,
    level: u32,
    code: Code<'_>,
    places: &mut Vec<CodePlace>,
) -> Result<(), AllocError>
    requires { (is : ItemTrees) × IsSpelled level code is }
    ensures { (is : ItemTrees) → IsSpelled level code.entry is
        → OnOk result (AddsPlaces table code.entry is places.old.items places.new.items) }
{
    let mut left = code;
    'each: while !left.is_empty() {
        if let Some(inner) = next(alloc, table, level, &mut left, places)? {
            add_places(alloc, table, level - 1, inner, places)?;
        }
    }
    Ok(())
}
