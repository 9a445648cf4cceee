//! Items that hold items: what stands before these.

ghost use Rattle.std.specs.Prelude.{◌≡◌, ◌++◌, ◌∷◌, [], true, OnOk};
ghost use Rattle.acpi_tree.specs.View.{items_view, items_tree};
ghost use Rattle.acpi_terms.specs.steps.ScopeBlocks.{opens_items, kind_at, front_at, scope_with, scope_block_item, BeginsScope};
ghost use Rattle.acpi_terms.specs.steps.Cursor.{Reads, ReadsOn};

use crate::fault::ItemFault;
use acpi_code::{Code, Opcode};
use acpi_name::Name;
use acpi_tree::{Item, ScopeKind};
use std::alloc::{AllocError, Global};

/// What stands before the items of an item that holds some (ACPI 6.5, 20.2.5.1 and 20.2.5.2).
#[derive(Drop)]
pub struct ScopeFront {
    /// The name that it declares or opens, not resolved.
    pub name: Name,
    /// What opens its scope, with what stands behind the name.
    pub kind: ScopeKind,
}

impl ScopeFront {
    /// Puts the item in which these items stand behind others.
    #[inline(never)]
    pub(crate) fn put(self, items: Vec<Item>, found: &mut Vec<Item>) -> Result<(), AllocError>
        ensures { OnOk result (items_view found.new.items ≡ items_view found.old.items
            ++ scope_with self (items_tree items.items) ∷ []) }
    {
        let ScopeFront { name, kind } = self;
        found.push(kind.item(name, items))?;
        Ok(())
    }
}

/// What stands before the items of an item that holds some, and the code in which these are spelled.
#[derive(Drop)]
pub struct ScopeBlock<'a> {
    /// What stands before the items.
    pub front: ScopeFront,
    /// The code in which they are spelled, to its end.
    pub inner: Code<'a>,
}

/// Whether the opcode is that of an item that holds items.
pub(crate) fn opens_items(opcode: Opcode) -> bool
    ensures { result ≡ opens_items opcode }
{
    matches!(
        opcode,
        Opcode::Scope | Opcode::Device | Opcode::Processor | Opcode::Power | Opcode::Thermal
    )
}

// What stands between the name and the items, by the opcode.
#[tactic(auto, using(crate::proofs::Parts::part_fails))]
fn kind_of(opcode: Opcode, inner: &mut Code<'_>) -> Result<ScopeKind, ItemFault>
    requires { opens_items opcode ≡ true }
    ensures { ReadsOn (λ k. k) (kind_at opcode) inner.old inner.new result }
{
    match opcode {
        Opcode::Scope => Ok(ScopeKind::Scope),
        Opcode::Device => Ok(ScopeKind::Device),
        Opcode::Processor => {
            let id = inner.byte()?;
            let block = inner.dword()?;
            let length = inner.byte()?;
            Ok(ScopeKind::Processor { id, block, length })
        }
        Opcode::Power => {
            let level = inner.byte()?;
            let order = inner.word()?;
            Ok(ScopeKind::Power { level, order })
        }
        Opcode::Thermal => Ok(ScopeKind::Thermal),
        _ => unreachable!(),
    }
}

// What stands before the items of an item that holds some.
#[tactic(auto, using(crate::proofs::Parts::part_fails))]
fn front_of(alloc: Global, opcode: Opcode, inner: &mut Code<'_>) -> Result<ScopeFront, ItemFault>
    requires { opens_items opcode ≡ true }
    ensures { Reads scope_with (front_at opcode) inner.old inner.new result }
{
    let name = inner.name()?;
    let kind = kind_of(opcode, inner)?;
    Ok(ScopeFront {
        name: name.own(alloc)?,
        kind,
    })
}

/// An item that holds items, whose opcode was read, but for these.
#[tactic(auto, using(crate::proofs::Parts::part_fails))]
pub(crate) fn open_block<'a>(
    alloc: Global,
    opcode: Opcode,
    code: &mut Code<'a>,
) -> Result<ScopeBlock<'a>, ItemFault>
    requires { opens_items opcode ≡ true }
    ensures { BeginsScope (λ inner. scope_block_item inner opcode) code.old code.new result }
{
    let mut inner = code.package()?;
    let front = front_of(alloc, opcode, &mut inner)?;
    Ok(ScopeBlock { front, inner })
}
