//! Reading nodes in which none stand: plain ones, and data that can't be read in a package that can.

ghost use Rattle.std.specs.Prelude.{◌≡◌, ◌<◌, ◌-◌, length, None};
ghost use Rattle.acpi_outline.specs.Nodes as nodes;
ghost use Rattle.acpi_code.specs.steps.Reading.{package_at};
ghost use Rattle.acpi_outline.specs.steps.Cursor.{Reads};
ghost use Rattle.acpi_outline.specs.steps.Leaves.{leaf_view};
ghost use Rattle.acpi_outline.specs.steps.Reading.{plain_in, packed_form, data_form, packed_as, name_at_level, contained_by, or_contained};

use crate::fault::{LostError, LostFault};
use crate::form::DataForm;
use crate::known::Known;
use crate::node::Plain;
use crate::plain::plain;
use acpi_code::{Code, Opcode};
use acpi_name::Name;
use std::alloc::Global;

/// A node in which none stand.
#[derive(Drop)]
pub(crate) enum Leaf {
    /// A plain node.
    Plain(Plain),
    /// A statement that is data and can't be read.
    DataLost(DataForm, LostFault),
    /// A Name whose data can't be read.
    NameLost(Name, DataForm, LostFault),
}

/// The form of the data that begins with the opcode, if some does.
fn data_of(opcode: Opcode) -> Option<DataForm>
    ensures { result ≡ data_form opcode }
{
    match opcode {
        Opcode::Buffer => Some(DataForm::Buffer),
        Opcode::Package => Some(DataForm::Package),
        Opcode::VarPackage => Some(DataForm::VarPackage),
        _ => None,
    }
}

// The package of a statement.
fn data_lost(form: DataForm, why: LostFault, code: &mut Code<'_>) -> Result<Leaf, LostError>
    ensures { Reads leaf_view
        (λ end rest. packed_as (nodes.data_lost form why) why (package_at end rest))
        code.old code.new result }
{
    match code.package() {
        Ok(_) => Ok(Leaf::DataLost(form, why)),
        Err(_) => Err(LostError::Fault(why)),
    }
}

// A name, and the package of its data; `level` levels are left for the data.
fn name_lost(
    alloc: Global,
    level: u32,
    why: LostFault,
    code: &mut Code<'_>,
) -> Result<Leaf, LostError>
    ensures { Reads leaf_view (λ end rest. name_at_level level why end rest)
        code.old code.new result }
{
    if level == 0 {
        return Err(LostError::Fault(why));
    }
    let Ok(name) = code.name() else {
        return Err(LostError::Fault(why));
    };
    let Ok(opcode) = code.opcode() else {
        return Err(LostError::Fault(why));
    };
    let Some(form) = data_of(opcode) else {
        return Err(LostError::Fault(why));
    };
    match code.package() {
        Ok(_) => Ok(Leaf::NameLost(name.own(alloc)?, form, why)),
        Err(_) => Err(LostError::Fault(why)),
    }
}

// What holds the fault of a plain node whose opcode was read, if something does; `level` levels are left inside it.
#[inline(never)]
fn held(
    alloc: Global,
    level: u32,
    opcode: Opcode,
    why: LostFault,
    code: &mut Code<'_>,
) -> Result<Leaf, LostError>
    ensures { Reads leaf_view (λ end rest. contained_by level why end opcode rest)
        code.old code.new result }
{
    match opcode {
        Opcode::Buffer => data_lost(DataForm::Buffer, why, code),
        Opcode::Package => data_lost(DataForm::Package, why, code),
        Opcode::VarPackage => data_lost(DataForm::VarPackage, why, code),
        Opcode::DeclareName => name_lost(alloc, level, why, code),
        _ => Err(LostError::Fault(why)),
    }
}

/// The node in which none stand whose opcode, behind `front`, was read; `level` levels are left for it.
#[inline(never)]
#[tactic(auto, unfolding(crate::specs::steps::Reading::plain_in))]
pub(crate) fn read_leaf<'a, K: Known>(
    known: &K,
    level: u32,
    front: &Code<'a>,
    opcode: Opcode,
    code: &mut Code<'a>,
) -> Result<Leaf, LostError>
    requires some { 0 < level }
    requires ends { front.now.end ≡ code.old.end }
    requires behind { length code.old.bytes < length front.now.bytes }
    requires none { packed_form opcode ≡ None }
    ensures { Reads leaf_view
        (λ end whole. or_contained (level - 1) end opcode code.old.bytes
        (plain_in K.rules (level - 1) known.now end whole opcode code.old.bytes))
        front.now code.new result }
{
    let behind = code.fork();
    match plain(known, level, front, opcode, code) {
        Ok(plain) => Ok(Leaf::Plain(plain)),
        Err(LostError::Fault(why)) => {
            *code = behind;
            held(known.alloc(), level - 1, opcode, why, code)
        }
        Err(LostError::Memory) => Err(LostError::Memory),
    }
}
