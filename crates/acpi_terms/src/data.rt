//! Reading data.

ghost use Rattle.std.specs.Prelude.{◌≡◌};
ghost use Rattle.acpi_tree.specs.Tree.{elems_of};
ghost use Rattle.acpi_tree.specs.View.{data_view, elem_view, elems_view};
ghost use Rattle.acpi_terms.specs.steps.Reading.{name_elem_at, int_data, string_data, buffer_data, package_data, var_package_data, data_by, data_elem_of, elem_at, elems_with, data_at};
ghost use Rattle.acpi_terms.specs.steps.Cursor.{Reads, ReadsOn, ReadsAll};

use crate::constant::int;
use crate::fault::{ItemFault, ItemReason, refused};
use acpi_code::{Code, ConstantForm, Opcode, is_name};
use acpi_tree::{Data, Elem};
use std::alloc::Global;

#[inline(never)]
#[tactic(auto, using(crate::proofs::Parts::part_fails))]
fn int_form(form: ConstantForm, code: &mut Code<'_>) -> Result<Data, ItemFault>
    ensures { ReadsOn data_view (int_data form) code.old code.new result }
{
    Ok(Data::Int(code.constant(form)?))
}

#[inline(never)]
#[tactic(auto, using(crate::proofs::Parts::part_fails))]
fn string_form(alloc: Global, code: &mut Code<'_>) -> Result<Data, ItemFault>
    ensures { Reads data_view string_data code.old code.new result }
{
    let text = code.string()?;
    Ok(Data::Str(Vec::from_slice(alloc, text)?))
}

#[inline(never)]
#[tactic(auto, using(crate::proofs::Parts::part_fails))]
fn buffer_form(alloc: Global, level: u32, code: &mut Code<'_>) -> Result<Data, ItemFault>
    ensures { Reads data_view (buffer_data level) code.old code.new result }
{
    let mut inner = code.package()?;
    let size = int(level, &mut inner)?;
    let bytes = Vec::from_slice(alloc, inner.left())?;
    Ok(Data::Buffer(size, bytes))
}

#[cycle(read)]
#[tactic(auto, using(crate::proofs::Parts::part_fails))]
fn package_form(alloc: Global, level: u32, code: &mut Code<'_>) -> Result<Data, ItemFault>
    ensures { Reads data_view (package_data (elems_with (elem_at level)) level) code.old code.new
        result }
{
    let mut inner = code.package()?;
    let count = inner.byte()?;
    let elems = elems(alloc, level, &mut inner)?;
    Ok(Data::Package(count, elems))
}

#[cycle(read)]
#[tactic(auto, using(crate::proofs::Parts::part_fails))]
fn var_package_form(alloc: Global, level: u32, code: &mut Code<'_>) -> Result<Data, ItemFault>
    ensures { Reads data_view (var_package_data (elems_with (elem_at level)) level) code.old
        code.new result }
{
    let mut inner = code.package()?;
    let count = int(level, &mut inner)?;
    let elems = elems(alloc, level, &mut inner)?;
    Ok(Data::VarPackage(count, elems))
}

// The data whose first opcode, behind `front`, was read; `level` levels are left inside it.
#[cycle(read)]
fn data_form(
    alloc: Global,
    level: u32,
    front: &Code<'_>,
    opcode: Opcode,
    code: &mut Code<'_>,
) -> Result<Data, ItemFault>
    requires { front.now.end ≡ code.old.end }
    ensures { ReadsOn data_view (λ end rest. data_by
        (elems_with (elem_at level)) level end front.now.bytes opcode rest) code.old code.new
        result }
{
    match opcode {
        Opcode::Constant(form) => int_form(form, code),
        Opcode::Str => string_form(alloc, code),
        Opcode::Buffer => buffer_form(alloc, level, code),
        Opcode::Package => package_form(alloc, level, code),
        Opcode::VarPackage => var_package_form(alloc, level, code),
        _ => Err(refused(front, ItemReason::NotData)),
    }
}

#[inline(never)]
#[tactic(auto, using(crate::proofs::Parts::part_fails))]
fn name_elem(alloc: Global, code: &mut Code<'_>) -> Result<Elem, ItemFault>
    ensures { Reads elem_view name_elem_at code.old code.new result }
{
    let name = code.name()?;
    Ok(Elem::Name(name.own(alloc)?))
}

#[cycle(read)]
fn data_elem(
    alloc: Global,
    level: u32,
    front: &Code<'_>,
    opcode: Opcode,
    code: &mut Code<'_>,
) -> Result<Elem, ItemFault>
    requires { front.now.end ≡ code.old.end }
    ensures { ReadsOn elem_view (λ end rest. data_elem_of
        (data_by (elems_with (elem_at level)) level end front.now.bytes opcode rest)) code.old
        code.new result }
{
    Ok(Elem::Data(data_form(alloc, level, front, opcode, code)?))
}

#[cycle(read)]
#[tactic(auto, using(crate::proofs::Parts::part_fails), unfolding(crate::specs::steps::Reading::elem_at))]
fn elem(alloc: Global, level: u32, code: &mut Code<'_>) -> Result<Elem, ItemFault>
    ensures { Reads elem_view (elem_at level) code.old code.new result }
{
    if level == 0 {
        return Err(code.too_deep().into());
    }
    let front = code.fork();
    let opcode = code.opcode()?;
    if is_name(opcode) {
        *code = front;
        name_elem(alloc, code)
    } else {
        data_elem(alloc, level - 1, &front, opcode, code)
    }
}

#[cycle(read)]
fn elems(alloc: Global, level: u32, code: &mut Code<'_>) -> Result<Vec<Elem>, ItemFault>
    ensures { ReadsAll (λ v. elems_of (elems_view v.items))
        (elems_with (elem_at level)) code.old result }
{
    let mut found = Vec::new(alloc);
    'each: while !code.is_empty() {
        found.push(elem(alloc, level, code)?)?;
    }
    Ok(found)
}

/// The data of a Name, `level` levels being left for it.
#[tactic(auto, using(crate::proofs::Parts::part_fails), unfolding(crate::specs::steps::Reading::data_at))]
pub(crate) fn data(alloc: Global, level: u32, code: &mut Code<'_>) -> Result<Data, ItemFault>
    ensures { Reads data_view (data_at level) code.old code.new result }
{
    if level == 0 {
        return Err(code.too_deep().into());
    }
    let front = code.fork();
    let opcode = code.opcode()?;
    data_form(alloc, level - 1, &front, opcode, code)
}
