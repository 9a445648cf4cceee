//! The paths that declarations declare, which are locals behind them.

ghost use Rattle.std.specs.Prelude.{◌≡◌, OnOk};
ghost use Rattle.acpi_name.specs.Paths.{place_of};
ghost use Rattle.acpi_tree.specs.TermView.{decl_view};
ghost use Rattle.acpi_tree.specs.View.{field_view, fields_view};
ghost use Rattle.acpi_body.specs.Statements.{with_place, locals_after, locals_after_unit, locals_after_units};

use crate::arguments::add;
use acpi_name::{Name, Path, PlaceFault, place};
use acpi_space::TreeSpace;
use acpi_tree::{Decl, FieldElem};
use std::alloc::{AllocError, Global};

// Adds the place of a declared name, if it has one.
fn add_name(
    alloc: Global,
    locals: &mut TreeSpace<()>,
    method: &Path,
    name: &Name,
) -> Result<(), AllocError>
    ensures { OnOk result (locals.new ≡ with_place locals.old (place_of method.now name.now)) }
{
    match place(alloc, method, name.view()) {
        Ok(path) => add(locals, path),
        Err(PlaceFault::AboveRoot) => Ok(()),
        Err(PlaceFault::Memory) => Err(AllocError),
    }
}

fn add_unit(
    locals: &mut TreeSpace<()>,
    method: &Path,
    element: &FieldElem,
) -> Result<(), AllocError>
    ensures { OnOk result (locals.new ≡ locals_after_unit method.now locals.old
        (field_view element.now)) }
{
    match element {
        FieldElem::Unit(seg, _) => {
            let mut path = method.copy()?;
            path.push(*seg)?;
            add(locals, path)
        }
        _ => Ok(()),
    }
}

// Adds the path of each named element.
fn add_units(
    locals: &mut TreeSpace<()>,
    method: &Path,
    elements: &[FieldElem],
) -> Result<(), AllocError>
    ensures { OnOk result (locals.new ≡ locals_after_units method.now locals.old
        (fields_view elements.now)) }
{
    'each: for element in elements {
        add_unit(locals, method, element)?;
    }
    Ok(())
}

/// Adds the path of each name that a declaration in the body of a method declares to those that the lines before declare (ACPI
/// 6.5, 20.2.5.2).
#[inline(never)]
pub fn add_declared_paths(
    alloc: Global,
    locals: &mut TreeSpace<()>,
    method: &Path,
    decl: &Decl,
) -> Result<(), AllocError>
    ensures { OnOk result (locals.new ≡ locals_after method.now locals.old
        (decl_view decl.now)) }
{
    match decl {
        Decl::Name(name, _) => add_name(alloc, locals, method, name),
        Decl::Create { name, .. } => add_name(alloc, locals, method, name),
        Decl::CreateField { name, .. } => add_name(alloc, locals, method, name),
        Decl::Mutex(name, _) => add_name(alloc, locals, method, name),
        Decl::Event(name) => add_name(alloc, locals, method, name),
        Decl::Region { name, .. } => add_name(alloc, locals, method, name),
        Decl::Field { elems, .. } => add_units(locals, method, elems),
        Decl::IndexField { elems, .. } => add_units(locals, method, elems),
        Decl::BankField { elems, .. } => add_units(locals, method, elems),
    }
}
