//! Lines of the body of a method.

ghost use Rattle.std.specs.Prelude.{◌≡◌, OnOk};
ghost use Rattle.acpi_tree.specs.TermView.{term_view};
ghost use Rattle.acpi_locals.specs.Lines.{declared_behind};

use crate::method::Method;
use acpi_body::add_declared_paths;
use acpi_space::TreeSpace;
use acpi_tree::Term;
use std::alloc::AllocError;

/// A line of the body of a method: its number, from 1, and the paths that the lines before it declare.
#[derive(Clone, Copy)]
pub(crate) struct Line<'l, 'a> {
    pub(crate) method: &'l Method<'a>,
    pub(crate) number: usize,
    pub(crate) before: &'l TreeSpace<()>,
}

/// Adds the paths that a line declares, without those of the lines in it.
pub(crate) fn declare_line(
    method: &Method<'_>,
    declared: &mut TreeSpace<()>,
    statement: &Term,
) -> Result<(), AllocError>
    ensures { OnOk result (declared.new
        ≡ declared_behind method.now.path declared.old (term_view statement.now)) }
{
    match statement {
        Term::Declare(decl) => add_declared_paths(method.alloc(), declared, method.path(), decl),
        _ => Ok(()),
    }
}
