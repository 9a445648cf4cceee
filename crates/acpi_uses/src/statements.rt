//! The statements of a body by their lines, and the names in them.

ghost use Rattle.std.specs.Prelude.{◌≡◌, ◌++◌, IfOk, OnOk};
ghost use Rattle.acpi_tree.specs.TermView.{term_view, terms_tree};
ghost use Rattle.acpi_uses.specs.Statements as defined;
ghost use Rattle.acpi_uses.specs.Statements.{statements_in, uses_at};
ghost use Rattle.acpi_uses.specs.UseViews.{line_uses_view, statements_view};

use crate::uses::{NameUse, uses_of};
use acpi_tree::Term;
use std::alloc::{AllocError, Global};

/// A name that stands in a statement of a body.
#[derive(Debug, Clone, Copy)]
pub struct LineUse<'a> {
    /// The line of the statement, from 1.
    pub line: usize,
    /// The name, and how it stands there.
    pub name_use: NameUse<'a>,
}

#[cycle(statements)]
fn add_all<'a>(statements: &mut Vec<&'a Term>, terms: &'a [Term]) -> Result<(), AllocError>
    ensures { OnOk result (statements_view statements.new.items
        ≡ statements_view statements.old.items ++ defined.statements_of (terms_tree terms.now)) }
{
    'each: for term in terms {
        add(statements, term)?;
    }
    Ok(())
}

// Puts a statement and all that stand in it behind others.
#[cycle(statements)]
fn add<'a>(statements: &mut Vec<&'a Term>, term: &'a Term) -> Result<(), AllocError>
    ensures { OnOk result (statements_view statements.new.items
        ≡ statements_view statements.old.items ++ statements_in (term_view term.now)) }
{
    statements.push(term)?;
    match term {
        Term::If(_, then, None) => add_all(statements, then),
        Term::If(_, then, Some(other)) => {
            add_all(statements, then)?;
            add_all(statements, other)
        }
        Term::While(_, body) => add_all(statements, body),
        _ => Ok(()),
    }
}

/// The statements of a body, each If or While before what stands in it: the first stands at line 1, and so on.
pub fn statements_of<'a>(alloc: Global, body: &'a [Term]) -> Result<Vec<&'a Term>, AllocError>
    ensures { IfOk result (λ v. statements_view v.items
        ≡ defined.statements_of (terms_tree body.now)) }
{
    let mut statements = Vec::new(alloc);
    add_all(&mut statements, body)?;
    Ok(statements)
}

// Puts the names of the statement at a line behind others.
fn add_line<'a>(
    alloc: Global,
    uses: &mut Vec<LineUse<'a>>,
    line: usize,
    statement: &'a Term,
) -> Result<(), AllocError>
    ensures { OnOk result (line_uses_view uses.new.items
        ≡ line_uses_view uses.old.items ++ uses_at line (term_view statement.now)) }
{
    let names = uses_of(alloc, statement)?;
    'each: for name_use in &names {
        uses.push(LineUse {
            line,
            name_use: *name_use,
        })?;
    }
    Ok(())
}

/// The names of a body with their roles and their lines, in the order in which they stand.
pub fn uses_of_body<'a>(alloc: Global, body: &'a [Term]) -> Result<Vec<LineUse<'a>>, AllocError>
    ensures { IfOk result (λ v. line_uses_view v.items
        ≡ defined.uses_of_body (terms_tree body.now)) }
{
    let statements = statements_of(alloc, body)?;
    let mut uses = Vec::new(alloc);
    'each: for i in 0..statements.len() {
        add_line(alloc, &mut uses, i + 1, statements[i])?;
    }
    Ok(uses)
}
