//! The searches of a read body, term after term.

ghost use Rattle.std.specs.Prelude.{◌≡◌, OnOk};
ghost use Rattle.acpi_tree.specs.Terms.{terms_of};
ghost use Rattle.acpi_tree.specs.TermView.{term_view, terms_tree, else_view, operands_view, decl_view};
ghost use Rattle.acpi_body.specs.Statements.{locals_after, locals_after_else, locals_after_all};
ghost use Rattle.acpi_body.specs.steps.Gathering.{after_value, after_values, after_statement, after_else, after_statements};

use crate::arguments::Context;
use crate::gathered::{Gathered, gather_search};
use crate::locals::add_declared_paths;
use acpi_space::{Space, TreeSpace, Wanted};
use acpi_tree::{Decl, Object, Operand, Term};
use std::alloc::AllocError;

// What the names in a value search.
#[cycle(value)]
fn value<S: Space<Object>, Q: Wanted>(
    context: &Context<'_, S>,
    locals: &TreeSpace<()>,
    wanted: &Q,
    gathered: &mut Gathered,
    term: &Term,
) -> Result<(), AllocError>
    ensures { OnOk result (gathered.new ≡ after_value
        (Q.wanted wanted.now) context.now locals.now gathered.old (term_view term.now)) }
{
    match term {
        Term::Buffer(size, _) => value(context, locals, wanted, gathered, size),
        Term::Package(_, elements) => values(context, locals, wanted, gathered, elements),
        Term::VarPackage(count, elements) => {
            value(context, locals, wanted, gathered, count)?;
            values(context, locals, wanted, gathered, elements)
        }
        Term::Call(name, args) => {
            gather_search(context, locals, wanted, gathered, name.view())?;
            values(context, locals, wanted, gathered, args)
        }
        Term::Op(_, operands) => operand_values(context, locals, wanted, gathered, operands),
        _ => Ok(()),
    }
}

#[cycle(value)]
fn values<S: Space<Object>, Q: Wanted>(
    context: &Context<'_, S>,
    locals: &TreeSpace<()>,
    wanted: &Q,
    gathered: &mut Gathered,
    terms: &[Term],
) -> Result<(), AllocError>
    ensures { OnOk result (gathered.new ≡ after_values
        (Q.wanted wanted.now) context.now locals.now gathered.old (terms_tree terms.now)) }
{
    'each: for term in terms {
        value(context, locals, wanted, gathered, term)?;
    }
    Ok(())
}

#[cycle(value)]
fn operand_values<S: Space<Object>, Q: Wanted>(
    context: &Context<'_, S>,
    locals: &TreeSpace<()>,
    wanted: &Q,
    gathered: &mut Gathered,
    operands: &[Operand],
) -> Result<(), AllocError>
    ensures { OnOk result (gathered.new ≡ after_values
        (Q.wanted wanted.now) context.now locals.now gathered.old
        (terms_of (operands_view operands.now))) }
{
    'each: for operand in operands {
        if let Operand::Term(term) = operand {
            value(context, locals, wanted, gathered, term)?;
        }
    }
    Ok(())
}

// What the names in the operands of a declaration search.
#[inline(never)]
fn declaration<S: Space<Object>, Q: Wanted>(
    context: &Context<'_, S>,
    locals: &TreeSpace<()>,
    wanted: &Q,
    gathered: &mut Gathered,
    decl: &Decl,
) -> Result<(), AllocError>
    ensures { OnOk result (gathered.new ≡ after_statement
        (Q.wanted wanted.now) context.now locals.now gathered.old (decl_view decl.now)) }
{
    match decl {
        Decl::Name(_, data) => value(context, locals, wanted, gathered, data),
        Decl::Create { source, index, .. } => {
            value(context, locals, wanted, gathered, source)?;
            value(context, locals, wanted, gathered, index)
        }
        Decl::CreateField {
            source,
            index,
            bits,
            ..
        } => {
            value(context, locals, wanted, gathered, source)?;
            value(context, locals, wanted, gathered, index)?;
            value(context, locals, wanted, gathered, bits)
        }
        Decl::Mutex(_, _) => Ok(()),
        Decl::Event(_) => Ok(()),
        Decl::Region { offset, length, .. } => {
            value(context, locals, wanted, gathered, offset)?;
            value(context, locals, wanted, gathered, length)
        }
        Decl::Field { .. } => Ok(()),
        Decl::IndexField { .. } => Ok(()),
        Decl::BankField { value: bank, .. } => value(context, locals, wanted, gathered, bank),
    }
}

// What the names in a statement search, and the paths that it declares.
#[cycle(statement)]
fn statement<S: Space<Object>, Q: Wanted>(
    context: &Context<'_, S>,
    locals: &mut TreeSpace<()>,
    wanted: &Q,
    gathered: &mut Gathered,
    term: &Term,
) -> Result<(), AllocError>
    ensures gathered { OnOk result (gathered.new
        ≡ after_statement (Q.wanted wanted.now) context.now locals.old gathered.old
        (term_view term.now)) }
    ensures locals { OnOk result (locals.new ≡ locals_after context.now.method locals.old
        (term_view term.now)) }
{
    match term {
        Term::If(test, then, other) => {
            value(context, locals, wanted, gathered, test)?;
            statements(context, locals, wanted, gathered, then)?;
            else_statements(context, locals, wanted, gathered, other)
        }
        Term::While(test, then) => {
            value(context, locals, wanted, gathered, test)?;
            statements(context, locals, wanted, gathered, then)
        }
        Term::Declare(decl) => {
            declaration(context, locals, wanted, gathered, decl)?;
            add_declared_paths(context.alloc(), locals, context.method(), decl)
        }
        _ => value(context, locals, wanted, gathered, term),
    }
}

#[cycle(statement)]
fn else_statements<S: Space<Object>, Q: Wanted>(
    context: &Context<'_, S>,
    locals: &mut TreeSpace<()>,
    wanted: &Q,
    gathered: &mut Gathered,
    other: &Option<Vec<Term>>,
) -> Result<(), AllocError>
    ensures gathered { OnOk result (gathered.new
        ≡ after_else (Q.wanted wanted.now) context.now locals.old gathered.old
        (else_view other.now)) }
    ensures locals { OnOk result (locals.new ≡ locals_after_else context.now.method locals.old
        (else_view other.now)) }
{
    match other {
        Some(other) => statements(context, locals, wanted, gathered, other),
        None => Ok(()),
    }
}

/// Gathers what the searches of statements miss, one after another, and the paths that they declare.
#[cycle(statement)]
pub(crate) fn statements<S: Space<Object>, Q: Wanted>(
    context: &Context<'_, S>,
    locals: &mut TreeSpace<()>,
    wanted: &Q,
    gathered: &mut Gathered,
    terms: &[Term],
) -> Result<(), AllocError>
    ensures gathered { OnOk result (gathered.new
        ≡ after_statements (Q.wanted wanted.now) context.now locals.old gathered.old
        (terms_tree terms.now)) }
    ensures locals { OnOk result (locals.new ≡ locals_after_all context.now.method locals.old
        (terms_tree terms.now)) }
{
    'each: for term in terms {
        statement(context, locals, wanted, gathered, term)?;
    }
    Ok(())
}
