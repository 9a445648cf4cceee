//! Reading statements.

ghost use Rattle.std.specs.Prelude.{◌≡◌, ◌<◌, length, IfOk};
ghost use Rattle.std.specs.FinMap as finite;
ghost use Rattle.std.specs.Prelude.{box_value, Some};
ghost use Rattle.acpi_tree.specs.Terms.{if_do, else_do, no_else};
ghost use Rattle.acpi_tree.specs.TermView.{term_view, terms_view, terms_tree, else_view};
ghost use Rattle.acpi_body.specs.Statements.{locals_after, locals_after_else, locals_after_all};
ghost use Rattle.acpi_values.specs.steps.Reading.{term_at};
ghost use Rattle.acpi_body.specs.steps.Reading.{else_at, if_form, while_form, statement_by, statement_at, statements_at, body_at};
ghost use Rattle.acpi_values.specs.steps.Cursor.{Gives, Reads, ReadsOn, ReadsAll};

use crate::counting::{BodyPlace, MethodCounting};
use crate::declare::{named_declaration, term_apart, units_declaration};
use acpi_code::{Code, Opcode};
use acpi_space::{Space, TreeSpace};
use acpi_tree::{NamedForm, Place, Term, UnitsForm};
use acpi_values::BodyError;
use acpi_values::term::{buffer, package, placed, var_package};

fn with_else(predicate: Box<Term>, then: Vec<Term>, other: Vec<Term>) -> Term
    ensures { term_view result ≡ if_do (term_view (box_value predicate)) (terms_tree then.items)
        (else_do (terms_tree other.items)) }
{
    Term::If(predicate, then, Some(other))
}

fn branch(predicate: Box<Term>, then: Vec<Term>, other: Option<Vec<Term>>) -> Term
    ensures { term_view result ≡ if_do (term_view (box_value predicate)) (terms_tree then.items)
        (else_view other) }
{
    match other {
        Some(other) => with_else(predicate, then, other),
        None => Term::If(predicate, then, None),
    }
}

// The statements of an If, and of its Else where one follows.
#[cycle(statement)]
#[tactic(auto, using(acpi_values::proofs::Parts::part_fails), unfolding(crate::specs::steps::Reading::if_form))]
#[inline(never)]
fn if_statement<M: MethodCounting>(
    counting: &M,
    locals: &mut TreeSpace<()>,
    level: u32,
    code: &mut Code<'_>,
) -> Result<Term, BodyError>
    ensures exact { Reads term_view
        (if_form (term_at (M.grammar counting.now locals.old) level)
        (statements_at (M.grammar counting.now) (M.method counting.now) level)
        (M.method counting.now) locals.old) code.old code.new result }
    ensures locals { IfOk result (λ t. locals.new
        ≡ locals_after (M.method counting.now) locals.old (term_view t)) }
{
    let mut inner = code.package()?;
    let predicate = term_apart(counting, locals, level, Place::Value, &mut inner)?;
    let then = statements(counting, locals, level, &mut inner)?;
    let other = else_statements(counting, locals, level, code)?;
    Ok(branch(predicate, then, other))
}

#[cycle(statement)]
#[tactic(auto, using(acpi_values::proofs::Parts::part_fails), unfolding(crate::specs::steps::Reading::else_at))]
fn else_statements<M: MethodCounting>(
    counting: &M,
    locals: &mut TreeSpace<()>,
    level: u32,
    code: &mut Code<'_>,
) -> Result<Option<Vec<Term>>, BodyError>
    ensures exact { ReadsOn else_view (else_at
        (statements_at (M.grammar counting.now) (M.method counting.now) level locals.old))
        code.old code.new result }
    ensures locals { IfOk result (λ o. locals.new
        ≡ locals_after_else (M.method counting.now) locals.old (else_view o)) }
{
    if code.left().first() != Some(&0xA1) {
        return Ok(None);
    }
    code.skip(1);
    let mut inner = code.package()?;
    Ok(Some(statements(counting, locals, level, &mut inner)?))
}

#[cycle(statement)]
#[tactic(auto, using(acpi_values::proofs::Parts::part_fails), unfolding(crate::specs::steps::Reading::while_form))]
#[inline(never)]
fn while_statement<M: MethodCounting>(
    counting: &M,
    locals: &mut TreeSpace<()>,
    level: u32,
    code: &mut Code<'_>,
) -> Result<Term, BodyError>
    ensures exact { Reads term_view (while_form
        (term_at (M.grammar counting.now locals.old) level)
        (statements_at (M.grammar counting.now) (M.method counting.now) level) locals.old)
        code.old code.new result }
    ensures locals { IfOk result (λ t. locals.new
        ≡ locals_after (M.method counting.now) locals.old (term_view t)) }
{
    let mut inner = code.package()?;
    let predicate = term_apart(counting, locals, level, Place::Value, &mut inner)?;
    let then = statements(counting, locals, level, &mut inner)?;
    Ok(Term::While(predicate, then))
}

// How many statements there is room for at first where so many bytes are left: few have less than three, and the
// list of a long body grows.
fn room(left: usize) -> usize {
    let most = left / 3 + 1;
    if most < 16 { most } else { 16 }
}

#[cycle(statement)]
fn statements<M: MethodCounting>(
    counting: &M,
    locals: &mut TreeSpace<()>,
    level: u32,
    code: &mut Code<'_>,
) -> Result<Vec<Term>, BodyError>
    ensures exact { ReadsAll (λ v. terms_view v.items)
        (statements_at (M.grammar counting.now) (M.method counting.now) level locals.old)
        code.old result }
    ensures locals { IfOk result (λ v. locals.new
        ≡ locals_after_all (M.method counting.now) locals.old (terms_tree v.items)) }
{
    let mut found = Vec::with_capacity(counting.alloc(), room(code.left().len()))?;
    'each: while !code.is_empty() {
        found.push(statement(counting, locals, level, code)?)?;
    }
    Ok(found)
}

// The statement whose first opcode, behind `front`, was read; `level` levels are left inside it.
#[cycle(statement)]
#[tactic(auto, unfolding(crate::specs::steps::Reading::statement_by, acpi_values::specs::steps::Reading::placed_by, acpi_values::specs::steps::Reading::form_by))]
fn form<'a, M: MethodCounting>(
    counting: &M,
    locals: &mut TreeSpace<()>,
    level: u32,
    front: &Code<'a>,
    opcode: Opcode,
    code: &mut Code<'a>,
) -> Result<Term, BodyError>
    requires ends { front.now.end ≡ code.old.end }
    requires behind { length code.old.bytes < length front.now.bytes }
    ensures exact { Reads term_view (λ end whole. statement_by
        (M.grammar counting.now locals.old)
        (term_at (M.grammar counting.now locals.old) level)
        (statements_at (M.grammar counting.now) (M.method counting.now) level)
        (M.method counting.now) locals.old end whole opcode code.old.bytes) front.now code.new
        result }
    ensures locals { IfOk result (λ t. locals.new
        ≡ locals_after (M.method counting.now) locals.old (term_view t)) }
{
    match opcode {
        Opcode::If => if_statement(counting, locals, level, code),
        Opcode::While => while_statement(counting, locals, level, code),
        Opcode::DeclareName => named_declaration(counting, locals, level, NamedForm::Name, code),
        Opcode::Create(width) => {
            named_declaration(counting, locals, level, NamedForm::Create(width), code)
        }
        Opcode::CreateField => {
            named_declaration(counting, locals, level, NamedForm::CreateField, code)
        }
        Opcode::Region => named_declaration(counting, locals, level, NamedForm::Region, code),
        Opcode::Mutex => named_declaration(counting, locals, level, NamedForm::Mutex, code),
        Opcode::Event => named_declaration(counting, locals, level, NamedForm::Event, code),
        Opcode::Field => units_declaration(counting, locals, level, UnitsForm::Field, code),
        Opcode::IndexField => {
            units_declaration(counting, locals, level, UnitsForm::IndexField, code)
        }
        Opcode::BankField => {
            units_declaration(counting, locals, level, UnitsForm::BankField, code)
        }
        Opcode::Buffer => buffer(
            &BodyPlace {
                counting: &*counting,
                locals: &*locals,
            },
            level,
            code,
        ),
        Opcode::Package => package(
            &BodyPlace {
                counting: &*counting,
                locals: &*locals,
            },
            level,
            code,
        ),
        Opcode::VarPackage => var_package(
            &BodyPlace {
                counting: &*counting,
                locals: &*locals,
            },
            level,
            code,
        ),
        _ => placed(
            &BodyPlace {
                counting: &*counting,
                locals: &*locals,
            },
            level,
            Place::Statement,
            front,
            opcode,
            code,
        ),
    }
}

#[cycle(statement)]
#[tactic(auto, using(acpi_values::proofs::Parts::part_fails), unfolding(crate::specs::steps::Reading::statement_at))]
fn statement<M: MethodCounting>(
    counting: &M,
    locals: &mut TreeSpace<()>,
    level: u32,
    code: &mut Code<'_>,
) -> Result<Term, BodyError>
    ensures exact { Reads term_view (statement_at (M.grammar counting.now)
        (M.method counting.now) level locals.old) code.old code.new result }
    ensures locals { IfOk result (λ t. locals.new
        ≡ locals_after (M.method counting.now) locals.old (term_view t)) }
{
    if level == 0 {
        return Err(code.too_deep().into());
    }
    let front = code.fork();
    let opcode = code.opcode()?;
    form(counting, locals, level - 1, &front, opcode, code)
}

/// All of a body, with at most `depth` levels.
pub(crate) fn body<M: MethodCounting>(
    counting: &M,
    depth: u32,
    bytes: &[u8],
) -> Result<Vec<Term>, BodyError>
    ensures { Gives (λ v. terms_view v.items) result
        (body_at (M.grammar counting.now) (M.method counting.now) depth finite.empty bytes.now) }
{
    let mut locals = TreeSpace::new(counting.alloc());
    statements(counting, &mut locals, depth, &mut Code::new(bytes))
}
