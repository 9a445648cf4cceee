//! Reading declarations.

ghost use Rattle.std.specs.Prelude.{◌≡◌, IfOk, Ok, box_value};
ghost use Rattle.acpi_tree.specs.View.{fields_view};
ghost use Rattle.acpi_tree.specs.TermView.{term_view, decl_view};
ghost use Rattle.acpi_code.specs.steps.Reading.{name_in};
ghost use Rattle.acpi_body.specs.Statements.{locals_after};
ghost use Rattle.acpi_values.specs.steps.Reading.{part, term_at, fields_in};
ghost use Rattle.acpi_body.specs.steps.Reading.{declared_at, named_form, units_form};
ghost use Rattle.acpi_values.specs.steps.Cursor.{Gives, Reads, ReadsAll};

use crate::counting::{BodyPlace, MethodCounting};
use crate::locals::add_declared_paths;
use acpi_code::{Code, field_elements};
use acpi_name::{Name, PlaceFault, place};
use acpi_space::TreeSpace;
use acpi_tree::{Decl, FieldElem, NamedForm, Place, Term, UnitsForm};
use acpi_values::term::term;
use acpi_values::{BodyError, BodyReason, refused};

/// A term at a place, which lies apart from the frame that asks for it.
#[inline(never)]
pub(crate) fn term_apart<M: MethodCounting>(
    counting: &M,
    locals: &TreeSpace<()>,
    level: u32,
    place: Place,
    code: &mut Code<'_>,
) -> Result<Box<Term>, BodyError>
    ensures { Reads (λ b. term_view (box_value b))
        (term_at (M.grammar counting.now locals.now) level place) code.old
        code.new result }
{
    let here = BodyPlace {
        counting: &*counting,
        locals: &*locals,
    };
    let term = term(&here, level, place, code)?;
    Ok(Box::new(counting.alloc(), term)?)
}

// A name that can be declared: it has segments, and a place.
#[inline(never)]
#[tactic(auto, using(acpi_values::proofs::Parts::part_fails), unfolding(crate::specs::steps::Reading::declared_at))]
fn new_name<M: MethodCounting>(counting: &M, code: &mut Code<'_>) -> Result<Name, BodyError>
    ensures { Reads (λ n. n) (declared_at (M.method counting.now)) code.old code.new result }
{
    let front = code.fork();
    let name = code.name()?;
    match place(counting.alloc(), counting.method(), name) {
        Ok(_) if name.is_empty() => Err(refused(&front, BodyReason::BadPlace)),
        Ok(_) => Ok(name.own(counting.alloc())?),
        Err(PlaceFault::AboveRoot) => Err(refused(&front, BodyReason::BadPlace)),
        Err(PlaceFault::Memory) => Err(BodyError::Memory),
    }
}

// A name, with memory of its own.
#[inline(never)]
#[tactic(auto, using(acpi_values::proofs::Parts::part_fails))]
fn owned_name<M: MethodCounting>(counting: &M, code: &mut Code<'_>) -> Result<Name, BodyError>
    ensures { Reads (λ n. n) (λ end bytes. part (name_in end bytes)) code.old code.new result }
{
    Ok(code.name()?.own(counting.alloc())?)
}

// The elements that are left.
#[inline(never)]
#[tactic(auto, using(acpi_values::proofs::Parts::field_fails))]
fn elements<M: MethodCounting>(
    counting: &M,
    code: &mut Code<'_>,
) -> Result<Vec<FieldElem>, BodyError>
    ensures { ReadsAll (λ v. fields_view v.items) fields_in code.old result }
{
    Ok(field_elements(counting.alloc(), code)?)
}

// A declaration of one name.
#[inline(never)]
#[tactic(auto, using(acpi_values::proofs::Parts::part_fails), unfolding(crate::specs::steps::Reading::named_form, acpi_values::specs::steps::Reading::operands_at, acpi_values::specs::steps::Reading::operand_at))]
fn named<M: MethodCounting>(
    counting: &M,
    locals: &TreeSpace<()>,
    level: u32,
    form: NamedForm,
    code: &mut Code<'_>,
) -> Result<Decl, BodyError>
    ensures { Reads decl_view (named_form
        (term_at (M.grammar counting.now locals.now) level)
        (M.method counting.now) form) code.old code.new result }
{
    match form {
        NamedForm::Name => Ok(Decl::Name(
            new_name(counting, code)?,
            term_apart(counting, locals, level, Place::Data, code)?,
        )),
        NamedForm::Create(width) => Ok(Decl::Create {
            width,
            source: term_apart(counting, locals, level, Place::Value, code)?,
            index: term_apart(counting, locals, level, Place::Value, code)?,
            name: new_name(counting, code)?,
        }),
        NamedForm::CreateField => Ok(Decl::CreateField {
            source: term_apart(counting, locals, level, Place::Value, code)?,
            index: term_apart(counting, locals, level, Place::Value, code)?,
            bits: term_apart(counting, locals, level, Place::Value, code)?,
            name: new_name(counting, code)?,
        }),
        NamedForm::Region => Ok(Decl::Region {
            name: new_name(counting, code)?,
            space: code.byte()?,
            offset: term_apart(counting, locals, level, Place::Value, code)?,
            length: term_apart(counting, locals, level, Place::Value, code)?,
        }),
        NamedForm::Mutex => Ok(Decl::Mutex(new_name(counting, code)?, code.byte()?)),
        NamedForm::Event => Ok(Decl::Event(new_name(counting, code)?)),
    }
}

// A declaration of field units.
#[inline(never)]
#[tactic(auto, using(acpi_values::proofs::Parts::part_fails), unfolding(crate::specs::steps::Reading::units_form, crate::specs::steps::Reading::names_at, acpi_values::specs::steps::Reading::operands_at, acpi_values::specs::steps::Reading::operand_at))]
fn units<M: MethodCounting>(
    counting: &M,
    locals: &TreeSpace<()>,
    level: u32,
    form: UnitsForm,
    code: &mut Code<'_>,
) -> Result<Decl, BodyError>
    ensures { Reads decl_view (units_form
        (term_at (M.grammar counting.now locals.now) level) form) code.old
        code.new result }
{
    let mut inner = code.package()?;
    match form {
        UnitsForm::Field => Ok(Decl::Field {
            region: owned_name(counting, &mut inner)?,
            flags: inner.byte()?,
            elems: elements(counting, &mut inner)?,
        }),
        UnitsForm::IndexField => Ok(Decl::IndexField {
            index: owned_name(counting, &mut inner)?,
            datum: owned_name(counting, &mut inner)?,
            flags: inner.byte()?,
            elems: elements(counting, &mut inner)?,
        }),
        UnitsForm::BankField => Ok(Decl::BankField {
            region: owned_name(counting, &mut inner)?,
            bank: owned_name(counting, &mut inner)?,
            value: term_apart(counting, locals, level, Place::Value, &mut inner)?,
            flags: inner.byte()?,
            elems: elements(counting, &mut inner)?,
        }),
    }
}

// A declaration as a term. What it declares is a local from then on.
#[inline(never)]
fn declaration<M: MethodCounting>(
    counting: &M,
    locals: &mut TreeSpace<()>,
    decl: Decl,
) -> Result<Term, BodyError>
    ensures made { Gives term_view result (Ok (decl_view decl)) }
    ensures locals { IfOk result (λ t. locals.new
        ≡ locals_after (M.method counting.now) locals.old (term_view t)) }
{
    add_declared_paths(counting.alloc(), locals, counting.method(), &decl)?;
    Ok(Term::Declare(Box::new(counting.alloc(), decl)?))
}

/// A declaration of one name, which is a local behind it.
pub(crate) fn named_declaration<M: MethodCounting>(
    counting: &M,
    locals: &mut TreeSpace<()>,
    level: u32,
    form: NamedForm,
    code: &mut Code<'_>,
) -> Result<Term, BodyError>
    ensures exact { Reads term_view (named_form
        (term_at (M.grammar counting.now locals.old) level)
        (M.method counting.now) form) code.old code.new result }
    ensures locals { IfOk result (λ t. locals.new
        ≡ locals_after (M.method counting.now) locals.old (term_view t)) }
{
    let decl = named(counting, locals, level, form, code)?;
    declaration(counting, locals, decl)
}

/// A declaration of field units, which are locals behind it.
pub(crate) fn units_declaration<M: MethodCounting>(
    counting: &M,
    locals: &mut TreeSpace<()>,
    level: u32,
    form: UnitsForm,
    code: &mut Code<'_>,
) -> Result<Term, BodyError>
    ensures exact { Reads term_view (units_form
        (term_at (M.grammar counting.now locals.old) level) form) code.old
        code.new result }
    ensures locals { IfOk result (λ t. locals.new
        ≡ locals_after (M.method counting.now) locals.old (term_view t)) }
{
    let decl = units(counting, locals, level, form, code)?;
    declaration(counting, locals, decl)
}
