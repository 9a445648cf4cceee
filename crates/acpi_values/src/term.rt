//! Reading terms that are no blocks and no declarations.

ghost use Rattle.std.specs.Prelude.{◌≡◌, ◌<◌, length, Ok};
ghost use Rattle.acpi_name.specs.NameRefs.{name_parts};
ghost use Rattle.acpi_tree.specs.Terms.{terms_of, buffer, ref, call};
ghost use Rattle.acpi_tree.specs.TermView.{term_view, terms_view, operand_view, operands_view};
ghost use Rattle.acpi_tree.specs.declared.place.Place.TheVariants.{Element};
ghost use Rattle.acpi_code.specs.steps.Reading.{each_at, byte_at, number_at};
ghost use Rattle.acpi_values.specs.Spelling.{values};
ghost use Rattle.acpi_values.specs.steps.Reading.{as_raw, operand_at, operands_at, calls, form_by, placed_by, term_at};
ghost use Rattle.acpi_values.specs.steps.Reading.{constant_form, string_form, buffer_form, package_form, var_package_form, name_form, operator_form};
ghost use Rattle.acpi_values.specs.steps.Cursor.{Gives, Reads, ReadsOn, ReadsAll};

use crate::counting::Counting;
use crate::fault::{BodyError, BodyReason, refused};
use crate::refusal::refusal;
use crate::register::add_register;
use acpi_code::{Code, ConstantForm, Opcode};
use acpi_name::NameRef;
use acpi_tree::{Op, Operand, OperandKind, Place, Term};
use std::alloc::Global;

#[inline(never)]
#[tactic(auto, using(crate::proofs::Parts::part_fails), unfolding(crate::specs::steps::Reading::constant_form))]
fn constant(form: ConstantForm, code: &mut Code<'_>) -> Result<Term, BodyError>
    ensures { ReadsOn term_view (constant_form form) code.old code.new result }
{
    Ok(Term::Int(code.constant(form)?))
}

#[inline(never)]
#[tactic(auto, using(crate::proofs::Parts::part_fails), unfolding(crate::specs::steps::Reading::string_form))]
fn string(alloc: Global, code: &mut Code<'_>) -> Result<Term, BodyError>
    ensures { Reads term_view string_form code.old code.new result }
{
    let text = code.string()?;
    Ok(Term::Str(Vec::from_slice(alloc, text)?))
}

// A buffer of that size. What allocates has a frame of its own, so that a level of buffers costs less stack.
#[inline(never)]
fn buffer_of(alloc: Global, size: Term, content: &[u8]) -> Result<Term, BodyError>
    ensures { Gives term_view result (Ok (buffer (term_view size) content.now)) }
{
    let content = Vec::from_slice(alloc, content)?;
    Ok(Term::Buffer(Box::new(alloc, size)?, content))
}

#[cycle(read)]
#[tactic(auto, using(crate::proofs::Parts::part_fails), unfolding(crate::specs::steps::Reading::buffer_form))]
#[inline(never)]
pub fn buffer<C: Counting>(counting: &C, level: u32, code: &mut Code<'_>) -> Result<Term, BodyError>
    ensures { Reads term_view (buffer_form (term_at (C.grammar counting.now) level)) code.old
        code.new result }
{
    let mut inner = code.package()?;
    let size = term(counting, level, Place::Value, &mut inner)?;
    buffer_of(counting.alloc(), size, inner.left())
}

#[cycle(read)]
fn elements<C: Counting>(
    counting: &C,
    level: u32,
    code: &mut Code<'_>,
) -> Result<Vec<Term>, BodyError>
    ensures { ReadsAll (λ v. terms_view v.items)
        (λ end bytes. each_at (term_at (C.grammar counting.now) level Element end) bytes) code.old
        result }
{
    let mut found = Vec::new(counting.alloc());
    'each: while !code.is_empty() {
        found.push(term(counting, level, Place::Element, code)?)?;
    }
    Ok(found)
}

#[cycle(read)]
#[tactic(auto, using(crate::proofs::Parts::part_fails), unfolding(crate::specs::steps::Reading::package_form))]
#[inline(never)]
pub fn package<C: Counting>(
    counting: &C,
    level: u32,
    code: &mut Code<'_>,
) -> Result<Term, BodyError>
    ensures { Reads term_view (package_form (term_at (C.grammar counting.now) level)) code.old
        code.new result }
{
    let mut inner = code.package()?;
    let count = inner.byte()?;
    let elements = elements(counting, level, &mut inner)?;
    Ok(Term::Package(count, elements))
}

#[cycle(read)]
#[tactic(auto, using(crate::proofs::Parts::part_fails), unfolding(crate::specs::steps::Reading::var_package_form))]
#[inline(never)]
pub fn var_package<C: Counting>(
    counting: &C,
    level: u32,
    code: &mut Code<'_>,
) -> Result<Term, BodyError>
    ensures { Reads term_view (var_package_form (term_at (C.grammar counting.now) level)) code.old
        code.new result }
{
    let mut inner = code.package()?;
    let count = term(counting, level, Place::Value, &mut inner)?;
    let count = Box::new(counting.alloc(), count)?;
    let elements = elements(counting, level, &mut inner)?;
    Ok(Term::VarPackage(count, elements))
}

// The values that follow a name.
#[cycle(read)]
fn arguments<C: Counting>(
    counting: &C,
    level: u32,
    count: u8,
    code: &mut Code<'_>,
) -> Result<Vec<Term>, BodyError>
    ensures { ReadsOn (λ v. terms_view v.items)
        (operands_at (term_at (C.grammar counting.now) level) (values count)) code.old code.new
        result }
{
    let mut found = Vec::with_capacity(counting.alloc(), usize::from(count))?;
    'each: for _ in 0..count {
        found.push(term(counting, level, Place::Value, code)?)?;
    }
    Ok(found)
}

fn is_call(place: Place) -> bool
    ensures { result ≡ calls place }
{
    match place {
        Place::Value => true,
        Place::Statement => true,
        _ => false,
    }
}

// A call. With a frame of its own, a level of calls costs less stack.
#[inline(never)]
fn call_of(alloc: Global, name: NameRef<'_>, values: Vec<Term>) -> Result<Term, BodyError>
    ensures { Gives term_view result (Ok (call (name_parts name.entry)
        (terms_of (terms_view values.items)))) }
{
    Ok(Term::Call(name.own(alloc)?, values))
}

// A name where it is never a call.
#[inline(never)]
fn reference_to(alloc: Global, name: NameRef<'_>) -> Result<Term, BodyError>
    ensures { Gives term_view result (Ok (ref (name_parts name.entry))) }
{
    Ok(Term::Ref(name.own(alloc)?))
}

// A name, and where it calls the values that follow it, if it is sure how many.
#[cycle(read)]
#[tactic(auto, using(crate::proofs::Parts::part_fails), unfolding(crate::specs::steps::Reading::name_form))]
#[inline(never)]
fn named<C: Counting>(
    counting: &C,
    level: u32,
    place: Place,
    code: &mut Code<'_>,
) -> Result<Term, BodyError>
    ensures { Reads term_view (name_form (C.grammar counting.now).args
        (term_at (C.grammar counting.now) level) place) code.old code.new result }
{
    let front = code.fork();
    let name = code.name()?;
    if is_call(place) {
        let Some(count) = counting.count(name)? else {
            return Err(refused(&front, BodyReason::Unsure));
        };
        let values = arguments(counting, level, count, code)?;
        call_of(counting.alloc(), name, values)
    } else {
        reference_to(counting.alloc(), name)
    }
}

fn byte_operand(code: &mut Code<'_>) -> Result<Operand, BodyError>
    ensures { Reads operand_view (λ end bytes. as_raw 1 (byte_at end bytes)) code.old code.new
        result }
{
    Ok(Operand::Byte(code.byte()?))
}

fn word_operand(code: &mut Code<'_>) -> Result<Operand, BodyError>
    ensures { Reads operand_view (λ end bytes. as_raw 2 (number_at 2 end bytes)) code.old code.new
        result }
{
    Ok(Operand::Word(code.word()?))
}

fn dword_operand(code: &mut Code<'_>) -> Result<Operand, BodyError>
    ensures { Reads operand_view (λ end bytes. as_raw 4 (number_at 4 end bytes)) code.old code.new
        result }
{
    Ok(Operand::DWord(code.dword()?))
}

// A super name, or the byte 00 for none.
#[cycle(read)]
#[tactic(auto, using(crate::proofs::Parts::part_fails), unfolding(crate::specs::steps::Reading::operand_at))]
fn operand<C: Counting>(
    counting: &C,
    level: u32,
    kind: OperandKind,
    code: &mut Code<'_>,
) -> Result<Operand, BodyError>
    ensures { Reads operand_view (operand_at (term_at (C.grammar counting.now) level) kind)
        code.old code.new result }
{
    match kind {
        OperandKind::At(place) => Ok(Operand::Term(term(counting, level, place, code)?)),
        OperandKind::Target => {
            if code.left().first() == Some(&0x00) {
                code.skip(1);
                return Ok(Operand::Term(Term::NoTarget));
            }
            Ok(Operand::Term(term(counting, level, Place::SuperName, code)?))
        }
        OperandKind::Byte => byte_operand(code),
        OperandKind::Word => word_operand(code),
        OperandKind::DWord => dword_operand(code),
    }
}

#[cycle(read)]
fn operands<C: Counting>(
    counting: &C,
    level: u32,
    kinds: &[OperandKind],
    code: &mut Code<'_>,
) -> Result<Vec<Operand>, BodyError>
    ensures { ReadsOn (λ v. operands_view v.items)
        (operands_at (term_at (C.grammar counting.now) level) kinds.now) code.old code.new result }
{
    let mut found = Vec::with_capacity(counting.alloc(), kinds.len())?;
    'each: for kind in kinds {
        if add_register(level, *kind, code, &mut found)? {
            continue;
        }
        found.push(operand(counting, level, *kind, code)?)?;
    }
    Ok(found)
}

#[cycle(read)]
#[tactic(auto, unfolding(crate::specs::steps::Reading::operator_form))]
#[inline(never)]
fn operator<C: Counting>(
    counting: &C,
    level: u32,
    op: Op,
    code: &mut Code<'_>,
) -> Result<Term, BodyError>
    ensures { ReadsOn term_view (operator_form (term_at (C.grammar counting.now) level) op)
        code.old code.new result }
{
    let operands = operands(counting, level, op.operands(), code)?;
    Ok(Term::Op(op, operands))
}

// The term whose first opcode, behind `front`, was read; `level` levels are left inside it.
#[cycle(read)]
#[tactic(auto, unfolding(crate::specs::steps::Reading::form_by))]
fn form<'a, C: Counting>(
    counting: &C,
    level: u32,
    place: Place,
    front: &Code<'a>,
    opcode: Opcode,
    code: &mut Code<'a>,
) -> Result<Term, BodyError>
    requires ends { front.now.end ≡ code.old.end }
    requires behind { length code.old.bytes < length front.now.bytes }
    ensures { Reads term_view
        (λ end whole. form_by (C.grammar counting.now)
        (term_at (C.grammar counting.now) level) place end whole opcode code.old.bytes) front.now
        code.new result }
{
    match opcode {
        Opcode::Constant(form) => constant(form, code),
        Opcode::Str => string(counting.alloc(), code),
        Opcode::Buffer => buffer(counting, level, code),
        Opcode::Package => package(counting, level, code),
        Opcode::VarPackage => var_package(counting, level, code),
        Opcode::Local(n) => Ok(Term::Local(n)),
        Opcode::Arg(n) => Ok(Term::Arg(n)),
        Opcode::Debug => Ok(Term::Debug),
        Opcode::Name => {
            *code = front.fork();
            named(counting, level, place, code)
        }
        Opcode::Operator(op) => operator(counting, level, op, code),
        _ => Err(refused(front, BodyReason::NotStatement)),
    }
}

/// The same, where it may stand at the place.
#[cycle(read)]
#[tactic(auto, unfolding(crate::specs::steps::Reading::placed_by))]
pub fn placed<'a, C: Counting>(
    counting: &C,
    level: u32,
    place: Place,
    front: &Code<'a>,
    opcode: Opcode,
    code: &mut Code<'a>,
) -> Result<Term, BodyError>
    requires ends { front.now.end ≡ code.old.end }
    requires behind { length code.old.bytes < length front.now.bytes }
    ensures { Reads term_view
        (λ end whole. placed_by (C.grammar counting.now)
        (term_at (C.grammar counting.now) level) place end whole opcode code.old.bytes) front.now
        code.new result }
{
    if let Some(reason) = refusal(counting.loads(), place, opcode) {
        return Err(refused(front, reason));
    }
    form(counting, level, place, front, opcode, code)
}

/// The term at the front, at a place, `level` levels being left for it.
#[cycle(read)]
#[tactic(auto, using(crate::proofs::Parts::part_fails), unfolding(crate::specs::steps::Reading::term_at))]
pub fn term<C: Counting>(
    counting: &C,
    level: u32,
    place: Place,
    code: &mut Code<'_>,
) -> Result<Term, BodyError>
    ensures { Reads term_view (term_at (C.grammar counting.now) level place) code.old code.new
        result }
{
    if level == 0 {
        return Err(code.too_deep().into());
    }
    let front = code.fork();
    let opcode = code.opcode()?;
    placed(counting, level - 1, place, &front, opcode, code)
}

/// The term at the front, at a place, `level` levels being left for it: a value, a super name, an element, data, or
/// what stands as a statement and is no block and no declaration. Behind a name where it calls stand as many values as
/// `counting` says, and a name of which it isn't sure is refused as `Unsure`; LoadTable, Load and Unload stand where it
/// allows them, and are refused as `LeftOut` where it doesn't.
pub fn read_term<C: Counting>(
    counting: &C,
    level: u32,
    place: Place,
    code: &mut Code<'_>,
) -> Result<Term, BodyError>
    ensures { Reads term_view (term_at (C.grammar counting.now) level place) code.old code.new
        result }
{
    term(counting, level, place, code)
}
