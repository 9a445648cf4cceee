//! Reading plain nodes: terms in which no nodes stand.

ghost use Rattle.std.specs.Prelude.{◌≡◌, ◌<◌, ◌-◌, length, None, box_value};
ghost use Rattle.acpi_tree.specs.TermView.{term_view, decl_view};
ghost use Rattle.acpi_tree.specs.declared.place.Place.TheVariants.{Value};
ghost use Rattle.acpi_code.specs.steps.Reading.{name_in};
ghost use Rattle.acpi_values.specs.steps.Reading.{term_at};
ghost use Rattle.acpi_outline.specs.Nodes as nodes;
ghost use Rattle.acpi_outline.specs.Rules.{grammar_at};
ghost use Rattle.acpi_outline.specs.View.{plain_view};
ghost use Rattle.acpi_outline.specs.steps.Reading.{part, of_term, reference_in, source_in, named_in, external_in, alias_in, table_region_in, term_in, plain_by, packed_form};
ghost use Rattle.acpi_outline.specs.steps.Cursor.{Reads};

use crate::fault::{LostError, LostReason, stopped};
use crate::known::{Counted, Known};
use crate::node::Plain;
use acpi_code::{Code, Opcode, name_start};
use acpi_name::Name;
use acpi_tree::{Decl, External, NamedForm, Place, Term};
use acpi_values::read_term;
use std::alloc::Global;

// A term at a place, which lies apart from the frame that asks for it.
#[inline(never)]
#[tactic(auto, using(crate::proofs::Parts::term_fails))]
fn term_apart<K: Known>(
    known: &K,
    level: u32,
    place: Place,
    code: &mut Code<'_>,
) -> Result<Box<Term>, LostError>
    ensures { Reads (λ b. term_view (box_value b))
        (λ end bytes. of_term (term_at (grammar_at K.rules known.now) level place end bytes))
        code.old code.new result }
{
    let term = read_term(&Counted { known: &*known }, level, place, code)?;
    Ok(Box::new(known.alloc(), term)?)
}

/// A value.
pub(crate) fn value<K: Known>(
    known: &K,
    level: u32,
    code: &mut Code<'_>,
) -> Result<Box<Term>, LostError>
    ensures { Reads (λ b. term_view (box_value b))
        (λ end bytes. of_term (term_at (grammar_at K.rules known.now) level Value end bytes))
        code.old code.new result }
{
    term_apart(known, level, Place::Value, code)
}

/// A name, with memory of its own.
#[inline(never)]
#[tactic(auto, using(crate::proofs::Parts::part_fails))]
pub(crate) fn owned_name(alloc: Global, code: &mut Code<'_>) -> Result<Name, LostError>
    ensures { Reads (λ n. n) (λ end bytes. part (name_in end bytes)) code.old code.new result }
{
    Ok(code.name()?.own(alloc)?)
}

// A name that is never a call.
#[inline(never)]
#[tactic(auto, using(crate::proofs::Parts::part_fails), unfolding(crate::specs::steps::Reading::reference_in))]
fn reference(alloc: Global, code: &mut Code<'_>) -> Result<Box<Term>, LostError>
    ensures { Reads (λ b. term_view (box_value b)) reference_in code.old code.new result }
{
    let name = code.name()?.own(alloc)?;
    Ok(Box::new(alloc, Term::Ref(name))?)
}

// The source of a Create form; a name has no level.
#[inline(never)]
fn source<K: Known>(known: &K, level: u32, code: &mut Code<'_>) -> Result<Box<Term>, LostError>
    ensures { Reads (λ b. term_view (box_value b)) (source_in K.rules level known.now)
        code.old code.new result }
{
    if let Some(first) = code.left().first() {
        if name_start(*first) {
            return reference(known.alloc(), code);
        }
    }
    term_apart(known, level, Place::Source, code)
}

// A declaration of one name.
#[inline(never)]
#[tactic(auto, using(crate::proofs::Parts::part_fails), unfolding(crate::specs::steps::Reading::named_in, crate::specs::steps::Reading::sourced_in, acpi_values::specs::steps::Reading::operands_at, acpi_values::specs::steps::Reading::operand_at))]
fn named<K: Known>(
    known: &K,
    level: u32,
    form: NamedForm,
    code: &mut Code<'_>,
) -> Result<Decl, LostError>
    ensures { Reads (λ d. nodes.term (decl_view d)) (named_in K.rules level known.now form)
        code.old code.new result }
{
    match form {
        NamedForm::Name => Ok(Decl::Name(
            owned_name(known.alloc(), code)?,
            value(known, level, code)?,
        )),
        NamedForm::Create(width) => Ok(Decl::Create {
            width,
            source: source(known, level, code)?,
            index: value(known, level, code)?,
            name: owned_name(known.alloc(), code)?,
        }),
        NamedForm::CreateField => Ok(Decl::CreateField {
            source: source(known, level, code)?,
            index: value(known, level, code)?,
            bits: value(known, level, code)?,
            name: owned_name(known.alloc(), code)?,
        }),
        NamedForm::Region => Ok(Decl::Region {
            name: owned_name(known.alloc(), code)?,
            space: code.byte()?,
            offset: value(known, level, code)?,
            length: value(known, level, code)?,
        }),
        NamedForm::Mutex => Ok(Decl::Mutex(owned_name(known.alloc(), code)?, code.byte()?)),
        NamedForm::Event => Ok(Decl::Event(owned_name(known.alloc(), code)?)),
    }
}

// The same, as a node.
fn declaration<K: Known>(
    known: &K,
    level: u32,
    form: NamedForm,
    code: &mut Code<'_>,
) -> Result<Plain, LostError>
    ensures { Reads plain_view (named_in K.rules level known.now form)
        code.old code.new result }
{
    let decl = named(known, level, form, code)?;
    Ok(Plain::Term(Term::Declare(Box::new(known.alloc(), decl)?)))
}

#[inline(never)]
#[tactic(auto, using(crate::proofs::Parts::part_fails), unfolding(crate::specs::steps::Reading::external_in))]
fn external(alloc: Global, code: &mut Code<'_>) -> Result<Plain, LostError>
    ensures { Reads plain_view external_in code.old code.new result }
{
    let name = code.name()?;
    let kind = code.byte()?;
    let front = code.fork();
    let args = code.byte()?;
    if args > 7 {
        return Err(stopped(&front, LostReason::ManyArguments));
    }
    let name = name.own(alloc)?;
    Ok(Plain::External(External { name, kind, args }))
}

#[inline(never)]
#[tactic(auto, using(crate::proofs::Parts::part_fails), unfolding(crate::specs::steps::Reading::alias_in))]
fn alias(alloc: Global, code: &mut Code<'_>) -> Result<Plain, LostError>
    ensures { Reads plain_view alias_in code.old code.new result }
{
    let source = code.name()?;
    let name = code.name()?;
    Ok(Plain::Alias(source.own(alloc)?, name.own(alloc)?))
}

#[inline(never)]
#[tactic(auto, using(crate::proofs::Parts::part_fails), unfolding(crate::specs::steps::Reading::table_region_in, acpi_values::specs::steps::Reading::operands_at, acpi_values::specs::steps::Reading::operand_at))]
fn table_region<K: Known>(known: &K, level: u32, code: &mut Code<'_>) -> Result<Plain, LostError>
    ensures { Reads plain_view (table_region_in K.rules level known.now)
        code.old code.new result }
{
    let name = code.name()?;
    let signature = value(known, level, code)?;
    let oem = value(known, level, code)?;
    let table = value(known, level, code)?;
    let name = name.own(known.alloc())?;
    Ok(Plain::TableRegion(name, signature, oem, table))
}

// A term as one stands at the place, which begins at `front`; `level` levels are left for it.
#[inline(never)]
#[tactic(auto, using(crate::proofs::Parts::term_fails), unfolding(crate::specs::steps::Reading::term_in))]
fn term<'a, K: Known>(
    known: &K,
    level: u32,
    place: Place,
    front: &Code<'a>,
    code: &mut Code<'a>,
) -> Result<Plain, LostError>
    requires { 0 < level }
    ensures { Reads plain_view (term_in K.rules (level - 1) known.now place)
        front.now code.new result }
{
    *code = front.fork();
    let term = read_term(&Counted { known: &*known }, level, place, code)?;
    Ok(Plain::Term(term))
}

/// A plain node, whose opcode, behind `front`, was read; `level` levels are left for it.
pub(crate) fn plain<'a, K: Known>(
    known: &K,
    level: u32,
    front: &Code<'a>,
    opcode: Opcode,
    code: &mut Code<'a>,
) -> Result<Plain, LostError>
    requires some { 0 < level }
    requires ends { front.now.end ≡ code.old.end }
    requires behind { length code.old.bytes < length front.now.bytes }
    requires none { packed_form opcode ≡ None }
    ensures { Reads plain_view
        (λ end whole. plain_by K.rules (level - 1) known.now end whole opcode code.old.bytes)
        front.now code.new result }
{
    match opcode {
        Opcode::DeclareName => declaration(known, level - 1, NamedForm::Name, code),
        Opcode::Region => declaration(known, level - 1, NamedForm::Region, code),
        Opcode::Mutex => declaration(known, level - 1, NamedForm::Mutex, code),
        Opcode::Event => declaration(known, level - 1, NamedForm::Event, code),
        Opcode::Create(width) => declaration(known, level - 1, NamedForm::Create(width), code),
        Opcode::CreateField => declaration(known, level - 1, NamedForm::CreateField, code),
        Opcode::External => external(known.alloc(), code),
        Opcode::Alias => alias(known.alloc(), code),
        Opcode::DataRegion => table_region(known, level - 1, code),
        Opcode::Buffer => term(known, level, Place::Statement, front, code),
        Opcode::Package => term(known, level, Place::Statement, front, code),
        Opcode::VarPackage => term(known, level, Place::Statement, front, code),
        Opcode::Name => term(known, level, Place::Statement, front, code),
        Opcode::Operator(_) => term(known, level, Place::Statement, front, code),
        Opcode::Constant(_) => term(known, level, Place::Value, front, code),
        Opcode::Str => term(known, level, Place::Value, front, code),
        Opcode::Local(_) => term(known, level, Place::Value, front, code),
        Opcode::Arg(_) => term(known, level, Place::Value, front, code),
        Opcode::Debug => term(known, level, Place::SuperName, front, code),
        _ => Err(stopped(front, LostReason::NoNode)),
    }
}
