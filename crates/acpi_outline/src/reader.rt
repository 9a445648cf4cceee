//! Reading nodes.

ghost use Rattle.std.specs.Prelude.{◌≡◌, ◌<◌, ◌-◌, ◌++◌, ◌∷◌, [], length, None, IfOk, OnOk};
ghost use Rattle.acpi_outline.specs.Nodes.{holds, holds_fields, has_fields};
ghost use Rattle.acpi_outline.specs.View.{fixed_view, node_view, nodes_view, placed_views, put_before, end_view, placed_fields, fields_before, fields_end};
ghost use Rattle.acpi_outline.specs.Rules.{after, after_all};
ghost use Rattle.acpi_outline.specs.steps.Leaves.{leaf_view};
ghost use Rattle.acpi_outline.specs.steps.Reading.{packed_form, unentered, nodes_at};
ghost use Rattle.acpi_outline.specs.steps.Going.{BeginsNode, Opens, Goes, Continues};

use crate::fault::{LostError, LostFault};
use crate::fields::fields;
use crate::fixed::{fixed, goes_in, holds_fields};
use crate::form::{ContainerForm, PackedForm};
use crate::known::Known;
use crate::leaf::{Leaf, read_leaf};
use crate::node::{Fixed, Lost, Node, Nodes, PlacedField, PlacedNode};
use acpi_code::{Code, Opcode};
use acpi_tree::UnitsForm;
use std::alloc::AllocError;

/// The form of the package that follows the opcode, if one does.
fn form_of(opcode: Opcode) -> Option<PackedForm>
    ensures { result ≡ packed_form opcode }
{
    match opcode {
        Opcode::Scope => Some(PackedForm::Scope),
        Opcode::Device => Some(PackedForm::Container(ContainerForm::Device)),
        Opcode::Processor => Some(PackedForm::Container(ContainerForm::Processor)),
        Opcode::Power => Some(PackedForm::Container(ContainerForm::Power)),
        Opcode::Thermal => Some(PackedForm::Container(ContainerForm::Thermal)),
        Opcode::Method => Some(PackedForm::Method),
        Opcode::If => Some(PackedForm::If),
        Opcode::Else => Some(PackedForm::Else),
        Opcode::While => Some(PackedForm::While),
        Opcode::Field => Some(PackedForm::Units(UnitsForm::Field)),
        Opcode::IndexField => Some(PackedForm::Units(UnitsForm::IndexField)),
        Opcode::BankField => Some(PackedForm::Units(UnitsForm::BankField)),
        _ => None,
    }
}

/// The next node of a list: one in which none stand, or the package that it is, which is opened.
#[derive(Drop)]
pub(crate) enum Begun<'a> {
    /// A node in which none stand.
    Leaf(Leaf),
    /// A package.
    Package(PackedForm, Code<'a>),
}

// The next node, but for what is in its package; `level` levels are left for it. The state doesn't know it yet.
#[inline(never)]
#[tactic(auto, using(crate::proofs::Parts::part_fails))]
fn begin<'a, K: Known>(known: &K, level: u32, code: &mut Code<'a>) -> Result<Begun<'a>, LostError>
    ensures { BeginsNode K.rules level known.now code.old code.new result }
{
    if level == 0 {
        return Err(code.too_deep().into());
    }
    let front = code.fork();
    let opcode = code.opcode()?;
    match form_of(opcode) {
        Some(form) => Ok(Begun::Package(form, code.package()?)),
        None => Ok(Begun::Leaf(read_leaf(known, level, &front, opcode, code)?)),
    }
}

/// The next node of a list, but for the nodes in it.
#[derive(Drop)]
pub(crate) enum Next<'a> {
    /// A node in which none stand.
    Read(Node),
    /// The fixed arguments of a package that is gone into, and the code of the nodes behind them.
    Entered(Fixed, Code<'a>),
    /// None, and why.
    Lost(LostFault),
}

// What fills a package at the place that isn't gone into.
#[inline(never)]
fn pass<K: Known>(
    known: &mut K,
    place: usize,
    fixed: Fixed,
    inner: &mut Code<'_>,
) -> Result<Node, AllocError>
    ensures exact { IfOk result (λ n. node_view n
        ≡ unentered (fixed_view fixed) inner.old.end inner.old.bytes
        (has_fields (fixed_view fixed))) }
    ensures state { IfOk result (λ n. known.new ≡ after K.rules place known.old
        (unentered (fixed_view fixed) inner.old.end inner.old.bytes
        (has_fields (fixed_view fixed)))) }
{
    if holds_fields(&fixed) {
        known.begin_fields(place, &fixed)?;
        let (read, lost) = fields(known, &fixed, inner)?;
        return Ok(filled(fixed, read, lost));
    }
    let content = inner.share(known.alloc())?;
    known.pass_closed(place, &fixed, &content)?;
    Ok(Node::Closed(fixed, content))
}

// A field list, which takes no more memory than its elements.
fn filled(fixed: Fixed, read: Vec<PlacedField>, lost: Option<Lost>) -> Node
    ensures { node_view result
        ≡ holds_fields (fixed_view fixed)
        (fields_before (placed_fields read.items) (fields_end lost)) }
{
    let mut read = read;
    read.shrink_to_fit();
    Node::Fields(fixed, read, lost)
}

// What a package at the place holds; `level` levels are left inside it.
#[inline(never)]
fn open<'a, K: Known>(
    known: &mut K,
    place: usize,
    level: u32,
    form: PackedForm,
    inner: Code<'a>,
) -> Result<Next<'a>, AllocError>
    ensures { IfOk result (Opens K.rules level known.old place form inner.entry known.new) }
{
    let mut inner = inner;
    match fixed(known, level, form, &mut inner) {
        Ok(fixed) => {
            if goes_in(known, &fixed)? {
                known.enter(place, &fixed)?;
                return Ok(Next::Entered(fixed, inner));
            }
            Ok(Next::Read(pass(known, place, fixed, &mut inner)?))
        }
        Err(LostError::Fault(fault)) => {
            known.pass_lost(place, Some(form))?;
            Ok(Next::Read(Node::PackageLost(form, fault)))
        }
        Err(LostError::Memory) => Err(AllocError),
    }
}

// Goes past a node in which none stand.
#[inline(never)]
fn tell<K: Known>(known: &mut K, place: usize, leaf: Leaf) -> Result<Node, AllocError>
    ensures same { IfOk result (λ n. node_view n ≡ leaf_view leaf) }
    ensures state { IfOk result (λ n. known.new
        ≡ after K.rules place known.old (leaf_view leaf)) }
{
    match leaf {
        Leaf::Plain(plain) => {
            known.pass_plain(place, &plain)?;
            Ok(Node::Plain(plain))
        }
        Leaf::DataLost(form, why) => {
            known.pass_lost(place, None)?;
            Ok(Node::DataLost(form, why))
        }
        Leaf::NameLost(name, form, why) => {
            known.pass_name(place, &name)?;
            Ok(Node::NameLost(name, form, why))
        }
    }
}

// The next node of a list, but for the nodes in it.
#[inline(never)]
fn step<'a, K: Known>(
    known: &mut K,
    level: u32,
    code: &mut Code<'a>,
) -> Result<Next<'a>, AllocError>
    ensures { IfOk result (Goes K.rules level known.old code.old known.new code.new) }
{
    let place = code.place();
    match begin(known, level, code) {
        Ok(Begun::Leaf(leaf)) => Ok(Next::Read(tell(known, place, leaf)?)),
        Ok(Begun::Package(form, inner)) => open(known, place, level - 1, form, inner),
        Err(LostError::Fault(fault)) => Ok(Next::Lost(fault)),
        Err(LostError::Memory) => Err(AllocError),
    }
}

// Puts a node behind others.
#[inline(never)]
fn put(read: &mut Vec<PlacedNode>, place: usize, node: Node) -> Result<(), AllocError>
    ensures { OnOk result (placed_views read.new.items
        ≡ placed_views read.old.items ++ (place, node_view node) ∷ []) }
{
    read.push(PlacedNode { place, node })?;
    Ok(())
}

// .. one that holds nodes.
#[inline(never)]
fn put_holding(
    read: &mut Vec<PlacedNode>,
    place: usize,
    fixed: Fixed,
    nodes: Nodes,
) -> Result<(), AllocError>
    ensures { OnOk result (placed_views read.new.items
        ≡ placed_views read.old.items
        ++ (place, holds (fixed_view fixed) (nodes_view nodes)) ∷ []) }
{
    put(read, place, Node::Holds(fixed, nodes))
}

// All of a list, which takes no more memory than its nodes.
fn all_read(read: Vec<PlacedNode>, lost: Option<Lost>) -> Nodes
    ensures { nodes_view result ≡ put_before (placed_views read.items) (end_view lost) }
{
    let mut read = read;
    read.shrink_to_fit();
    Nodes { read, lost }
}

/// How a list goes on.
#[derive(Drop)]
pub(crate) enum Going<'a> {
    /// A node in which none stand was put behind those before it.
    On,
    /// A package is gone into: its fixed arguments, and the code of the nodes behind them.
    In(Fixed, Code<'a>),
    /// No node is read, and why.
    Lost(LostFault),
}

// Reads on in a list. It is no part of the recursion, so that a level of this costs little stack.
#[inline(never)]
fn go_on<'a, K: Known>(
    known: &mut K,
    level: u32,
    code: &mut Code<'a>,
    read: &mut Vec<PlacedNode>,
) -> Result<Going<'a>, AllocError>
    ensures { IfOk result (Continues K.rules level known.old code.old known.new code.new
        (placed_views read.old.items) (placed_views read.new.items)) }
{
    let place = code.place();
    match step(known, level, code)? {
        Next::Read(node) => {
            put(read, place, node)?;
            Ok(Going::On)
        }
        Next::Entered(fixed, inner) => Ok(Going::In(fixed, inner)),
        Next::Lost(fault) => Ok(Going::Lost(fault)),
    }
}

/// The nodes of a list, to its end, `level` levels being left for each.
#[cycle(nodes)]
pub(crate) fn nodes<K: Known>(
    known: &mut K,
    level: u32,
    code: &mut Code<'_>,
) -> Result<Nodes, AllocError>
    ensures exact { IfOk result (λ ns. nodes_view ns
        ≡ nodes_at K.rules level known.old code.old.end code.old.bytes) }
    ensures state { IfOk result (λ ns. known.new ≡ after_all K.rules known.old (nodes_view ns)) }
{
    let mut read = Vec::new(known.alloc());
    'each: while !code.is_empty() {
        let place = code.place();
        match go_on(known, level, code, &mut read)? {
            Going::On => {}
            Going::In(fixed, inner) => {
                let mut inner = inner;
                let held = nodes(known, level - 1, &mut inner)?;
                known.leave()?;
                put_holding(&mut read, place, fixed, held)?;
            }
            Going::Lost(fault) => return Ok(all_read(read, Some(Lost { place, fault }))),
        }
    }
    Ok(all_read(read, None))
}
