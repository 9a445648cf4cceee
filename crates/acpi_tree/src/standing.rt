//! What may stand where in a method body, and whether terms have a spelling.

ghost use Rattle.std.specs.Prelude.{◌≡◌, ◌&&◌};
ghost use Rattle.std.specs.List.{list_all};
ghost use Rattle.acpi_tree.specs.Terms.{terms_of};
ghost use Rattle.acpi_tree.specs.TermView.{term_view, decl_view, operand_view, operands_view, terms_tree};
ghost use Rattle.acpi_tree.specs.Places as places;
ghost use Rattle.acpi_tree.specs.TermFits.{term_fits, all_stand, operands_fit};
ghost use Rattle.acpi_tree.specs.TermFits as fits;

use crate::fits::{fields_may_stand, is_null, is_text};
use crate::place::{OperandKind, Place};
use crate::term::{Decl, Operand, Term};

// DataRefObject
fn is_data(term: &Term) -> bool
    ensures { result ≡ places.is_data (term_view term.now) }
{
    match term {
        Term::Int(_) => true,
        Term::Str(_) => true,
        Term::Buffer(..) => true,
        Term::Package(..) => true,
        Term::VarPackage(..) => true,
        _ => false,
    }
}

// PackageElement
fn is_element(term: &Term) -> bool
    ensures { result ≡ places.is_element (term_view term.now) }
{
    match term {
        Term::Ref(_) => true,
        _ => is_data(term),
    }
}

// TermArg
fn is_value(term: &Term) -> bool
    ensures { result ≡ places.is_value (term_view term.now) }
{
    match term {
        Term::Local(_) => true,
        Term::Arg(_) => true,
        Term::Call(..) => true,
        Term::Op(op, _) => op.is_expression(),
        _ => is_data(term),
    }
}

// SimpleName
fn is_simple_name(term: &Term) -> bool
    ensures { result ≡ places.is_simple_name (term_view term.now) }
{
    match term {
        Term::Ref(_) => true,
        Term::Local(_) => true,
        Term::Arg(_) => true,
        _ => false,
    }
}

// SuperName
fn is_super_name(term: &Term) -> bool
    ensures { result ≡ places.is_super_name (term_view term.now) }
{
    match term {
        Term::Debug => true,
        Term::Op(op, _) => op.is_reference(),
        _ => is_simple_name(term),
    }
}

// Target
fn is_target(term: &Term) -> bool
    ensures { result ≡ places.is_target (term_view term.now) }
{
    match term {
        Term::NoTarget => true,
        _ => is_super_name(term),
    }
}

// SourceBuff of a Create field at module level
fn is_source(term: &Term) -> bool
    ensures { result ≡ places.is_source (term_view term.now) }
{
    match term {
        Term::Ref(_) => true,
        Term::Call(..) => false,
        _ => is_value(term),
    }
}

// TermObj
fn is_statement(term: &Term) -> bool
    ensures { result ≡ places.is_statement (term_view term.now) }
{
    match term {
        Term::Buffer(..) => true,
        Term::Package(..) => true,
        Term::VarPackage(..) => true,
        Term::Call(..) => true,
        Term::Op(..) => true,
        Term::If(..) => true,
        Term::While(..) => true,
        Term::Declare(decl) => is_declared(decl),
        _ => false,
    }
}

// A declaration is a statement, whatever its form.
fn is_declared(decl: &Decl) -> bool
    ensures { result ≡ places.is_statement (decl_view decl.now) }
{
    let _form = decl;
    true
}

fn may_stand(place: Place, term: &Term) -> bool
    ensures { result ≡ places.may_stand place (term_view term.now) }
{
    match place {
        Place::Value => is_value(term),
        Place::SuperName => is_super_name(term),
        Place::SimpleName => is_simple_name(term),
        Place::Element => is_element(term),
        Place::Data => is_data(term),
        Place::Statement => is_statement(term),
        Place::Source => is_source(term),
    }
}

fn term_may_be(kind: OperandKind, term: &Term) -> bool
    ensures { result ≡ places.may_be kind (term_view term.now) }
{
    match kind {
        OperandKind::At(place) => may_stand(place, term),
        OperandKind::Target => is_target(term),
        OperandKind::Byte => false,
        OperandKind::Word => false,
        OperandKind::DWord => false,
    }
}

#[cycle(term_fits)]
fn fits(term: &Term) -> bool
    ensures { result ≡ term_fits (term_view term.now) }
{
    match term {
        Term::Int(_) => true,
        Term::Str(text) => is_text(text),
        Term::Buffer(size, _) => stands(Place::Value, size),
        Term::Package(_, elems) => all_fit(Place::Element, elems),
        Term::VarPackage(count, elems) => stands(Place::Value, count)
            && all_fit(Place::Element, elems),
        Term::Local(number) => *number <= 7,
        Term::Arg(number) => *number <= 6,
        Term::Debug => true,
        Term::NoTarget => true,
        Term::Ref(name) => !is_null(name),
        Term::Call(name, args) => !is_null(name) && all_fit(Place::Value, args),
        Term::Op(op, operands) => !op.is_load() && operands_may_be(op.operands(), operands),
        Term::If(test, then, None) => stands(Place::Value, test) && all_fit(Place::Statement, then),
        Term::If(test, then, Some(other)) => {
            stands(Place::Value, test)
                && all_fit(Place::Statement, then)
                && all_fit(Place::Statement, other)
        }
        Term::While(test, then) => stands(Place::Value, test) && all_fit(Place::Statement, then),
        Term::Declare(decl) => decl_fits(decl),
    }
}

// The term may stand at the place, and fits.
#[cycle(term_fits)]
fn stands(place: Place, term: &Term) -> bool
    ensures { result ≡ (places.may_stand place (term_view term.now) && term_fits
        (term_view term.now)) }
{
    may_stand(place, term) && fits(term)
}

#[cycle(term_fits)]
fn all_fit(place: Place, terms: &[Term]) -> bool
    ensures { result ≡ all_stand place (terms_tree terms.now) }
{
    for term in terms {
        if !stands(place, term) {
            return false;
        }
    }
    true
}

#[cycle(term_fits)]
fn operand_may_be(kind: &OperandKind, operand: &Operand) -> bool
    ensures { result ≡ (places.may_be kind.now (operand_view operand.now) && term_fits
        (operand_view operand.now)) }
{
    match (kind, operand) {
        (_, Operand::Term(term)) => term_may_be(*kind, term) && fits(term),
        (OperandKind::Byte, Operand::Byte(_)) => true,
        (OperandKind::Word, Operand::Word(_)) => true,
        (OperandKind::DWord, Operand::DWord(_)) => true,
        _ => false,
    }
}

#[cycle(term_fits)]
fn operands_may_be(kinds: &[OperandKind], operands: &[Operand]) -> bool
    ensures { result ≡ operands_fit kinds.now (terms_of (operands_view operands.now)) }
{
    if kinds.len() != operands.len() {
        return false;
    }
    for i in 0..kinds.len() {
        if !operand_may_be(&kinds[i], &operands[i]) {
            return false;
        }
    }
    true
}

#[cycle(term_fits)]
fn decl_fits(decl: &Decl) -> bool
    ensures { result ≡ term_fits (decl_view decl.now) }
{
    match decl {
        Decl::Name(_, data) => stands(Place::Data, data),
        Decl::Create { source, index, .. } => stands(Place::Value, source)
            && stands(Place::Value, index),
        Decl::CreateField {
            source,
            index,
            bits,
            ..
        } => stands(Place::Value, source)
            && stands(Place::Value, index)
            && stands(Place::Value, bits),
        Decl::Mutex(..) => true,
        Decl::Event(_) => true,
        Decl::Region { offset, length, .. } => stands(Place::Value, offset)
            && stands(Place::Value, length),
        Decl::Field { elems, .. } => fields_may_stand(elems),
        Decl::IndexField { elems, .. } => fields_may_stand(elems),
        Decl::BankField { value, elems, .. } => stands(Place::Value, value)
            && fields_may_stand(elems),
    }
}

/// Whether the terms have a spelling as the statements of a body, but for the lengths of their packages:
/// strings hold bytes 01 to 7F; a Local is at most 7 and an Arg at most 6; a bit count fits 28 bits; no
/// operator is LoadTable, Load or Unload; each operator has its operands, and each place a term that may stand there
/// (ACPI 6.5, 20.2.5); and no name where a term stands is the one that the byte 00 spells. It takes no memory.
pub fn terms_fit(terms: &[Term]) -> bool
    ensures { result ≡ fits.terms_fit (terms_tree terms.now) }
{
    all_fit(Place::Statement, terms)
}
