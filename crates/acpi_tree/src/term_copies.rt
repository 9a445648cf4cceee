//! Equal terms with memory of their own.

ghost use Rattle.std.specs.Prelude.{◌≡◌, ◌++◌, ◌∷◌, [], IfOk, OnOk, box_value};
ghost use Rattle.acpi_tree.specs.TermView.{term_view, decl_view, operand_view, operands_view, terms_view, terms_tree};
ghost use Rattle.acpi_tree.specs.Terms.{str, buffer, pkg, var_pkg, ref, call, apply, if_do, no_else, else_do, while_do, terms_of};

use crate::op::Op;
use crate::term::{Decl, Operand, Term};
use acpi_name::Name;
use std::alloc::{AllocError, Global};

impl Term {
    /// An equal term with memory of its own.
    #[cycle(copy_term)]
    pub fn copy(&self, alloc: Global) -> Result<Term, AllocError>
        ensures { IfOk result (λ t. term_view t ≡ term_view self.now) }
    {
        match self {
            Term::Int(int) => Ok(Term::Int(*int)),
            Term::Str(text) => copy_string(alloc, text),
            Term::Buffer(size, bytes) => copy_buffer(alloc, size, bytes),
            Term::Package(count, elems) => copy_package(alloc, *count, elems),
            Term::VarPackage(count, elems) => {
                let count = copy_boxed(alloc, count)?;
                copy_var_package(alloc, elems, count)
            }
            Term::Local(number) => Ok(Term::Local(*number)),
            Term::Arg(number) => Ok(Term::Arg(*number)),
            Term::Debug => Ok(Term::Debug),
            Term::NoTarget => Ok(Term::NoTarget),
            Term::Ref(name) => copy_reference(name),
            Term::Call(name, args) => copy_call(alloc, name, args),
            Term::Op(op, operands) => copy_operator(alloc, *op, operands),
            Term::If(test, then, None) => {
                let test = copy_boxed(alloc, test)?;
                copy_if(alloc, then, test)
            }
            Term::If(test, then, Some(other)) => {
                let test = copy_boxed(alloc, test)?;
                let then = copy_terms(alloc, then)?;
                copy_else(alloc, other, test, then)
            }
            Term::While(test, then) => {
                let test = copy_boxed(alloc, test)?;
                copy_while(alloc, then, test)
            }
            Term::Declare(decl) => copy_declaration(alloc, decl),
        }
    }
}

// Each form has a frame of its own, so that a level of terms costs little stack. What is copied already stands last.

#[inline(never)]
fn copy_string(alloc: Global, text: &[u8]) -> Result<Term, AllocError>
    ensures { IfOk result (λ t. term_view t ≡ str text.now) }
{
    Ok(Term::Str(Vec::from_slice(alloc, text)?))
}

#[cycle(copy_term)]
#[inline(never)]
fn copy_buffer(alloc: Global, size: &Term, bytes: &[u8]) -> Result<Term, AllocError>
    ensures { IfOk result (λ t. term_view t ≡ buffer (term_view size.now) bytes.now) }
{
    let size = copy_boxed(alloc, size)?;
    Ok(Term::Buffer(size, Vec::from_slice(alloc, bytes)?))
}

#[cycle(copy_term)]
#[inline(never)]
fn copy_package(alloc: Global, count: u8, elems: &[Term]) -> Result<Term, AllocError>
    ensures { IfOk result (λ t. term_view t ≡ pkg count (terms_tree elems.now)) }
{
    Ok(Term::Package(count, copy_terms(alloc, elems)?))
}

#[cycle(copy_term)]
#[inline(never)]
fn copy_var_package(alloc: Global, elems: &[Term], count: Box<Term>) -> Result<Term, AllocError>
    ensures { IfOk result (λ t. term_view t ≡ var_pkg (term_view (box_value count))
        (terms_tree elems.now)) }
{
    Ok(Term::VarPackage(count, copy_terms(alloc, elems)?))
}

#[inline(never)]
fn copy_reference(name: &Name) -> Result<Term, AllocError>
    ensures { IfOk result (λ t. term_view t ≡ ref name.now) }
{
    Ok(Term::Ref(name.copy()?))
}

#[cycle(copy_term)]
#[inline(never)]
fn copy_call(alloc: Global, name: &Name, args: &[Term]) -> Result<Term, AllocError>
    ensures { IfOk result (λ t. term_view t ≡ call name.now (terms_tree args.now)) }
{
    let args = copy_terms(alloc, args)?;
    Ok(Term::Call(name.copy()?, args))
}

#[cycle(copy_term)]
#[inline(never)]
fn copy_operator(alloc: Global, op: Op, operands: &[Operand]) -> Result<Term, AllocError>
    ensures { IfOk result (λ t. term_view t ≡ apply op (terms_of (operands_view operands.now))) }
{
    Ok(Term::Op(op, copy_operands(alloc, operands)?))
}

#[cycle(copy_term)]
#[inline(never)]
fn copy_if(alloc: Global, then: &[Term], test: Box<Term>) -> Result<Term, AllocError>
    ensures { IfOk result (λ t. term_view t ≡ if_do (term_view (box_value test))
        (terms_tree then.now) no_else) }
{
    Ok(Term::If(test, copy_terms(alloc, then)?, None))
}

// An If with an Else, whose statements are still to be copied.
#[cycle(copy_term)]
#[inline(never)]
fn copy_else(
    alloc: Global,
    other: &[Term],
    test: Box<Term>,
    then: Vec<Term>,
) -> Result<Term, AllocError>
    ensures { IfOk result (λ t. term_view t ≡ if_do (term_view (box_value test))
        (terms_tree then.items) (else_do (terms_tree other.now))) }
{
    Ok(with_else(test, then, copy_terms(alloc, other)?))
}

#[cycle(copy_term)]
#[inline(never)]
fn copy_while(alloc: Global, then: &[Term], test: Box<Term>) -> Result<Term, AllocError>
    ensures { IfOk result (λ t. term_view t ≡ while_do (term_view (box_value test))
        (terms_tree then.now)) }
{
    Ok(Term::While(test, copy_terms(alloc, then)?))
}

#[cycle(copy_term)]
#[inline(never)]
fn copy_declaration(alloc: Global, decl: &Decl) -> Result<Term, AllocError>
    ensures { IfOk result (λ t. term_view t ≡ decl_view decl.now) }
{
    Ok(Term::Declare(Box::new(alloc, decl.copy(alloc)?)?))
}

// An If with an Else.
fn with_else(test: Box<Term>, then: Vec<Term>, other: Vec<Term>) -> Term
    ensures { term_view result ≡ if_do (term_view (box_value test)) (terms_tree then.items)
        (else_do (terms_tree other.items)) }
{
    Term::If(test, then, Some(other))
}

#[cycle(copy_term)]
pub(crate) fn copy_boxed(alloc: Global, term: &Term) -> Result<Box<Term>, AllocError>
    ensures { IfOk result (λ b. term_view (box_value b) ≡ term_view term.now) }
{
    Ok(Box::new(alloc, term.copy(alloc)?)?)
}

// Puts a term behind the others.
#[inline(never)]
fn add_term(terms: &mut Vec<Term>, term: Term) -> Result<(), AllocError>
    ensures { OnOk result (terms.new.items ≡ terms.old.items ++ term ∷ []) }
{
    terms.push(term)?;
    Ok(())
}

#[cycle(copy_term)]
fn copy_terms(alloc: Global, terms: &[Term]) -> Result<Vec<Term>, AllocError>
    ensures { IfOk result (λ v. terms_view v.items ≡ terms_view terms.now) }
{
    let mut copies = Vec::new(alloc);
    for term in terms {
        add_term(&mut copies, term.copy(alloc)?)?;
    }
    Ok(copies)
}

// Puts an operand behind the others.
#[inline(never)]
fn add_operand(operands: &mut Vec<Operand>, operand: Operand) -> Result<(), AllocError>
    ensures { OnOk result (operands.new.items ≡ operands.old.items ++ operand ∷ []) }
{
    operands.push(operand)?;
    Ok(())
}

#[cycle(copy_term)]
fn copy_operands(alloc: Global, operands: &[Operand]) -> Result<Vec<Operand>, AllocError>
    ensures { IfOk result (λ v. operands_view v.items ≡ operands_view operands.now) }
{
    let mut copies = Vec::new(alloc);
    for operand in operands {
        add_operand(&mut copies, operand.copy(alloc)?)?;
    }
    Ok(copies)
}

impl Operand {
    /// An equal operand with memory of its own.
    #[cycle(copy_term)]
    pub fn copy(&self, alloc: Global) -> Result<Operand, AllocError>
        ensures { IfOk result (λ o. operand_view o ≡ operand_view self.now) }
    {
        match self {
            Operand::Term(term) => Ok(Operand::Term(term.copy(alloc)?)),
            Operand::Byte(number) => Ok(Operand::Byte(*number)),
            Operand::Word(number) => Ok(Operand::Word(*number)),
            Operand::DWord(number) => Ok(Operand::DWord(*number)),
        }
    }
}
