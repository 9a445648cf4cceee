//! Whether terms load or unload a table.

ghost use Rattle.std.specs.Prelude.{◌≡◌};
ghost use Rattle.acpi_tree.specs.Terms.{terms_of};
ghost use Rattle.acpi_tree.specs.TermView.{decl_view, operand_view, operands_view, term_view, terms_tree};
ghost use Rattle.acpi_body.specs.Loads.{has_load, have_load};

use acpi_tree::{Decl, Operand, Term};

#[cycle(loads)]
fn operand_has_load(operand: &Operand) -> bool
    ensures { result ≡ has_load (operand_view operand.now) }
{
    match operand {
        Operand::Term(term) => has_load(term),
        _ => false,
    }
}

#[cycle(loads)]
fn operands_have_load(operands: &[Operand]) -> bool
    ensures { result ≡ have_load (terms_of (operands_view operands.now)) }
{
    'each: for operand in operands {
        if operand_has_load(operand) {
            return true;
        }
    }
    false
}

#[cycle(loads)]
fn decl_has_load(decl: &Decl) -> bool
    ensures { result ≡ has_load (decl_view decl.now) }
{
    match decl {
        Decl::Name(_, data) => has_load(data),
        Decl::Create { source, index, .. } => has_load(source) || has_load(index),
        Decl::CreateField {
            source,
            index,
            bits,
            ..
        } => has_load(source) || has_load(index) || has_load(bits),
        Decl::Region { offset, length, .. } => has_load(offset) || has_load(length),
        Decl::BankField { value, .. } => has_load(value),
        _ => false,
    }
}

#[cycle(loads)]
fn has_load(term: &Term) -> bool
    ensures { result ≡ has_load (term_view term.now) }
{
    match term {
        Term::Buffer(size, _) => has_load(size),
        Term::Package(_, elements) => have_load(elements),
        Term::VarPackage(count, elements) => has_load(count) || have_load(elements),
        Term::Call(_, args) => have_load(args),
        Term::Op(op, operands) => op.is_load() || operands_have_load(operands),
        Term::If(test, then, None) => has_load(test) || have_load(then),
        Term::If(test, then, Some(other)) => {
            has_load(test) || have_load(then) || have_load(other)
        }
        Term::While(test, body) => has_load(test) || have_load(body),
        Term::Declare(decl) => decl_has_load(decl),
        _ => false,
    }
}

/// Whether LoadTable, Load or Unload stands in one of the terms, at any depth.
#[cycle(loads)]
pub fn have_load(terms: &[Term]) -> bool
    ensures { result ≡ have_load (terms_tree terms.now) }
{
    'each: for term in terms {
        if has_load(term) {
            return true;
        }
    }
    false
}
