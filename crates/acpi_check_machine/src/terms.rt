//! Terms: which are constants, and which stand in others.

use acpi_name::Name;
use acpi_overview::integer_value;
use acpi_tree::{Decl, Operand, Term};
use std::alloc::{AllocError, Global};

/// The number of a term that is a constant integer; Revision has none.
pub fn constant(term: &Term) -> Option<u64> {
    match term {
        Term::Int(int) => integer_value(*int),
        _ => None,
    }
}

/// Whether a term is a data object: an integer, a string, a buffer or a package (ACPI 6.5, 20.2.3).
pub fn is_data(term: &Term) -> bool {
    matches!(
        term,
        Term::Int(_)
            | Term::Str(_)
            | Term::Buffer(_, _)
            | Term::Package(_, _)
            | Term::VarPackage(_, _)
    )
}

/// The elements of a term that is a package of a constant count.
pub fn package_of(term: &Term) -> Option<&[Term]> {
    match term {
        Term::Package(_, elements) => Some(elements),
        _ => None,
    }
}

/// The name that a term is: one with nothing behind it, where a value or a reference stands.
pub fn name_read(term: &Term) -> Option<&Name> {
    match term {
        Term::Ref(name) => Some(name),
        Term::Call(name, values) => { if values.is_empty() { Some(name) } else { None } }
        _ => None,
    }
}

#[cycle(terms)]
fn add_all<'a>(found: &mut Vec<&'a Term>, terms: &'a [Term]) -> Result<(), AllocError> {
    for term in terms {
        add(found, term)?;
    }
    Ok(())
}

#[cycle(terms)]
fn add_operands<'a>(found: &mut Vec<&'a Term>, operands: &'a [Operand]) -> Result<(), AllocError> {
    for operand in operands {
        add_operand(found, operand)?;
    }
    Ok(())
}

#[cycle(terms)]
fn add_operand<'a>(found: &mut Vec<&'a Term>, operand: &'a Operand) -> Result<(), AllocError> {
    match operand {
        Operand::Term(term) => add(found, term),
        _ => Ok(()),
    }
}

#[cycle(terms)]
fn add_of_decl<'a>(found: &mut Vec<&'a Term>, decl: &'a Decl) -> Result<(), AllocError> {
    match decl {
        Decl::Name(_, value) => add(found, value),
        Decl::Create { source, index, .. } => {
            add(found, source)?;
            add(found, index)
        }
        Decl::CreateField {
            source,
            index,
            bits,
            ..
        } => {
            add(found, source)?;
            add(found, index)?;
            add(found, bits)
        }
        Decl::Region { offset, length, .. } => {
            add(found, offset)?;
            add(found, length)
        }
        Decl::BankField { value, .. } => add(found, value),
        _ => Ok(()),
    }
}

// Puts a term and all that stand on its line behind others.
#[cycle(terms)]
fn add<'a>(found: &mut Vec<&'a Term>, term: &'a Term) -> Result<(), AllocError> {
    found.push(term)?;
    match term {
        Term::Buffer(size, _) => add(found, size),
        Term::Package(_, elements) => add_all(found, elements),
        Term::VarPackage(count, elements) => {
            add(found, count)?;
            add_all(found, elements)
        }
        Term::Call(_, values) => add_all(found, values),
        Term::Op(_, operands) => add_operands(found, operands),
        Term::If(predicate, _, _) => add(found, predicate),
        Term::While(predicate, _) => add(found, predicate),
        Term::Declare(decl) => add_of_decl(found, decl),
        _ => Ok(()),
    }
}

/// A term and all terms in it that stand on its line, each before those in it: of an If or a While only its predicate.
pub fn terms_on_line<'a>(alloc: Global, term: &'a Term) -> Result<Vec<&'a Term>, AllocError> {
    let mut found = Vec::new(alloc);
    add(&mut found, term)?;
    Ok(found)
}
