//! The names in a term, by how they stand there.

ghost use Rattle.std.specs.Prelude.{◌≡◌, ◌++◌, IfOk, OnOk};
ghost use Rattle.acpi_tree.specs.Terms.{terms_of};
ghost use Rattle.acpi_tree.specs.TermView.{decl_view, operands_view, term_view, terms_tree};
ghost use Rattle.acpi_outline.specs.View.{fixed_view, plain_view};
ghost use Rattle.acpi_survey.specs.NameUses.{if_wanted, lent_names, names_used, names_used_all, names_used_in_fixed, names_used_in_plain};

use acpi_name::Name;
use acpi_outline::{Fixed, Plain};
use acpi_tree::{Decl, Operand, Term};
use std::alloc::{AllocError, Global};

/// How a name stands in a term (ACPI 6.5, 20.2.2 and 20.2.5).
#[derive(Debug, Clone, Copy, PartialEq, Eq)]
pub enum NameUse {
    /// Where a value is wanted: the arguments of a call may follow it.
    Call,
    /// As a reference: a super name, a target, a simple name or an element of a package.
    Reference,
}

// Puts a name behind others, if it is of the wanted use.
fn put<'a>(
    names: &mut Vec<&'a Name>,
    wanted: NameUse,
    found: NameUse,
    name: &'a Name,
) -> Result<(), AllocError>
    ensures { OnOk result (lent_names names.new.items
        ≡ lent_names names.old.items ++ if_wanted wanted found name.now) }
{
    if wanted == found {
        names.push(name)?;
    }
    Ok(())
}

#[cycle(name_uses)]
fn add_of_terms<'a>(
    names: &mut Vec<&'a Name>,
    wanted: NameUse,
    terms: &'a [Term],
) -> Result<(), AllocError>
    ensures { OnOk result (lent_names names.new.items
        ≡ lent_names names.old.items ++ names_used_all wanted (terms_tree terms.now)) }
{
    'each: for term in terms {
        add_of_term(names, wanted, term)?;
    }
    Ok(())
}

#[cycle(name_uses)]
fn add_of_operands<'a>(
    names: &mut Vec<&'a Name>,
    wanted: NameUse,
    operands: &'a [Operand],
) -> Result<(), AllocError>
    ensures { OnOk result (lent_names names.new.items ≡ lent_names names.old.items
        ++ names_used_all wanted (terms_of (operands_view operands.now))) }
{
    'each: for operand in operands {
        if let Operand::Term(term) = operand {
            add_of_term(names, wanted, term)?;
        }
    }
    Ok(())
}

#[cycle(name_uses)]
fn add_of_decl<'a>(
    names: &mut Vec<&'a Name>,
    wanted: NameUse,
    decl: &'a Decl,
) -> Result<(), AllocError>
    ensures { OnOk result (lent_names names.new.items
        ≡ lent_names names.old.items ++ names_used wanted (decl_view decl.now)) }
{
    match decl {
        Decl::Name(_, data) => add_of_term(names, wanted, data),
        Decl::Create { source, index, .. } => {
            add_of_term(names, wanted, source)?;
            add_of_term(names, wanted, index)
        }
        Decl::CreateField {
            source,
            index,
            bits,
            ..
        } => {
            add_of_term(names, wanted, source)?;
            add_of_term(names, wanted, index)?;
            add_of_term(names, wanted, bits)
        }
        Decl::Region { offset, length, .. } => {
            add_of_term(names, wanted, offset)?;
            add_of_term(names, wanted, length)
        }
        Decl::BankField { value, .. } => add_of_term(names, wanted, value),
        _ => Ok(()),
    }
}

// Puts the names of the wanted use that stand in a term behind others.
#[cycle(name_uses)]
fn add_of_term<'a>(
    names: &mut Vec<&'a Name>,
    wanted: NameUse,
    term: &'a Term,
) -> Result<(), AllocError>
    ensures { OnOk result (lent_names names.new.items
        ≡ lent_names names.old.items ++ names_used wanted (term_view term.now)) }
{
    match term {
        Term::Ref(name) => put(names, wanted, NameUse::Reference, name),
        Term::Buffer(size, _) => add_of_term(names, wanted, size),
        Term::Package(_, elements) => add_of_terms(names, wanted, elements),
        Term::VarPackage(count, elements) => {
            add_of_term(names, wanted, count)?;
            add_of_terms(names, wanted, elements)
        }
        Term::Call(name, args) => {
            put(names, wanted, NameUse::Call, name)?;
            add_of_terms(names, wanted, args)
        }
        Term::Op(_, operands) => add_of_operands(names, wanted, operands),
        Term::If(test, then, other) => {
            add_of_term(names, wanted, test)?;
            add_of_terms(names, wanted, then)?;
            match other {
                Some(terms) => add_of_terms(names, wanted, terms),
                None => Ok(()),
            }
        }
        Term::While(test, body) => {
            add_of_term(names, wanted, test)?;
            add_of_terms(names, wanted, body)
        }
        Term::Declare(decl) => add_of_decl(names, wanted, decl),
        _ => Ok(()),
    }
}

/// The names of a use in terms, in the order of the terms.
pub fn names_in_terms<'a>(
    alloc: Global,
    wanted: NameUse,
    terms: &'a [Term],
) -> Result<Vec<&'a Name>, AllocError>
    ensures { IfOk result (λ v. lent_names v.items
        ≡ names_used_all wanted (terms_tree terms.now)) }
{
    let mut names = Vec::new(alloc);
    add_of_terms(&mut names, wanted, terms)?;
    Ok(names)
}

/// The names of a use in a plain node. That of which an Alias is another is of each use.
pub fn names_in_plain<'a>(
    alloc: Global,
    wanted: NameUse,
    plain: &'a Plain,
) -> Result<Vec<&'a Name>, AllocError>
    ensures { IfOk result (λ v. lent_names v.items
        ≡ names_used_in_plain wanted (plain_view plain.now)) }
{
    let mut names = Vec::new(alloc);
    match plain {
        Plain::Term(term) => add_of_term(&mut names, wanted, term)?,
        Plain::External(_) => {}
        Plain::Alias(source, _) => names.push(source)?,
        Plain::TableRegion(_, signature, oem, table) => {
            add_of_term(&mut names, wanted, signature)?;
            add_of_term(&mut names, wanted, oem)?;
            add_of_term(&mut names, wanted, table)?;
        }
    }
    Ok(names)
}

/// The names of a use in the fixed arguments of a package, without that which the package declares or opens.
pub fn names_in_fixed<'a>(
    alloc: Global,
    wanted: NameUse,
    fixed: &'a Fixed,
) -> Result<Vec<&'a Name>, AllocError>
    ensures { IfOk result (λ v. lent_names v.items
        ≡ names_used_in_fixed wanted (fixed_view fixed.now)) }
{
    let mut names = Vec::new(alloc);
    match fixed {
        Fixed::If(test) => add_of_term(&mut names, wanted, test)?,
        Fixed::While(test) => add_of_term(&mut names, wanted, test)?,
        Fixed::BankField(_, _, value, _) => add_of_term(&mut names, wanted, value)?,
        _ => {}
    }
    Ok(names)
}
