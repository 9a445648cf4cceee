//! The names in a term that have to be found when it is run.

ghost use Rattle.std.specs.Prelude.{◌≡◌, ◌++◌, ◌∷◌, [], IfOk, OnOk};
ghost use Rattle.acpi_tree.specs.Terms.{terms_of, no_terms, more};
ghost use Rattle.acpi_tree.specs.TermView.{term_view, terms_tree, operands_view, decl_view};
ghost use Rattle.acpi_needs.specs.Needs.{names_in, names_in_all, names_in_elements, names_in_element, names_in_source, names_of, is_among, with_name, with_names, finds_out};

use acpi_name::Name;
use acpi_tree::{Decl, Op, Operand, Term};
use std::alloc::{AllocError, Global};

// Puts a name behind others.
fn put(names: &mut Vec<Name>, name: &Name) -> Result<(), AllocError>
    ensures { OnOk result (names.new.items ≡ names.old.items ++ name.now ∷ []) }
{
    names.push(name.copy()?)?;
    Ok(())
}

fn finds_out(op: Op) -> bool
    ensures { result ≡ finds_out op }
{
    matches!(op, Op::CondRefOf)
}

/// Puts the names of the term behind others.
#[cycle(names)]
pub fn add_names(names: &mut Vec<Name>, term: &Term) -> Result<(), AllocError>
    ensures { OnOk result (names.new.items ≡ names.old.items ++ names_in (term_view term.now)) }
{
    match term {
        Term::Buffer(size, _) => add_names(names, size),
        Term::Package(_, elements) => add_of_elements(names, elements),
        Term::VarPackage(count, elements) => {
            add_names(names, count)?;
            add_of_elements(names, elements)
        }
        Term::Ref(name) => put(names, name),
        Term::Call(name, args) => {
            put(names, name)?;
            add_of_terms(names, args)
        }
        Term::Op(op, operands) => {
            if finds_out(*op) {
                return Ok(());
            }
            add_of_operands(names, operands)
        }
        _ => Ok(()),
    }
}

#[cycle(names)]
fn add_of_terms(names: &mut Vec<Name>, terms: &[Term]) -> Result<(), AllocError>
    ensures { OnOk result (names.new.items
        ≡ names.old.items ++ names_in_all (terms_tree terms.now)) }
{
    'each: for term in terms {
        add_names(names, term)?;
    }
    Ok(())
}

#[cycle(names)]
fn add_of_operands(names: &mut Vec<Name>, operands: &[Operand]) -> Result<(), AllocError>
    ensures { OnOk result (names.new.items
        ≡ names.old.items ++ names_in_all (terms_of (operands_view operands.now))) }
{
    'each: for operand in operands {
        if let Operand::Term(term) = operand {
            add_names(names, term)?;
        }
    }
    Ok(())
}

#[cycle(names)]
fn add_of_elements(names: &mut Vec<Name>, elements: &[Term]) -> Result<(), AllocError>
    ensures { OnOk result (names.new.items
        ≡ names.old.items ++ names_in_elements (terms_tree elements.now)) }
{
    'each: for element in elements {
        add_of_element(names, element)?;
    }
    Ok(())
}

#[cycle(names)]
fn add_of_element(names: &mut Vec<Name>, element: &Term) -> Result<(), AllocError>
    ensures { OnOk result (names.new.items
        ≡ names.old.items ++ names_in_element (term_view element.now)) }
{
    match element {
        Term::Buffer(size, _) => add_names(names, size),
        Term::Package(_, elements) => add_of_elements(names, elements),
        Term::VarPackage(count, elements) => {
            add_names(names, count)?;
            add_of_elements(names, elements)
        }
        _ => Ok(()),
    }
}

/// Puts the names of the source of a Create field behind others.
pub fn add_of_source(names: &mut Vec<Name>, source: &Term) -> Result<(), AllocError>
    ensures { OnOk result (names.new.items
        ≡ names.old.items ++ names_in_source (term_view source.now)) }
{
    match source {
        Term::Ref(_) => Ok(()),
        _ => add_names(names, source),
    }
}

/// Whether a name is among others.
pub fn is_among(names: &[Name], name: &Name) -> bool
    ensures { result ≡ is_among names.now name.now }
{
    names.iter().any(|n| *n == *name)
}

// Puts a name behind others, if it isn't among them.
fn put_once(names: &mut Vec<Name>, name: Name) -> Result<(), AllocError>
    ensures { OnOk result (names.new.items ≡ with_name names.old.items name) }
{
    if is_among(names, &name) {
        return Ok(());
    }
    names.push(name)?;
    Ok(())
}

/// The names, each where it stands first.
pub fn once(alloc: Global, names: Vec<Name>) -> Result<Vec<Name>, AllocError>
    ensures { IfOk result (λ v. v.items ≡ with_names [] names.items) }
{
    let mut kept = Vec::new(alloc);
    'each: for name in names {
        put_once(&mut kept, name)?;
    }
    Ok(kept)
}

// Puts the names in the operands of a declaration behind others.
fn add_of_decl(names: &mut Vec<Name>, decl: &Decl) -> Result<(), AllocError>
    ensures { OnOk result (names.new.items ≡ names.old.items ++ names_of (decl_view decl.now)) }
{
    match decl {
        Decl::Name(_, data) => add_names(names, data),
        Decl::Create { source, index, .. } => {
            add_of_source(names, source)?;
            add_names(names, index)
        }
        Decl::CreateField {
            source,
            index,
            bits,
            ..
        } => {
            add_of_source(names, source)?;
            add_names(names, index)?;
            add_names(names, bits)
        }
        Decl::Region { offset, length, .. } => {
            add_names(names, offset)?;
            add_names(names, length)
        }
        Decl::Mutex(_, _) => Ok(()),
        Decl::Event(_) => Ok(()),
        Decl::Field { .. } => Ok(()),
        Decl::IndexField { .. } => Ok(()),
        Decl::BankField { .. } => Ok(()),
    }
}

/// What the operands of a declaration need.
pub fn needs_of(alloc: Global, decl: &Decl) -> Result<Vec<Name>, AllocError>
    ensures { IfOk result (λ v. v.items ≡ with_names [] (names_of (decl_view decl.now))) }
{
    let mut names = Vec::new(alloc);
    add_of_decl(&mut names, decl)?;
    once(alloc, names)
}

/// What the three operands of a DefDataRegion need.
pub fn needs_of_three(
    alloc: Global,
    first: &Term,
    second: &Term,
    third: &Term,
) -> Result<Vec<Name>, AllocError>
    ensures { IfOk result (λ v. v.items
        ≡ with_names [] (names_in_all (more (term_view first.now) (more (term_view second.now)
        (more (term_view third.now) no_terms))))) }
{
    let mut names = Vec::new(alloc);
    add_names(&mut names, first)?;
    add_names(&mut names, second)?;
    add_names(&mut names, third)?;
    once(alloc, names)
}

/// What the value of a BankField needs.
pub fn needs_of_value(alloc: Global, value: &Term) -> Result<Vec<Name>, AllocError>
    ensures { IfOk result (λ v. v.items ≡ with_names [] (names_in (term_view value.now))) }
{
    let mut names = Vec::new(alloc);
    add_names(&mut names, value)?;
    once(alloc, names)
}
