//! The names that stand in a term, with their roles.

ghost use Rattle.std.specs.Prelude.{◌≡◌, ◌++◌, ◌∷◌, [], drop, IfOk, OnOk};
ghost use Rattle.acpi_tree.specs.Terms.{terms_of};
ghost use Rattle.acpi_tree.specs.TermView.{term_view, terms_tree, operand_view, operands_view, decl_view};
ghost use Rattle.acpi_tree.specs.View.{field_view, fields_view};
ghost use Rattle.acpi_uses.specs.Uses as defined;
ghost use Rattle.acpi_uses.specs.Uses.{connections, operand_role, uses_in_all, uses_in_operands, with_role};
ghost use Rattle.acpi_uses.specs.declared.role.Role.TheVariants as roles;
ghost use Rattle.acpi_uses.specs.UseViews.{uses_view};

use crate::role::{Role, call_role, ref_role, role_at};
use acpi_name::Name;
use acpi_tree::{Decl, FieldElem, Op, Operand, OperandKind, Term};
use std::alloc::{AllocError, Global};

/// A name that stands in a term.
#[derive(Debug, Clone, Copy)]
pub struct NameUse<'a> {
    /// The name, as it stands there.
    pub name: &'a Name,
    /// How it stands there.
    pub role: Role,
}

/// Puts a name that stands alone behind others.
pub fn add_name<'a>(
    uses: &mut Vec<NameUse<'a>>,
    role: Role,
    name: &'a Name,
) -> Result<(), AllocError>
    ensures { OnOk result (uses_view uses.new.items
        ≡ uses_view uses.old.items ++ (name.now, role) ∷ []) }
{
    uses.push(NameUse { name, role })?;
    Ok(())
}

// Puts the names that two things of a field form have behind others.
fn add_two<'a>(
    uses: &mut Vec<NameUse<'a>>,
    first: &'a Name,
    second: &'a Name,
) -> Result<(), AllocError>
    ensures { OnOk result (uses_view uses.new.items
        ≡ uses_view uses.old.items ++ with_role roles.Field (first.now ∷ second.now ∷ [])) }
{
    add_name(uses, Role::Field, first)?;
    add_name(uses, Role::Field, second)
}

/// Puts the name of an element of a field list, if it is a connection, behind others.
pub fn add_connection<'a>(
    uses: &mut Vec<NameUse<'a>>,
    element: &'a FieldElem,
) -> Result<(), AllocError>
    ensures { OnOk result (uses_view uses.new.items
        ≡ uses_view uses.old.items ++ connections (field_view element.now ∷ [])) }
{
    match element {
        FieldElem::ConnectName(name) => add_name(uses, Role::Refer, name),
        _ => Ok(()),
    }
}

fn add_connections<'a>(
    uses: &mut Vec<NameUse<'a>>,
    elements: &'a [FieldElem],
) -> Result<(), AllocError>
    ensures { OnOk result (uses_view uses.new.items
        ≡ uses_view uses.old.items ++ connections (fields_view elements.now)) }
{
    'each: for element in elements {
        add_connection(uses, element)?;
    }
    Ok(())
}

// The role of a name at the operand of that number: what has no place in the row is a value.
fn operand_role(op: Op, kinds: &[OperandKind], number: usize) -> Role
    ensures { result ≡ operand_role op (drop number kinds.now) }
{
    match kinds.get(number) {
        Some(kind) => role_at(op, *kind),
        None => Role::Value,
    }
}

// Puts the uses of terms that stand where a name has the role behind others.
#[cycle(uses_in)]
fn add_all<'a>(uses: &mut Vec<NameUse<'a>>, role: Role, terms: &'a [Term]) -> Result<(), AllocError>
    ensures { OnOk result (uses_view uses.new.items
        ≡ uses_view uses.old.items ++ uses_in_all role (terms_tree terms.now)) }
{
    'each: for term in terms {
        add_uses_in(uses, role, term)?;
    }
    Ok(())
}

#[cycle(uses_in)]
fn add_operands<'a>(
    uses: &mut Vec<NameUse<'a>>,
    op: Op,
    kinds: &[OperandKind],
    operands: &'a [Operand],
) -> Result<(), AllocError>
    ensures { OnOk result (uses_view uses.new.items ≡ uses_view uses.old.items
        ++ uses_in_operands op kinds.now (terms_of (operands_view operands.now))) }
{
    'each: for i in 0..operands.len() {
        add_operand(uses, operand_role(op, kinds, i), &operands[i])?;
    }
    Ok(())
}

#[cycle(uses_in)]
fn add_operand<'a>(
    uses: &mut Vec<NameUse<'a>>,
    role: Role,
    operand: &'a Operand,
) -> Result<(), AllocError>
    ensures { OnOk result (uses_view uses.new.items
        ≡ uses_view uses.old.items ++ defined.uses_in role (operand_view operand.now)) }
{
    match operand {
        Operand::Term(term) => add_uses_in(uses, role, term),
        _ => Ok(()),
    }
}

/// Puts the names of a term, no statement, that stands where a name would have the role behind others.
#[cycle(uses_in)]
pub fn add_uses_in<'a>(
    uses: &mut Vec<NameUse<'a>>,
    role: Role,
    term: &'a Term,
) -> Result<(), AllocError>
    ensures { OnOk result (uses_view uses.new.items
        ≡ uses_view uses.old.items ++ defined.uses_in role (term_view term.now)) }
{
    match term {
        Term::Ref(name) => add_name(uses, ref_role(role), name),
        Term::Call(name, values) => {
            add_name(uses, call_role(values, role), name)?;
            add_all(uses, Role::Value, values)
        }
        Term::Op(op, operands) => add_operands(uses, *op, op.operands(), operands),
        Term::Buffer(size, _) => add_uses_in(uses, Role::Value, size),
        Term::Package(_, elements) => add_all(uses, Role::Element, elements),
        Term::VarPackage(count, elements) => {
            add_uses_in(uses, Role::Value, count)?;
            add_all(uses, Role::Element, elements)
        }
        _ => Ok(()),
    }
}

fn add_declaration<'a>(uses: &mut Vec<NameUse<'a>>, decl: &'a Decl) -> Result<(), AllocError>
    ensures { OnOk result (uses_view uses.new.items ≡ uses_view uses.old.items
        ++ defined.uses_of (decl_view decl.now)) }
{
    match decl {
        Decl::Name(_, data) => add_uses_in(uses, Role::Value, data),
        Decl::Create { source, index, .. } => {
            add_uses_in(uses, Role::Source, source)?;
            add_uses_in(uses, Role::Value, index)
        }
        Decl::CreateField {
            source,
            index,
            bits,
            ..
        } => {
            add_uses_in(uses, Role::Source, source)?;
            add_uses_in(uses, Role::Value, index)?;
            add_uses_in(uses, Role::Value, bits)
        }
        Decl::Mutex(..) => Ok(()),
        Decl::Event(_) => Ok(()),
        Decl::Region { offset, length, .. } => {
            add_uses_in(uses, Role::Value, offset)?;
            add_uses_in(uses, Role::Value, length)
        }
        Decl::Field { region, elems, .. } => {
            add_name(uses, Role::Field, region)?;
            add_connections(uses, elems)
        }
        Decl::IndexField {
            index,
            datum,
            elems,
            ..
        } => {
            add_two(uses, index, datum)?;
            add_connections(uses, elems)
        }
        Decl::BankField {
            region,
            bank,
            value,
            elems,
            ..
        } => {
            add_two(uses, region, bank)?;
            add_uses_in(uses, Role::Value, value)?;
            add_connections(uses, elems)
        }
    }
}

/// The names of a term, no statement, that stands where a name would have the role, in the order in which they stand.
pub fn uses_in<'a>(
    alloc: Global,
    role: Role,
    term: &'a Term,
) -> Result<Vec<NameUse<'a>>, AllocError>
    ensures { IfOk result (λ v. uses_view v.items ≡ defined.uses_in role (term_view term.now)) }
{
    let mut uses = Vec::new(alloc);
    add_uses_in(&mut uses, role, term)?;
    Ok(uses)
}

/// Puts the names of a statement behind others.
pub fn add_uses_of<'a>(uses: &mut Vec<NameUse<'a>>, term: &'a Term) -> Result<(), AllocError>
    ensures { OnOk result (uses_view uses.new.items
        ≡ uses_view uses.old.items ++ defined.uses_of (term_view term.now)) }
{
    match term {
        Term::If(predicate, _, _) => add_uses_in(uses, Role::Value, predicate),
        Term::While(predicate, _) => add_uses_in(uses, Role::Value, predicate),
        Term::Declare(decl) => add_declaration(uses, decl),
        _ => add_uses_in(uses, Role::Statement, term),
    }
}

/// The names of a statement, in the order in which they stand: of an If or a While those of its predicate, and none that it
/// declares.
pub fn uses_of<'a>(alloc: Global, statement: &'a Term) -> Result<Vec<NameUse<'a>>, AllocError>
    ensures { IfOk result (λ v. uses_view v.items ≡ defined.uses_of (term_view statement.now)) }
{
    let mut uses = Vec::new(alloc);
    add_uses_of(&mut uses, statement)?;
    Ok(uses)
}
