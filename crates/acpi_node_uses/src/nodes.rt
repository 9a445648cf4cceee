//! The names that stand in a node, with their roles.

ghost use Rattle.std.specs.Prelude.{◌≡◌, ◌++◌, IfOk, OnOk};
ghost use Rattle.acpi_outline.specs.View.{fields_before, fields_end, fixed_view, node_view, placed_fields, plain_view};
ghost use Rattle.acpi_uses.specs.UseViews.{uses_view};
ghost use Rattle.acpi_node_uses.specs.NodeUses as defined;
ghost use Rattle.acpi_node_uses.specs.NodeUses.{uses_of_fields, uses_of_fixed, uses_of_plain};

use acpi_outline::{Fixed, Lost, Node, PlacedField, Plain};
use acpi_uses::{NameUse, Role, add_connection, add_name, add_uses_in, add_uses_of};
use std::alloc::{AllocError, Global};

fn add_plain<'a>(uses: &mut Vec<NameUse<'a>>, plain: &'a Plain) -> Result<(), AllocError>
    ensures { OnOk result (uses_view uses.new.items
        ≡ uses_view uses.old.items ++ uses_of_plain (plain_view plain.now)) }
{
    match plain {
        Plain::Term(term) => add_uses_of(uses, term),
        Plain::External(_) => Ok(()),
        Plain::Alias(source, _) => add_name(uses, Role::Refer, source),
        Plain::TableRegion(_, signature, oem, table) => {
            add_uses_in(uses, Role::Value, signature)?;
            add_uses_in(uses, Role::Value, oem)?;
            add_uses_in(uses, Role::Value, table)
        }
    }
}

fn add_fixed<'a>(uses: &mut Vec<NameUse<'a>>, fixed: &'a Fixed) -> Result<(), AllocError>
    ensures { OnOk result (uses_view uses.new.items
        ≡ uses_view uses.old.items ++ uses_of_fixed (fixed_view fixed.now)) }
{
    match fixed {
        Fixed::Scope(name) => add_name(uses, Role::Scope, name),
        Fixed::If(predicate) => add_uses_in(uses, Role::Value, predicate),
        Fixed::While(predicate) => add_uses_in(uses, Role::Value, predicate),
        Fixed::Field(region, _) => add_name(uses, Role::Field, region),
        Fixed::IndexField(index, datum, _) => {
            add_name(uses, Role::Field, index)?;
            add_name(uses, Role::Field, datum)
        }
        Fixed::BankField(region, bank, value, _) => {
            add_name(uses, Role::Field, region)?;
            add_name(uses, Role::Field, bank)?;
            add_uses_in(uses, Role::Value, value)
        }
        _ => Ok(()),
    }
}

fn add_fields<'a>(
    uses: &mut Vec<NameUse<'a>>,
    fields: &'a [PlacedField],
    _lost: Option<Lost>,
) -> Result<(), AllocError>
    ensures { OnOk result (uses_view uses.new.items ≡ uses_view uses.old.items
        ++ uses_of_fields (fields_before (placed_fields fields.now) (fields_end _lost))) }
{
    'each: for field in fields {
        add_connection(uses, &field.element)?;
    }
    Ok(())
}

/// The names that stand in a node, in their order, without those in the nodes in it.
pub fn uses_of_node<'a>(alloc: Global, node: &'a Node) -> Result<Vec<NameUse<'a>>, AllocError>
    ensures { IfOk result (λ v. uses_view v.items ≡ defined.uses_of_node (node_view node.now)) }
{
    let mut uses = Vec::new(alloc);
    match node {
        Node::Plain(plain) => add_plain(&mut uses, plain)?,
        Node::Holds(fixed, _) => add_fixed(&mut uses, fixed)?,
        Node::Fields(fixed, fields, lost) => {
            add_fixed(&mut uses, fixed)?;
            add_fields(&mut uses, fields, *lost)?;
        }
        _ => {}
    }
    Ok(uses)
}
