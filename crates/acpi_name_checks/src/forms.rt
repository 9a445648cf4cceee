//! Where the field forms of a table stand.

use acpi_outline::{Node, Nodes, PlacedNode};
use std::alloc::{AllocError, Global};

#[cycle(forms)]
fn add_nodes(forms: &mut Vec<usize>, nodes: &[PlacedNode]) -> Result<(), AllocError> {
    for placed in nodes {
        add_node(forms, placed)?;
    }
    Ok(())
}

#[cycle(forms)]
fn add_node(forms: &mut Vec<usize>, placed: &PlacedNode) -> Result<(), AllocError> {
    match &placed.node {
        Node::Holds(_, inside) => add_nodes(forms, &inside.read),
        Node::Fields(_, _, _) => {
            forms.push(placed.place)?;
            Ok(())
        }
        _ => Ok(()),
    }
}

/// The places of the field forms among nodes, in bytes from the code's first and in order (ACPI 6.5, 20.2.5.2).
pub(crate) fn field_forms(alloc: Global, nodes: &Nodes) -> Result<Vec<usize>, AllocError> {
    let mut forms = Vec::new(alloc);
    add_nodes(&mut forms, &nodes.read)?;
    Ok(forms)
}
