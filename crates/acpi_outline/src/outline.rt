//! The outline of a code.

ghost use Rattle.std.specs.Prelude.{◌≡◌, IfOk, length};
ghost use Rattle.acpi_outline.specs.Nodes.{NodeTrees};
ghost use Rattle.acpi_outline.specs.View.{nodes_view};
ghost use Rattle.acpi_outline.specs.Rules.{after_all};
ghost use Rattle.acpi_outline.specs.Outline.{IsOutline};
ghost use Rattle.acpi_outline.specs.steps.Reading.{nodes_at};

use crate::known::Known;
use crate::node::Nodes;
use crate::reader::nodes;
use acpi_code::{Code, Depth};
use bytes::Bytes;
use std::alloc::AllocError;

fn all_nodes<K: Known>(known: &mut K, code: &Bytes, depth: u32) -> Result<Nodes, AllocError>
    ensures exact { IfOk result (λ ns. nodes_view ns
        ≡ nodes_at K.rules depth known.old (length code.now) code.now) }
    ensures state { IfOk result (λ ns. known.new ≡ after_all K.rules known.old (nodes_view ns)) }
{
    nodes(known, depth, &mut Code::shared(code))
}

/// The outline of a table's code: nodes that tile it, with at most `depth` levels, from what is known at first. Only an
/// allocation failure is an error.
pub fn read_outline<K: Known>(
    known: &mut K,
    code: &Bytes,
    depth: Depth,
) -> Result<Nodes, AllocError>
    // The nodes are the outline, and where something is lost that is why.
    ensures found { IfOk result (λ ns. IsOutline K.rules known.old depth (nodes_view ns)
        code.now) }
    // There is no other.
    ensures only { (ms : NodeTrees) → IsOutline K.rules known.old depth ms code.now
        → IfOk result (λ ns. ms ≡ nodes_view ns) }
    // What is known goes on as the nodes say.
    ensures state { IfOk result (λ ns. known.new ≡ after_all K.rules known.old (nodes_view ns)) }
{
    all_nodes(known, code, depth.get())
}
