//! A walk through the whole tree, in the order of the paths.
ghost use Rattle.std.specs.Prelude.{◌≡◌, ◌++◌, None, map, length, reverse, slice_get, IfOk, OnOk};
ghost use Rattle.std.specs.Option.{option_copied};
ghost use Rattle.acpi_space.specs.steps.Tree.{IsTree, node_children, pairs_below};
ghost use Rattle.acpi_space.specs.steps.Walk.{enter, next_ahead, ahead};

use crate::nodes::{Node, value};
use acpi_name::{Path, Seg};
use std::alloc::{AllocError, Global};

/// A step of the walk.
#[derive(Drop)]
pub enum Step {
    /// Enter the child at a segment, the node of this number.
    Enter(Seg, usize),
    /// Leave the node that was entered last.
    Leave,
}

/// A walk through a tree that gives its pairs, in the order of the paths. It keeps its own steps, so a deep
/// tree needs no deep stack.
#[derive(Drop)]
pub struct PairWalk<'a, V> {
    nodes: &'a [Node<V>],
    // The node that was entered and has not been visited.
    entered: Option<usize>,
    path: Path,
    steps: Vec<Step>,
}

impl<'a, V> PairWalk<'a, V> {
    ghost use Rattle.acpi_space.specs.steps.Walk.{left_of, places_of, with_given};

    /// A walk from the root on.
    pub(crate) fn through(alloc: Global, nodes: &'a [Node<V>]) -> PairWalk<'a, V>
        requires { IsTree nodes.now }
        ensures all { left_of result ≡ pairs_below (length nodes.now) nodes.now 0 }
        ensures tree { IsTree result.nodes.now }
    {
        PairWalk {
            nodes,
            entered: Some(0),
            path: Path::root(alloc),
            steps: Vec::new(alloc),
        }
    }

    /// The path of the pair that was given last.
    pub(crate) fn path(&self) -> &Path
        ensures { result.now ≡ self.now.path }
    {
        &self.path
    }

    /// The value of the next pair.
    pub(crate) fn next(&mut self) -> Result<Option<&'a V>, AllocError>
        requires { IsTree self.old.nodes.now }
        ensures given { IfOk result (λ next. left_of self.old
            ≡ with_given (option_copied next) self.new) }
        ensures tree { IsTree self.new.nodes.now }
    {
        while let Some(number) = self.enter()? {
            push_children(self.nodes, number, &mut self.steps)?;
            if let Some(value) = value(self.nodes, number) {
                return Ok(Some(value));
            }
        }
        Ok(None)
    }

    // The next node, which is entered by that.
    fn enter(&mut self) -> Result<Option<usize>, AllocError>
        ensures next { IfOk result (λ next. places_of self.old
            ≡ next_ahead next self.new.path (reverse self.new.steps.items)) }
        ensures nodes { self.new.nodes ≡ self.old.nodes }
        ensures none { OnOk result (self.new.entered ≡ None) }
    {
        match self.entered {
            Some(number) => {
                self.entered = None;
                Ok(Some(number))
            }
            None => advance(&mut self.steps, &mut self.path),
        }
    }
}

// Puts a step into each child of a node, so that the first child is entered first.
fn push_children<V>(
    nodes: &[Node<V>],
    number: usize,
    steps: &mut Vec<Step>,
) -> Result<(), AllocError>
    ensures { OnOk result (reverse steps.new.items
        ≡ map enter (node_children (slice_get nodes.now number)) ++ reverse steps.old.items) }
{
    match nodes.get(number) {
        Some(node) => node.children.push_steps(steps),
        None => Ok(()),
    }
}

// Leaves nodes until there is one to enter, and enters it.
fn advance(steps: &mut Vec<Step>, path: &mut Path) -> Result<Option<usize>, AllocError>
    ensures { IfOk result (λ next. ahead path.old (reverse steps.old.items)
        ≡ next_ahead next path.new (reverse steps.new.items)) }
{
    while let Some(step) = steps.pop() {
        match step {
            Step::Enter(seg, number) => {
                path.push(seg)?;
                steps.push(Step::Leave)?;
                return Ok(Some(number));
            }
            Step::Leave => {
                path.pop();
            }
        }
    }
    Ok(None)
}
