//! The children of a node.
ghost use Rattle.std.specs.Prelude.{◌≡◌, ◌++◌, [], cond, map, reverse, Some, OnOk, OnErr};
ghost use Rattle.std.specs.Ordering.{is_eq};
ghost use Rattle.std.specs.BTreeMap.{insert_entry};
ghost use Rattle.std.specs.List.Sorted.{IsStrictlySortedBy};
ghost use Rattle.acpi_name.specs.Names.{Segment};
ghost use Rattle.acpi_name.specs.Paths.{segment_cmp};
ghost use Rattle.acpi_space.specs.steps.Tree.{child_of, entries_of};
ghost use Rattle.acpi_space.specs.steps.Walk.{enter};

use crate::walk::Step;
use acpi_name::Seg;
use std::alloc::{AllocError, Global};
use std::cmp::Ordering;
use std::collections::BTreeMap;
use std::iter::DoubleEndedIterator;

/// The numbers of the nodes one segment below another, in the order of the segments. Most nodes have none, and a child
/// alone is kept without a map.
#[derive(Drop)]
pub enum Children {
    /// No children.
    Empty,
    /// A child alone.
    One(Seg, usize),
    /// Several children.
    Several(Box<BTreeMap<Seg, usize>>),
}

// Adds a number to a map at a segment.
fn insert_into(
    numbers: &mut BTreeMap<Seg, usize>,
    seg: Seg,
    number: usize,
) -> Result<(), AllocError>
    ensures ordered { IsStrictlySortedBy segment_cmp (map (λ e. e.0) numbers.new.entries) }
    ensures entries { OnOk result (numbers.new.entries
        ≡ insert_entry segment_cmp numbers.old.entries seg number) }
    ensures child { OnOk result ((g : Segment) → child_of numbers.new.entries g
        ≡ cond (is_eq (segment_cmp seg g)) (Some number) (child_of numbers.old.entries g)) }
    ensures err { OnErr result (numbers.new.entries ≡ numbers.old.entries) }
{
    numbers.insert(seg, number)?;
    Ok(())
}

// Puts a step into each child of a map, so that the first is entered first.
fn push_entries(numbers: &BTreeMap<Seg, usize>, steps: &mut Vec<Step>) -> Result<(), AllocError>
    ensures { OnOk result (reverse steps.new.items ≡ map enter numbers.now.entries
        ++ reverse steps.old.items) }
{
    for (seg, number) in numbers.iter().rev() {
        steps.push(Step::Enter(*seg, *number))?;
    }
    Ok(())
}

impl Children {
    /// No children.
    pub(crate) fn none() -> Children
        ensures { entries_of result ≡ [] }
    {
        Children::Empty
    }

    /// The number of the child at a segment.
    pub(crate) fn get(&self, seg: Seg) -> Option<usize>
        ensures { result ≡ child_of (entries_of self.now) seg }
    {
        match self {
            Children::Empty => None,
            Children::One(only, number) => match seg.cmp(only) {
                Ordering::Equal => Some(*number),
                _ => None,
            },
            Children::Several(numbers) => numbers.get(&seg).copied(),
        }
    }

    /// Adds the number of a child at a segment.
    pub(crate) fn insert(
        &mut self,
        alloc: Global,
        seg: Seg,
        number: usize,
    ) -> Result<(), AllocError>
        ensures ordered { IsStrictlySortedBy segment_cmp (map (λ e. e.0) (entries_of self.new)) }
        ensures entries { OnOk result (entries_of self.new
            ≡ insert_entry segment_cmp (entries_of self.old) seg number) }
        ensures child { OnOk result ((g : Segment) → child_of (entries_of self.new) g
            ≡ cond (is_eq (segment_cmp seg g)) (Some number) (child_of (entries_of self.old) g)) }
        ensures err { OnErr result (entries_of self.new ≡ entries_of self.old) }
    {
        match self {
            Children::Empty => {
                *self = Children::One(seg, number);
                Ok(())
            }
            Children::One(first, at) => {
                let mut numbers = BTreeMap::new(alloc);
                insert_into(&mut numbers, *first, *at)?;
                insert_into(&mut numbers, seg, number)?;
                *self = Children::Several(Box::new(alloc, numbers)?);
                Ok(())
            }
            Children::Several(numbers) => insert_into(numbers, seg, number),
        }
    }

    /// Puts a step into each child, so that the first is entered first.
    pub(crate) fn push_steps(&self, steps: &mut Vec<Step>) -> Result<(), AllocError>
        ensures { OnOk result (reverse steps.new.items ≡ map enter (entries_of self.now)
            ++ reverse steps.old.items) }
    {
        match self {
            Children::Empty => Ok(()),
            Children::One(seg, number) => {
                steps.push(Step::Enter(*seg, *number))?;
                Ok(())
            }
            Children::Several(numbers) => push_entries(numbers, steps),
        }
    }
}
