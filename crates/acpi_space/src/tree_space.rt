//! A namespace that is kept as a tree of numbered nodes.
ghost use Rattle.std.specs.Prelude.{◌≡◌, IfOk, IsOk, length};
ghost use Rattle.std.specs.Option.{option_map};
ghost use Rattle.acpi_space.specs.Search.{nearest_scope};
ghost use Rattle.acpi_space.specs.Spaces.{is_defined};

use crate::grown::{put, reach};
use crate::nodes::{Node, nearest_to, value_at};
use crate::space::{Refused, Space, Visitor};
use crate::trail::{TrailNode, follow};
use crate::walk::PairWalk;
use acpi_name::{Path, Seg};
use std::alloc::{AllocError, Global};
use std::marker::Model;

/// A namespace that is kept as a tree: a node has an optional value and its children by segment, and
/// the first one is the root. So the search of a segment is one walk down, and takes no memory.
///
/// The way to the path that was inserted last is kept as a trail, and a walk to another path begins where
/// that path leaves the trail: declarations stand mostly beside or below the one before them.
#[derive(Drop)]
pub struct TreeSpace<V> {
    alloc: Global,
    nodes: Vec<Node<V>>,
    trail: Vec<TrailNode>,
}

impl<V> Model for TreeSpace<V> {
    ghost use Rattle.std.specs.FinMap as finite;
    ghost use Rattle.acpi_space.specs.Spaces.{PathMap, coded_path};
    ghost use Rattle.acpi_space.specs.steps.Trail.{IsTrail};
    ghost use Rattle.acpi_space.specs.steps.Tree.{tree_map, IsTree};

    ghost Value = { PathMap V };

    ghost coded = { finite.code coded_path V.code };

    ghost view = { λ t. tree_map t.nodes.items };

    ghost invariant = { λ t. IsTree t.nodes.items × IsTrail t.nodes.items 0 t.trail.items };
}

impl<V: Drop> Space<V> for TreeSpace<V> {
    ghost contents = { λ s. s };

    fn new(alloc: Global) -> Self {
        TreeSpace {
            alloc,
            nodes: Vec::new(alloc),
            trail: Vec::new(alloc),
        }
    }

    fn get(&self, path: &Path) -> Option<&V> {
        let segs = path.segs();
        let at = follow(&self.trail, segs);
        value_at(&self.nodes, at.number, &segs[at.depth..])
    }

    fn insert(&mut self, path: Path, value: V) -> Result<(), Refused<V>> {
        let number = match reach(self.alloc, &mut self.nodes, &mut self.trail, path.segs()) {
            Ok(number) => number,
            Err(_) => return Err(Refused::Memory(value)),
        };
        put(&mut self.nodes, number, value)
    }

    fn pairs(&self) -> Result<Vec<(Path, &V)>, AllocError> {
        let mut pairs = Vec::new(self.alloc);
        let mut walk = PairWalk::through(self.alloc, &self.nodes);
        while let Some(value) = walk.next()? {
            pairs.push((walk.path().copy()?, value))?;
        }
        Ok(pairs)
    }

    // It keeps one path, that of the pair that it shows.
    fn visit_pairs<T: Visitor<V>>(&self, visitor: &mut T) -> Result<(), AllocError> {
        let mut walk = PairWalk::through(self.alloc, &self.nodes);
        while let Some(value) = walk.next()? {
            visitor.visit(walk.path(), value)?;
        }
        Ok(())
    }

    // It takes no memory, so it never fails.
    fn nearest(&self, scope: &Path, seg: Seg) -> Result<Option<usize>, AllocError>
        ensures nearest { IfOk result (λ n. n
            ≡ option_map length (nearest_scope (is_defined self.now) scope.now seg)) }
        ensures always { IsOk result }
    {
        Ok(nearest_to(&self.nodes, scope.segs(), seg))
    }
}
