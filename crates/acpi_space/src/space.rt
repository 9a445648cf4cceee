//! The namespace as a finite map.
ghost use Rattle.std.specs.Prelude.{◌≡◌, ◌++◌, ◌∷◌, [], List, OnOk, OnErr, IfOk, IfErr, None, length, map};
ghost use Rattle.std.specs.Option.{option_copied, option_map};
ghost use Rattle.std.specs.FinMap as finite;
ghost use Rattle.acpi_name.specs.Names.{Segment};
ghost use Rattle.acpi_space.specs.Spaces.{PathMap, is_defined};
ghost use Rattle.acpi_space.specs.Refusal.{IsRefusal};
ghost use Rattle.acpi_space.specs.Search.{nearest_scope};

use acpi_name::{Path, Seg};
use std::alloc::{AllocError, Global};
use thiserror::Error;

/// Why a value was not inserted; the value is handed back.
#[derive(Debug, Drop, Error)]
pub enum Refused<V> {
    /// The path has a value already.
    #[error("S1 Taken")]
    Taken(V),
    /// Memory was refused.
    #[error("S2 Memory")]
    Memory(V),
}

/// Is shown the pairs of a space, one after another.
pub trait Visitor<V> {
    // Whether it came from one state to another by being shown these pairs.
    ghost was_shown: { Self → List (List Segment × V) → Self → Type 0 };

    /// Takes the next pair.
    fn visit(&mut self, path: &Path, value: &V) -> Result<(), AllocError>
        ensures { (first : Self) (pairs : List (List Segment × V)) → was_shown first pairs self.old
            → OnOk result (was_shown first (pairs ++ (path.now, value.now) ∷ []) self.new) };
}

/// A finite map from paths to values: what is defined in a namespace (ACPI 6.5, 5.3). An implementation gives
/// `contents`, `new`, `get`, `insert` and `pairs`; all else has a default.
pub trait Space<V>: Drop {
    ghost contents: { Self → PathMap V };

    // What a space below it has, if it is laid over one: else nothing.
    ghost lower: { Self → PathMap V } = { λ _. finite.empty };

    /// A space in which nothing is defined.
    fn new(alloc: Global) -> Self
        ensures { contents result ≡ finite.empty };

    /// The value at a path.
    fn get(&self, path: &Path) -> Option<&V>
        ensures { option_copied result ≡ finite.get (contents self.now) path.now };

    /// Adds one pair. Where the path has a value already, or memory is refused, the value is handed
    /// back and no pair changes. A space below never changes.
    fn insert(&mut self, path: Path, value: V) -> Result<(), Refused<V>>
        ensures free { OnOk result (finite.get (contents self.old) path ≡ None) }
        ensures ok { OnOk result (contents self.new
            ≡ finite.insert (contents self.old) path value) }
        ensures refused { IfErr result (IsRefusal (contents self.old) path value) }
        ensures err { OnErr result (contents self.new ≡ contents self.old) }
        ensures lower { lower self.new ≡ lower self.old };

    /// All pairs, in the order of the paths.
    fn pairs(&self) -> Result<Vec<(Path, &V)>, AllocError>
        ensures { IfOk result (λ v. map (λ p. (p.0, p.1.now)) v.items
            ≡ finite.entries (contents self.now)) };

    /// Shows all pairs to the visitor, in the order of the paths; the first failure of the visitor ends it.
    fn visit_pairs<T: Visitor<V>>(&self, visitor: &mut T) -> Result<(), AllocError>
        ensures { (first : T) (pairs : List (List Segment × V))
            → T.was_shown first pairs visitor.old
            → OnOk result (T.was_shown first (pairs
            ++ finite.entries (contents self.now)) visitor.new) }
    {
        for (path, value) in self.pairs()? {
            visitor.visit(&path, value)?;
        }
        Ok(())
    }

    /// The length of the longest beginning of the scope below which the segment is defined.
    fn nearest(&self, scope: &Path, seg: Seg) -> Result<Option<usize>, AllocError>
        ensures { IfOk result (λ n. n ≡ option_map length
            (nearest_scope (is_defined (contents self.now)) scope.now seg)) }
    {
        let mut path = scope.copy()?;
        loop {
            path.push(seg)?;
            let found = self.get(&path).is_some();
            path.pop();
            if found {
                return Ok(Some(path.len()));
            }
            if path.pop().is_none() {
                return Ok(None);
            }
        }
    }
}
