//! How many arguments methods take, as the Externals of one table say it (ACPI 6.5, 20.2.5.2 External).
//!
//! A `Counts` is seen as a finite map from paths to numbers 0 to 7. The first External of a path counts:
//! ```text
//! let mut counts = Counts::new(alloc);
//! counts.add(path, 2)?;   // \FOO_ takes 2 arguments
//! counts.add(again, 3)?;  // the same path once more: it keeps 2
//! ```
#![tactic(auto)]

ghost use Rattle.std.specs.Prelude.{◌≡◌, ◌≤◌, OnOk, OnErr, IfOk};
ghost use Rattle.std.specs.FinMap as finite;
ghost use Rattle.acpi_name.specs.NameRefs.{name_parts};
ghost use Rattle.acpi_space.specs.Spaces.{is_defined};
ghost use Rattle.acpi_space.specs.Search.{answer};
ghost use Rattle.acpi_counts.specs.Counts.{AreSmall, with_first};

mod only;

use crate::only::{find_only, longer};
use acpi_name::{NameRef, Path};
use acpi_space::{Found, SearchFault, Space, TreeSpace, search};
use std::alloc::{AllocError, Global};
use std::marker::Model;

// How many counts stand in the list at most: most tables have no more, and a tree takes more memory than they do.
const MOST_LISTED: usize = 4;

/// The argument counts of methods, by the paths of the methods: numbers 0 to 7.
#[derive(Drop)]
pub struct Counts {
    // The first counts.
    listed: Vec<(Path, u8)>,
    // All others.
    others: TreeSpace<u8>,
}

impl Model for Counts {
    ghost use Rattle.std.specs.Prelude.{ℕ};
    ghost use Rattle.std.specs.FinMap as finite;
    ghost use Rattle.acpi_counts.specs.Counts.{AreSmall};
    ghost use Rattle.std.specs.Coded.{coded_ℕ};
    ghost use Rattle.acpi_space.specs.Overlays.{both};
    ghost use Rattle.acpi_space.specs.Spaces.{PathMap, coded_path};

    ghost Value = { PathMap ℕ };

    ghost coded = { finite.code coded_path coded_ℕ };

    ghost view = { λ c. both (finite.from_entries c.listed.items) c.others };

    ghost invariant = { λ c. AreSmall (both (finite.from_entries c.listed.items) c.others) };
}

impl Counts {
    /// No counts.
    pub fn new(alloc: Global) -> Counts
        ensures { result ≡ finite.empty }
    {
        Counts {
            listed: Vec::new(alloc),
            others: TreeSpace::new(alloc),
        }
    }

    /// The count at a path. Takes no memory.
    pub fn get(&self, path: &Path) -> Option<u8>
        ensures found { result ≡ finite.get self.now path.now }
        ensures small { AreSmall self.now }
    {
        for (listed, count) in &self.listed {
            if path == listed {
                return Some(*count);
            }
        }
        self.others.get(path).copied()
    }

    /// Adds a count of at most 7. A path that has a count keeps it. Where memory is refused no count changes.
    pub fn add(&mut self, path: Path, count: u8) -> Result<(), AllocError>
        requires { count ≤ 7 }
        ensures ok { OnOk result (self.new ≡ with_first self.old path count) }
        ensures err { OnErr result (self.new ≡ self.old) }
    {
        if self.get(&path).is_some() {
            return Ok(());
        }
        if self.listed.len() < MOST_LISTED {
            self.listed.push((path, count))?;
            return Ok(());
        }
        match self.others.insert(path, count) {
            Ok(()) => Ok(()),
            Err(_) => Err(AllocError),
        }
    }

    /// The path that a name means among those that have counts, as a search finds it in a namespace (ACPI 6.5,
    /// 5.3). None where the search has no answer.
    pub fn find(
        &self,
        alloc: Global,
        scope: &Path,
        name: NameRef<'_>,
    ) -> Result<Option<Path>, AllocError>
        ensures { IfOk result (λ p. p ≡ answer (is_defined self.now) scope.now
            (name_parts name.entry)) }
    {
        let mut found = find_in(alloc, &self.others, scope, name)?;
        for (path, _) in &self.listed {
            found = longer(find_only(alloc, path, scope, name)?, found);
        }
        Ok(found)
    }
}

// The path that a name means among those of a tree of counts.
fn find_in(
    alloc: Global,
    tree: &TreeSpace<u8>,
    scope: &Path,
    name: NameRef<'_>,
) -> Result<Option<Path>, AllocError>
    ensures { IfOk result (λ p. p
        ≡ answer (is_defined tree.now) scope.now (name_parts name.entry)) }
{
    match search(alloc, tree, scope, name) {
        Ok(Found::At(path)) => Ok(Some(path)),
        Ok(Found::Missing) => Ok(None),
        Err(SearchFault::AboveRoot) => Ok(None),
        Err(SearchFault::Memory) => Err(AllocError),
    }
}
