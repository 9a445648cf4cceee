//! What the links of each path answer.

ghost use Rattle.std.specs.Prelude.{◌≡◌, ◌++◌, ◌∷◌, [], List, Option, map, IfOk, OnErr, OnOk};
ghost use Rattle.std.specs.Option.{option_map};
ghost use Rattle.acpi_name.specs.Names.{Segment};
ghost use Rattle.acpi_space.specs.Lookups.{nothing, singleton, union};
ghost use Rattle.acpi_pass.specs.Links.{Links, link_pairs, links_at};
ghost use Rattle.acpi_pass.specs.steps.Showing.{ShowsOn};

use acpi_name::Path;
use acpi_space::{Refused, Space, TreeSpace, Visitor};
use std::alloc::{AllocError, Global};
use std::sync::Arc;

/// Is shown the links of a map, one path after another.
pub trait LinkVisitor {
    // Whether it came from one state to another by being shown these pairs.
    ghost was_shown: { Self → List (List Segment × Links) → Self → Type 0 };

    /// Takes the next path, and what its links answer.
    fn visit(&mut self, path: &Path, answers: &[Option<Path>]) -> Result<(), AllocError>
        ensures { (first : Self) (pairs : List (List Segment × Links)) → was_shown first pairs self.old
            → OnOk result (was_shown first (pairs ++ (path.now, answers.now) ∷ []) self.new) };
}

/// Shows a visitor of links those that it is shown as shared lists.
#[derive(Drop)]
pub(crate) struct SharedLinks<'a, T> {
    visitor: &'a mut T,
}

impl<T: LinkVisitor> Visitor<Arc<Vec<Option<Path>>>> for SharedLinks<'_, T> {
    ghost was_shown = { ShowsOn T.was_shown };

    fn visit(&mut self, path: &Path, answers: &Arc<Vec<Option<Path>>>) -> Result<(), AllocError> {
        self.visitor.visit(path, answers.as_slice())
    }
}

/// What the searches of links answer, by the path of the field. The units of a field list share their answers.
#[derive(Drop)]
pub struct LinkMap {
    answers: TreeSpace<Arc<Vec<Option<Path>>>>,
}

impl LinkMap {
    /// No links.
    pub fn new(alloc: Global) -> LinkMap
        ensures { links_at result ≡ nothing }
    {
        LinkMap {
            answers: TreeSpace::new(alloc),
        }
    }

    /// What the links of a path answer, each with a path or none; None where it has no links.
    pub fn get(&self, path: &Path) -> Option<&[Option<Path>]>
        ensures { option_map (λ s. s.now) result ≡ links_at self.now path.now }
    {
        match self.answers.get(path) {
            Some(answers) => Some(answers.as_slice()),
            None => None,
        }
    }

    /// All paths that have links, in their order, each with what its links answer.
    pub fn pairs(&self, alloc: Global) -> Result<Vec<(Path, &[Option<Path>])>, AllocError>
        ensures { IfOk result (λ v. map (λ p. (p.0, p.1.now)) v.items ≡ link_pairs self.now) }
    {
        let mut pairs = Vec::new(alloc);
        for (path, answers) in self.answers.pairs()? {
            pairs.push((path, answers.as_slice()))?;
        }
        Ok(pairs)
    }

    /// Shows the visitor all paths that have links, in their order, each with what its links answer; the first failure of
    /// the visitor ends it. It keeps one path, that of the links that it shows.
    pub fn visit_pairs<T: LinkVisitor>(&self, visitor: &mut T) -> Result<(), AllocError>
        ensures { (first : T) (pairs : List (List Segment × Links))
            → T.was_shown first pairs visitor.old
            → OnOk result (T.was_shown first (pairs ++ link_pairs self.now) visitor.new) }
    {
        self.answers.visit_pairs(&mut SharedLinks { visitor })
    }

    /// Adds what the links of a path answer; where it has links already, these stay. Where memory is refused, nothing
    /// changes.
    pub fn insert(
        &mut self,
        alloc: Global,
        path: Path,
        answers: Vec<Option<Path>>,
    ) -> Result<(), AllocError>
        ensures ok { OnOk result (links_at self.new
            ≡ union (links_at self.old) (singleton path answers.items)) }
        ensures err { OnErr result (links_at self.new ≡ links_at self.old) }
    {
        self.share(path, &Arc::new(alloc, answers)?)?;
        Ok(())
    }

    /// Adds what the links of a path answer as others do; where it has links already, these stay. Where memory is
    /// refused, nothing changes.
    pub(crate) fn share(
        &mut self,
        path: Path,
        answers: &Arc<Vec<Option<Path>>>,
    ) -> Result<(), AllocError>
        ensures ok { OnOk result (links_at self.new
            ≡ union (links_at self.old) (singleton path answers.now.value.items)) }
        ensures err { OnErr result (links_at self.new ≡ links_at self.old) }
    {
        match self.answers.insert(path, answers.clone()?) {
            Ok(()) => Ok(()),
            Err(Refused::Taken(_)) => Ok(()),
            Err(Refused::Memory(_)) => Err(AllocError),
        }
    }
}
