//! Copies of reasons and of paths.

ghost use Rattle.std.specs.Prelude.{◌≡◌, IfOk};
ghost use Rattle.acpi_conditions.specs.EntryForms.{why_of};

use crate::placing::Reason;
use acpi_name::Path;
use std::alloc::{AllocError, Global};

/// The same paths, with memory of their own.
pub fn copy_paths(alloc: Global, paths: &[Path]) -> Result<Vec<Path>, AllocError>
    ensures { IfOk result (λ v. v.items ≡ paths.now) }
{
    let mut copies = Vec::new(alloc);
    'each: for path in paths {
        copies.push(path.copy()?)?;
    }
    Ok(copies)
}

impl Reason {
    /// An equal reason with memory of its own.
    pub fn copy(&self, alloc: Global) -> Result<Reason, AllocError>
        ensures { IfOk result (λ r. why_of r ≡ why_of self.now) }
    {
        Ok(match self {
            Reason::EmptyName(path) => Reason::EmptyName(path.copy()?),
            Reason::AboveRoot(path) => Reason::AboveRoot(path.copy()?),
            Reason::Missing(path) => Reason::Missing(path.copy()?),
            Reason::NoParent(path) => Reason::NoParent(path.copy()?),
            Reason::NotAScope(path) => Reason::NotAScope(path.copy()?),
            Reason::Taken(path) => Reason::Taken(path.copy()?),
            Reason::Unsure(paths) => Reason::Unsure(copy_paths(alloc, paths)?),
        })
    }
}
