//! What the body of a method is read against.

ghost use Rattle.std.specs.Prelude.{◌≡◌, ◌++◌, OnOk};
ghost use Rattle.std.specs.List.{flat_map};
ghost use Rattle.std.specs.FinMap as finite;
ghost use Rattle.acpi_body.specs.Grammars.{with_loads};
ghost use Rattle.acpi_conditions.specs.Met.{numbers_met};
ghost use Rattle.acpi_conditions.specs.Views.{seen_by};
ghost use Rattle.acpi_survey.specs.Counts.{counts_numbered, count_of};
ghost use Rattle.acpi_survey.specs.Bodies.{body_count, counts_behind};

use crate::locals::{find_behind, is_local};
use acpi_body::MethodCounting;
use acpi_conditions::{Met, Seen};
use acpi_counts::Counts;
use acpi_name::{NameRef, Path};
use acpi_space::TreeSpace;
use acpi_survey::{agreed, expected_count, put_counts};
use std::alloc::{AllocError, Global};

/// What the body of a method is read against, as it is seen from the method's entry.
#[derive(Drop)]
pub(crate) struct Setting<'a> {
    pub(crate) alloc: Global,
    pub(crate) seen: Seen<'a>,
    pub(crate) met: Met<'a>,
    pub(crate) counts: &'a [Option<u8>],
    pub(crate) expected: &'a Counts,
    pub(crate) method: &'a Path,
}

impl<'a> Setting<'a> {
    // Puts the counts of what is at a path behind others.
    fn put_counts_at(
        &self,
        found: &mut Vec<Option<u8>>,
        locals: &TreeSpace<()>,
        path: &Path,
    ) -> Result<(), AllocError>
        ensures { OnOk result (found.new.items ≡ found.old.items
            ++ counts_behind locals.now
            (λ p. counts_numbered self.now.counts.now (numbers_met self.now.met p)) path.now) }
    {
        if is_local(locals, path) {
            found.push(Some(0))?;
            return Ok(());
        }
        let numbers = self.met.numbers_at(self.alloc, path)?;
        put_counts(found, self.counts, &numbers)
    }
}

impl<'a> MethodCounting for Setting<'a> {
    ghost grammar = { λ s locals. with_loads (body_count (finite.get s.expected.now) s.method.now
        (seen_by s.seen) (λ p. counts_numbered s.counts.now (numbers_met s.met p)) locals) };

    ghost method = { λ s. s.method.now };

    fn alloc(&self) -> Global {
        self.alloc
    }

    fn method(&self) -> &Path {
        self.method
    }

    fn count(&self, locals: &TreeSpace<()>, name: NameRef<'_>) -> Result<Option<u8>, AllocError> {
        let candidates = find_behind(self.alloc, &self.seen, locals, self.method, name)?;
        if candidates.paths.is_empty() {
            let count = expected_count(self.alloc, self.expected, self.method, name)?;
            return Ok(Some(count));
        }
        let mut found = Vec::new(self.alloc);
        'each: for path in &candidates.paths {
            self.put_counts_at(&mut found, locals, path)?;
        }
        Ok(agreed(&found))
    }

    fn loads(&self) -> bool {
        true
    }
}
