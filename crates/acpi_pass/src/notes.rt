//! What a table says that matters when all tables are declared.

ghost use Rattle.std.specs.Prelude.{◌≡◌, ◌≤◌, true, OnOk};
ghost use Rattle.std.specs.List.{list_all};
ghost use Rattle.acpi_tree.specs.Fits.{external_fits};
ghost use Rattle.acpi_tree.specs.View.{external_view, externals_view};
ghost use Rattle.acpi_pass.specs.Notes.{notes_of};
ghost use Rattle.acpi_pass.specs.steps.Pass.{no_notes};
ghost use Rattle.acpi_pass.specs.steps.View.{count_said, counts_said, with_count, with_counts, with_method, with_missed};

use acpi_counts::Counts;
use acpi_name::{Path, PlaceFault, place};
use acpi_tree::External;
use bytes::Bytes;
use std::alloc::{AllocError, Global};

/// A method that a table declares: its path, and the bytes of its body (ACPI 6.5, 20.2.5.2 DefMethod), shared
/// with the table.
#[derive(Drop)]
pub struct Method {
    /// Where it stands in the namespace.
    pub path: Path,
    /// The TermList of its body.
    pub code: Bytes,
}

/// What a table says that matters when all tables are declared.
#[derive(Drop)]
pub struct TableNotes {
    /// How many arguments methods take, as the table's Externals of type 8 say it: the first of each path.
    pub counts: Counts,
    /// The methods that the table declares, in byte order.
    pub methods: Vec<Method>,
    /// The paths that the searches of the table's Scope terms tried in vain, in byte order.
    pub missed: Vec<Path>,
}

impl TableNotes {
    /// Nothing is noted yet.
    pub fn new(alloc: Global) -> TableNotes
        ensures { notes_of result ≡ no_notes }
    {
        TableNotes {
            counts: Counts::new(alloc),
            methods: Vec::new(alloc),
            missed: Vec::new(alloc),
        }
    }

    // Notes the argument count that an External gives a path; a path that has one keeps it.
    pub(crate) fn add_count(&mut self, path: Path, count: u8) -> Result<(), AllocError>
        requires { count ≤ 7 }
        ensures { OnOk result (notes_of self.new ≡ with_count (notes_of self.old) path count) }
    {
        self.counts.add(path, count)?;
        Ok(())
    }

    // Notes what an External says.
    pub(crate) fn expect(
        &mut self,
        alloc: Global,
        scope: &Path,
        external: &External,
    ) -> Result<(), AllocError>
        requires { external_fits (external_view external.now) ≡ true }
        ensures { OnOk result (notes_of self.new
            ≡ with_counts (notes_of self.old) (count_said scope.now (external_view external.now))) }
    {
        if external.kind != 8 || external.name.view().len() == 0 {
            return Ok(());
        }
        match place(alloc, scope, external.name.view()) {
            Ok(path) => {
                self.add_count(path, external.args)?;
                Ok(())
            }
            Err(PlaceFault::AboveRoot) => Ok(()),
            Err(PlaceFault::Memory) => Err(AllocError),
        }
    }

    // Notes what the Externals of a block say.
    pub(crate) fn expect_all(
        &mut self,
        alloc: Global,
        scope: &Path,
        externals: &[External],
    ) -> Result<(), AllocError>
        requires { list_all external_fits (externals_view externals.now) ≡ true }
        ensures { OnOk result (notes_of self.new
            ≡ with_counts (notes_of self.old)
            (counts_said scope.now (externals_view externals.now))) }
    {
        for external in externals {
            self.expect(alloc, scope, external)?;
        }
        Ok(())
    }

    // Notes a method.
    pub(crate) fn add_method(&mut self, path: Path, code: Bytes) -> Result<(), AllocError>
        ensures { OnOk result (notes_of self.new
            ≡ with_method (notes_of self.old) (record { path = path; code = code })) }
    {
        self.methods.push(Method { path, code })?;
        Ok(())
    }

    // Notes paths that a search tried in vain.
    pub(crate) fn add_missed(&mut self, paths: Vec<Path>) -> Result<(), AllocError>
        ensures { OnOk result (notes_of self.new ≡ with_missed (notes_of self.old) paths.items) }
    {
        let mut paths = paths;
        self.missed.append(&mut paths)?;
        Ok(())
    }
}
