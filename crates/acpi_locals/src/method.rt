//! The method whose body is gone through.

ghost use Rattle.std.specs.Prelude.{◌≡◌, IfOk};
ghost use Rattle.acpi_entries.specs.ConditionViews.{link_view};
ghost use Rattle.acpi_locals.specs.Methods.{link_behind, method_numbered};

use acpi_conditions::Seen;
use acpi_entries::{Link, find_behind};
use acpi_name::{Name, Path};
use acpi_ranges::entry_numbered;
use acpi_space::TreeSpace;
use acpi_survey::Survey;
use std::alloc::{AllocError, Global};
use std::marker::Model;

/// The method of an entry, as the names in its body are searched.
#[derive(Drop)]
pub(crate) struct Method<'a> {
    alloc: Global,
    number: usize,
    seen: Seen<'a>,
    path: &'a Path,
}

impl<'a> Model for Method<'a> {
    ghost use Rattle.acpi_conditions.specs.Views.{seen_by};
    ghost use Rattle.acpi_locals.specs.Methods.{MethodParts};

    ghost Value = { MethodParts };

    ghost view = { λ m. record {
      number = m.number;
      seen = seen_by m.seen;
      path = m.path.now;
    } };
}

impl<'a> Method<'a> {
    /// The method of the entry of that number.
    pub(crate) fn new(survey: &'a Survey, number: usize) -> Result<Option<Method<'a>>, AllocError>
        ensures { IfOk result (λ m. m ≡ method_numbered survey.now.reading.walk.entries number) }
    {
        let entries = survey.entries();
        let Some(entry) = entry_numbered(entries, number) else {
            return Ok(None);
        };
        Ok(Some(Method {
            alloc: survey.memory(),
            number,
            seen: Seen::new(entries.paths, entries.ways, entry)?,
            path: &entry.path,
        }))
    }

    pub(crate) fn alloc(&self) -> Global {
        self.alloc
    }

    /// The number of its entry.
    pub(crate) fn number(&self) -> usize
        ensures { result ≡ self.now.number }
    {
        self.number
    }

    /// Its path.
    pub(crate) fn path(&self) -> &'a Path
        ensures { result.now ≡ self.now.path }
    {
        self.path
    }

    /// Where a name in its body may be found, behind what the body has declared.
    pub(crate) fn link<'n>(
        &self,
        declared: &TreeSpace<()>,
        name: &'n Name,
    ) -> Result<Link<'n>, AllocError>
        ensures { IfOk result (λ l. link_view l ≡ link_behind self.now declared.now name.now) }
    {
        let found = find_behind(self.alloc, &self.seen, declared, self.path, name.view())?;
        Ok(Link {
            name,
            paths: found.paths,
            is_certain: found.is_certain,
        })
    }
}
