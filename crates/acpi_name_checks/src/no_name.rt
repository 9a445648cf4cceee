//! Names in bodies that are declared nowhere.

ghost use Rattle.std.specs.Prelude.{◌≡◌, IfOk, OnOk};
ghost use Rattle.acpi_tree.specs.TermView.{terms_tree};
ghost use Rattle.acpi_uses.specs.steps.GuardWalks.{found_by};
ghost use Rattle.acpi_locals.specs.LocalViews.{name_view, name_views};
ghost use Rattle.acpi_name_checks.specs.NoNames.{is_lost, is_needed, is_unfound, names_nowhere as names_of, no_name_of};
ghost use Rattle.acpi_name_checks.specs.Views.{no_name_views};
ghost use Rattle.acpi_name_checks.specs.steps.Adding.{name_of, with_name_if};
ghost use Rattle.acpi_name_checks.specs.steps.NameSets.{HasNamesOf};

use crate::guards::Guards;
use crate::name_set::NameSet;
use acpi_locals::BodyName;
use acpi_name::Name;
use acpi_ranges::entry_numbered;
use acpi_survey::Survey;
use acpi_tree::Term;
use acpi_uses::Role;
use std::alloc::AllocError;

/// A name in the body of a method that is declared nowhere, at the first line where that matters.
#[derive(Debug, Clone, Copy)]
pub struct NoName<'a> {
    /// The number of the method's entry.
    pub method: usize,
    /// The line, from 1.
    pub line: usize,
    /// The name, not resolved.
    pub name: &'a Name,
}

// Whether an interpreter gives up where a name of this role is declared nowhere.
fn is_needed(role: Role) -> bool
    ensures { result ≡ is_needed role }
{
    matches!(
        role,
        Role::Call | Role::Read | Role::Write | Role::Notify | Role::Wait | Role::Field
    )
}

// Whether a name is found nowhere and has to be. What is found nowhere means no method.
fn is_unfound(name: &BodyName<'_>) -> bool
    ensures { result ≡ is_unfound (name_view name.now) }
{
    name.link.paths.is_empty() && is_needed(name.role.resolve(false))
}

// Puts a name behind others, if it is declared nowhere, not guarded and not among them. The set has the names of the others.
fn put_lost<'a>(
    found: &mut Vec<NoName<'a>>,
    listed: &mut NameSet<'a>,
    guards: &mut Guards<'_, '_>,
    name: &BodyName<'a>,
) -> Result<(), AllocError>
    requires { HasNamesOf name_of listed.old (no_name_views found.old.items) }
    ensures steps { guards.new.steps ≡ guards.old.steps }
    ensures scope { guards.new.scope ≡ guards.old.scope }
    ensures found { OnOk result (no_name_views found.new.items ≡ with_name_if
        (is_lost guards.old.scope.now (found_by guards.old.steps.items) (name_view name.now))
        (no_name_views found.old.items) (no_name_of (name_view name.now))) }
    ensures listed { OnOk result
        (HasNamesOf name_of listed.new (no_name_views found.new.items)) }
{
    if !is_unfound(name) || listed.has(name.link.name) {
        return Ok(());
    }
    if guards.guards(name.line, name.link.name)? {
        return Ok(());
    }
    listed.insert(name.link.name)?;
    found.push(NoName {
        method: name.method,
        line: name.line,
        name: name.link.name,
    })?;
    Ok(())
}

/// The names in the body of the method of that number that are declared nowhere, have to be found and aren't guarded (ACPI 6.5,
/// 5.3): each at the first line where that is so. The names in the body are given.
pub fn names_nowhere<'a>(
    survey: &Survey,
    number: usize,
    body: &'a [Term],
    names: &[BodyName<'a>],
) -> Result<Vec<NoName<'a>>, AllocError>
    ensures { IfOk result (λ v. no_name_views v.items ≡ names_of
        survey.now.reading.walk.entries number (terms_tree body.now) (name_views names.now)) }
{
    let alloc = survey.memory();
    let mut found = Vec::new(alloc);
    let Some(entry) = entry_numbered(survey.entries(), number) else {
        return Ok(found);
    };
    let mut listed = NameSet::new(alloc);
    let mut guards = Guards::new(alloc, &entry.path, body)?;
    'each: for name in names {
        put_lost(&mut found, &mut listed, &mut guards, name)?;
    }
    Ok(found)
}
