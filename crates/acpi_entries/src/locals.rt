//! What is known behind the declarations of a method body.

ghost use Rattle.std.specs.Prelude.{◌≡◌, ◌||◌, IfOk, IsSome};
ghost use Rattle.acpi_name.specs.NameRefs.{name_parts};
ghost use Rattle.acpi_conditions.specs.Known.{candidates, is_certain_name};
ghost use Rattle.acpi_conditions.specs.Presences.{is_a_scope, is_something};
ghost use Rattle.acpi_conditions.specs.Views.{seen_by};
ghost use Rattle.acpi_space.specs.Spaces.{is_defined};
ghost use Rattle.acpi_survey.specs.Bodies.{known_behind};

use acpi_conditions::{Candidates, Presence, Seen, Status, Statuses, find};
use acpi_name::{NameRef, Path};
use acpi_space::{Space, TreeSpace};
use std::alloc::{AllocError, Global};

/// What is known behind what a body has declared: each path of it is certain.
#[derive(Drop)]
struct WithLocals<'a, S: Statuses> {
    known: &'a S,
    locals: &'a TreeSpace<()>,
}

/// Whether the body has declared the path.
pub(crate) fn is_local(locals: &TreeSpace<()>, path: &Path) -> bool
    ensures { result ≡ is_defined locals.now path.now }
{
    locals.get(path).is_some()
}

// What is certain at a path, where a body may have declared it.
fn certain_with_locals(is_local: bool, certain: Presence) -> Presence
    ensures something { is_something result ≡ (is_local || is_something certain) }
    ensures scope { is_a_scope result ≡ is_a_scope certain }
{
    if is_local && !certain.is_something() {
        return Presence::Object;
    }
    certain
}

impl<'a, S: Statuses> Statuses for WithLocals<'a, S> {
    ghost known = { λ b. known_behind b.locals.now (S.known b.known.now) };

    fn status(&self, path: &Path) -> Status {
        let status = self.known.status(path);
        let certain = certain_with_locals(is_local(self.locals, path), status.certain);
        Status {
            certain,
            possible: status.possible,
        }
    }
}

/// Where a name in the body of a method may be found from a scope, as it is seen from the method's entry and behind what
/// the body has declared, each path of which is certain (ACPI 6.5, 5.3 and 5.5.2.3).
pub fn find_behind(
    alloc: Global,
    seen: &Seen<'_>,
    locals: &TreeSpace<()>,
    scope: &Path,
    name: NameRef<'_>,
) -> Result<Candidates, AllocError>
    ensures paths { IfOk result (λ c. c.paths.items
        ≡ candidates (known_behind locals.now (seen_by seen.now)) scope.now
        (name_parts name.entry)) }
    ensures certain { IfOk result (λ c. c.is_certain
        ≡ is_certain_name (known_behind locals.now (seen_by seen.now)) scope.now
        (name_parts name.entry)) }
{
    let behind = WithLocals {
        known: seen,
        locals,
    };
    find(alloc, &behind, scope, name)
}
