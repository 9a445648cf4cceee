//! Where a term puts its object, and which scope it opens.

ghost use Rattle.std.specs.Prelude.{◌≡◌, ◌≢◌, ◌∷◌, [], ◌++◌, option_to_list, None, IfOk, OnOk};
ghost use Rattle.acpi_name.specs.Paths.{parent_of, place_of};
ghost use Rattle.acpi_tree.specs.Objects.{object_view};
ghost use Rattle.acpi_space.specs.Lookups.{singleton, union};
ghost use Rattle.acpi_pass.specs.Namespace.{Namespace, namespace_of};
ghost use Rattle.acpi_pass.specs.Placing.{below, declared_path, opened_in, opened_path};
ghost use Rattle.acpi_pass.specs.Sites.{unit_name};
ghost use Rattle.acpi_pass.specs.steps.Outcomes.{IsOutcome, IsPassErrorOf};

use crate::refusal::{PassError, Refusal};
use acpi_name::{Name, Path, PlaceFault, Seg, place};
use acpi_space::{Found, Refused, SearchFault, Space, search};
use acpi_tree::Object;
use std::alloc::{AllocError, Global};

// Puts an object at a path that is free.
pub(crate) fn put<S: Space<Object>>(
    objects: &mut S,
    path: Path,
    object: Object,
) -> Result<(), AllocError>
    requires { namespace_of (S.contents objects.old) path ≡ None }
    ensures objects { OnOk result (namespace_of (S.contents objects.new)
        ≡ union (namespace_of (S.contents objects.old)) (singleton path (object_view object))) }
    ensures lower { OnOk result (S.lower objects.new ≡ S.lower objects.old) }
{
    match objects.insert(path, object) {
        Ok(()) => Ok(()),
        Err(Refused::Memory(_)) => Err(AllocError),
        Err(Refused::Taken(_)) => unreachable!(),
    }
}

// The path that has this parent and last segment.
pub(crate) fn rejoin(parent: Path, last: Option<Seg>) -> Result<Path, AllocError>
    ensures { IfOk result (λ p. p ≡ parent ++ option_to_list last) }
{
    let mut path = parent;
    if let Some(seg) = last {
        path.push(seg)?;
    }
    Ok(path)
}

// The path, if an object may be declared there.
#[tactic(auto, using(crate::proofs::Searches::rejoined_parts))]
fn free_below<S: Space<Object>>(objects: &S, path: Path) -> Result<Path, PassError>
    ensures { IsOutcome result (below (namespace_of (S.contents objects.now)) path
        (namespace_of (S.contents objects.now) (parent_of path))) }
{
    let mut path = path;
    let last = path.pop();
    match objects.get(&path) {
        None => Err(PassError::Refused(Refusal::NoParent, path)),
        Some(object) => {
            if !object.opens_scope() {
                return Err(PassError::Refused(Refusal::NotAScope, path));
            }
            let path = rejoin(path, last)?;
            if objects.get(&path).is_some() {
                return Err(PassError::Refused(Refusal::Taken, path));
            }
            Ok(path)
        }
    }
}

// Where a declaration of the name puts its object.
pub(crate) fn declared_path<S: Space<Object>>(
    alloc: Global,
    objects: &S,
    scope: &Path,
    name: &Name,
) -> Result<Path, PassError>
    ensures { IsOutcome result
        (declared_path (namespace_of (S.contents objects.now)) scope.now name.now) }
{
    if name.view().len() == 0 {
        return Err(PassError::Refused(Refusal::EmptyName, scope.copy()?));
    }
    match place(alloc, scope, name.view()) {
        Ok(path) => free_below(objects, path),
        Err(PlaceFault::AboveRoot) => Err(PassError::Refused(Refusal::AboveRoot, scope.copy()?)),
        Err(PlaceFault::Memory) => Err(PassError::Memory),
    }
}

/// The path of a field unit: one segment below the scope of its field list.
pub(crate) fn unit_path(scope: &Path, seg: Seg) -> Result<Path, AllocError>
    ensures { IfOk result (λ p. p ≡ scope.now ++ seg ∷ []) }
{
    let mut path = scope.copy()?;
    path.push(seg)?;
    Ok(path)
}

// Where a field unit is declared.
pub(crate) fn declared_unit_path<S: Space<Object>>(
    objects: &S,
    scope: &Path,
    seg: Seg,
) -> Result<Path, PassError>
    ensures { IsOutcome result
        (declared_path (namespace_of (S.contents objects.now)) scope.now (unit_name seg)) }
{
    free_below(objects, unit_path(scope, seg)?)
}

// The scope that a Scope term opens.
#[tactic(auto, using(crate::proofs::Searches::opened_found))]
pub(crate) fn opened_path<S: Space<Object>>(
    alloc: Global,
    objects: &S,
    scope: &Path,
    name: &Name,
) -> Result<Path, PassError>
    ensures { IsOutcome result
        (opened_path (namespace_of (S.contents objects.now)) scope.now name.now) }
{
    let target = match search(alloc, objects, scope, name.view()) {
        Ok(Found::At(path)) => path,
        Ok(Found::Missing) => return Err(refuse_missing(alloc, scope, name)),
        Err(SearchFault::AboveRoot) => return Err(PassError::Refused(
            Refusal::AboveRoot,
            scope.copy()?,
        )),
        Err(SearchFault::Memory) => return Err(PassError::Memory),
    };
    match objects.get(&target) {
        Some(object) => {
            if object.opens_scope() {
                Ok(target)
            } else {
                Err(PassError::Refused(Refusal::NotAScope, target))
            }
        }
        None => unreachable!(),
    }
}

// The refusal of a Scope term without an answer: it names the name's place.
fn refuse_missing(alloc: Global, scope: &Path, name: &Name) -> PassError
    requires { place_of scope.now name.now ≢ None }
    ensures { (objects : Namespace) → IsPassErrorOf result
        (opened_in objects scope.now (place_of scope.now name.now) None) }
{
    match place(alloc, scope, name.view()) {
        Ok(path) => PassError::Refused(Refusal::Missing, path),
        Err(PlaceFault::Memory) => PassError::Memory,
        Err(PlaceFault::AboveRoot) => unreachable!(),
    }
}
