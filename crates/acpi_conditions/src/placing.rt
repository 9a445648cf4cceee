//! Which path a term declares, what it asks, and which scope a Scope opens.

ghost use Rattle.std.specs.Prelude.{◌≡◌, ◌++◌, [], Ok, Err, None, not, option_to_list, ◌∷◌, if◌then◌else◌, OnOk, IfOk, IfErr};
ghost use Rattle.std.specs.List.{filter};
ghost use Rattle.acpi_name.specs.NameRefs.{name_parts};
ghost use Rattle.acpi_name.specs.Paths.{parent_of, place_of};
ghost use Rattle.acpi_conditions.specs.Known.{declared_at, if_below, is_certain_name, is_certain_scope, is_possible, opened_at, why_missing};
ghost use Rattle.acpi_conditions.specs.EntryForms.{why_of};
ghost use Rattle.acpi_conditions.specs.steps.Faults.{IsFaultOf};

use crate::searches::find;
use crate::statuses::Statuses;
use acpi_name::{Name, NameRef, Path, PlaceFault, Seg, place};
use std::alloc::{AllocError, AllocFailed, Global};

/// Why a term declares nothing, or a Scope isn't entered (ACPI 6.5, 5.3): the first that holds.
#[derive(Debug, Drop)]
pub enum Reason {
    /// The declared name has no segments; it stands in this scope.
    EmptyName(Path),
    /// The name goes above the root from this scope.
    AboveRoot(Path),
    /// A Scope's name, whose place is this path, is nowhere.
    Missing(Path),
    /// Nothing may stand at this path, the parent's.
    NoParent(Path),
    /// No scope may stand at this path.
    NotAScope(Path),
    /// Something stands at this path for certain.
    Taken(Path),
    /// A Scope may open any of these paths.
    Unsure(Vec<Path>),
}

/// Why nothing was placed.
#[derive(Debug, Drop)]
pub enum PlacingFault {
    /// The term is refused.
    Refused(Reason),
    /// An allocation failed.
    Memory,
}

impl From<AllocError> for PlacingFault {
    ghost use Rattle.std.specs.Prelude.{◌≡◌};
    ghost use Rattle.acpi_conditions.specs.declared.placing.PlacingFault.TheVariants.{Memory};

    ghost from_gives = { λ _ f. f ≡ Memory };

    fn from(_: AllocError) -> PlacingFault {
        PlacingFault::Memory
    }
}

impl<T: Drop> From<AllocFailed<T>> for PlacingFault {
    ghost use Rattle.std.specs.Prelude.{◌≡◌};
    ghost use Rattle.acpi_conditions.specs.declared.placing.PlacingFault.TheVariants.{Memory};

    ghost from_gives = { λ _ f. f ≡ Memory };

    fn from(_: AllocFailed<T>) -> PlacingFault {
        PlacingFault::Memory
    }
}

/// Where a term declares its object, and what that asks of the paths.
#[derive(Debug, Drop)]
pub struct Placing {
    /// The path at which the object would stand.
    pub path: Path,
    /// Whether it asks that a scope stand at the parent.
    pub has: bool,
    /// Whether it asks that the path be free.
    pub no: bool,
}

// The path that has this parent and last segment.
fn rejoined(parent: Path, last: Option<Seg>) -> Result<Path, AllocError>
    ensures { IfOk result (λ p. p ≡ parent ++ option_to_list last) }
{
    let mut path = parent;
    if let Some(seg) = last {
        path.push(seg)?;
    }
    Ok(path)
}

// The path, if something may be declared there.
#[tactic(auto, using(crate::proofs::Placings::parent_and_last))]
fn free_below<S: Statuses>(known: &S, path: Path) -> Result<Placing, PlacingFault>
    ensures ok { IfOk result (λ p. if_below (S.known known.now) (parent_of path) path ≡ Ok p.path) }
    ensures has { IfOk result (λ p. p.has
        ≡ not (is_certain_scope (S.known known.now) (parent_of path))) }
    ensures no { IfOk result (λ p. p.no ≡ is_possible (S.known known.now) path) }
    ensures refused { IfErr result (λ f.
        IsFaultOf f (if_below (S.known known.now) (parent_of path) path)) }
{
    let mut path = path;
    let last = path.pop();
    let parent = known.status(&path);
    if !parent.possible.is_something() {
        return Err(PlacingFault::Refused(Reason::NoParent(path)));
    }
    if !parent.possible.is_a_scope() {
        return Err(PlacingFault::Refused(Reason::NotAScope(path)));
    }
    let has = !parent.certain.is_a_scope();
    let path = rejoined(path, last)?;
    let here = known.status(&path);
    if here.certain.is_something() {
        return Err(PlacingFault::Refused(Reason::Taken(path)));
    }
    let no = here.possible.is_something();
    Ok(Placing { path, has, no })
}

/// Where a term of this name declares its object, and what that asks of the paths (ACPI 6.5, 5.3).
pub fn declare_at<S: Statuses>(
    alloc: Global,
    known: &S,
    scope: &Path,
    name: NameRef<'_>,
) -> Result<Placing, PlacingFault>
    ensures ok { IfOk result (λ p. declared_at (S.known known.now) scope.now (name_parts name.entry)
        ≡ Ok p.path) }
    ensures has { IfOk result (λ p. p.has
        ≡ not (is_certain_scope (S.known known.now) (parent_of p.path))) }
    ensures no { IfOk result (λ p. p.no ≡ is_possible (S.known known.now) p.path) }
    ensures refused { IfErr result (λ f.
        IsFaultOf f (declared_at (S.known known.now) scope.now (name_parts name.entry))) }
{
    if name.is_empty() {
        return Err(PlacingFault::Refused(Reason::EmptyName(scope.copy()?)));
    }
    match place(alloc, scope, name) {
        Ok(path) => free_below(known, path),
        Err(PlaceFault::AboveRoot) => Err(PlacingFault::Refused(Reason::AboveRoot(scope.copy()?))),
        Err(PlaceFault::Memory) => Err(PlacingFault::Memory),
    }
}

/// The names that a term asks for: those that aren't certain.
pub fn uncertain_names<S: Statuses>(
    alloc: Global,
    known: &S,
    scope: &Path,
    names: &[Name],
) -> Result<Vec<Name>, AllocError>
    ensures { IfOk result (λ v. v.items
        ≡ filter (λ n. not (is_certain_name (S.known known.now) scope.now n)) names.now) }
{
    let mut asked = Vec::new(alloc);
    for name in names {
        let found = find(alloc, known, scope, name.view())?;
        ask(&mut asked, name, found.is_certain)?;
    }
    Ok(asked)
}

// Puts a name that isn't certain among those that are asked for.
fn ask(asked: &mut Vec<Name>, name: &Name, is_certain: bool) -> Result<(), AllocError>
    ensures { OnOk result (asked.new.items
        ≡ asked.old.items ++ (if is_certain then [] else name.now ∷ [])) }
{
    if is_certain {
        return Ok(());
    }
    asked.push(name.copy()?)?;
    Ok(())
}

/// The path of the scope that a Scope of this name opens (ACPI 6.5, 5.3 and 20.2.5.1).
pub fn open_at<S: Statuses>(
    alloc: Global,
    known: &S,
    scope: &Path,
    name: NameRef<'_>,
) -> Result<Path, PlacingFault>
    ensures ok { IfOk result (λ p. opened_at (S.known known.now) scope.now (name_parts name.entry)
        ≡ Ok p) }
    ensures refused { IfErr result (λ f.
        IsFaultOf f (opened_at (S.known known.now) scope.now (name_parts name.entry))) }
{
    let found = find(alloc, known, scope, name)?;
    let mut paths = found.paths;
    match paths.pop() {
        None => Err(missing(alloc, scope, name)),
        Some(path) => {
            let alone = paths.is_empty();
            if !alone {
                paths.push(path)?;
                return Err(PlacingFault::Refused(Reason::Unsure(paths)));
            }
            if known.status(&path).possible.is_a_scope() {
                Ok(path)
            } else {
                Err(PlacingFault::Refused(Reason::NotAScope(path)))
            }
        }
    }
}

// The refusal of a Scope without candidates.
fn missing(alloc: Global, scope: &Path, name: NameRef<'_>) -> PlacingFault
    ensures { IsFaultOf result (Err (why_missing scope.now
        (place_of scope.now (name_parts name.entry)))) }
{
    match place(alloc, scope, name) {
        Ok(path) => PlacingFault::Refused(Reason::Missing(path)),
        Err(PlaceFault::AboveRoot) => above_root(scope),
        Err(PlaceFault::Memory) => PlacingFault::Memory,
    }
}

// The refusal of a name that goes above the root.
fn above_root(scope: &Path) -> PlacingFault
    ensures { IsFaultOf result (Err (why_missing scope.now None)) }
{
    match scope.copy() {
        Ok(path) => PlacingFault::Refused(Reason::AboveRoot(path)),
        Err(_) => PlacingFault::Memory,
    }
}
