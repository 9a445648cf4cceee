//! Where a name may be found.

ghost use Rattle.std.specs.Prelude.{◌≡◌, ◌++◌, IfOk, OnOk};
ghost use Rattle.std.specs.List.{list_any};
ghost use Rattle.acpi_name.specs.NameRefs.{name_parts};
ghost use Rattle.acpi_conditions.specs.Known.{candidates, is_certain, is_certain_name, up_to_certain};
ghost use Rattle.acpi_conditions.specs.steps.Tries.{below, candidate_at};

use crate::statuses::Statuses;
use acpi_name::{NameRef, Path, PlaceFault, Seg, place};
use std::alloc::{AllocError, Global};

/// Where a name may be found.
#[derive(Drop)]
pub struct Candidates {
    /// The possible paths up to and with the first that is certain, the innermost first.
    pub paths: Vec<Path>,
    /// Whether the name is found for certain.
    pub is_certain: bool,
}

/// Where a name may be found from a scope (ACPI 6.5, 5.3).
pub fn find<S: Statuses>(
    alloc: Global,
    known: &S,
    scope: &Path,
    name: NameRef<'_>,
) -> Result<Candidates, AllocError>
    ensures paths { IfOk result (λ c. c.paths.items
        ≡ candidates (S.known known.now) scope.now (name_parts name.entry)) }
    ensures certain { IfOk result (λ c. c.is_certain
        ≡ is_certain_name (S.known known.now) scope.now (name_parts name.entry)) }
{
    if let Some(seg) = name.plain() {
        return below_scopes(alloc, known, scope, seg);
    }
    let mut paths = Vec::new(alloc);
    match place(alloc, scope, name) {
        Ok(path) => {
            let is_certain = try_path(known, &path, &mut paths)?;
            Ok(Candidates { paths, is_certain })
        }
        Err(PlaceFault::AboveRoot) => Ok(Candidates {
            paths,
            is_certain: false,
        }),
        Err(PlaceFault::Memory) => Err(AllocError),
    }
}

// The candidates of a segment below a scope and below each of its parents.
fn below_scopes<S: Statuses>(
    alloc: Global,
    known: &S,
    scope: &Path,
    seg: Seg,
) -> Result<Candidates, AllocError>
    ensures paths { IfOk result (λ c. c.paths.items
        ≡ up_to_certain (S.known known.now) (below scope.now seg)) }
    ensures certain { IfOk result (λ c. c.is_certain
        ≡ list_any (is_certain (S.known known.now)) (below scope.now seg)) }
{
    let mut paths = Vec::new(alloc);
    let mut path = scope.copy()?;
    loop {
        path.push(seg)?;
        let is_certain = try_path(known, &path, &mut paths)?;
        path.pop();
        if is_certain {
            return Ok(Candidates { paths, is_certain });
        }
        let outer = path.pop();
        if outer.is_none() {
            return Ok(Candidates { paths, is_certain });
        }
    }
}

// Adds the path to the candidates, if something may stand there. Whether that is certain.
fn try_path<S: Statuses>(known: &S, path: &Path, paths: &mut Vec<Path>) -> Result<bool, AllocError>
    ensures certain { IfOk result (λ b. b ≡ is_certain (S.known known.now) path.now) }
    ensures paths { OnOk result (paths.new.items
        ≡ paths.old.items ++ candidate_at (S.known known.now) path.now) }
{
    let status = known.status(path);
    if status.certain.is_something() {
        paths.push(path.copy()?)?;
        return Ok(true);
    }
    if status.possible.is_something() {
        paths.push(path.copy()?)?;
    }
    Ok(false)
}
