//! The links of fields and buffer fields, searched over the final objects.

ghost use Rattle.std.specs.Prelude.{◌≡◌, ◌++◌, ◌↔◌, List, IfOk, IsTrue, OnOk};
ghost use Rattle.std.specs.List.{filter};
ghost use Rattle.acpi_name.specs.Names.{Segment};
ghost use Rattle.acpi_space.specs.Laws.{Among};
ghost use Rattle.acpi_space.specs.Search.{answer, missed};
ghost use Rattle.acpi_space.specs.Lookups.{is_defined_in, union};
ghost use Rattle.acpi_pass.specs.Pending.{IsMissedLink, all_pending_of, linked_paths, pending_of, unit_paths};
ghost use Rattle.acpi_pass.specs.Namespace.{namespace_of};
ghost use Rattle.acpi_pass.specs.Links.{answers, links_of, links_at};
ghost use Rattle.acpi_pass.specs.steps.View.{links_with};
ghost use Rattle.acpi_pass.specs.steps.Missing.{misses_from};

use crate::link_map::LinkMap;
use crate::pending::{LinkedPaths, PendingLinks};
use crate::placing::unit_path;
use acpi_name::{Name, Path, Seg};
use acpi_space::{Found, SearchFault, Space, Wanted, search, wanted_misses};
use acpi_tree::Object;
use std::alloc::{AllocError, Global};
use std::sync::Arc;

// What the search of one name answers.
fn answer_of<S: Space<Object>>(
    alloc: Global,
    objects: &S,
    scope: &Path,
    name: &Name,
) -> Result<Option<Path>, AllocError>
    ensures { IfOk result (λ o. o ≡ answer
        (is_defined_in (namespace_of (S.contents objects.now))) scope.now name.now) }
{
    match search(alloc, objects, scope, name.view()) {
        Ok(Found::At(path)) => Ok(Some(path)),
        Ok(Found::Missing) => Ok(None),
        Err(SearchFault::AboveRoot) => Ok(None),
        Err(SearchFault::Memory) => Err(AllocError),
    }
}

// What the searches of some names answer.
fn answers_of<S: Space<Object>>(
    alloc: Global,
    objects: &S,
    scope: &Path,
    names: &[Name],
) -> Result<Vec<Option<Path>>, AllocError>
    ensures { IfOk result (λ v. v.items
        ≡ answers (namespace_of (S.contents objects.now)) scope.now names.now) }
{
    let mut found = Vec::with_capacity(alloc, names.len())?;
    for name in names {
        found.push(answer_of(alloc, objects, scope, name)?)?;
    }
    Ok(found)
}

/// The same answers once more, with memory of their own.
pub fn copy_answers(
    alloc: Global,
    answers: &[Option<Path>],
) -> Result<Vec<Option<Path>>, AllocError>
    ensures { IfOk result (λ v. v.items ≡ answers.now) }
{
    let mut copies = Vec::with_capacity(alloc, answers.len())?;
    for answer in answers {
        copies.push(match answer {
            Some(path) => Some(path.copy()?),
            None => None,
        })?;
    }
    Ok(copies)
}

// The same answers at each of the units of a scope.
fn put_unit_links(
    links: &mut LinkMap,
    scope: &Path,
    segs: Vec<Seg>,
    answers: &Arc<Vec<Option<Path>>>,
) -> Result<(), AllocError>
    ensures { OnOk result (links_at links.new
        ≡ union (links_at links.old) (links_with answers.now.value.items
        (unit_paths scope.now segs.items))) }
{
    let mut left = segs;
    while let Some(seg) = left.pop() {
        links.share(unit_path(scope, seg)?, answers)?;
    }
    Ok(())
}

// The same answers at each of the paths.
fn put_links(
    links: &mut LinkMap,
    scope: &Path,
    paths: LinkedPaths,
    answers: &Arc<Vec<Option<Path>>>,
) -> Result<(), AllocError>
    ensures { OnOk result (links_at links.new
        ≡ union (links_at links.old) (links_with answers.now.value.items
        (linked_paths scope.now paths))) }
{
    match paths {
        LinkedPaths::One(path) => links.share(path, answers),
        LinkedPaths::Units(segs) => put_unit_links(links, scope, segs, answers),
    }
}

// The links that are pending at the paths of one field list, or of one buffer field, with their answers.
fn put_pending<S: Space<Object>>(
    alloc: Global,
    objects: &S,
    links: &mut LinkMap,
    pending: PendingLinks,
) -> Result<(), AllocError>
    ensures { OnOk result (links_at links.new
        ≡ union (links_at links.old) (links_of (namespace_of (S.contents objects.now))
        (pending_of pending))) }
{
    let PendingLinks {
        paths,
        scope,
        names,
    } = pending;
    let answers = answers_of(alloc, objects, &scope, &names)?;
    put_links(links, &scope, paths, &Arc::new(alloc, answers)?)?;
    Ok(())
}

/// The answers of all links that are pending. Where a path is there several times, the last counts.
pub fn search_links<S: Space<Object>>(
    alloc: Global,
    objects: &S,
    pending: Vec<PendingLinks>,
) -> Result<LinkMap, AllocError>
    ensures { IfOk result (λ m. links_at m
        ≡ links_of (namespace_of (S.contents objects.now)) (all_pending_of pending.items)) }
{
    let mut links = LinkMap::new(alloc);
    let mut left = pending;
    while let Some(link) = left.pop() {
        put_pending(alloc, objects, &mut links, link)?;
    }
    Ok(links)
}

// The paths that the search of one name misses, of those that are asked for.
fn misses_of_name<S: Space<Object>, Q: Wanted>(
    alloc: Global,
    objects: &S,
    scope: &Path,
    name: &Name,
    wanted: &Q,
) -> Result<Vec<Path>, AllocError>
    ensures { IfOk result (λ v. v.items ≡ filter (Q.wanted wanted.now)
        (missed (is_defined_in (namespace_of (S.contents objects.now))) scope.now name.now)) }
{
    match wanted_misses(alloc, objects, scope, name.view(), wanted) {
        Ok(paths) => Ok(paths),
        Err(SearchFault::AboveRoot) => Ok(Vec::new(alloc)),
        Err(SearchFault::Memory) => Err(AllocError),
    }
}

// Adds the paths that the searches of some names miss, of those that are asked for.
fn add_misses<S: Space<Object>, Q: Wanted>(
    alloc: Global,
    objects: &S,
    scope: &Path,
    names: &[Name],
    wanted: &Q,
    missed: &mut Vec<Path>,
) -> Result<(), AllocError>
    ensures { OnOk result (missed.new.items ≡ missed.old.items
        ++ misses_from (Q.wanted wanted.now) (namespace_of (S.contents objects.now)) scope.now
        names.now) }
{
    for name in names {
        let mut paths = misses_of_name(alloc, objects, scope, name, wanted)?;
        missed.append(&mut paths)?;
    }
    Ok(())
}

/// The paths that the searches of all links that are pending miss, of those that are asked for.
pub fn misses_of_links<S: Space<Object>, Q: Wanted>(
    alloc: Global,
    objects: &S,
    pending: &[PendingLinks],
    wanted: &Q,
) -> Result<Vec<Path>, AllocError>
    ensures { IfOk result (λ v. (p : List Segment) → Among v.items p
        ↔ (IsMissedLink (namespace_of (S.contents objects.now)) (all_pending_of pending.now) p
        × IsTrue (Q.wanted wanted.now p))) }
{
    let mut missed = Vec::new(alloc);
    for link in pending {
        // A field list without a named unit has no links.
        if !link.paths.is_empty() {
            add_misses(
                alloc,
                objects,
                &link.scope,
                &link.names,
                wanted,
                &mut missed,
            )?;
        }
    }
    Ok(missed)
}
