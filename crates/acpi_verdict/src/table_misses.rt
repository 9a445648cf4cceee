//! What links and bodies of tables miss, of the paths that another space has.

ghost use Rattle.std.specs.Prelude.{◌≡◌, ◌↔◌, IfOk, OnOk, IsTrue, map};
ghost use Rattle.std.specs.FinMap as finite;
ghost use Rattle.acpi_declare.specs.Namespace.{namespace_of};
ghost use Rattle.acpi_declare.specs.Notes.{method_of, notes_of};
ghost use Rattle.acpi_body.specs.steps.Gathering.{Grows};
ghost use Rattle.acpi_order.specs.Bodies.{with_counts};
ghost use Rattle.acpi_order.specs.steps.Noted.{noted};
ghost use Rattle.acpi_space.specs.Laws.{Among};
ghost use Rattle.acpi_space.specs.Spaces.{is_defined};
ghost use Rattle.acpi_verdict.specs.steps.Misses.{AddsMethod, AddsMethods, AreMisses, IsMissedScope};
ghost use Rattle.acpi_declare.specs.Declaring.{state_of};

use crate::misses::Misses;
use crate::paths::{add_path, add_paths};
use acpi_body::{body_misses_among, read_body};
use acpi_counts::Counts;
use acpi_declare::{Declaring, Method, TableNotes};
use acpi_name::Path;
use acpi_space::{MapSpace, Space};
use acpi_terms::{Depth, Object};
use std::alloc::{AllocError, Global};

// Adds what the body of a method misses and awaits.
fn search_method<O: Space<Object>, W, T: Space<W>>(
    alloc: Global,
    objects: &O,
    method: &Method,
    counts: &Counts,
    depth: Depth,
    among: &T,
    misses: &mut Misses,
) -> Result<(), AllocError>
    ensures { OnOk result (AddsMethod (is_defined (T.contents among.now)) depth
        (namespace_of (O.contents objects.now))
        (with_counts (finite.get counts.now) (method_of method.now)) misses.old misses.new) }
{
    let body = read_body(alloc, objects, &method.path, &method.code, depth, counts)?;
    let missed = body_misses_among(alloc, objects, &method.path, &body, counts, among)?;
    misses.add(missed)
}

// The same for the methods of one table.
fn search_methods<O: Space<Object>, W, T: Space<W>>(
    alloc: Global,
    objects: &O,
    notes: &TableNotes,
    depth: Depth,
    among: &T,
    misses: &mut Misses,
) -> Result<(), AllocError>
    ensures { OnOk result (AddsMethods (is_defined (T.contents among.now)) depth
        (namespace_of (O.contents objects.now)) (noted (notes_of notes.now)) misses.old
        misses.new) }
{
    for method in &notes.methods {
        search_method(alloc, objects, method, &notes.counts, depth, among, misses)?;
    }
    Ok(())
}

/// What links and bodies of tables miss and await over those objects, of the paths that another space has, behind what
/// was missed before.
pub(crate) fn table_misses<S: Space<Object>, O: Space<Object>, W, T: Space<W>>(
    alloc: Global,
    tables: &Declaring<S>,
    objects: &O,
    depth: Depth,
    among: &T,
    missed: MapSpace<()>,
) -> Result<Misses, AllocError>
    ensures { IfOk result (λ m. AreMisses (is_defined (T.contents among.now)) depth (namespace_of
        (O.contents objects.now)) (state_of S.contents tables.now) missed m) }
{
    let mut misses = Misses {
        missed,
        awaited: MapSpace::new(alloc),
    };
    add_paths(
        &mut misses.missed,
        tables.link_misses_over(alloc, objects, among)?,
    )?;
    for notes in tables.notes() {
        search_methods(alloc, objects, notes, depth, among, &mut misses)?;
    }
    Ok(misses)
}

// Adds those of the paths that another space has.
fn add_among<W, T: Space<W>>(
    missed: &mut MapSpace<()>,
    paths: &[Path],
    among: &T,
) -> Result<(), AllocError>
    ensures { OnOk result (Grows missed.old missed.new
        (λ p. Among paths.now p × IsTrue (is_defined (T.contents among.now) p))) }
{
    for path in paths {
        if among.get(path).is_some() {
            add_path(missed, path.copy()?)?;
        }
    }
    Ok(())
}

/// The paths that Scope terms missed, of those that another space has.
pub(crate) fn missed_scopes<W, T: Space<W>>(
    alloc: Global,
    notes: &[TableNotes],
    among: &T,
) -> Result<MapSpace<()>, AllocError>
    ensures { IfOk result (λ m. Grows finite.empty m
        (λ p. IsMissedScope (map notes_of notes.now) p
        × IsTrue (is_defined (T.contents among.now) p))) }
{
    let mut missed = MapSpace::new(alloc);
    for table in notes {
        add_among(&mut missed, &table.missed, among)?;
    }
    Ok(missed)
}
