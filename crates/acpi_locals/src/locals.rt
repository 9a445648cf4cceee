//! The objects that the bodies of methods declare.

ghost use Rattle.std.specs.Prelude.{◌≡◌, ◌++◌, ◌∷◌, [], Option, IfOk, OnOk, Some, map};
ghost use Rattle.std.specs.Option.{option_map};
ghost use Rattle.acpi_name.specs.Paths.{place_of};
ghost use Rattle.acpi_kinds.specs.Views.{kind_view};
ghost use Rattle.std.specs.List.{flat_map};
ghost use Rattle.std.specs.FinMap as finite;
ghost use Rattle.acpi_uses.specs.UseViews.{statements_view};
ghost use Rattle.acpi_locals.specs.Lines.{lines_from};
ghost use Rattle.acpi_tree.specs.TermView.{decl_view, term_view, terms_tree};
ghost use Rattle.acpi_tree.specs.View.{field_view, fields_view};
ghost use Rattle.acpi_entries.specs.ConditionViews.{link_views};
ghost use Rattle.acpi_locals.specs.Declaring.{declared_at, declared_by, declared_unit, declared_units, linked_names};
ghost use Rattle.acpi_locals.specs.LocalObjects.{local_at, local_objects_of, locals_at};
ghost use Rattle.acpi_locals.specs.Methods.{link_behind};
ghost use Rattle.acpi_locals.specs.LocalViews.{local_views};
ghost use Rattle.acpi_locals.specs.steps.Declarations.{field_list};
ghost use Rattle.acpi_locals.specs.steps.LineViews.{line_at};

use crate::declaring::{
    bits_behind, declared_name, field_list, linked_names, named_kind, unit_kind,
};
use crate::lines::{Line, declare_line};
use crate::method::Method;
use acpi_entries::Link;
use acpi_name::{Name, Path, PlaceFault, place};
use acpi_objects::ObjectKind;
use acpi_space::{Space, TreeSpace};
use acpi_survey::Survey;
use acpi_tree::{Decl, FieldElem, Term};
use acpi_uses::statements_of;
use std::alloc::{AllocError, Global};

/// An object that a term in the body of a method declares (ACPI 6.5, 5.5.2.3).
#[derive(Debug, Drop)]
pub struct LocalObject<'a> {
    /// Its path.
    pub path: Path,
    /// What it is. Its terms are those of the body.
    pub object: ObjectKind<'a>,
    /// Where the names of its term may be found: of a field element its region, index and data, or region and bank; of
    /// a Create field its source, where that is a name.
    pub links: Vec<Link<'a>>,
    /// The number of the method's entry.
    pub method: usize,
    /// The line of its term, from 1.
    pub line: usize,
}

// Where the names of a declaration may be found.
fn links_at<'a>(line: Line<'_, '_>, decl: &'a Decl) -> Result<Vec<Link<'a>>, AllocError>
    ensures { IfOk result (λ v. link_views v.items
        ≡ map (link_behind line.entry.method.now line.entry.before.now)
        (linked_names (decl_view decl.now))) }
{
    let names = linked_names(line.method.alloc(), decl)?;
    let mut links = Vec::new(line.method.alloc());
    'each: for name in &names {
        links.push(line.method.link(line.before, *name)?)?;
    }
    Ok(links)
}

// Puts an object of a declaration behind others.
fn put_object<'a>(
    found: &mut Vec<LocalObject<'a>>,
    line: Line<'_, '_>,
    decl: &'a Decl,
    path: Path,
    object: ObjectKind<'a>,
) -> Result<(), AllocError>
    ensures { OnOk result (local_views found.new.items ≡ local_views found.old.items
        ++ local_at line.entry.method.now (line_at line.entry (decl_view decl.now))
        (path, kind_view object.entry) ∷ []) }
{
    found.push(LocalObject {
        path,
        object,
        links: links_at(line, decl)?,
        method: line.method.number(),
        line: line.number,
    })?;
    Ok(())
}

// The path of a name that is declared in the body of a method, if it has a place.
fn place_in(method: &Method<'_>, name: &Name) -> Result<Option<Path>, AllocError>
    ensures { IfOk result (λ p. p ≡ place_of method.now.path name.now) }
{
    match place(method.alloc(), method.path(), name.view()) {
        Ok(path) => Ok(Some(path)),
        Err(PlaceFault::AboveRoot) => Ok(None),
        Err(PlaceFault::Memory) => Err(AllocError),
    }
}

// Puts what a declaration declares at a path behind others, if there are both.
fn put_declared<'a>(
    found: &mut Vec<LocalObject<'a>>,
    line: Line<'_, '_>,
    decl: &'a Decl,
    path: Option<Path>,
    object: Option<ObjectKind<'a>>,
) -> Result<(), AllocError>
    ensures { OnOk result (local_views found.new.items ≡ local_views found.old.items
        ++ map (local_at line.entry.method.now (line_at line.entry (decl_view decl.now)))
        (declared_at path (option_map kind_view object.entry))) }
{
    match (path, object) {
        (Some(path), Some(object)) => put_object(found, line, decl, path, object),
        _ => Ok(()),
    }
}

// Puts an element of a field list, at an offset, behind others, if it has a name.
fn put_unit<'a>(
    found: &mut Vec<LocalObject<'a>>,
    line: Line<'_, '_>,
    decl: &'a Decl,
    offset: u64,
    element: &FieldElem,
) -> Result<(), AllocError>
    ensures { OnOk result (local_views found.new.items ≡ local_views found.old.items
        ++ map (local_at line.entry.method.now (line_at line.entry (decl_view decl.now)))
        (declared_unit line.entry.method.now.path (decl_view decl.now) offset
        (field_view element.now))) }
{
    let FieldElem::Unit(seg, bits) = element else {
        return Ok(());
    };
    let mut path = line.method.path().copy()?;
    path.push(*seg)?;
    put_declared(
        found,
        line,
        decl,
        Some(path),
        unit_kind(decl, offset, *bits),
    )
}

// Puts the named elements of a field list behind others.
fn put_units<'a>(
    found: &mut Vec<LocalObject<'a>>,
    line: Line<'_, '_>,
    decl: &'a Decl,
) -> Result<(), AllocError>
    ensures { OnOk result (local_views found.new.items ≡ local_views found.old.items
        ++ map (local_at line.entry.method.now (line_at line.entry (decl_view decl.now)))
        (declared_units line.entry.method.now.path (decl_view decl.now) 0
        (field_list (decl_view decl.now)))) }
{
    let mut offset = 0u64;
    'each: for element in field_list(decl) {
        put_unit(found, line, decl, offset, element)?;
        offset = bits_behind(offset, element);
    }
    Ok(())
}

// Puts what a declaration declares behind others.
fn put_declaration<'a>(
    found: &mut Vec<LocalObject<'a>>,
    line: Line<'_, '_>,
    decl: &'a Decl,
) -> Result<(), AllocError>
    ensures { OnOk result (local_views found.new.items ≡ local_views found.old.items
        ++ locals_at line.entry.method.now (line_at line.entry (decl_view decl.now))) }
{
    match declared_name(decl) {
        Some(name) => {
            let path = place_in(line.method, name)?;
            put_declared(found, line, decl, path, named_kind(decl))
        }
        None => put_units(found, line, decl),
    }
}

// Puts what a statement declares behind others, without what those in it declare.
fn put_statement<'a>(
    found: &mut Vec<LocalObject<'a>>,
    line: Line<'_, '_>,
    statement: &'a Term,
) -> Result<(), AllocError>
    ensures { OnOk result (local_views found.new.items ≡ local_views found.old.items
        ++ locals_at line.entry.method.now (line_at line.entry (term_view statement.now))) }
{
    match statement {
        Term::Declare(decl) => put_declaration(found, line, decl),
        _ => Ok(()),
    }
}

// Puts what the statements of a body declare behind others, line after line.
fn put_lines<'a>(
    found: &mut Vec<LocalObject<'a>>,
    method: &Method<'_>,
    statements: &[&'a Term],
) -> Result<(), AllocError>
    ensures { OnOk result (local_views found.new.items ≡ local_views found.old.items
        ++ flat_map (locals_at method.now)
        (lines_from 1 method.now.path finite.empty (statements_view statements.now))) }
{
    let mut before = TreeSpace::new(method.alloc());
    'each: for i in 0..statements.len() {
        let line = Line {
            method,
            number: i + 1,
            before: &before,
        };
        put_statement(found, line, statements[i])?;
        declare_line(method, &mut before, statements[i])?;
    }
    Ok(())
}

/// The objects that the terms of the body of a method declare, whose entry has that number: line after line, and in the
/// order in which they stand. Each named element of a field list is one.
pub fn local_objects<'a>(
    survey: &Survey,
    number: usize,
    body: &'a [Term],
) -> Result<Vec<LocalObject<'a>>, AllocError>
    ensures { IfOk result (λ v. local_views v.items
        ≡ local_objects_of survey.now.reading.walk.entries number (terms_tree body.now)) }
{
    let alloc = survey.memory();
    let mut found = Vec::new(alloc);
    let Some(method) = Method::new(survey, number)? else {
        return Ok(found);
    };
    put_lines(&mut found, &method, &statements_of(alloc, body)?)?;
    Ok(found)
}
