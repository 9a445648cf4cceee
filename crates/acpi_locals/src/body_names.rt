//! The names in the bodies of methods, and where they may be found.

ghost use Rattle.std.specs.Prelude.{◌≡◌, ◌++◌, ◌∷◌, [], IfOk, OnOk};
ghost use Rattle.std.specs.List.{flat_map};
ghost use Rattle.std.specs.FinMap as finite;
ghost use Rattle.acpi_tree.specs.TermView.{term_view, terms_tree};
ghost use Rattle.acpi_uses.specs.UseViews.{use_view, statements_view};
ghost use Rattle.acpi_locals.specs.Lines.{lines_from};
ghost use Rattle.acpi_locals.specs.BodyNames.{is_declared, last_path, name_at, names_at, names_of_body as names_of};
ghost use Rattle.acpi_locals.specs.LocalViews.{name_views};
ghost use Rattle.acpi_locals.specs.steps.LineViews.{line_at};

use crate::lines::{Line, declare_line};
use crate::method::Method;
use acpi_entries::Link;
use acpi_name::Path;
use acpi_space::{Space, TreeSpace};
use acpi_survey::Survey;
use acpi_tree::Term;
use acpi_uses::{NameUse, Role, statements_of, uses_of};
use std::alloc::AllocError;

/// A name that stands in the body of a method.
#[derive(Debug, Drop)]
pub struct BodyName<'a> {
    /// The name, and where it may be found, behind what the lines before declare.
    pub link: Link<'a>,
    /// Whether the last of these paths is one that a line before declares.
    pub is_local: bool,
    /// How it stands there.
    pub role: Role,
    /// The number of the method's entry.
    pub method: usize,
    /// The line of the statement in which it stands, from 1.
    pub line: usize,
}

// Whether the last path at which a name may be found is one that a line before declares.
fn is_local(before: &TreeSpace<()>, paths: &[Path]) -> bool
    ensures { result ≡ is_declared before.now (last_path paths.now) }
{
    match paths.last() {
        Some(path) => before.get(path).is_some(),
        None => false,
    }
}

// Puts a name in a statement behind others.
fn put_name<'a>(
    found: &mut Vec<BodyName<'a>>,
    line: Line<'_, '_>,
    used: NameUse<'a>,
) -> Result<(), AllocError>
    ensures { OnOk result (name_views found.new.items ≡ name_views found.old.items
        ++ name_at line.entry.method.now line.entry.number line.entry.before.now
        (use_view used.entry) ∷ []) }
{
    let link = line.method.link(line.before, used.name)?;
    found.push(BodyName {
        is_local: is_local(line.before, &link.paths),
        link,
        role: used.role,
        method: line.method.number(),
        line: line.number,
    })?;
    Ok(())
}

// Puts the names of a statement behind others.
fn put_names<'a>(
    found: &mut Vec<BodyName<'a>>,
    line: Line<'_, '_>,
    statement: &'a Term,
) -> Result<(), AllocError>
    ensures { OnOk result (name_views found.new.items ≡ name_views found.old.items
        ++ names_at line.entry.method.now (line_at line.entry (term_view statement.now))) }
{
    let uses = uses_of(line.method.alloc(), statement)?;
    'each: for used in &uses {
        put_name(found, line, *used)?;
    }
    Ok(())
}

// Puts the names of the statements of a body behind others, line after line.
fn put_lines<'a>(
    found: &mut Vec<BodyName<'a>>,
    method: &Method<'_>,
    statements: &[&'a Term],
) -> Result<(), AllocError>
    ensures { OnOk result (name_views found.new.items ≡ name_views found.old.items
        ++ flat_map (names_at method.now)
        (lines_from 1 method.now.path finite.empty (statements_view statements.now))) }
{
    let mut before = TreeSpace::new(method.alloc());
    'each: for i in 0..statements.len() {
        let line = Line {
            method,
            number: i + 1,
            before: &before,
        };
        put_names(found, line, statements[i])?;
        declare_line(method, &mut before, statements[i])?;
    }
    Ok(())
}

/// The names in the body of the method whose entry has that number, in the order in which they stand, and where each
/// may be found.
pub fn names_of_body<'a>(
    survey: &Survey,
    number: usize,
    body: &'a [Term],
) -> Result<Vec<BodyName<'a>>, AllocError>
    ensures { IfOk result (λ v. name_views v.items
        ≡ names_of survey.now.reading.walk.entries number (terms_tree body.now)) }
{
    let alloc = survey.memory();
    let mut found = Vec::new(alloc);
    let Some(method) = Method::new(survey, number)? else {
        return Ok(found);
    };
    put_lines(&mut found, &method, &statements_of(alloc, body)?)?;
    Ok(found)
}
