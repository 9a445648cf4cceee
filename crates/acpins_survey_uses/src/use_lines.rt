//! The lines of uses.

ghost use Rattle.std.specs.Prelude.{◌≡◌, None, IfOk};
ghost use Rattle.std.specs.Option.{option_copied};
ghost use Rattle.acpins_survey_uses.specs.Nothing.{HasNothing};

use crate::declared::{Declared, is_at_or_below};
use crate::scopes::{NodeScopes, tries_below};
use acpi_entries::bodies_of;
use acpi_name::Path;
use acpi_ranges::site_of;
use acpi_survey::Survey;
use acpi_text::{put_decimal, put_name};
use acpi_trimmed::put_trimmed_path;
use acpi_use_list::{Use, UseRole, UseSite, locals_of_machine, sort_uses, uses_of_machine};
use std::alloc::{AllocError, Global};
use text_buffer::Text;

// ---- the line of a use

/// The word for a role.
pub fn role_text(role: UseRole) -> &'static str {
    match role {
        UseRole::Call => "call",
        UseRole::Write => "write",
        UseRole::Notify => "notify",
        UseRole::Wait => "wait",
        UseRole::Test => "test",
        UseRole::Refer => "refer",
        UseRole::Field => "field",
        UseRole::Scope => "scope",
        UseRole::Read => "read",
    }
}

// Where a node stands: the table's number, and the offset in the table.
fn put_place(text: &mut Text, place: u128) {
    let site = site_of(place);
    text.put(" at ");
    put_decimal(text, site.table as u64);
    text.put(":");
    put_decimal(text, site.offset as u64)
}

// The method of the entry of that number, and a line of its body.
fn put_method_line(text: &mut Text, survey: &Survey, method: usize, line: usize) {
    text.put(" in ");
    if let Some(entry) = survey.entry(method) {
        put_trimmed_path(text, &entry.path);
    }
    text.put(":");
    put_decimal(text, line as u64)
}

fn put_use(text: &mut Text, survey: &Survey, found: &Use) {
    text.put("  ");
    text.put(role_text(found.role));
    match found.site {
        UseSite::Node { place } => put_place(text, place),
        UseSite::Line { method, line, .. } => put_method_line(text, survey, method, line),
    }
    text.put(if found.is_sure { "\n" } else { " ?\n" })
}

// ---- the line above uses

// Whether the line above one use stands above the next, too.
fn are_alike(one: &Use, next: &Use) -> bool {
    match (&one.path, &next.path) {
        (Some(path), Some(other)) => path == other,
        (None, None) => one.name == next.name,
        _ => false,
    }
}

// The path and the objects there; or the name, which may be found nowhere.
fn put_head(text: &mut Text, declared: &Declared<'_, '_>, found: &Use) -> Result<(), AllocError> {
    match &found.path {
        Some(path) => {
            put_trimmed_path(text, path);
            text.put(" ");
            declared.put_objects(text, path)?;
            text.put("\n");
        }
        None => {
            put_name(text, found.name.view());
            text.put(" not declared\n");
        }
    }
    Ok(())
}

// Puts the lines of uses, each path or name above its own.
fn put_uses(
    text: &mut Text,
    declared: &Declared<'_, '_>,
    found: &[&Use],
) -> Result<(), AllocError> {
    let mut last: Option<&Use> = None;
    for next in found {
        let is_headed = match last {
            Some(before) => are_alike(before, next),
            None => false,
        };
        if !is_headed {
            put_head(text, declared, next)?;
        }
        put_use(text, declared.survey, next);
        last = Some(*next);
    }
    Ok(())
}

// ---- uses that are wanted

// Whether a use is one of a path or below it. A name that may be found nowhere is, if its search tries such a path.
fn is_wanted(
    alloc: Global,
    scopes: &NodeScopes<'_>,
    found: &Use,
    path: &Path,
) -> Result<bool, AllocError> {
    match &found.path {
        Some(other) => Ok(is_at_or_below(other, path)),
        None if path.is_empty() => Ok(true),
        None => tries_below(alloc, scopes.at(found.site), found.name.view(), path),
    }
}

// The uses of a path and below it; without a path all.
fn wanted<'a>(
    alloc: Global,
    survey: &Survey,
    all: &'a [Use],
    path: Option<&Path>,
) -> Result<Vec<&'a Use>, AllocError> {
    let Some(path) = path else {
        return all.iter().collect(alloc);
    };
    let scopes = NodeScopes::new(alloc, survey)?;
    let mut found = Vec::new(alloc);
    for one in all {
        if is_wanted(alloc, &scopes, one, path)? {
            found.push(one)?;
        }
    }
    Ok(found)
}

/// The uses of a path and of all paths below it, of all paths without one: a line for each path that has some, with the
/// objects there, and for each name that may be found nowhere, and behind it a line for each use. None where nothing is
/// declared at the path or below, and nothing is used.
pub fn uses(
    alloc: Global,
    survey: &Survey,
    path: Option<&Path>,
) -> Result<Option<Vec<u8>>, AllocError>
    ensures { IfOk result (λ t. t ≡ None → HasNothing survey.now (option_copied path.entry)) }
{
    let bodies = bodies_of(survey)?;
    let mut all = uses_of_machine(survey, &bodies)?;
    sort_uses(&mut all)?;
    let locals = locals_of_machine(survey, &bodies)?;
    let declared = Declared {
        alloc,
        survey,
        locals: &locals,
    };
    let found = wanted(alloc, survey, &all, path)?;
    if found.is_empty() && declared.is_nothing_at(path)? {
        return Ok(None);
    }
    let mut text = Text::new(alloc);
    put_uses(&mut text, &declared, &found)?;
    Ok(Some(text.into_bytes()?))
}
