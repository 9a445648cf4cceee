//! Which names mean a method.

ghost use Rattle.std.specs.Prelude.{◌≡◌, ◌↔◌, ℕ, IfOk, IsTrue, None, Some, length, slice_get, slice_index_or};
ghost use Rattle.std.specs.Option.{option_copied};
ghost use Rattle.acpi_conditions.specs.EntryForms.{entry_view};
ghost use Rattle.acpi_space.specs.Laws.{Among};
ghost use Rattle.acpi_kinds.specs.Views.{kind_view};
ghost use Rattle.acpi_entries.specs.ConditionViews.{link_views};
ghost use Rattle.acpi_survey.specs.SurveyOrder.{IsInOrder};
ghost use Rattle.acpi_survey.specs.declared.machine_survey.Survey.{Survey as SurveyForm};
ghost use Rattle.acpi_locals.specs.BodyNames.{last_path};
ghost use Rattle.acpi_locals.specs.Callables.{alias_path as path_of_alias, any_is_callable, AreCallables, declares_method, entry_object, is_alias, is_method, last_linked, MeansMethod, named_entries, NamesMethod, numbers_seen};
ghost use Rattle.acpi_locals.specs.LocalViews.{name_view};
ghost use Rattle.acpi_locals.specs.steps.AliasPaths.{alias_next, each_below, entries_in};
ghost use Rattle.acpi_locals.specs.steps.Rounds.{any_marked, is_marked};

use crate::body_names::BodyName;
use crate::marks::{Leads, mark_all};
use acpi_conditions::{Entries, Entry, Met};
use acpi_entries::{Link, links_in};
use acpi_name::Path;
use acpi_objects::{ObjectKind, object_kind};
use acpi_ranges::{entry_numbered, part_of};
use acpi_survey::Survey;
use std::alloc::{AllocError, Global};
use std::marker::Model;

// ---- marks

fn is_marked(marks: &[bool], number: usize) -> bool
    ensures { result ≡ is_marked marks.now number }
{
    match marks.get(number) {
        Some(mark) => *mark,
        None => false,
    }
}

// Whether one of the numbers is marked.
fn any_marked(marks: &[bool], numbers: &[usize]) -> bool
    ensures { result ≡ any_marked marks.now numbers.now }
{
    numbers.iter().any(|n| is_marked(marks, *n))
}

// Whether one of the entries at a path is marked that are seen from an entry.
fn sees_marked(
    alloc: Global,
    entries: Entries<'_>,
    entry: &Entry,
    path: &Path,
    marks: &[bool],
) -> Result<bool, AllocError>
    ensures { IfOk result (λ b. b ≡ any_marked marks.now (numbers_seen (entries_in entries.entry)
        (Some (entry_view entries.entry.ways.now entry.now)) (Some path.now))) }
{
    let met = Met::new(entries.paths, entries.ways, entry.way)?;
    let numbers = met.numbers_at(alloc, path)?;
    Ok(any_marked(marks, &numbers))
}

// Whether one of those is marked that are seen from the entry of a number, if there are an entry and a path.
fn leads_to_marked(
    alloc: Global,
    entries: Entries<'_>,
    number: usize,
    path: Option<&Path>,
    marks: &[bool],
) -> Result<bool, AllocError>
    ensures { IfOk result (λ b. b ≡ any_marked marks.now (numbers_seen (entries_in entries.entry)
        (slice_get (entries_in entries.entry) number) (option_copied path.entry))) }
{
    let Some(entry) = entry_numbered(entries, number) else {
        return Ok(false);
    };
    match path {
        Some(path) => sees_marked(alloc, entries, entry, path, marks),
        None => Ok(false),
    }
}

// ---- objects of entries

fn is_method(kind: &ObjectKind<'_>) -> bool
    ensures { result ≡ is_method (kind_view kind.now) }
{
    match kind {
        ObjectKind::Method(_) => true,
        _ => false,
    }
}

fn is_alias(kind: &ObjectKind<'_>) -> bool
    ensures { result ≡ is_alias (kind_view kind.now) }
{
    match kind {
        ObjectKind::Alias => true,
        _ => false,
    }
}

fn last_of(paths: &[Path]) -> Result<Option<Path>, AllocError>
    ensures { IfOk result (λ p. p ≡ last_path paths.now) }
{
    match paths.last() {
        Some(path) => Ok(Some(path.copy()?)),
        None => Ok(None),
    }
}

fn last_linked(links: &[Link<'_>]) -> Result<Option<Path>, AllocError>
    ensures { IfOk result (λ p. p ≡ last_linked (link_views links.now)) }
{
    match links {
        [] => Ok(None),
        [link, ..] => last_of(&link.paths),
    }
}

// The last path at which the source of an Alias may be found, if the entry of that number is one.
fn alias_path(survey: &Survey, number: usize) -> Result<Option<Path>, AllocError>
    ensures { IsInOrder survey.now → IfOk result (λ p. p ≡ path_of_alias survey.now number) }
{
    let part = part_of(survey, number);
    if is_alias(&object_kind(part, number)) {
        return last_linked(&links_in(survey, number, part)?);
    }
    Ok(None)
}

// ---- Aliases

/// The last path of each Alias, by the numbers of entries.
#[derive(Drop)]
pub(crate) struct AliasPaths<'a> {
    alloc: Global,
    entries: Entries<'a>,
    paths: &'a [Option<Path>],
}

impl<'a> AliasPaths<'a> {
    // The path of the entry of that number.
    fn path(&self, number: usize) -> Option<&Path>
        ensures { option_copied result ≡ slice_index_or self.now.paths.now number None }
    {
        match self.paths.get(number) {
            Some(Some(path)) => Some(path),
            _ => None,
        }
    }
}

impl<'a> Leads for AliasPaths<'a> {
    ghost next = { alias_next };

    fn leads_to_marked(&self, number: usize, marks: &[bool]) -> Result<bool, AllocError> {
        leads_to_marked(self.alloc, self.entries, number, self.path(number), marks)
    }
}

fn alias_paths(survey: &Survey, count: usize) -> Result<Vec<Option<Path>>, AllocError>
    ensures { IsInOrder survey.now → IfOk result (λ v. v.items
        ≡ each_below (path_of_alias survey.now) count) }
{
    let mut paths = Vec::new(survey.memory());
    'each: for number in 0..count {
        paths.push(alias_path(survey, number)?)?;
    }
    Ok(paths)
}

// Marks of the entries that are methods.
fn method_marks(survey: &Survey, count: usize) -> Result<Vec<bool>, AllocError>
    ensures count { IfOk result (λ v. length v.items ≡ count) }
    ensures marks { IsInOrder survey.now → IfOk result (λ v. v.items
        ≡ each_below (λ n. is_method (entry_object survey.now n)) count) }
{
    let mut marks = Vec::new(survey.memory());
    'each: for number in 0..count {
        marks.push(is_method(&object_kind(part_of(survey, number), number)))?;
    }
    Ok(marks)
}

/// Which entries of a survey mean a method (ACPI 6.5, 19.6.4 and 20.2.5): the methods, and the Aliases that lead to
/// one, through others or not. A contract sees a mark for each entry, by its number.
#[derive(Drop)]
pub struct Callables {
    marks: Vec<bool>,
}

impl Model for Callables {
    ghost use Rattle.std.specs.Prelude.{Bool, List};

    ghost Value = { List Bool };

    ghost view = { λ c. c.marks.items };
}

impl Callables {
    /// Those of a survey.
    pub fn new(survey: &Survey) -> Result<Callables, AllocError>
        ensures { IsInOrder survey.now → IfOk result (AreCallables survey.now) }
    {
        let entries = survey.entries();
        let count = entries.paths.entries().len();
        let paths = alias_paths(survey, count)?;
        let mut marks = method_marks(survey, count)?;
        let leads = AliasPaths {
            alloc: survey.memory(),
            entries,
            paths: &paths,
        };
        mark_all(&leads, &mut marks)?;
        Ok(Callables { marks })
    }

    /// Whether one of the entries of these numbers means a method.
    pub fn any_is_callable(&self, numbers: &[usize]) -> bool
        ensures marks { result ≡ any_is_callable self.now numbers.now }
        ensures methods { (s : SurveyForm) → AreCallables s self.now
            → IsTrue result ↔ ((m : ℕ) × Among numbers.now m × MeansMethod s m) }
    {
        any_marked(&self.marks, numbers)
    }

    /// Whether a name in the body of a method means a method: no line before declares the last path at which it may be
    /// found, and one of the entries there that are seen from the method means one.
    pub fn names_method(&self, survey: &Survey, name: &BodyName<'_>) -> Result<bool, AllocError>
        ensures marks { IfOk result (λ b. b
            ≡ any_is_callable self.now (named_entries survey.now (name_view name.now))) }
        ensures methods { AreCallables survey.now self.now
            → IfOk result (λ b. IsTrue b ↔ NamesMethod survey.now (name_view name.now)) }
    {
        if name.is_local {
            return Ok(false);
        }
        let path = name.link.paths.last();
        leads_to_marked(
            survey.memory(),
            survey.entries(),
            name.method,
            path,
            &self.marks,
        )
    }
}
