//! Entries whose names are declared nowhere.

ghost use Rattle.std.specs.Prelude.{◌≡◌, ◌++◌, IfOk, OnOk, map};
ghost use Rattle.acpi_entries.specs.ConditionViews.{link_view, link_views};
ghost use Rattle.acpi_survey.specs.SurveyOrder.{IsInOrder};
ghost use Rattle.acpi_name_checks.specs.NoLinks.{lost_name, names_without, unlinked_names as names_of};

use crate::forms::field_forms;
use acpi_entries::{Link, links_of};
use acpi_name::Name;
use acpi_ranges::{
    Site, SpanContent, byte_at, entry_numbered, part_of, site_at, site_of, table_at,
};
use acpi_survey::Survey;
use std::alloc::{AllocError, Global};

/// An entry with names that are declared nowhere, or several of one field form.
#[derive(Debug, Drop)]
pub struct LostLinks<'a> {
    /// The number of the entry; of field units that of the first.
    pub entry: usize,
    /// Its names that are declared nowhere.
    pub names: Vec<&'a Name>,
    /// Where it stands; of field units their form.
    pub site: Site,
    /// How many field units of the form have such names; none of an entry that is no field unit.
    pub units: Option<usize>,
}

// Puts the name of a link that leads nowhere behind others.
fn put_lost<'a>(names: &mut Vec<&'a Name>, link: &Link<'a>) -> Result<(), AllocError>
    ensures { OnOk result (map (λ n. n.now) names.new.items
        ≡ map (λ n. n.now) names.old.items ++ lost_name (link_view link.now)) }
{
    if link.paths.is_empty() {
        names.push(link.name)?;
    }
    Ok(())
}

// The names of links that lead nowhere.
fn names_without<'a>(alloc: Global, links: &[Link<'a>]) -> Result<Vec<&'a Name>, AllocError>
    ensures { IfOk result (λ v. map (λ n. n.now) v.items ≡ names_without (link_views links.now)) }
{
    let mut names = Vec::new(alloc);
    'each: for link in links {
        put_lost(&mut names, link)?;
    }
    Ok(names)
}

/// The names of the term of the entry of that number that are declared nowhere (ACPI 6.5, 5.3): of a field unit those of its
/// region, index and data, or region and bank; of a Create field or an Alias that of its source.
pub fn unlinked_names(survey: &Survey, number: usize) -> Result<Vec<&Name>, AllocError>
    ensures { IsInOrder survey.now
        → IfOk result (λ v. map (λ n. n.now) v.items ≡ names_of survey.now number) }
{
    names_without(survey.memory(), &links_of(survey, number)?)
}

fn is_unit(survey: &Survey, number: usize) -> bool {
    match part_of(survey, number) {
        Some(part) => matches!(part.what, SpanContent::Element(_, _, _)),
        None => false,
    }
}

// Of the places of forms the last before a place.
fn form_before(forms: &[usize], place: usize) -> Option<usize> {
    let count = forms.partition_point(|f| *f < place);
    forms.get(count.checked_sub(1)?).copied()
}

// Where the field forms of each table stand.
fn all_forms(survey: &Survey) -> Result<Vec<Vec<usize>>, AllocError> {
    let mut forms = Vec::new(survey.memory());
    for table in &survey.tables {
        forms.push(field_forms(survey.memory(), &table.nodes)?)?;
    }
    Ok(forms)
}

// The form of a field unit at a place.
fn form_site(forms: &[Vec<usize>], place: u128) -> Site {
    let table = table_at(place);
    let form = forms
        .get(table)
        .and_then(|f| form_before(f, byte_at(place)));
    match form {
        Some(form) => site_at(table, form),
        None => site_of(place),
    }
}

// Counts one unit more of the form at a site, if the last of these are of that one.
fn is_counted(found: &mut [LostLinks<'_>], site: Site) -> bool {
    let Some(last) = found.last_mut() else {
        return false;
    };
    match last.units {
        Some(count) if last.site == site => {
            last.units = Some(count.saturating_add(1));
            true
        }
        _ => false,
    }
}

// Puts an entry with names that are declared nowhere behind others.
fn put_entry<'a>(
    found: &mut Vec<LostLinks<'a>>,
    forms: &[Vec<usize>],
    survey: &Survey,
    entry: usize,
    names: Vec<&'a Name>,
) -> Result<(), AllocError> {
    let Some(place) = entry_numbered(survey.entries(), entry).map(|e| e.term.place) else {
        return Ok(());
    };
    let is_unit = is_unit(survey, entry);
    let site = if is_unit {
        form_site(forms, place)
    } else {
        site_of(place)
    };
    if is_unit && is_counted(found, site) {
        return Ok(());
    }
    found.push(LostLinks {
        entry,
        names,
        site,
        units: if is_unit { Some(1) } else { None },
    })?;
    Ok(())
}

/// The entries with names that are declared nowhere, in the order of their numbers: of field units one for each form (ACPI 6.5,
/// 5.3 and 20.2.5.2).
pub fn lost_links(survey: &Survey) -> Result<Vec<LostLinks<'_>>, AllocError> {
    let forms = all_forms(survey)?;
    let mut found = Vec::new(survey.memory());
    for number in 0..survey.entries().paths.entries().len() {
        let names = unlinked_names(survey, number)?;
        if !names.is_empty() {
            put_entry(&mut found, &forms, survey, number, names)?;
        }
    }
    Ok(found)
}
