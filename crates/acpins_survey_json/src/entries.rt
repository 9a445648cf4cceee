//! Entries in JSON.

ghost use Rattle.std.specs.Prelude.{◌≡◌, ◌++◌, ℕ, Option, Some, None, OnOk, codes};
ghost use Rattle.std.specs.Option.{option_map};
ghost use Rattle.acpi_condition_list.specs.ConditionLists.{conditioned_view};
ghost use Rattle.acpi_entries.specs.ConditionViews.{link_view, link_views};
ghost use Rattle.acpi_survey.specs.SurveyOrder.{IsInOrder};
ghost use Rattle.acpi_ranges.specs.Lookup.{Found, found_of};
ghost use Rattle.acpins_survey_json.specs.Json.{Members, array, array_lines, member, more_members_text, value_text, values_of};
ghost use Rattle.acpins_survey_json.specs.JsonEntries.{entry_value, link_value, place_of, term_members};
ghost use Rattle.acpins_survey_json.specs.JsonValues.{number_value, value_or_null};
ghost use Rattle.acpins_survey_json.specs.steps.JsonPuts.{PutsMembers};
ghost use Rattle.acpins_survey_reasons.specs.Numbered.{links_of, part_of};

use crate::found::put_site;
use crate::members::{
    put_boolean_member, put_member, put_name_member, put_number_member, put_path_member,
    put_paths_member, put_some_number_member,
};
use crate::objects::put_object;
use crate::values::{put_element_start, put_line_start, put_lines_end};
use acpi_condition_list::ConditionedEntry;
use acpi_entries::{Link, links_in};
use acpi_objects::object_kind;
use acpi_ranges::{Span, part_of, site_of};
use acpi_survey::Survey;
use std::alloc::AllocError;
use text_buffer::Text;

// ---- links

fn put_link(text: &mut Text, link: &Link<'_>)
    ensures { text.new ≡ text.old ++ value_text (link_value (link_view link.now)) }
{
    put_name_member(text, "{", "name", link.name);
    put_paths_member(text, ",", "candidates", &link.paths);
    put_boolean_member(text, ",", "certain", link.is_certain);
    text.put("}")
}

fn put_link_list(text: &mut Text, links: &[Link<'_>])
    ensures { text.new
        ≡ text.old ++ value_text (array (values_of link_value (link_views links.now))) }
{
    text.put("[");
    let mut is_first = true;
    for link in links {
        put_element_start(text, is_first);
        put_link(text, link);
        is_first = false;
    }
    text.put("]")
}

/// Puts a member that is where names may be found, behind others.
pub fn put_links(text: &mut Text, links: &[Link<'_>])
    ensures { PutsMembers (member (codes "links") (array (values_of link_value (link_views links.now))))
        text.old text.new }
{
    put_member(text, ",", "links");
    put_link_list(text, links)
}

// ---- entries

/// Where the term of the entry of that number stands, as one number.
pub(crate) fn place_at(survey: &Survey, number: usize) -> Option<u128>
    ensures { result ≡ place_of survey.now number }
{
    let entry = survey.entry(number)?;
    Some(entry.term.place)
}

// Puts the members of where a term stands that is this part, behind others, and a brace.
fn put_part(text: &mut Text, part: &Span<'_>, place: u128)
    ensures { (found : Found) → found_of part.now ≡ Some found → text.new
        ≡ text.old ++ more_members_text (term_members (Some found) (Some place)) }
{
    put_site(text, site_of(place));
    let length = part.to.saturating_sub((place % (1 << 64)) as usize);
    put_number_member(text, ",", "length", length as u64);
    text.put("}")
}

// Puts the members of a term that stands nowhere, behind others, and a brace.
fn put_nowhere(text: &mut Text)
    ensures { (place : Option ℕ) → text.new
        ≡ text.old ++ more_members_text (term_members None place) }
{
    text.put(",\"table\":null,\"offset\":null,\"length\":null}")
}

// Puts the members that say where the term of an entry stands, which is this part, behind others, and a brace.
fn put_term_place(text: &mut Text, survey: &Survey, number: usize, part: Option<Span<'_>>)
    ensures { (found : Option Found) → option_map found_of part.entry ≡ option_map Some found
        → text.new ≡ text.old
        ++ more_members_text (term_members found (place_of survey.now number)) }
{
    let Some(part) = part else {
        return put_nowhere(text);
    };
    match place_at(survey, number) {
        Some(place) => put_part(text, &part, place),
        None => put_nowhere(text),
    }
}

// Puts the members of the links of the entry of that number, whose term is this part, and of the last literal of its
// condition, behind others.
fn put_lists(
    text: &mut Text,
    survey: &Survey,
    entry: &ConditionedEntry<'_>,
    part: Option<Span<'_>>,
) -> Result<(), AllocError>
    ensures { IsInOrder survey.now → option_map found_of part.entry
        ≡ option_map Some (part_of survey.now entry.now.number)
        → OnOk result ((ms : Members) → text.new
        ++ more_members_text ms ≡ text.old ++ more_members_text
        (member (codes "links") (array (values_of link_value (links_of survey.now entry.now.number)))
        (member (codes "condition") (value_or_null number_value entry.now.condition) ms))) }
{
    let links = links_in(survey, entry.number, part)?;
    put_links(text, &links);
    put_some_number_member(text, ",", "condition", entry.condition);
    Ok(())
}

fn put_entry(
    text: &mut Text,
    survey: &Survey,
    entry: &ConditionedEntry<'_>,
) -> Result<(), AllocError>
    ensures { IsInOrder survey.now → OnOk result (text.new
        ≡ text.old ++ value_text (entry_value survey.now (conditioned_view entry.now))) }
{
    let part = part_of(survey, entry.number);
    let kind = object_kind(part, entry.number);
    put_path_member(text, "{", "path", entry.path);
    put_object(text, &kind);
    put_lists(text, survey, entry, part)?;
    put_term_place(text, survey, entry.number, part);
    Ok(())
}

/// Puts an array of the entries, in that order, each on a line.
pub(crate) fn put_entries(
    text: &mut Text,
    survey: &Survey,
    entries: &[ConditionedEntry<'_>],
) -> Result<(), AllocError>
    ensures { IsInOrder survey.now → OnOk result (text.new ≡ text.old ++ array_lines
        (values_of (λ e. entry_value survey.now (conditioned_view e)) entries.now)) }
{
    text.put("[");
    let mut is_first = true;
    for entry in entries {
        put_line_start(text, is_first);
        put_entry(text, survey, entry)?;
        is_first = false;
    }
    put_lines_end(text, is_first);
    Ok(())
}
