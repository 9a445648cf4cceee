//! Problems and notes in JSON.

ghost use Rattle.std.specs.Prelude.{◌≡◌, ◌++◌, None, codes};
ghost use Rattle.std.specs.Option.{option_map};
ghost use Rattle.acpins_survey_json.specs.Json.{Members, array_lines, member, more_members_text, object, value_text, values_of};
ghost use Rattle.acpins_survey_json.specs.JsonFound.{note_value, problem_value, range_value, reason_members, rest_members, site_members};
ghost use Rattle.acpins_survey_json.specs.JsonValues.{value_or_null};
ghost use Rattle.acpins_survey_json.specs.steps.JsonPuts.{PutsMembers};

use crate::members::{
    put_member, put_number_member, put_paths_member, put_some_name_member, put_some_path_member,
    put_word_member,
};
use crate::values::{put_line_start, put_lines_end};
use acpi_findings::{Note, Problem};
use acpi_name::{Name, Path};
use acpi_ranges::{LostRange, Site};
use acpins_survey_reasons::{note_name, noted_name, problem_name, problem_paths};
use text_buffer::Text;

/// Puts the members that say where something stands, behind others.
pub fn put_site(text: &mut Text, site: Site)
    ensures { PutsMembers (site_members site) text.old text.new }
{
    put_number_member(text, ",", "table", site.table as u64);
    put_number_member(text, ",", "offset", site.offset as u64)
}

// Puts a brace, the member of the reason, and those of the paths and the name that it names.
fn put_reason(text: &mut Text, reason: &str, paths: &[Path], name: Option<&Name>)
    ensures { (ms : Members) → text.new ++ more_members_text ms
        ≡ text.old ++ value_text (object (reason_members reason.now paths.now
        (option_map (λ n. n.now) name.entry) ms)) }
{
    put_word_member(text, "{", "reason", reason);
    put_paths_member(text, ",", "paths", paths);
    put_some_name_member(text, ",", "name", name)
}

fn put_range(text: &mut Text, range: LostRange)
    ensures { text.new ≡ text.old ++ value_text (range_value range) }
{
    put_number_member(text, "{", "from", range.from as u64);
    put_number_member(text, ",", "to", range.to as u64);
    text.put("}")
}

fn put_lost(text: &mut Text, lost: Option<LostRange>)
    ensures { text.new ≡ text.old ++ value_text (value_or_null range_value lost) }
{
    match lost {
        Some(range) => put_range(text, range),
        None => text.put("null"),
    }
}

// Puts the member of the bytes that are lost, behind others.
fn put_lost_member(text: &mut Text, lost: Option<LostRange>)
    ensures { PutsMembers (member (codes "lost") (value_or_null range_value lost))
        text.old text.new }
{
    put_member(text, ",", "lost");
    put_lost(text, lost)
}

// Puts the members of the bytes that are lost, and of the scope, behind others, and a brace.
fn put_rest(text: &mut Text, lost: Option<LostRange>, scope: &Option<Path>)
    ensures { text.new ≡ text.old ++ more_members_text (rest_members lost scope.now) }
{
    put_lost_member(text, lost);
    put_some_path_member(text, ",", "scope", scope);
    text.put("}")
}

fn put_problem(text: &mut Text, problem: &Problem)
    ensures { text.new ≡ text.old ++ value_text (problem_value problem.now) }
{
    let reason = &problem.reason;
    let name = problem.name.as_ref();
    put_reason(text, problem_name(reason), problem_paths(reason), name);
    put_site(text, problem.site);
    put_rest(text, problem.lost, &problem.scope)
}

fn put_note(text: &mut Text, note: &Note)
    ensures { text.new ≡ text.old ++ value_text (note_value note.now) }
{
    let name = noted_name(&note.reason);
    put_reason(text, note_name(&note.reason), &[], name);
    put_site(text, note.site);
    put_rest(text, None, &note.scope)
}

/// Puts an array of the problems, each on a line.
pub(crate) fn put_problems(text: &mut Text, problems: &[Problem])
    ensures { text.new ≡ text.old
        ++ array_lines (values_of problem_value problems.now) }
{
    text.put("[");
    let mut is_first = true;
    for problem in problems {
        put_line_start(text, is_first);
        put_problem(text, problem);
        is_first = false;
    }
    put_lines_end(text, is_first)
}

/// Puts an array of the notes, each on a line.
pub(crate) fn put_notes(text: &mut Text, notes: &[Note])
    ensures { text.new ≡ text.old
        ++ array_lines (values_of note_value notes.now) }
{
    text.put("[");
    let mut is_first = true;
    for note in notes {
        put_line_start(text, is_first);
        put_note(text, note);
        is_first = false;
    }
    put_lines_end(text, is_first)
}
