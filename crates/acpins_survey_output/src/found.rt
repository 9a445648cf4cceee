//! The lines of problems and notes.

ghost use Rattle.std.specs.Prelude.{◌≡◌, ◌++◌};
ghost use Rattle.std.specs.List.{flat_map};
ghost use Rattle.acpins_survey_output.specs.Found.{site_text, range_text, lost_text, scope_text, problem_line, note_line, is_before as comes_before, is_met_first, notes_before, notes_behind, found_text};

use acpi_findings::{Note, Problem, ProblemReason};
use acpi_name::Path;
use acpi_ranges::{LostRange, Site};
use acpi_text::{put_decimal, put_path};
use acpins_survey_reasons::{put_note_reason, put_problem_reason};
use text_buffer::Text;

// ---- lines

// The table and the offset, and what stands behind them.
fn put_site(text: &mut Text, site: Site)
    ensures { text.new ≡ text.old ++ site_text site }
{
    put_decimal(text, site.table as u64);
    text.put(" at ");
    put_decimal(text, site.offset as u64);
    text.put(": ")
}

/// Puts where a range begins and ends.
pub(crate) fn put_range(text: &mut Text, from: usize, to: usize)
    ensures { text.new ≡ text.old ++ range_text from to }
{
    put_decimal(text, from as u64);
    text.put("-");
    put_decimal(text, to as u64)
}

fn put_lost(text: &mut Text, lost: Option<LostRange>)
    ensures { text.new ≡ text.old ++ lost_text lost }
{
    match lost {
        Some(range) => {
            text.put(" lost ");
            put_range(text, range.from, range.to)
        }
        None => {},
    }
}

fn put_scope(text: &mut Text, scope: &Option<Path>)
    ensures { text.new ≡ text.old ++ scope_text scope.now }
{
    match scope {
        Some(path) => {
            text.put(" in ");
            put_path(text, path)
        }
        None => {},
    }
}

/// Puts the line of a problem: where, why, what is lost, and the scope in which it stands.
pub fn put_problem(text: &mut Text, problem: &Problem)
    ensures { text.new ≡ text.old ++ problem_line problem.now }
{
    text.put("! ");
    put_site(text, problem.site);
    put_problem_reason(text, &problem.reason, problem.name.as_ref());
    put_lost(text, problem.lost);
    put_scope(text, &problem.scope);
    text.put("\n")
}

/// Puts the line of a note: where, what, and the scope in which it stands.
pub fn put_note(text: &mut Text, note: &Note)
    ensures { text.new ≡ text.old ++ note_line note.now }
{
    text.put("~ ");
    put_site(text, note.site);
    put_note_reason(text, &note.reason);
    put_scope(text, &note.scope);
    text.put("\n")
}

// ---- problems and notes together

/// Whether a site stands before another.
pub(crate) fn is_before(site: Site, other: Site) -> bool
    ensures { result ≡ comes_before site other }
{
    site.table < other.table || site.table == other.table && site.offset < other.offset
}

// Whether a problem is met before a note: at one place a refusal comes behind notes, and what is lost before it is told
// before them.
fn comes_first(problem: &Problem, note: &Note) -> bool
    ensures { result ≡ is_met_first problem.now note.now }
{
    match problem.reason {
        ProblemReason::Refused(_) => is_before(problem.site, note.site),
        _ => !is_before(note.site, problem.site),
    }
}

// The notes behind those that come before a problem, whose lines are put.
fn put_notes_before<'a>(text: &mut Text, notes: &'a [Note], problem: &Problem) -> &'a [Note]
    ensures text { text.new ≡ text.old ++ notes_before problem.now notes.now }
    ensures rest { result.now ≡ notes_behind problem.now notes.now }
{
    let mut rest = notes;
    while let [first, others @ ..] = rest {
        if comes_first(problem, first) {
            return rest;
        }
        put_note(text, first);
        rest = others;
    }
    rest
}

fn put_notes(text: &mut Text, notes: &[Note])
    ensures { text.new ≡ text.old ++ flat_map note_line notes.now }
{
    for note in notes {
        put_note(text, note);
    }
}

/// Puts the lines of problems and notes by their sites, those of one site in the order in which they were met.
pub fn put_found(text: &mut Text, problems: &[Problem], notes: &[Note])
    ensures { text.new ≡ text.old ++ found_text problems.now notes.now }
{
    let mut rest = notes;
    for problem in problems {
        rest = put_notes_before(text, rest, problem);
        put_problem(text, problem);
    }
    put_notes(text, rest)
}
