//! Why something is lost, refused or noticed, in words.

ghost use Rattle.std.specs.Prelude.{◌≡◌, ◌++◌};
ghost use Rattle.std.specs.Option.{option_map};
ghost use Rattle.acpi_conditions.specs.EntryForms.{why_of};
ghost use Rattle.acpins_survey_reasons.specs.Reasons.{table_reason_text, term_reason_text, lost_reason_text, why_name, problem_name as problem_name_text, note_name as note_name_text, why_paths, problem_paths as paths_of, named_text, noted_name as name_noted, paths_behind, why_text, problem_reason_text, note_reason_text, body_fault_text};
ghost use Rattle.acpi_name.specs.Text.{path_text};
ghost use Rattle.acpi_text.specs.Constants.{separated};

use acpi_body::BodyReason;
use acpi_conditions::Reason;
use acpi_findings::{NoteReason, ProblemReason};
use acpi_name::{Name, Path};
use acpi_outline::LostReason;
use acpi_pieces::TableReason;
use acpi_text::{put_name, put_path};
use std::slice::from_ref;
use text_buffer::Text;

// ---- the number and the name of a reason

/// The number and the name of a reason why none of a table is read.
pub fn table_reason_name(reason: TableReason) -> &'static str
    ensures { result.now ≡ table_reason_text reason }
{
    match reason {
        TableReason::Table(fault) => fault.text(),
        TableReason::NotDsdt => "L1 NotDsdt",
        TableReason::NotSsdt => "L2 NotSsdt",
    }
}

// Of a term at module level.
fn term_reason_name(reason: BodyReason) -> &'static str
    ensures { result.now ≡ term_reason_text reason }
{
    match reason {
        BodyReason::Cut => "K1 Cut",
        BodyReason::BadOpcode => "K2 BadOpcode",
        BodyReason::ReservedBits => "K3 ReservedBits",
        BodyReason::BadName => "K4 BadName",
        BodyReason::Overrun => "K5 Overrun",
        BodyReason::NotStatement => "B7 NotValue",
        BodyReason::NotValue => "B7 NotValue",
        BodyReason::NotTarget => "B8 NotTarget",
        BodyReason::LeftOut => "B7 NotValue",
        BodyReason::BadString => "K13 BadString",
        BodyReason::TooDeep => "K12 TooDeep",
        BodyReason::NotData => "K11 NotData",
        BodyReason::BadPlace => "B13 BadPlace",
        BodyReason::Unsure => "S5 UnsureCount",
    }
}

/// The number and the name of a reason why a part of a table's code is lost.
pub fn lost_reason_name(reason: LostReason) -> &'static str
    ensures { result.now ≡ lost_reason_text reason }
{
    match reason {
        LostReason::Term(reason) => term_reason_name(reason),
        LostReason::NoNode => "K2 BadOpcode",
        LostReason::ManyArguments => "K3 ReservedBits",
        LostReason::Computed => "K6 Computed",
    }
}

fn refusal_name(reason: &Reason) -> &'static str
    ensures { result.now ≡ why_name (why_of reason.now) }
{
    match reason {
        Reason::EmptyName(_) => "E1 EmptyName",
        Reason::AboveRoot(_) => "E2 AboveRoot",
        Reason::Missing(_) => "E3 Missing",
        Reason::NoParent(_) => "E4 NoParent",
        Reason::NotAScope(_) => "E5 NotAScope",
        Reason::Taken(_) => "E6 Taken",
        Reason::Unsure(_) => "S1 Unsure",
    }
}

/// The number and the name of the reason of a problem.
pub fn problem_name(reason: &ProblemReason) -> &'static str
    ensures { result.now ≡ problem_name_text reason.now }
{
    match reason {
        ProblemReason::Unread(reason) => table_reason_name(*reason),
        ProblemReason::Cut => "T4 Cut",
        ProblemReason::Trailing => "L3 Trailing",
        ProblemReason::Lost(fault) => lost_reason_name(fault.reason),
        ProblemReason::Refused(reason) => refusal_name(reason),
    }
}

/// The number and the name of the reason of a note.
pub fn note_name(reason: &NoteReason) -> &'static str
    ensures { result.now ≡ note_name_text reason.now }
{
    match reason {
        NoteReason::BadSum => "T5 BadSum",
        NoteReason::NotDsdt => "L1 NotDsdt",
        NoteReason::NotSsdt => "L2 NotSsdt",
        NoteReason::Unknown(_) => "S2 Unknown",
        NoteReason::Stray => "S3 Stray",
        NoteReason::StrayElse => "S4 StrayElse",
        NoteReason::Loads => "S6 Loads",
    }
}

// ---- the reason with what it names

/// The paths that a refusal names.
pub fn refused_paths(reason: &Reason) -> &[Path]
    ensures { result.now ≡ why_paths (why_of reason.now) }
{
    match reason {
        Reason::EmptyName(path) => from_ref(path),
        Reason::AboveRoot(path) => from_ref(path),
        Reason::Missing(path) => from_ref(path),
        Reason::NoParent(path) => from_ref(path),
        Reason::NotAScope(path) => from_ref(path),
        Reason::Taken(path) => from_ref(path),
        Reason::Unsure(paths) => paths,
    }
}

/// The paths that the reason of a problem names.
pub fn problem_paths(reason: &ProblemReason) -> &[Path]
    ensures { result.now ≡ paths_of reason.now }
{
    match reason {
        ProblemReason::Refused(reason) => refused_paths(reason),
        _ => &[],
    }
}

/// The name that a note names.
pub fn noted_name(reason: &NoteReason) -> Option<&Name>
    ensures { option_map (λ n. n.now) result ≡ name_noted reason.now }
{
    match reason {
        NoteReason::Unknown(name) => Some(name),
        _ => None,
    }
}

/// Puts paths with something between each two.
pub fn put_paths(text: &mut Text, between: &str, paths: &[Path])
    ensures { text.new ≡ text.old ++ separated between.now path_text paths.now }
{
    match paths {
        [] => {},
        [first, rest @ ..] => {
            put_path(text, first);
            for path in rest {
                text.put(between);
                put_path(text, path);
            }
        }
    }
}

// A blank and paths, with a comma between each two; nothing where there are none.
fn put_paths_behind(text: &mut Text, paths: &[Path])
    ensures { text.new ≡ text.old ++ paths_behind paths.now }
{
    if paths.is_empty() {
        return;
    }
    text.put(" ");
    put_paths(text, ", ", paths)
}

/// Puts a blank and a name, if there is one.
pub fn put_named(text: &mut Text, name: Option<&Name>)
    ensures { text.new ≡ text.old ++ named_text (option_map (λ n. n.now) name.entry) }
{
    match name {
        Some(name) => {
            text.put(" ");
            put_name(text, name.view())
        }
        None => {},
    }
}

/// Puts why a term declares nothing or a Scope isn't entered: the number and name of the reason, and its paths.
pub fn put_refusal(text: &mut Text, reason: &Reason)
    ensures { text.new ≡ text.old ++ why_text (why_of reason.now) }
{
    text.put(refusal_name(reason));
    put_paths_behind(text, refused_paths(reason))
}

/// Puts the reason of a problem: its number and name, and the paths of a refusal or the name of which it isn't sure how
/// many values follow it.
pub fn put_problem_reason(text: &mut Text, reason: &ProblemReason, name: Option<&Name>)
    ensures { text.new
        ≡ text.old ++ problem_reason_text reason.now (option_map (λ n. n.now) name.entry) }
{
    text.put(problem_name(reason));
    put_paths_behind(text, problem_paths(reason));
    put_named(text, name)
}

/// Puts the reason of a note: its number and name, and the name of which nothing is known.
pub fn put_note_reason(text: &mut Text, reason: &NoteReason)
    ensures { text.new ≡ text.old ++ note_reason_text reason.now }
{
    text.put(note_name(reason));
    put_named(text, noted_name(reason))
}

/// Puts why a body can't be read: the number and the name of the reason, and the name of which it isn't sure how many
/// values follow it.
pub fn put_body_reason(text: &mut Text, reason: BodyReason, name: &Option<Name>)
    ensures { text.new ≡ text.old ++ body_fault_text reason name.now }
{
    text.put(reason.text());
    put_named(text, name.as_ref())
}
