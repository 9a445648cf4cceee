//! Bodies of methods in JSON.

ghost use Rattle.std.specs.Prelude.{◌≡◌, ◌++◌, ◌∷◌, [], ℕ, List, Option, IfOk, OnOk, codes, map};
ghost use Rattle.std.specs.List.{AllZip};
ghost use Rattle.acpi_tree.specs.TermView.{terms_tree};
ghost use Rattle.acpi_text.specs.Constants.{hex_digits, separated};
ghost use Rattle.acpi_text.specs.Terms.{statements_text};
ghost use Rattle.acpi_survey.specs.SurveyOrder.{IsInOrder};
ghost use Rattle.acpi_entries.specs.declared.body.MethodBody.{MethodBody as MethodBodyForm};
ghost use Rattle.acpins_survey_json.specs.Json.{Members, Value, array_lines, elements, lines_behind, member, more_members_text, no_members, null, object, string, value_text, values_behind, values_of};
ghost use Rattle.acpins_survey_json.specs.JsonBodies.{body_value, body_values, lines_from, lines_value, number_site, opaque_value, reading_members};
ghost use Rattle.acpins_survey_reasons.specs.Reasons.{body_fault_text};
ghost use Rattle.acpi_conditions.specs.ByPath.{lent_pair};
ghost use Rattle.acpins_survey_reasons.specs.Numbered.{IsBodyAt, zip_text};
ghost use Rattle.acpins_survey_json.specs.steps.JsonPuts.{PutsMembers};

use crate::entries::place_at;
use crate::found::put_site;
use crate::members::{put_form_member, put_member, put_number_member, put_path_member};
use crate::values::{put_element_start, put_form, put_line_start, put_lines_end};
use acpi_body::BodyReason;
use acpi_entries::{BodyReading, MethodBody, body_of};
use acpi_name::{Name, Path};
use acpi_ranges::{Site, site_of};
use acpi_survey::Survey;
use acpi_text::{put_spaced, put_terms};
use acpi_tree::Term;
use acpins_survey_reasons::put_body_reason;
use std::alloc::AllocError;
use text_buffer::Text;

// Puts what a character of lines adds to an array of them, behind the beginning of a line; and whether the next element
// still is the first.
fn put_line_character(text: &mut Text, line: &mut Text, is_first: bool, character: u8) -> bool
    ensures { (cs : List ℕ) → text.new
        ++ values_behind result (values_of string (lines_from line.new cs))
        ≡ text.old ++ values_behind is_first (values_of string (lines_from line.old (character ∷ cs))) }
{
    if character != b'\n' {
        line.put_one(character);
        return is_first;
    }
    put_element_start(text, is_first);
    put_form(text, line);
    line.clear();
    false
}

// Lines, each with an end, as an array of texts.
fn put_lines(text: &mut Text, lines: &[u8])
    ensures { text.new ≡ text.old ++ value_text (lines_value lines.now) }
{
    text.put("[");
    let mut line = Text::new(text.alloc());
    let mut is_first = true;
    for character in lines {
        is_first = put_line_character(text, &mut line, is_first, *character);
    }
    text.put("]")
}

fn put_statements(text: &mut Text, terms: &[Term]) -> Result<(), AllocError>
    ensures { OnOk result (text.new ≡ text.old
        ++ value_text (lines_value (statements_text [] (terms_tree terms.now)))) }
{
    let mut lines = Text::new(text.alloc());
    put_terms(&mut lines, terms);
    put_lines(text, &lines.into_bytes()?);
    Ok(())
}

// The bytes of a code, two digits each.
fn put_bytes_member(text: &mut Text, code: &[u8])
    ensures { PutsMembers (member (codes "bytes")
        (string (separated (codes " ") (hex_digits 2) code.now)))
        text.old text.new }
{
    let mut form = Text::new(text.alloc());
    put_spaced(&mut form, code);
    put_form_member(text, ",", "bytes", &form)
}

fn put_reason_member(text: &mut Text, reason: BodyReason, name: &Option<Name>)
    ensures { (ms : Members) → text.new ++ more_members_text ms
        ≡ text.old ++ value_text (object (member (codes "reason")
        (string (body_fault_text reason name.now)) ms)) }
{
    let mut form = Text::new(text.alloc());
    put_body_reason(&mut form, reason, name);
    put_form_member(text, "{", "reason", &form)
}

fn put_opaque(text: &mut Text, code: &[u8], reason: BodyReason, place: usize, name: &Option<Name>)
    ensures { text.new ≡ text.old
        ++ value_text (opaque_value code.now reason place name.now) }
{
    put_reason_member(text, reason, name);
    put_number_member(text, ",", "at", place as u64);
    put_bytes_member(text, code);
    text.put("}")
}

// Puts the members of statements that are read, behind others, and a brace.
fn put_read(text: &mut Text, terms: &[Term]) -> Result<(), AllocError>
    ensures { OnOk result (text.new ≡ text.old ++ more_members_text
        (member (codes "statements") (lines_value (statements_text [] (terms_tree terms.now)))
        (member (codes "opaque") null no_members))) }
{
    put_member(text, ",", "statements");
    put_statements(text, terms)?;
    text.put(",\"opaque\":null}");
    Ok(())
}

// Puts the members of a code that can't be read, behind others, and a brace.
fn put_unread(text: &mut Text, code: &[u8], reason: BodyReason, place: usize, name: &Option<Name>)
    ensures { text.new ≡ text.old ++ more_members_text
        (member (codes "statements") null
        (member (codes "opaque") (opaque_value code.now reason place name.now) no_members)) }
{
    text.put(",\"statements\":null");
    put_member(text, ",", "opaque");
    put_opaque(text, code, reason, place, name);
    text.put("}")
}

fn put_reading(text: &mut Text, body: &MethodBody<'_>) -> Result<(), AllocError>
    ensures { OnOk result (text.new ≡ text.old
        ++ more_members_text (reading_members body.now.code.now body.now.reading)) }
{
    match &body.reading {
        BodyReading::Terms(terms) => put_read(text, terms),
        BodyReading::Opaque {
            reason,
            place,
            name,
        } => {
            put_unread(text, body.code, *reason, *place, name);
            Ok(())
        }
    }
}

// Where the term of the entry of that number stands.
fn site_at(survey: &Survey, number: usize) -> Site
    ensures { result ≡ number_site survey.now number }
{
    site_of(place_at(survey, number).unwrap_or(0))
}

fn put_body(
    text: &mut Text,
    survey: &Survey,
    numbered: (&Path, usize),
    body: &MethodBody<'_>,
) -> Result<(), AllocError>
    ensures { OnOk result (text.new ≡ text.old
        ++ value_text (body_value survey.now (lent_pair numbered.entry) body.now)) }
{
    put_path_member(text, "{", "path", numbered.0);
    put_site(text, site_at(survey, numbered.1));
    put_number_member(text, ",", "code_offset", body.offset as u64);
    put_number_member(text, ",", "code_length", body.code.len() as u64);
    put_reading(text, body)
}

// Puts the body of an entry on a line, if there is one; and whether it still is the first.
fn put_some_body(
    text: &mut Text,
    survey: &Survey,
    numbered: (&Path, usize),
    body: &Option<MethodBody<'_>>,
    is_first: bool,
) -> Result<bool, AllocError>
    ensures { IfOk result (λ next. (vs : List Value)
        → text.new ++ lines_behind next (elements vs)
        ≡ text.old ++ lines_behind is_first
        (elements (body_values survey.now (lent_pair numbered.entry) body.now ++ vs))) }
{
    match body {
        Some(body) => {
            put_line_start(text, is_first);
            put_body(text, survey, numbered, body)?;
            Ok(false)
        }
        None => Ok(is_first),
    }
}

/// Puts an array of the bodies of methods, in the order of these entries, each on a line.
pub(crate) fn put_bodies(
    text: &mut Text,
    survey: &Survey,
    order: &[(&Path, usize)],
) -> Result<(), AllocError>
    ensures { IsInOrder survey.now → OnOk result ((bs : List (Option MethodBodyForm))
        × AllZip (λ x b. IsBodyAt survey.now x.1 b) (map lent_pair order.now) bs
        × (text.new ≡ text.old ++ array_lines
        (elements (zip_text (body_values survey.now) (map lent_pair order.now) bs)))) }
{
    text.put("[");
    let mut is_first = true;
    for numbered in order {
        let body = body_of(survey, numbered.1)?;
        is_first = put_some_body(text, survey, *numbered, &body, is_first)?;
    }
    put_lines_end(text, is_first);
    Ok(())
}
