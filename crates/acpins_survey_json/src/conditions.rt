//! The literals of conditions in JSON.

ghost use Rattle.std.specs.Prelude.{◌≡◌, ◌++◌, OnOk, codes};
ghost use Rattle.std.specs.Option.{option_map};
ghost use Rattle.acpi_tree.specs.TermView.{term_view};
ghost use Rattle.acpi_survey.specs.SurveyOrder.{IsInOrder};
ghost use Rattle.acpi_entries.specs.ConditionViews.{literal_view, placed_view};
ghost use Rattle.acpins_survey_json.specs.Json.{array_lines, value_text, values_of};
ghost use Rattle.acpins_survey_json.specs.JsonConditions.{literal_members, literal_value, named_members, step_value, test_members};
ghost use Rattle.acpins_survey_json.specs.JsonValues.{name_value, path_value, value_or_null};
ghost use Rattle.acpins_survey_json.specs.steps.JsonPuts.{PutsMembers};

use crate::found::put_site;
use crate::members::{
    put_name_member, put_path_member, put_some_number_member, put_some_term_member, put_word_member,
};
use crate::values::{put_line_start, put_lines_end};
use acpi_condition_list::{ConditionStep, literal_of};
use acpi_entries::{Literal, PlacedLiteral};
use acpi_name::{Name, Path};
use acpi_survey::Survey;
use acpi_tree::Term;
use std::alloc::AllocError;
use text_buffer::Text;

// Puts the word of a literal, and a predicate, which may be lost, behind other members.
fn put_test(text: &mut Text, literal: &str, test: Option<&Term>)
    ensures { PutsMembers (test_members literal.now (option_map (λ t. term_view t.now) test.entry))
        text.old text.new }
{
    put_word_member(text, ",", "literal", literal);
    put_some_term_member(text, ",", "test", test)
}

// Puts the word of a literal, and a path, behind other members.
fn put_pathed(text: &mut Text, literal: &str, path: &Path)
    ensures { PutsMembers (named_members literal.now (codes "path") (path_value path.now))
        text.old text.new }
{
    put_word_member(text, ",", "literal", literal);
    put_path_member(text, ",", "path", path)
}

// Puts the word of a literal, and a name, behind other members.
fn put_needs(text: &mut Text, name: &Name)
    ensures { PutsMembers (named_members (codes "needs") (codes "name") (name_value name.now))
        text.old text.new }
{
    put_word_member(text, ",", "literal", "needs");
    put_name_member(text, ",", "name", name)
}

// Puts what a literal says behind other members.
fn put_said(text: &mut Text, literal: &Literal<'_>)
    ensures { PutsMembers (literal_members (literal_view literal.now)) text.old text.new }
{
    match literal {
        Literal::If(test) => put_test(text, "if", *test),
        Literal::Not(test) => put_test(text, "not", *test),
        Literal::While(test) => put_test(text, "while", *test),
        Literal::Past => put_word_member(text, ",", "literal", "past"),
        Literal::Has(path) => put_pathed(text, "has", path),
        Literal::No(path) => put_pathed(text, "no", path),
        Literal::Needs(name) => put_needs(text, name),
    }
}

fn put_literal(text: &mut Text, before: Option<usize>, placed: &PlacedLiteral<'_>)
    ensures { text.new ≡ text.old ++ value_text (literal_value before (placed_view placed.now)) }
{
    put_some_number_member(text, "{", "before", before);
    put_said(text, &placed.literal);
    put_site(text, placed.site);
    text.put("}")
}

// Puts a literal, or null where nothing stands where it comes from.
fn put_some_literal(text: &mut Text, before: Option<usize>, placed: &Option<PlacedLiteral<'_>>)
    ensures { text.new ≡ text.old
        ++ value_text (value_or_null (literal_value before) (option_map placed_view placed.now)) }
{
    match placed {
        Some(placed) => put_literal(text, before, placed),
        None => text.put("null"),
    }
}

fn put_step(text: &mut Text, survey: &Survey, step: ConditionStep) -> Result<(), AllocError>
    ensures { IsInOrder survey.now → OnOk result (text.new
        ≡ text.old ++ value_text (step_value survey.now step)) }
{
    let literal = literal_of(survey, step.source)?;
    put_some_literal(text, step.before, &literal);
    Ok(())
}

/// Puts an array of the literals of conditions, each on a line.
pub(crate) fn put_conditions(
    text: &mut Text,
    survey: &Survey,
    steps: &[ConditionStep],
) -> Result<(), AllocError>
    ensures { IsInOrder survey.now → OnOk result (text.new
        ≡ text.old ++ array_lines (values_of (step_value survey.now) steps.now)) }
{
    text.put("[");
    let mut is_first = true;
    for step in steps {
        put_line_start(text, is_first);
        put_step(text, survey, *step)?;
        is_first = false;
    }
    put_lines_end(text, is_first);
    Ok(())
}
