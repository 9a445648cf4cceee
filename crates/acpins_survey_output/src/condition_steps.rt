//! Conditions in words, by the numbers of their literals: the text of each literal is made once.

ghost use Rattle.std.specs.Prelude.{◌≡◌, ◌++◌, List, IfOk, OnOk, map};
ghost use Rattle.std.specs.List.{flat_map};
ghost use Rattle.std.specs.Option.{option_map};
ghost use Rattle.acpi_condition_list.specs.ConditionLists.{IsCondition, IsWay};
ghost use Rattle.acpi_condition_list.specs.declared.list.ConditionStep.{ConditionStep as StepForm};
ghost use Rattle.acpi_condition_list.specs.declared.sources.LiteralSource.{LiteralSource as SourceForm};
ghost use Rattle.acpi_entries.specs.Condition.{PlacedParts};
ghost use Rattle.acpi_entries.specs.ConditionViews.{placed_view};
ghost use Rattle.acpi_survey.specs.SurveyOrder.{IsInOrder};
ghost use Rattle.acpi_survey.specs.declared.machine_survey.Survey.{Survey as SurveyForm};
ghost use Rattle.acpins_survey_output.specs.Conditions.{condition_text};
ghost use Rattle.acpins_survey_output.specs.StepTexts.{some_text, source_text, step_text as said_step};
ghost use Rattle.acpins_survey_output.specs.steps.NumberedTexts.{number_before, text_numbered};

use crate::condition::put_literal;
use acpi_condition_list::{ConditionStep, literal_of};
use acpi_entries::PlacedLiteral;
use acpi_survey::Survey;
use std::alloc::{AllocError, Global};
use text_buffer::Text;

/// A literal of conditions in words.
#[derive(Drop)]
pub struct StepText {
    /// The number of the literal before it; None where a condition begins with it.
    pub before: Option<usize>,
    /// The literal behind a blank.
    pub text: Text,
}

// Puts a literal behind a blank, if there is one.
fn put_some_literal(text: &mut Text, literal: &Option<PlacedLiteral<'_>>)
    ensures { text.new ≡ text.old ++ some_text (option_map placed_view literal.now) }
{
    match literal {
        Some(literal) => {
            text.put(" ");
            put_literal(text, literal)
        }
        None => {},
    }
}

fn step_text(survey: &Survey, step: ConditionStep) -> Result<StepText, AllocError>
    ensures { IsInOrder survey.now → IfOk result (λ t. t ≡ said_step survey.now step) }
{
    let literal = literal_of(survey, step.source)?;
    let mut text = Text::new(survey.memory());
    put_some_literal(&mut text, &literal);
    Ok(StepText {
        before: step.before,
        text,
    })
}

/// The literals of conditions in words, by their numbers.
pub fn step_texts(survey: &Survey, steps: &[ConditionStep]) -> Result<Vec<StepText>, AllocError>
    ensures { IsInOrder survey.now → IfOk result (λ v. v.items
        ≡ map (said_step survey.now) steps.now) }
{
    let mut literals = Vec::new(survey.memory());
    for step in steps {
        literals.push(step_text(survey, *step)?)?;
    }
    Ok(literals)
}

// The number of the literal before that one.
fn before(literals: &[StepText], number: usize) -> Option<usize>
    ensures { result ≡ number_before literals.now number }
{
    match literals.get(number) {
        Some(literal) => literal.before,
        None => None,
    }
}

// The numbers of the literals of a condition whose last one has that number, in their order.
fn numbers_to(
    alloc: Global,
    literals: &[StepText],
    last: Option<usize>,
) -> Result<Vec<usize>, AllocError>
    ensures { (s : SurveyForm) (steps : List StepForm) (from : List SourceForm)
        → literals.now ≡ map (said_step s) steps → IsWay steps last from → IfOk result (λ v.
        flat_map (text_numbered literals.now) v.items ≡ flat_map (source_text s) from) }
{
    let mut numbers = Vec::new(alloc);
    let mut rest = last;
    while let Some(number) = rest {
        numbers.push(number)?;
        rest = before(literals, number);
    }
    numbers.reverse();
    Ok(numbers)
}

// Puts the literal of that number behind a blank.
fn put_numbered_literal(text: &mut Text, literals: &[StepText], number: usize)
    ensures { text.new ≡ text.old ++ text_numbered literals.now number }
{
    if let Some(literal) = literals.get(number) {
        text.put_text(&literal.text);
    }
}

fn put_numbered_literals(text: &mut Text, literals: &[StepText], numbers: &[usize])
    ensures { text.new ≡ text.old ++ flat_map (text_numbered literals.now) numbers.now }
{
    for number in numbers {
        put_numbered_literal(text, literals, *number);
    }
}

/// Puts the condition whose last literal has that number: ` ?` and the literals, each behind a blank; nothing where there
/// are none.
pub(crate) fn put_condition_to(
    text: &mut Text,
    literals: &[StepText],
    last: Option<usize>,
) -> Result<(), AllocError>
    ensures { (s : SurveyForm) (steps : List StepForm) (condition : List PlacedParts)
        → literals.now ≡ map (said_step s) steps → IsCondition s steps last condition
        → OnOk result (text.new ≡ text.old ++ condition_text condition) }
{
    if last.is_none() {
        return Ok(());
    }
    text.put(" ?");
    let numbers = numbers_to(text.alloc(), literals, last)?;
    put_numbered_literals(text, literals, &numbers);
    Ok(())
}
