//! What tables may declare, line by line.

ghost use Rattle.std.specs.Prelude.{◌≡◌, ◌↔◌, ◌++◌, List, [], false, IfOk, OnOk, map};
ghost use Rattle.std.specs.List.{All, flat_map};
ghost use Rattle.acpi_condition_list.specs.ConditionLists.{IsCondition, condition_numbered};
ghost use Rattle.acpi_condition_list.specs.declared.list.ConditionStep.{ConditionStep as StepForm};
ghost use Rattle.acpi_survey.specs.SurveyOrder.{IsInOrder};
ghost use Rattle.acpins_survey_output.specs.Listings.{IsListing, numbered_line};
ghost use Rattle.acpins_survey_output.specs.StepTexts.{step_text as said_step};

use crate::condition_steps::{StepText, step_texts};
use crate::entries::put_conditioned;
use crate::found::put_found;
use acpi_condition_list::{ConditionedEntry, conditions_of};
use acpi_findings::Findings;
use acpi_survey::Survey;
use std::alloc::{AllocError, Global};
use text_buffer::Text;

// A line for each of these entries, whose conditions are made of these literals.
fn put_entries(
    text: &mut Text,
    survey: &Survey,
    literals: &[StepText],
    entries: &[ConditionedEntry<'_>],
) -> Result<(), AllocError>
    ensures { (steps : List StepForm) → IsInOrder survey.now
        → literals.now ≡ map (said_step survey.now) steps
        → All (λ e. IsCondition survey.now steps e.condition
        (condition_numbered survey.now e.number)) entries.now
        → OnOk result (text.new ≡ text.old
        ++ flat_map (λ e. numbered_line survey.now e.path.now e.number) entries.now) }
{
    for entry in entries {
        put_conditioned(text, survey, literals, entry)?;
    }
    Ok(())
}

/// A line for each entry, in the order of the paths, those of one path by their places; then a line for each problem
/// and note, by their places.
pub fn list(alloc: Global, survey: &Survey, findings: &Findings) -> Result<Vec<u8>, AllocError>
    ensures { IsInOrder survey.now
        → IfOk result (λ text. IsListing survey.now findings.now text.items) }
{
    let order = survey.entries().paths.by_path()?;
    let conditions = conditions_of(survey, &order)?;
    let literals = step_texts(survey, &conditions.steps)?;
    let mut text = Text::new(alloc);
    put_entries(&mut text, survey, &literals, &conditions.entries)?;
    put_found(&mut text, findings.problems(), findings.notes());
    text.into_bytes()
}

/// Whether something of the tables is lost or refused.
pub fn has_problem(findings: &Findings) -> bool
    ensures { (result ≡ false) ↔ (findings.now.problems.items ≡ []) }
{
    !findings.problems().is_empty()
}
