//! The lines of entries.

ghost use Rattle.std.specs.Prelude.{◌≡◌, ◌++◌, List, OnOk, codes, map};
ghost use Rattle.acpi_name.specs.Text.{path_text};
ghost use Rattle.acpi_condition_list.specs.ConditionLists.{IsCondition, condition_numbered};
ghost use Rattle.acpi_condition_list.specs.declared.list.ConditionStep.{ConditionStep as StepForm};
ghost use Rattle.acpi_entries.specs.ConditionViews.{link_views, placed_views};
ghost use Rattle.acpins_survey_output.specs.Entries.{entry_line};
ghost use Rattle.acpins_survey_output.specs.Links.{sourced_text};
ghost use Rattle.acpins_survey_output.specs.Objects.{parts_text, source_of};
ghost use Rattle.acpins_survey_output.specs.StepTexts.{step_text as said_step};
ghost use Rattle.acpi_objects.specs.Views.{kind_view};
ghost use Rattle.acpi_survey.specs.SurveyOrder.{IsInOrder};
ghost use Rattle.acpins_survey_output.specs.Listings.{numbered_line};

use crate::condition::put_condition;
use crate::condition_steps::{StepText, put_condition_to};
use crate::links::put_links;
use crate::objects::put_kind;
use acpi_condition_list::ConditionedEntry;
use acpi_entries::{Link, PlacedLiteral, condition_of, links_in};
use acpi_name::Path;
use acpi_objects::{ObjectKind, object_kind};
use acpi_ranges::part_of;
use acpi_survey::Survey;
use acpi_text::put_path;
use std::alloc::AllocError;
use text_buffer::Text;

// Puts what stands before the condition of an entry: its path, its kind and the links.
fn put_declared(text: &mut Text, path: &Path, kind: &ObjectKind<'_>, links: &[Link<'_>])
    ensures { text.new ≡ text.old ++ (path_text path.now ++ codes " "
        ++ parts_text (kind_view kind.now)
        ++ sourced_text (source_of (kind_view kind.now)) (link_views links.now)) }
{
    put_path(text, path);
    text.put(" ");
    put_kind(text, kind);
    put_links(text, kind, links);
}

/// Puts the line of an entry: its path, its kind, the links, and the condition where there is one.
pub fn put_entry(
    text: &mut Text,
    path: &Path,
    kind: &ObjectKind<'_>,
    links: &[Link<'_>],
    condition: &[PlacedLiteral<'_>],
)
    ensures { text.new ≡ text.old ++ entry_line path.now (kind_view kind.now) (link_views links.now)
        (placed_views condition.now) }
{
    put_declared(text, path, kind, links);
    put_condition(text, condition);
    text.put("\n")
}

/// Puts the line of the entry of that number, which has that path.
pub fn put_numbered(
    text: &mut Text,
    survey: &Survey,
    path: &Path,
    number: usize,
) -> Result<(), AllocError>
    ensures { IsInOrder survey.now → OnOk result (text.new
        ≡ text.old ++ numbered_line survey.now path.now number) }
{
    let part = part_of(survey, number);
    let kind = object_kind(part, number);
    let links = links_in(survey, number, part)?;
    let condition = condition_of(survey, number)?;
    put_entry(text, path, &kind, &links, &condition);
    Ok(())
}

/// Puts the line of an entry, whose condition is made of these literals.
pub fn put_conditioned(
    text: &mut Text,
    survey: &Survey,
    literals: &[StepText],
    entry: &ConditionedEntry<'_>,
) -> Result<(), AllocError>
    ensures { (steps : List StepForm) → IsInOrder survey.now
        → literals.now ≡ map (said_step survey.now) steps
        → IsCondition survey.now steps entry.now.condition
        (condition_numbered survey.now entry.now.number)
        → OnOk result (text.new ≡ text.old
        ++ numbered_line survey.now entry.now.path.now entry.now.number) }
{
    let part = part_of(survey, entry.number);
    let kind = object_kind(part, entry.number);
    let links = links_in(survey, entry.number, part)?;
    put_declared(text, entry.path, &kind, &links);
    put_condition_to(text, literals, entry.condition)?;
    text.put("\n");
    Ok(())
}
