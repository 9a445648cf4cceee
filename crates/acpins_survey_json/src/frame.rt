//! All that is said of tables, for programs.

ghost use Rattle.std.specs.Prelude.{OnOk};
ghost use Rattle.acpi_survey.specs.SurveyOrder.{IsInOrder};
ghost use Rattle.acpins_survey_json.specs.JsonFrame.{PutsSurvey};

use crate::bodies::put_bodies;
use crate::conditions::put_conditions;
use crate::entries::put_entries;
use crate::found::{put_notes, put_problems};
use crate::tables::put_tables;
use crate::values::put_number;
use acpi_condition_list::conditions_of;
use acpi_findings::Findings;
use acpi_survey::Survey;
use std::alloc::AllocError;
use text_buffer::Text;

/// Puts the beginning of an object of JSON (RFC 8259): the limit of levels, tables, entries, bodies, problems, notes and
/// conditions of a survey. Its members stand each on lines of their own, and so do the elements of their lists. Other
/// members may follow; then `put_end` ends the object.
pub fn put_survey(text: &mut Text, survey: &Survey, findings: &Findings) -> Result<(), AllocError>
    ensures { IsInOrder survey.now
        → OnOk result (PutsSurvey survey.now findings.now text.old text.new) }
{
    let order = survey.entries().paths.by_path()?;
    let conditions = conditions_of(survey, &order)?;
    text.put("{\n\"format\":\"acpins-survey 2\",\n\"depth\":");
    put_number(text, u64::from(survey.depth.get()));
    text.put(",\n\"tables\":");
    put_tables(text, &survey.tables);
    text.put(",\n\"entries\":");
    put_entries(text, survey, &conditions.entries)?;
    text.put(",\n\"bodies\":");
    put_bodies(text, survey, &order)?;
    text.put(",\n\"problems\":");
    put_problems(text, findings.problems());
    text.put(",\n\"notes\":");
    put_notes(text, findings.notes());
    text.put(",\n\"conditions\":");
    put_conditions(text, survey, &conditions.steps)?;
    Ok(())
}

/// Puts the name of a member that begins a line, behind others.
pub fn put_line_member(text: &mut Text, name: &str) {
    text.put(",\n\"");
    text.put(name);
    text.put("\":")
}

/// Ends an object whose members begin lines.
pub fn put_end(text: &mut Text) {
    text.put("\n}\n")
}
