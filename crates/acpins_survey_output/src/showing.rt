//! What tables may declare at one path.

ghost use Rattle.std.specs.Prelude.{◌≡◌, ◌++◌, List, Option, IfOk, OnOk};
ghost use Rattle.std.specs.List.{AllZip};
ghost use Rattle.std.specs.Option.{option_map};
ghost use Rattle.acpi_survey.specs.SurveyOrder.{IsInOrder};
ghost use Rattle.acpi_entries.specs.declared.body.MethodBody.{MethodBody};
ghost use Rattle.acpins_survey_output.specs.Shown.{IsShownOrNone, shown_lines};
ghost use Rattle.acpins_survey_reasons.specs.Numbered.{IsBodyAt, zip_text};

use crate::entries::put_numbered;
use crate::method_lines::put_some_body;
use acpi_entries::body_of;
use acpi_name::Path;
use acpi_survey::Survey;
use std::alloc::{AllocError, Global};
use text_buffer::Text;

// The line of the entry of that number, which has that path, and the lines of its body.
fn put_shown(text: &mut Text, survey: &Survey, path: &Path, number: usize) -> Result<(), AllocError>
    ensures { IsInOrder survey.now → OnOk result ((b : Option MethodBody)
        × IsBodyAt survey.now number b
        × (text.new ≡ text.old ++ shown_lines survey.now path.now number b)) }
{
    put_numbered(text, survey, path, number)?;
    let body = body_of(survey, number)?;
    put_some_body(text, &body);
    Ok(())
}

// .. of the entries of those numbers.
fn put_all_shown(
    text: &mut Text,
    survey: &Survey,
    path: &Path,
    numbers: &[usize],
) -> Result<(), AllocError>
    ensures { IsInOrder survey.now → OnOk result ((bs : List (Option MethodBody))
        × AllZip (IsBodyAt survey.now) numbers.now bs
        × (text.new ≡ text.old
        ++ zip_text (shown_lines survey.now path.now) numbers.now bs)) }
{
    for number in numbers {
        put_shown(text, survey, path, *number)?;
    }
    Ok(())
}

/// For each entry at a path, by place, its line, and for a method of a table its body: a line for each statement, or
/// its bytes and why they can't be read. None where no entry is at the path.
pub fn show(alloc: Global, survey: &Survey, path: &Path) -> Result<Option<Vec<u8>>, AllocError>
    ensures { IsInOrder survey.now → IfOk result (λ t.
        IsShownOrNone survey.now path.now (option_map (λ v. v.items) t)) }
{
    let numbers = survey.at(path)?;
    if numbers.is_empty() {
        return Ok(None);
    }
    let mut text = Text::new(alloc);
    put_all_shown(&mut text, survey, path, &numbers)?;
    Ok(Some(text.into_bytes()?))
}
