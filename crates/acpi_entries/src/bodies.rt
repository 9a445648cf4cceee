//! The bodies of the methods of a survey.

ghost use Rattle.std.specs.Prelude.{IfOk};
ghost use Rattle.acpi_survey.specs.SurveyOrder.{AllTile};
ghost use Rattle.acpi_entries.specs.SurveyBodies.{AreBodies};

use crate::body::{MethodBody, body_of};
use acpi_survey::Survey;
use std::alloc::AllocError;

/// Of each entry, by its number, the body, where it is a method of a table (ACPI 6.5, 20.2.5.2).
pub fn bodies_of(survey: &Survey) -> Result<Vec<Option<MethodBody<'_>>>, AllocError>
    ensures { AllTile survey.now.tables.items → IfOk result (λ v. AreBodies survey.now v.items) }
{
    let count = survey.entries().paths.entries().len();
    let mut bodies = Vec::new(survey.memory());
    'each: for number in 0..count {
        bodies.push(body_of(survey, number)?)?;
    }
    Ok(bodies)
}
