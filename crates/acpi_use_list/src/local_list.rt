//! The objects that the bodies of the methods of a survey declare.

ghost use Rattle.std.specs.Prelude.{◌≡◌, ◌++◌, IfOk, OnOk};
ghost use Rattle.acpi_locals.specs.LocalViews.{local_views};
ghost use Rattle.acpi_use_list.specs.LocalLists.{AreLocals, locals_of_bodies, locals_of_body};

use acpi_entries::{BodyReading, MethodBody};
use acpi_locals::{LocalObject, local_objects};
use acpi_survey::Survey;
use std::alloc::AllocError;

// Puts what the body of the entry of that number declares behind others.
fn put_locals<'a>(
    found: &mut Vec<LocalObject<'a>>,
    survey: &Survey,
    number: usize,
    body: &'a Option<MethodBody<'_>>,
) -> Result<(), AllocError>
    ensures { OnOk result (local_views found.new.items ≡ local_views found.old.items
        ++ locals_of_body survey.now number body.now) }
{
    let Some(body) = body else {
        return Ok(());
    };
    let BodyReading::Terms(terms) = &body.reading else {
        return Ok(());
    };
    'each: for object in local_objects(survey, number, terms)? {
        found.push(object)?;
    }
    Ok(())
}

/// What the bodies of methods that are read declare, by path, those of one path by the place of the method, and then as
/// they stand in its body.
pub fn locals_of_machine<'a>(
    survey: &Survey,
    bodies: &'a [Option<MethodBody<'_>>],
) -> Result<Vec<LocalObject<'a>>, AllocError>
    ensures { IfOk result (λ v. AreLocals survey.now bodies.now v.items) }
{
    let mut found = Vec::new(survey.memory());
    'each: for number in 0..bodies.len() {
        put_locals(&mut found, survey, number, &bodies[number])?;
    }
    found.sort_by(|one, other| one.path.cmp(&other.path))?;
    Ok(found)
}
