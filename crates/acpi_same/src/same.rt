//! Whether two surveys are the same.

ghost use Rattle.std.specs.Prelude.{◌≡◌, IfOk, None, map, slice_index_or};
ghost use Rattle.std.specs.Cmp.Lexicographic.{pointwise};
ghost use Rattle.std.specs.Option.{option_map};
ghost use Rattle.acpi_survey.specs.SurveyOrder.{IsInOrder};
ghost use Rattle.acpi_conditions.specs.ByPath.{lent_pair};
ghost use Rattle.acpi_same.specs.Same.{TellsSame, body_parts, reading_parts, said};
ghost use Rattle.acpi_same.specs.steps.Equality.{entry_eq};

use crate::bodies::is_same_body;
use crate::entries::{has_same_condition, has_same_links, is_same_object};
use acpi_entries::{MethodBody, bodies_of};
use acpi_name::Path;
use acpi_survey::Survey;
use std::alloc::AllocError;

/// A survey, and the bodies of its methods by the numbers of their entries.
#[derive(Clone, Copy)]
struct Version<'v> {
    survey: &'v Survey,
    bodies: &'v [Option<MethodBody<'v>>],
}

// The body at a number.
fn body_at<'v>(version: Version<'v>, number: usize) -> Option<&'v MethodBody<'v>>
    ensures { option_map (λ b. reading_parts b.now.code.now b.now.reading) result
        ≡ body_parts (slice_index_or version.entry.bodies.now number None) }
{
    match version.bodies.get(number) {
        Some(Some(body)) => Some(body),
        _ => None,
    }
}

// Whether these entries, by their paths and numbers, are the same.
fn is_same_entry(
    old: Version<'_>,
    one: (&Path, usize),
    new: Version<'_>,
    other: (&Path, usize),
) -> Result<bool, AllocError>
    ensures { IsInOrder old.entry.survey.now → IsInOrder new.entry.survey.now → IfOk result
        (λ same. same ≡ entry_eq
        (said old.entry.survey.now old.entry.bodies.now (lent_pair one.entry))
        (said new.entry.survey.now new.entry.bodies.now (lent_pair other.entry))) }
{
    let (m, n) = (one.1, other.1);
    let (one_survey, other_survey) = (old.survey, new.survey);
    if *one.0 != *other.0 || !is_same_object(one_survey, m, other_survey, n) {
        return Ok(false);
    }
    if !has_same_links(one_survey, m, other_survey, n)? {
        return Ok(false);
    }
    if !has_same_condition(one_survey, m, other_survey, n)? {
        return Ok(false);
    }
    Ok(is_same_body(body_at(old, m), body_at(new, n)))
}

// Whether all entries in two orders are the same.
fn are_same_entries(
    old: Version<'_>,
    old_order: &[(&Path, usize)],
    new: Version<'_>,
    new_order: &[(&Path, usize)],
) -> Result<bool, AllocError>
    ensures { IsInOrder old.entry.survey.now → IsInOrder new.entry.survey.now → IfOk result
        (λ same. same ≡ pointwise entry_eq
        (map (λ x. said old.entry.survey.now old.entry.bodies.now (lent_pair x)) old_order.now)
        (map (λ x. said new.entry.survey.now new.entry.bodies.now (lent_pair x)) new_order.now)) }
{
    if old_order.len() != new_order.len() {
        return Ok(false);
    }
    for i in 0..old_order.len() {
        if !is_same_entry(old, old_order[i], new, new_order[i])? {
            return Ok(false);
        }
    }
    Ok(true)
}

/// Whether two surveys have the same entries, in the order of the paths, those of one path by their places: of each the path,
/// the object, the links, the condition and the body, but for where they stand. Only an allocation failure is an error.
pub fn is_same(old: &Survey, new: &Survey) -> Result<bool, AllocError>
    ensures { IsInOrder old.now → IsInOrder new.now → IfOk result (TellsSame old.now new.now) }
{
    let old_order = old.entries().paths.by_path()?;
    let new_order = new.entries().paths.by_path()?;
    let old_bodies = bodies_of(old)?;
    let new_bodies = bodies_of(new)?;
    let old = Version {
        survey: old,
        bodies: &old_bodies,
    };
    let new = Version {
        survey: new,
        bodies: &new_bodies,
    };
    are_same_entries(old, &old_order, new, &new_order)
}
