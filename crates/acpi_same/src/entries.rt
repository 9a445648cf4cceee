//! Whether two entries are the same, but for their paths and bodies.

ghost use Rattle.std.specs.Prelude.{◌≡◌, ◌&&◌, IfOk, map};
ghost use Rattle.std.specs.Cmp.Lexicographic.{pointwise};
ghost use Rattle.acpi_entries.specs.ConditionViews.{link_view, link_views, literal_view};
ghost use Rattle.acpi_objects.specs.Declaring.{object_of};
ghost use Rattle.acpi_survey.specs.SurveyOrder.{IsInOrder};
ghost use Rattle.acpi_same.specs.Numbered.{links_at, part_at};
ghost use Rattle.acpi_same.specs.Same.{literals_at};
ghost use Rattle.acpi_same.specs.steps.Equality.{link_eq, literal_eq, parts_eq};

use crate::kinds::{is_same_kind, is_same_term};
use acpi_entries::{Link, Literal, PlacedLiteral, condition_of, links_of};
use acpi_objects::object_kind;
use acpi_ranges::part_of;
use acpi_survey::Survey;
use std::alloc::AllocError;

// Whether two literals say the same.
fn is_same_literal(one: &Literal<'_>, other: &Literal<'_>) -> bool
    ensures { result ≡ literal_eq (literal_view one.now) (literal_view other.now) }
{
    match (one, other) {
        (Literal::If(test), Literal::If(t)) => is_same_term(*test, *t),
        (Literal::Not(test), Literal::Not(t)) => is_same_term(*test, *t),
        (Literal::While(test), Literal::While(t)) => is_same_term(*test, *t),
        (Literal::Past, Literal::Past) => true,
        (Literal::Has(path), Literal::Has(p)) => path == p,
        (Literal::No(path), Literal::No(p)) => **path == **p,
        (Literal::Needs(name), Literal::Needs(n)) => **name == **n,
        _ => false,
    }
}

// Whether two conditions have the same literals, wherever these come from.
fn are_same_literals(one: &[PlacedLiteral<'_>], other: &[PlacedLiteral<'_>]) -> bool
    ensures { result ≡ pointwise literal_eq (map (λ l. literal_view l.literal) one.now)
        (map (λ l. literal_view l.literal) other.now) }
{
    if one.len() != other.len() {
        return false;
    }
    for i in 0..one.len() {
        if !is_same_literal(&one[i].literal, &other[i].literal) {
            return false;
        }
    }
    true
}

// Whether two names may be found at the same paths, as surely.
fn is_same_link(one: &Link<'_>, other: &Link<'_>) -> bool
    ensures { result ≡ link_eq (link_view one.now) (link_view other.now) }
{
    *one.name == *other.name && (one.paths == other.paths && one.is_certain == other.is_certain)
}

fn are_same_links(one: &[Link<'_>], other: &[Link<'_>]) -> bool
    ensures { result ≡ pointwise link_eq (link_views one.now) (link_views other.now) }
{
    if one.len() != other.len() {
        return false;
    }
    for i in 0..one.len() {
        if !is_same_link(&one[i], &other[i]) {
            return false;
        }
    }
    true
}

/// Whether the entries of these numbers are the same object.
pub(crate) fn is_same_object(old: &Survey, one: usize, new: &Survey, other: usize) -> bool
    ensures { IsInOrder old.now → IsInOrder new.now → result ≡ parts_eq
        (object_of (part_at old.now one) one) (object_of (part_at new.now other) other) }
{
    let old_kind = object_kind(part_of(old, one), one);
    is_same_kind(old_kind, object_kind(part_of(new, other), other))
}

/// Whether the names of the terms of these entries may be found at the same paths.
pub(crate) fn has_same_links(
    old: &Survey,
    one: usize,
    new: &Survey,
    other: usize,
) -> Result<bool, AllocError>
    ensures { IsInOrder old.now → IsInOrder new.now → IfOk result
        (λ same. same ≡ pointwise link_eq (links_at old.now one) (links_at new.now other)) }
{
    Ok(are_same_links(&links_of(old, one)?, &links_of(new, other)?))
}

/// Whether these entries have the same condition.
pub(crate) fn has_same_condition(
    old: &Survey,
    one: usize,
    new: &Survey,
    other: usize,
) -> Result<bool, AllocError>
    ensures { IsInOrder old.now → IsInOrder new.now → IfOk result (λ same. same
        ≡ pointwise literal_eq (literals_at old.now one) (literals_at new.now other)) }
{
    Ok(are_same_literals(&condition_of(old, one)?, &condition_of(new, other)?))
}
