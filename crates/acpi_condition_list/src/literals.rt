//! The literals of conditions.

ghost use Rattle.std.specs.Prelude.{◌≡◌, IfOk, Some, slice_get};
ghost use Rattle.std.specs.Option.{option_map};
ghost use Rattle.acpi_name.specs.Paths.{parent_of};
ghost use Rattle.acpi_survey.specs.SurveyOrder.{AllTile};
ghost use Rattle.acpi_entries.specs.Condition.{literal_at};
ghost use Rattle.acpi_entries.specs.ConditionViews.{literal_view, placed_view};
ghost use Rattle.acpi_condition_list.specs.ConditionLists.{source_literal};
ghost use Rattle.acpi_condition_list.specs.declared.sources.LiteralSource.TheVariants as sources;

use crate::sources::LiteralSource;
use acpi_entries::{Literal, PlacedLiteral, test_at};
use acpi_name::Path;
use acpi_ranges::site_of;
use acpi_survey::Survey;
use std::alloc::AllocError;

fn placed<'a>(place: u128, literal: Literal<'a>) -> PlacedLiteral<'a>
    ensures { placed_view result ≡ literal_at place (literal_view literal.entry) }
{
    PlacedLiteral {
        literal,
        site: site_of(place),
    }
}

fn parent(path: &Path) -> Result<Path, AllocError>
    ensures { IfOk result (λ p. p ≡ parent_of path.now) }
{
    let mut parent = path.copy()?;
    let _ = parent.pop();
    Ok(parent)
}

// What the Scope of that number asks.
fn target(survey: &Survey, number: usize) -> Result<Option<PlacedLiteral<'_>>, AllocError>
    ensures { IfOk result (λ l. option_map placed_view l
        ≡ source_literal survey.now (sources.Target number)) }
{
    let Some(scope) = survey.opened().get(number) else {
        return Ok(None);
    };
    Ok(Some(placed(scope.place, Literal::Has(scope.path.copy()?))))
}

fn has(survey: &Survey, number: usize) -> Result<Option<PlacedLiteral<'_>>, AllocError>
    ensures { IfOk result (λ l. option_map placed_view l
        ≡ source_literal survey.now (sources.Has number)) }
{
    let Some(entry) = survey.entry(number) else {
        return Ok(None);
    };
    let literal = Literal::Has(parent(&entry.path)?);
    Ok(Some(placed(entry.term.place, literal)))
}

fn no(survey: &Survey, number: usize) -> Option<PlacedLiteral<'_>>
    ensures { option_map placed_view result ≡ source_literal survey.now (sources.No number) }
{
    let entry = survey.entry(number)?;
    Some(placed(entry.term.place, Literal::No(&entry.path)))
}

fn needs(survey: &Survey, number: usize, name: usize) -> Option<PlacedLiteral<'_>>
    ensures { option_map placed_view result
        ≡ source_literal survey.now (sources.Needs number name) }
{
    let entry = survey.entry(number)?;
    let name = entry.asks.needs.get(name)?;
    Some(placed(entry.term.place, Literal::Needs(name)))
}

/// The literal that comes from there, if something stands there.
pub fn literal_of(
    survey: &Survey,
    source: LiteralSource,
) -> Result<Option<PlacedLiteral<'_>>, AllocError>
    ensures { AllTile survey.now.tables.items → IfOk result (λ l. option_map placed_view l
        ≡ source_literal survey.now source) }
{
    match source {
        LiteralSource::If(place) => { Ok(Some(placed(place, Literal::If(test_at(survey, place))))) }
        LiteralSource::Not(place) => {
            Ok(Some(placed(place, Literal::Not(test_at(survey, place)))))
        }
        LiteralSource::While(place) => {
            Ok(Some(placed(place, Literal::While(test_at(survey, place)))))
        }
        LiteralSource::Past(place) => Ok(Some(placed(place, Literal::Past))),
        LiteralSource::Target(number) => target(survey, number),
        LiteralSource::Has(number) => has(survey, number),
        LiteralSource::No(number) => Ok(no(survey, number)),
        LiteralSource::Needs(number, name) => Ok(needs(survey, number, name)),
    }
}
