//! The parts of the code that declare entries.

ghost use Rattle.std.specs.Prelude.{◌≡◌, map, slice_get, IfSome, Some};
ghost use Rattle.std.specs.Option.{option_map};
ghost use Rattle.acpi_conditions.specs.EntryForms.{entry_view};
ghost use Rattle.acpi_ranges.specs.Lookup.{found_of};
ghost use Rattle.acpi_survey.specs.SurveyOrder.{AllTile};
ghost use Rattle.acpi_ranges.specs.Sites.{byte_at, table_at};
ghost use Rattle.acpi_ranges.specs.EntryParts.{part_declaring, part_in};

use crate::lookup::node_at;
use crate::sites::{byte_at, table_at};
use crate::spans::Span;
use acpi_conditions::{Entries, Entry};
use acpi_survey::{PREDEFINED, Survey, SurveyedTable};

/// The entry of that number.
pub fn entry_numbered<'a>(entries: Entries<'a>, number: usize) -> Option<&'a Entry>
    ensures { option_map (λ e. entry_view entries.entry.ways.now e.now) result
        ≡ slice_get (map (entry_view entries.entry.ways.now) entries.entry.paths.now.entries)
        number }
{
    entries.paths.entries().get(number)
}

/// The table in which a place is.
pub fn table_in(survey: &Survey, place: u128) -> Option<&SurveyedTable>
    ensures { option_map (λ t. t.now) result
        ≡ slice_get survey.now.tables.items (table_at place) }
{
    survey.tables.get(table_at(place))
}

/// The node or the element that begins at a place.
pub fn part_at(survey: &Survey, place: u128) -> Option<Span<'_>>
    ensures from { IfSome result (λ s. s.from ≡ byte_at place) }
    ensures found { AllTile survey.now.tables.items
        → option_map found_of result ≡ option_map Some (part_in survey.now.tables.items place) }
{
    let table = table_in(survey, place)?;
    node_at(&table.nodes, table.code().len(), byte_at(place))
}

/// The part of a table's code that declares the entry of that number; none of what is there before all tables.
pub fn part_of(survey: &Survey, number: usize) -> Option<Span<'_>>
    ensures { AllTile survey.now.tables.items → option_map found_of result ≡ option_map Some
        (part_declaring survey.now.tables.items survey.now.reading.walk.entries number) }
{
    if number < PREDEFINED {
        return None;
    }
    let entry = entry_numbered(survey.entries(), number)?;
    part_at(survey, entry.term.place)
}
