//! What stands at a place, among what stands in the order of places.

ghost use Rattle.std.specs.Prelude.{◌≡◌, ◌==◌, ℕ, drop, map, slice_get};
ghost use Rattle.std.specs.Option.{option_and_then, option_copied, option_map};
ghost use Rattle.acpi_conditions.specs.Entries.{Path, Entry as EntryParts};
ghost use Rattle.acpi_conditions.specs.EntryForms.{entry_view};
ghost use Rattle.acpi_survey.specs.Reading.{AliasSource as SourceParts};
ghost use Rattle.acpi_entries.specs.Condition.{entry_at};
ghost use Rattle.acpi_survey.specs.Predefined.{predefined_count};
ghost use Rattle.acpi_survey.specs.steps.Readings.{opened_pairs};
ghost use Rattle.acpi_survey.specs.SourceViews.{source_of};
ghost use Rattle.acpi_ranges.specs.steps.PlacedItems.{if_there};
ghost use Rattle.std.specs.List.{find};
ghost use Rattle.std.specs.List.Sorted.{IsNonDecreasingBy};

use acpi_conditions::{Entries, Entry};
use acpi_survey::{AliasSource, OpenedScope, PREDEFINED};

/// What stands at a place: a table's number times 2^64, and the number of bytes of the table's code before it.
pub(crate) trait Placed {
    ghost place: { Self → ℕ };

    /// The place.
    fn place(&self) -> u128
        ensures { result ≡ place self.now };
}

impl Placed for Entry {
    ghost place = { λ e. e.term.place };

    fn place(&self) -> u128 {
        self.term.place
    }
}

impl Placed for OpenedScope {
    ghost place = { λ o. o.place };

    fn place(&self) -> u128 {
        self.place
    }
}

impl Placed for AliasSource {
    ghost place = { λ s. s.place };

    fn place(&self) -> u128 {
        self.place
    }
}

// The item of that number, if it stands at the place.
fn item_at<T: Placed>(items: &[T], number: usize, place: u128) -> Option<&T>
    ensures { option_copied result
        ≡ option_and_then (if_there T.place place) (slice_get items.now number) }
{
    let item = items.get(number)?;
    if item.place() == place {
        Some(item)
    } else {
        None
    }
}

/// The first at a place, of what stands in the order of places.
pub(crate) fn first_at<T: Placed>(items: &[T], place: u128) -> Option<&T>
    ensures { IsNonDecreasingBy T.place items.now
        → option_copied result ≡ find (λ x. T.place x == place) items.now }
{
    let count = items.partition_point(|x| x.place() < place);
    item_at(items, count, place)
}

// The entries of tables.
fn table_entries(entries: &[Entry]) -> &[Entry]
    ensures { result.now ≡ drop predefined_count entries.now }
{
    &entries[PREDEFINED.min(entries.len())..]
}

/// The entry of a table at a place.
pub(crate) fn entry_at<'a>(entries: Entries<'a>, place: u128) -> Option<&'a Entry>
    ensures { IsNonDecreasingBy (λ (e : EntryParts). e.term.place) (drop predefined_count
        (map (entry_view entries.entry.ways.now) entries.entry.paths.now.entries))
        → option_map (λ e. entry_view entries.entry.ways.now e.now) result
        ≡ entry_at (map (entry_view entries.entry.ways.now) entries.entry.paths.now.entries) place }
{
    first_at(table_entries(entries.paths.entries()), place)
}

/// The Scope that was entered at a place.
pub(crate) fn scope_at(opened: &[OpenedScope], place: u128) -> Option<&OpenedScope>
    ensures { IsNonDecreasingBy (λ (o : ℕ × Path). o.0) (opened_pairs opened.now)
        → option_map (λ o. (o.now.place, o.now.path)) result
        ≡ find (λ (o : ℕ × Path). o.0 == place) (opened_pairs opened.now) }
{
    first_at(opened, place)
}

/// The Alias at a place.
pub(crate) fn source_at(sources: &[AliasSource], place: u128) -> Option<&AliasSource>
    ensures { IsNonDecreasingBy (λ (s : SourceParts). s.place) (map source_of sources.now)
        → option_map (λ s. source_of s.now) result
        ≡ find (λ (s : SourceParts). s.place == place) (map source_of sources.now) }
{
    first_at(sources, place)
}
