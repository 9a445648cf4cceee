//! How many values follow a name, by what it may be.

ghost use Rattle.std.specs.Prelude.{◌≡◌, ◌++◌, ◌∷◌, None, slice_index_or, IfOk, OnOk};
ghost use Rattle.std.specs.FinMap as finite;
ghost use Rattle.std.specs.List.{list_all};
ghost use Rattle.acpi_name.specs.NameRefs.{name_parts};
ghost use Rattle.acpi_body.specs.Arguments.{expected_at, expected_place};
ghost use Rattle.acpi_survey.specs.Counts.{is_count, agreed, counts_numbered};

use acpi_counts::Counts;
use acpi_name::{NameRef, Path};
use std::alloc::{AllocError, Global};

fn is_count(n: u8, count: Option<u8>) -> bool
    ensures { result ≡ is_count n count }
{
    match count {
        Some(m) => n == m,
        None => false,
    }
}

fn all_are(n: u8, counts: &[Option<u8>]) -> bool
    ensures { result ≡ list_all (is_count n) counts.now }
{
    counts.iter().all(|c| is_count(n, *c))
}

// The same of a count and others.
fn agreed_with(first: Option<u8>, rest: &[Option<u8>]) -> Option<u8>
    ensures { result ≡ agreed (first ∷ rest.now) }
{
    match first {
        Some(n) => { if all_are(n, rest) { Some(n) } else { None } }
        None => None,
    }
}

/// The one count, if there is one and all are equal.
pub fn agreed(counts: &[Option<u8>]) -> Option<u8>
    ensures { result ≡ agreed counts.now }
{
    match counts.split_first() {
        Some((first, rest)) => agreed_with(*first, rest),
        None => None,
    }
}

fn numbered(counts: &[Option<u8>], number: usize) -> Option<u8>
    ensures { result ≡ slice_index_or counts.now number None }
{
    match counts.get(number) {
        Some(count) => *count,
        None => None,
    }
}

/// Puts the counts of the entries of these numbers behind others.
pub fn put_counts(
    found: &mut Vec<Option<u8>>,
    counts: &[Option<u8>],
    numbers: &[usize],
) -> Result<(), AllocError>
    ensures { OnOk result (found.new.items
        ≡ found.old.items ++ counts_numbered counts.now numbers.now) }
{
    'each: for number in numbers {
        found.push(numbered(counts, *number))?;
    }
    Ok(())
}

/// How many values follow a name that is nowhere, as Externals say it.
pub fn expected_count(
    alloc: Global,
    expected: &Counts,
    scope: &Path,
    name: NameRef<'_>,
) -> Result<u8, AllocError>
    ensures { IfOk result (λ n. n ≡ expected_at (finite.get expected.now)
        (expected_place (finite.get expected.now) scope.now (name_parts name.entry))) }
{
    match expected.find(alloc, scope, name)? {
        Some(path) => match expected.get(&path) {
            Some(count) => Ok(count),
            None => Ok(0),
        },
        None => Ok(0),
    }
}
