//! Values by their places.

ghost use Rattle.std.specs.Prelude.{◌≡◌, ◌==◌, ℕ, cond, Some, None, OnOk};
ghost use Rattle.std.specs.Option.{option_copied};
ghost use Rattle.acpi_ranges.specs.steps.ByPlace.{kept_at};

use std::alloc::{AllocError, Global};
use std::collections::BTreeMap;

/// Values by the places at which they stand, one at each. A place is a table's number times 2^64, and the number of
/// bytes of the table's code before it.
#[derive(Drop)]
pub(crate) struct ByPlace<'a, T> {
    kept: BTreeMap<u128, &'a T>,
}

impl<'a, T> ByPlace<'a, T> {
    /// None.
    pub(crate) fn new(alloc: Global) -> ByPlace<'a, T>
        ensures { (place : ℕ) → kept_at result place ≡ None }
    {
        ByPlace {
            kept: BTreeMap::new(alloc),
        }
    }

    /// Keeps a value at a place, instead of one that is there.
    pub(crate) fn put(&mut self, place: u128, value: &'a T) -> Result<(), AllocError>
        ensures { OnOk result ((q : ℕ) → kept_at self.new q
            ≡ cond (place == q) (Some value.now) (kept_at self.old q)) }
    {
        self.kept.insert(place, value)?;
        Ok(())
    }

    /// The value at a place.
    pub(crate) fn at(&self, place: u128) -> Option<&'a T>
        ensures { option_copied result ≡ kept_at self.now place }
    {
        match self.kept.get(&place) {
            Some(value) => Some(*value),
            None => None,
        }
    }
}
