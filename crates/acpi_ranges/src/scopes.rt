//! The scopes in which the parts of a table stand.

ghost use Rattle.std.specs.Prelude.{◌≡◌, ◌++◌, ℕ, map, unwrap_or, IfOk, OnOk};
ghost use Rattle.std.specs.Option.{option_copied};
ghost use Rattle.acpi_outline.specs.View.{fixed_view};
ghost use Rattle.acpi_conditions.specs.Entries.{Path};
ghost use Rattle.acpi_ranges.specs.Places.{last_at, last_or};
ghost use Rattle.acpi_ranges.specs.Ranges.{has_scope, scope_inside};
ghost use Rattle.acpi_ranges.specs.steps.Remainders.{entered_in};
ghost use Rattle.acpi_ranges.specs.steps.ByPlace.{kept_at};

use crate::by_place::ByPlace;
use acpi_conditions::Entry;
use acpi_name::Path;
use acpi_outline::Fixed;
use acpi_survey::{OpenedScope, place_in};
use std::alloc::{AllocError, Global};

// Puts the paths of entries, the last at a place instead of those before it.
fn put_entries<'a>(paths: &mut ByPlace<'a, Path>, entries: &'a [Entry]) -> Result<(), AllocError>
    ensures { OnOk result ((q : ℕ) → kept_at paths.new q
        ≡ last_or (kept_at paths.old q) (map (λ e. (e.term.place, e.path)) entries.now) q) }
{
    'each: for entry in entries {
        paths.put(entry.term.place, &entry.path)?;
    }
    Ok(())
}

// Puts the paths of the targets of Scopes.
fn put_opened<'a>(
    paths: &mut ByPlace<'a, Path>,
    opened: &'a [OpenedScope],
) -> Result<(), AllocError>
    ensures { OnOk result ((q : ℕ) → kept_at paths.new q
        ≡ last_or (kept_at paths.old q) (map (λ o. (o.place, o.path)) opened.now) q) }
{
    'each: for scope in opened {
        paths.put(scope.place, &scope.path)?;
    }
    Ok(())
}

/// The paths of entries, and of the targets of Scopes, by their places.
#[tactic(auto, using(crate::proofs::Places::last_behind))]
pub(crate) fn entered_paths<'a>(
    alloc: Global,
    entries: &'a [Entry],
    opened: &'a [OpenedScope],
) -> Result<ByPlace<'a, Path>, AllocError>
    ensures { IfOk result (λ m. (q : ℕ) → kept_at m q
        ≡ last_at (map (λ e. (e.term.place, e.path)) entries.now
        ++ map (λ o. (o.place, o.path)) opened.now) q) }
{
    let mut paths = ByPlace::new(alloc);
    put_entries(&mut paths, entries)?;
    put_opened(&mut paths, opened)?;
    Ok(paths)
}

/// What is entered at the places of one table's code: the table's number, and the paths by the places of all tables.
#[derive(Clone, Copy)]
pub(crate) struct EnteredPaths<'b, 'a> {
    /// The number of the table, the first being 0.
    pub table: usize,
    /// The paths that are entered, by place.
    pub paths: &'b ByPlace<'a, Path>,
}

// Whether a package with these fixed arguments has a scope of its own.
fn has_scope(fixed: &Fixed) -> bool
    ensures { result ≡ has_scope (fixed_view fixed.now) }
{
    match fixed {
        Fixed::Scope(_) => true,
        Fixed::Device(_) => true,
        Fixed::Processor(_, _, _, _) => true,
        Fixed::Power(_, _, _) => true,
        Fixed::Thermal(_) => true,
        _ => false,
    }
}

impl<'b, 'a> EnteredPaths<'b, 'a> {
    /// The scope in the package at the place with these fixed arguments, if it is another than the one around.
    pub(crate) fn inside(self, fixed: &Fixed, place: usize) -> Option<&'a Path>
        ensures { (s : Path) → unwrap_or (option_copied result) s
            ≡ scope_inside (entered_in self.entry) place (fixed_view fixed.now) s }
    {
        if !has_scope(fixed) {
            return None;
        }
        self.paths.at(place_in(self.table, place))
    }
}
