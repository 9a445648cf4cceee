//! What the reading of tables gave, by place.

ghost use Rattle.std.specs.Prelude.{◌≡◌, ◌++◌, ℕ, map, IfOk, OnOk};
ghost use Rattle.std.specs.Option.{option_copied, option_map};
ghost use Rattle.acpi_conditions.specs.EntryForms.{why_of};
ghost use Rattle.acpi_ranges.specs.Index.{entered_in, refusals_in, unknowns_in};
ghost use Rattle.acpi_ranges.specs.Places.{last_at, last_or};
ghost use Rattle.acpi_survey.specs.Survey.{place_in};
ghost use Rattle.acpi_ranges.specs.steps.Indexes.{index_entered, index_refusals, index_unknowns};
ghost use Rattle.acpi_ranges.specs.steps.ByPlace.{kept_at};

use crate::by_place::ByPlace;
use crate::scopes::entered_paths;
use acpi_conditions::{Entry, Reason, Refusal};
use acpi_name::{Name, Path};
use acpi_survey::{OpenedScope, Survey, Unknown, place_in};
use std::alloc::{AllocError, Global};

/// What the reading of tables gave, by place.
#[derive(Drop)]
pub struct PlaceIndex<'a> {
    /// The paths of entries and of the targets of Scopes.
    pub(crate) paths: ByPlace<'a, Path>,
    /// The reasons of refusals.
    pub(crate) refused: ByPlace<'a, Reason>,
    /// The names of which nothing is known in a node.
    pub(crate) unknown: ByPlace<'a, Vec<Name>>,
}

// Puts the reasons of refusals.
fn put_refused<'a>(
    reasons: &mut ByPlace<'a, Reason>,
    refused: &'a [Refusal],
) -> Result<(), AllocError>
    ensures { OnOk result ((q : ℕ) → kept_at reasons.new q
        ≡ last_or (kept_at reasons.old q) (map (λ r. (r.place, r.reason)) refused.now) q) }
{
    'each: for refusal in refused {
        reasons.put(refusal.place, &refusal.reason)?;
    }
    Ok(())
}

// Puts names of which nothing is known.
fn put_unknown<'a>(
    names: &mut ByPlace<'a, Vec<Name>>,
    unknown: &'a [Unknown],
) -> Result<(), AllocError>
    ensures { OnOk result ((q : ℕ) → kept_at names.new q
        ≡ last_or (kept_at names.old q) (map (λ u. (u.place, u.names)) unknown.now) q) }
{
    'each: for node in unknown {
        names.put(node.place, &node.names)?;
    }
    Ok(())
}

impl<'a> PlaceIndex<'a> {
    // That of these entries, refusals, Scopes and names.
    fn new(
        alloc: Global,
        entries: &'a [Entry],
        refused: &'a [Refusal],
        opened: &'a [OpenedScope],
        unknown: &'a [Unknown],
    ) -> Result<PlaceIndex<'a>, AllocError>
        ensures paths { IfOk result (λ x. (q : ℕ) → kept_at x.paths q
            ≡ last_at (map (λ e. (e.term.place, e.path)) entries.now
            ++ map (λ o. (o.place, o.path)) opened.now) q) }
        ensures refused { IfOk result (λ x. (q : ℕ) → kept_at x.refused q
            ≡ last_at (map (λ r. (r.place, r.reason)) refused.now) q) }
        ensures unknown { IfOk result (λ x. (q : ℕ) → kept_at x.unknown q
            ≡ last_at (map (λ u. (u.place, u.names)) unknown.now) q) }
    {
        let mut reasons = ByPlace::new(alloc);
        put_refused(&mut reasons, refused)?;
        let mut names = ByPlace::new(alloc);
        put_unknown(&mut names, unknown)?;
        Ok(PlaceIndex {
            paths: entered_paths(alloc, entries, opened)?,
            refused: reasons,
            unknown: names,
        })
    }

    /// The path of the entry whose term begins at a place of a table's code, or of the target of the Scope that does.
    /// The predefined objects have the place 0 of table 0.
    pub fn path_at(&self, table: usize, place: usize) -> Option<&'a Path>
        ensures { option_copied result ≡ index_entered self.now table place }
    {
        self.paths.at(place_in(table, place))
    }

    /// Why what begins at a place of a table's code is refused.
    pub fn refusal_at(&self, table: usize, place: usize) -> Option<&'a Reason>
        ensures { option_map (λ r. why_of r.now) result
            ≡ index_refusals self.now (place_in table place) }
    {
        self.refused.at(place_in(table, place))
    }

    /// The names in the node that begins at a place of a table's code of which nothing is known there.
    pub fn unknown_at(&self, table: usize, place: usize) -> &'a [Name]
        ensures { result.now ≡ index_unknowns self.now (place_in table place) }
    {
        match self.unknown.at(place_in(table, place)) {
            Some(names) => names,
            None => &[],
        }
    }
}

/// What the tables of a survey declare, enter and refuse, and the names of which nothing is known, by place.
#[tactic(auto, using(crate::proofs::Indexing::entry_pairs, crate::proofs::Indexing::last_refused))]
pub fn index_of(survey: &Survey) -> Result<PlaceIndex<'_>, AllocError>
    ensures paths { IfOk result (λ x. (number place : ℕ) → index_entered x number place
        ≡ entered_in survey.now.reading number place) }
    ensures refused { IfOk result (λ x. (place : ℕ) → index_refusals x place
        ≡ refusals_in survey.now.reading place) }
    ensures unknown { IfOk result (λ x. (place : ℕ) → index_unknowns x place
        ≡ unknowns_in survey.now.reading place) }
{
    PlaceIndex::new(
        survey.memory(),
        survey.entries().paths.entries(),
        survey.refused(),
        survey.opened(),
        survey.unknown(),
    )
}
