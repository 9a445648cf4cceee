//! The places of what links find.

ghost use Rattle.std.specs.Prelude.{◌≡◌, map, OnOk, Some};
ghost use Rattle.acpins_records.specs.Tree.{IsPlaceOf};
ghost use Rattle.acpins_records.specs.steps.Adding.{AddsTargets};
ghost use Rattle.acpins_records.specs.steps.Runs.{Ascend};

use crate::paths::Paths;
use acpi_name::{Path, Seg};
use acpins_lent::NONE;
use std::alloc::AllocError;
use std::cmp::Ordering;

/// The place of a path among those of all objects.
pub(crate) fn place_of(paths: &Paths, segs: &[Seg]) -> u64
    requires { Ascend paths.now }
    ensures { IsPlaceOf paths.now (Some segs.now) result }
{
    let mut low = 0;
    let mut high = paths.len();
    while low < high {
        let middle = low + (high - low) / 2;
        match paths.at(middle).cmp(segs) {
            Ordering::Less => low = middle + 1,
            Ordering::Equal => return middle as u64,
            Ordering::Greater => high = middle,
        }
    }
    NONE
}

// The place of what a link finds.
fn target_of(paths: &Paths, answer: &Option<Path>) -> u64
    requires { Ascend paths.now }
    ensures { IsPlaceOf paths.now answer.now result }
{
    match answer {
        Some(path) => place_of(paths, path.segs()),
        None => NONE,
    }
}

/// Puts the places of what some links find behind the others.
pub(crate) fn put_targets(
    targets: &mut Vec<u64>,
    paths: &Paths,
    answers: &[&Option<Path>],
) -> Result<(), AllocError>
    requires { Ascend paths.now }
    ensures { OnOk result (AddsTargets paths.now
        (map (λ a. a.now) answers.now) targets.old.items targets.new.items) }
{
    for answer in answers {
        targets.push(target_of(paths, answer))?;
    }
    Ok(())
}
