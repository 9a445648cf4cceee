//! The regions in which field units are.

use acpi_entries::links_of;
use acpi_kinds::{ObjectKind, UnitForm};
use acpi_name::Path;
use acpi_overview::{Object, RegionTerms};
use acpi_survey::Survey;
use std::alloc::AllocError;

// The numbers of the regions at a path: the first, and the first behind them.
fn numbers_at(regions: &[RegionTerms<'_>], path: &Path) -> (usize, usize) {
    let from = regions.partition_point(|r| *r.object.path < *path);
    let to = regions.partition_point(|r| *r.object.path <= *path);
    (from, to)
}

// Counts a field unit in the regions at a path, the only one of which is told.
fn count_at(regions: &mut Vec<RegionTerms<'_>>, path: &Path) -> Option<usize> {
    let (from, to) = numbers_at(regions, path);
    for number in from..to {
        if let Some(region) = regions.get_mut(number) {
            region.units = region.units.saturating_add(1);
        }
    }
    if to.checked_sub(from) == Some(1) {
        Some(from)
    } else {
        None
    }
}

// Whether it is a field unit in a region.
fn is_in_region(object: &Object<'_>) -> bool {
    match object.kind {
        ObjectKind::Field { form, .. } => !matches!(form, UnitForm::Index),
        _ => false,
    }
}

/// Counts an object in the regions in which it may be, and tells the number of its region, where it is sure to be in
/// that one.
pub(crate) fn count_unit(
    survey: &Survey,
    regions: &mut Vec<RegionTerms<'_>>,
    object: &Object<'_>,
) -> Result<Option<usize>, AllocError> {
    if !is_in_region(object) {
        return Ok(None);
    }
    let links = links_of(survey, object.number)?;
    let Some(link) = links.first() else {
        return Ok(None);
    };
    let mut number = None;
    for path in &link.paths {
        number = count_at(regions, path);
    }
    if link.paths.len() == 1 {
        Ok(number)
    } else {
        Ok(None)
    }
}
