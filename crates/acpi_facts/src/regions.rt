//! Operation regions, with what the names in their bounds find.

use crate::names::Names;
use acpi_kinds::ObjectKind;
use acpi_overview::{BoundTerm, Object, RegionTerms};
use acpi_tree::Term;
use std::alloc::AllocError;

// A bound in the term of an entry.
fn bound<'a>(
    names: Names<'a, '_>,
    number: usize,
    term: &'a Term,
) -> Result<BoundTerm<'a>, AllocError> {
    Ok(BoundTerm {
        term,
        constant: names.constant(number, term)?,
    })
}

// The object at a place, if it is a region.
fn region_of<'a>(
    names: Names<'a, '_>,
    object: &Object<'a>,
    place: usize,
) -> Result<Option<RegionTerms<'a>>, AllocError> {
    let ObjectKind::Region {
        space,
        offset,
        length,
    } = object.kind
    else {
        return Ok(None);
    };
    Ok(Some(RegionTerms {
        object: *object,
        place,
        space,
        offset: bound(names, object.number, offset)?,
        length: bound(names, object.number, length)?,
        source: None,
        units: 0,
    }))
}

/// The regions in the order of their paths, without the objects that are read for their offsets.
pub(crate) fn regions_of<'a>(names: Names<'a, '_>) -> Result<Vec<RegionTerms<'a>>, AllocError> {
    let mut regions = Vec::new(names.alloc);
    for place in 0..names.objects.len() {
        if let Some(region) = region_of(names, &names.objects[place], place)? {
            regions.push(region)?;
        }
    }
    Ok(regions)
}

/// Tells the objects that are read for the offsets of regions.
pub(crate) fn set_sources<'a>(
    names: Names<'a, '_>,
    regions: &mut Vec<RegionTerms<'a>>,
) -> Result<(), AllocError> {
    for region in regions.iter_mut() {
        if region.offset.constant.is_none() {
            region.source = names.source(region.object.number, region.offset.term)?;
        }
    }
    Ok(())
}
