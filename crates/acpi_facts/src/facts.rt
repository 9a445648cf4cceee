//! All facts of a survey.

use crate::names::Names;
use crate::objects::objects_of;
use crate::regions::{regions_of, set_sources};
use crate::store_targets::StoreTargets;
use crate::tables::table_of;
use crate::units::count_unit;
use acpi_overview::{CodeTemplate, Facts, Object, RegionTerms, Table, Value};
use acpi_survey::Survey;
use std::alloc::{AllocError, Global};

fn tables_of(alloc: Global, survey: &Survey) -> Result<Vec<Table<'_>>, AllocError> {
    let mut tables = Vec::new(alloc);
    for table in &survey.tables {
        tables.push(table_of(table))?;
    }
    Ok(tables)
}

// Counts the field units in regions, and tells the regions of those that are sure to be in one.
fn count_units(
    survey: &Survey,
    regions: &mut Vec<RegionTerms<'_>>,
    objects: &mut Vec<Object<'_>>,
) -> Result<(), AllocError> {
    for object in objects.iter_mut() {
        object.region = count_unit(survey, regions, object)?;
    }
    Ok(())
}

/// The facts of a survey, whose code stores to these targets. By the place of an object its value is given, and by the places of
/// methods the templates that they return. Only an allocation failure is an error.
pub fn facts_of<'a>(
    alloc: Global,
    survey: &'a Survey,
    store_targets: &StoreTargets,
    values: Vec<Value<'a>>,
    templates: Vec<CodeTemplate<'a>>,
) -> Result<Facts<'a>, AllocError> {
    let mut objects = objects_of(alloc, survey)?;
    let mut regions = regions_of(Names {
        alloc,
        survey,
        objects: &objects,
        store_targets,
    })?;
    count_units(survey, &mut regions, &mut objects)?;
    let names = Names {
        alloc,
        survey,
        objects: &objects,
        store_targets,
    };
    set_sources(names, &mut regions)?;
    Ok(Facts {
        tables: tables_of(alloc, survey)?,
        objects,
        values,
        templates,
        regions,
        opaque: store_targets.opaque(),
    })
}
