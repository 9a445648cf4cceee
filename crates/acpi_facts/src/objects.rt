//! The objects that tables may declare, by path.

use crate::conditions::has_own_condition;
use acpi_conditions::Entry;
use acpi_objects::object_kind;
use acpi_outline::{Fixed, Node};
use acpi_overview::{Object, Site};
use acpi_ranges::{Site as SurveySite, Span, SpanContent, part_of, site_of};
use acpi_survey::Survey;
use std::alloc::{AllocError, Global};

/// A site of a survey as a plain value.
pub fn plain_site(site: SurveySite) -> Site {
    Site {
        table: site.table,
        offset: site.offset,
    }
}

// The number of bytes of the code of a method.
fn code_bytes(part: &Span<'_>) -> usize {
    match part.what {
        SpanContent::Node(node) => match node {
            Node::Closed(fixed, code) => match fixed {
                Fixed::Method(_, _) => code.len(),
                _ => 0,
            },
            _ => 0,
        },
        _ => 0,
    }
}

// The object of the entry of that number.
fn object_of<'a>(
    survey: &'a Survey,
    entry: &'a Entry,
    number: usize,
    has_own_condition: bool,
) -> Object<'a> {
    let part = part_of(survey, number);
    let has_condition = !entry.asks.is_empty() || !survey.entries().ways.is_empty(entry.way);
    Object {
        number,
        path: &entry.path,
        kind: object_kind(part, number),
        site: part.map(|_| plain_site(site_of(entry.term.place))),
        code: part.map_or(0, |p| code_bytes(&p)),
        is_conditional: part.is_some() && has_condition,
        has_own_condition,
        region: None,
    }
}

/// The objects in the order of their paths, those of one path in the order of their places; of no field unit the region
/// is told. Only an allocation failure is an error.
pub fn objects_of(alloc: Global, survey: &Survey) -> Result<Vec<Object<'_>>, AllocError> {
    let entries = survey.entries().paths.entries();
    let order = survey.entries().paths.by_path()?;
    let mut objects = Vec::new(alloc);
    for (_, number) in &order {
        if let Some(entry) = entries.get(*number) {
            let is_own = has_own_condition(survey, &objects, entry)?;
            objects.push(object_of(survey, entry, *number, is_own))?;
        }
    }
    Ok(objects)
}
