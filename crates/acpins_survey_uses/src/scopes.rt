//! The scopes from which names are searched.

use crate::declared::is_at_or_below;
use acpi_name::{NameRef, Path, PlaceFault, Seg, place};
use acpi_ranges::{PlaceIndex, SpanContent, Spans, index_of};
use acpi_survey::{Survey, place_in};
use acpi_use_list::UseSite;
use std::alloc::{AllocError, Global};

// Whether the path has the segment below a beginning of the scope.
fn is_beside(path: &Path, scope: &Path, seg: Seg) -> bool {
    match path.segs().split_last() {
        Some((last, above)) => *last == seg && scope.segs().starts_with(above),
        None => false,
    }
}

/// Whether a path that the search of a name from a scope tries is a path, or lies below it (ACPI 6.5, 5.3).
pub(crate) fn tries_below(
    alloc: Global,
    scope: &Path,
    name: NameRef<'_>,
    path: &Path,
) -> Result<bool, AllocError> {
    if let Some(seg) = name.plain() {
        return Ok(is_at_or_below(scope, path) || is_beside(path, scope, seg));
    }
    match place(alloc, scope, name) {
        Ok(tried) => Ok(is_at_or_below(&tried, path)),
        Err(PlaceFault::AboveRoot) => Ok(false),
        Err(PlaceFault::Memory) => Err(AllocError),
    }
}

/// The scopes of the nodes of a survey, in the order of their places.
#[derive(Drop)]
pub(crate) struct NodeScopes<'a> {
    root: Path,
    survey: &'a Survey,
    scopes: Vec<(u128, Option<&'a Path>)>,
}

// Puts the scopes of the nodes of a table behind others.
fn put_scopes<'a>(
    scopes: &mut Vec<(u128, Option<&'a Path>)>,
    survey: &'a Survey,
    index: &PlaceIndex<'a>,
    number: usize,
) -> Result<(), AllocError> {
    let Some(table) = survey.tables.get(number) else {
        return Ok(());
    };
    let mut ranges = Spans::new(survey.memory(), &table.nodes, table.code().len())?;
    while let Some(range) = ranges.next_in(index, number)? {
        match range.span.what {
            SpanContent::Node(_) => {
                scopes.push((place_in(number, range.span.from), range.around))?;
            }
            _ => {}
        }
    }
    Ok(())
}

impl<'a> NodeScopes<'a> {
    /// Those of a survey.
    pub(crate) fn new(alloc: Global, survey: &'a Survey) -> Result<NodeScopes<'a>, AllocError> {
        let index = index_of(survey)?;
        let mut scopes = Vec::new(alloc);
        for number in 0..survey.tables.len() {
            put_scopes(&mut scopes, survey, &index, number)?;
        }
        Ok(NodeScopes {
            root: Path::root(alloc),
            survey,
            scopes,
        })
    }

    // The scope of the node at a place.
    fn at_place(&self, place: u128) -> &Path {
        let count = self.scopes.partition_point(|scope| scope.0 < place);
        match self.scopes.get(count) {
            Some((found, Some(path))) if *found == place => path,
            _ => &self.root,
        }
    }

    /// The scope from which a name that stands there is searched.
    pub(crate) fn at(&self, site: UseSite) -> &Path {
        match site {
            UseSite::Node { place } => self.at_place(place),
            UseSite::Line { method, .. } => match self.survey.entry(method) {
                Some(entry) => &entry.path,
                None => &self.root,
            },
        }
    }
}
