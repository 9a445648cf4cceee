//! What checks find.

use acpi_check_ids::CheckId;
use acpi_name::Path;
use acpi_overview::{Object, Site};
use std::alloc::AllocError;
use text_buffer::Text;

/// What a check finds.
#[derive(Debug, Drop)]
pub struct Finding {
    /// The check.
    pub id: CheckId,
    /// The path of which it speaks.
    pub path: Path,
    /// The number of the table in which that stands.
    pub table: usize,
    /// Where it stands, in bytes from the table's first, the header included.
    pub offset: usize,
    /// In the body of a method the line, from 1.
    pub line: Option<usize>,
    /// What is said of it.
    pub text: Vec<u8>,
}

/// Puts what is said of a path and a place behind what was found.
pub fn put_finding_at(
    found: &mut Vec<Finding>,
    id: CheckId,
    path: &Path,
    site: Site,
    line: Option<usize>,
    text: Text,
) -> Result<(), AllocError> {
    found.push(Finding {
        id,
        path: path.copy()?,
        table: site.table,
        offset: site.offset,
        line,
        text: text.into_bytes()?,
    })?;
    Ok(())
}

/// Puts what is said of an object behind what was found. Nothing is said of what is there before all tables.
pub fn put_finding(
    found: &mut Vec<Finding>,
    id: CheckId,
    object: &Object<'_>,
    line: Option<usize>,
    text: Text,
) -> Result<(), AllocError> {
    match object.site {
        Some(site) => put_finding_at(found, id, object.path, site, line, text),
        None => Ok(()),
    }
}
