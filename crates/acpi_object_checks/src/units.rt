//! Field units, each with its only region.

use acpi_check_machine::{Body, CheckId, Finding, FoundObject, Machine, put_finding_at};
use acpi_entries::links_of;
use acpi_kinds::{ObjectKind, UnitForm};
use acpi_locals::LocalObject;
use acpi_name::Path;
use acpi_overview::Object;
use std::alloc::AllocError;
use text_buffer::Text;

/// An object that a table or the body of a method declares, and where its term stands.
#[derive(Debug, Clone, Copy)]
pub(crate) struct Declared<'m, 'a> {
    /// Its path.
    pub path: &'m Path,
    /// The object of the table: itself, or the method in which it stands.
    pub object: Object<'a>,
    /// The line of its term in the method.
    pub line: Option<usize>,
}

/// A field unit in the only region that its name may find (ACPI 6.5, 19.6.46 and 19.6.7).
#[derive(Debug, Clone, Copy)]
pub(crate) struct Unit<'m, 'a> {
    /// What declares it.
    pub declared: Declared<'m, 'a>,
    /// Where it begins in the region, in bits.
    pub offset: u64,
    /// Its width in bits.
    pub bits: u32,
    /// The object that its region is.
    pub region: FoundObject<'m, 'a>,
}

impl<'m, 'a> Declared<'m, 'a> {
    /// One of a table.
    pub(crate) fn of_table(object: &Object<'a>) -> Declared<'a, 'a> {
        Declared {
            path: object.path,
            object: *object,
            line: None,
        }
    }

    /// One of the body of a method.
    pub(crate) fn of_body(body: &Body<'a>, local: &'m LocalObject<'a>) -> Declared<'m, 'a> {
        Declared {
            path: &local.path,
            object: body.object,
            line: Some(local.line),
        }
    }

    /// Puts what is said of it behind what was found.
    pub(crate) fn put_finding(
        &self,
        found: &mut Vec<Finding>,
        id: CheckId,
        text: Text,
    ) -> Result<(), AllocError> {
        match self.object.site {
            Some(site) => put_finding_at(found, id, self.path, site, self.line, text),
            None => Ok(()),
        }
    }
}

// The bits of a field unit in a region: where they begin, and how many they are.
fn bits_of(kind: ObjectKind<'_>) -> Option<(u64, u32)> {
    match kind {
        ObjectKind::Field {
            form: UnitForm::Field | UnitForm::Bank(_),
            offset,
            bits,
            ..
        } => Some((offset, bits)),
        _ => None,
    }
}

// Puts a field unit behind others, if it has an only region.
fn put<'m, 'a>(
    units: &mut Vec<Unit<'m, 'a>>,
    declared: Declared<'m, 'a>,
    bits: (u64, u32),
    region: Option<FoundObject<'m, 'a>>,
) -> Result<(), AllocError> {
    if let Some(region) = region {
        units.push(Unit {
            declared,
            offset: bits.0,
            bits: bits.1,
            region,
        })?;
    }
    Ok(())
}

/// The object that the first name in the term of an entry finds, if it is the only one.
pub(crate) fn first_linked<'m, 'a>(
    machine: &'m Machine<'a>,
    number: usize,
) -> Result<Option<FoundObject<'m, 'a>>, AllocError> {
    let links = links_of(machine.survey, number)?;
    let Some(link) = links.first() else {
        return Ok(None);
    };
    match machine.only(&link.paths, link.is_certain) {
        Some(object) => Ok(Some(FoundObject::Entry(object))),
        None => Ok(None),
    }
}

// Puts the field units of tables behind others.
fn put_of_tables<'m, 'a>(
    machine: &'m Machine<'a>,
    units: &mut Vec<Unit<'m, 'a>>,
) -> Result<(), AllocError> {
    for object in &machine.objects {
        let Some(bits) = bits_of(object.kind) else {
            continue;
        };
        let region = first_linked(machine, object.number)?;
        put(units, Declared::of_table(object), bits, region)?;
    }
    Ok(())
}

/// The object that the first name in the term of an object of a body finds, if it is the only one.
pub(crate) fn first_found<'m, 'a>(
    machine: &'m Machine<'a>,
    body: &'m Body<'a>,
    local: &LocalObject<'a>,
) -> Option<FoundObject<'m, 'a>> {
    let link = local.links.first()?;
    machine.only_behind(body, local.line, &link.paths, link.is_certain)
}

// Puts the field units of a body behind others, by their paths.
fn put_of_body<'m, 'a>(
    machine: &'m Machine<'a>,
    body: &'m Body<'a>,
    units: &mut Vec<Unit<'m, 'a>>,
) -> Result<(), AllocError> {
    for local in body.locals_by_path(machine.alloc)? {
        if let Some(bits) = bits_of(local.object) {
            let region = first_found(machine, body, local);
            put(units, Declared::of_body(body, local), bits, region)?;
        }
    }
    Ok(())
}

/// The field units that tables and bodies declare, each with its only region.
pub(crate) fn units_of<'m, 'a>(machine: &'m Machine<'a>) -> Result<Vec<Unit<'m, 'a>>, AllocError> {
    let mut units = Vec::new(machine.alloc);
    put_of_tables(machine, &mut units)?;
    for body in &machine.bodies {
        put_of_body(machine, body, &mut units)?;
    }
    Ok(units)
}
