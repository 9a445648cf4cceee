//! The entries of a `_PRT`.

use acpi_check_machine::{constant, name_read, package_of};
use acpi_name::Name;
use acpi_tree::Term;
use std::alloc::{AllocError, Global};

/// What an interrupt pin leads to.
#[derive(Debug, Clone, Copy)]
pub enum RouteSource<'a> {
    /// A global system interrupt.
    Interrupt(u64),
    /// An interrupt link device, by its name.
    Link(&'a Name),
    /// What a term gives.
    Computed(&'a Term),
}

/// An entry of a `_PRT`.
#[derive(Debug, Clone, Copy)]
pub struct Route<'a> {
    /// The address of the device on its bus: the device in the upper 16 bits of 32, FFFF in the lower ones for all functions.
    pub address: u64,
    /// The pin: 0 for A up to 3 for D.
    pub pin: u64,
    /// What it leads to.
    pub source: RouteSource<'a>,
}

fn source_of<'a>(source: &'a Term, index: &'a Term) -> RouteSource<'a> {
    if let Some(name) = name_read(source) {
        return RouteSource::Link(name);
    }
    match (constant(source), constant(index)) {
        (Some(0), Some(number)) => RouteSource::Interrupt(number),
        (Some(0), None) => RouteSource::Computed(index),
        _ => RouteSource::Computed(source),
    }
}

fn route_of(entry: &Term) -> Option<Route<'_>> {
    let [address, pin, source, index] = package_of(entry)? else {
        return None;
    };
    Some(Route {
        address: constant(address)?,
        pin: constant(pin)?,
        source: source_of(source, index),
    })
}

/// The entries of a `_PRT` that have an address and a pin.
pub fn routes_in<'a>(alloc: Global, entries: &'a [Term]) -> Result<Vec<Route<'a>>, AllocError> {
    let mut routes = Vec::new(alloc);
    for entry in entries {
        if let Some(route) = route_of(entry) {
            routes.push(route)?;
        }
    }
    Ok(routes)
}
