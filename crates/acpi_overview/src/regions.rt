//! Operation regions.

ghost use Rattle.std.specs.Prelude.{◌≡◌, ◌≤◌, IfSome};
ghost use Rattle.acpi_overview.specs.Regions.{bound_number, claimed_kind, region_mark, region_range, IsBoundOf};

use crate::addresses::Address;
use crate::containers::Tree;
use crate::facts::{BoundTerm, RegionTerms};
use crate::objects::Object;
use crate::resources::AddressKind;
use crate::value::Value;
use acpi_kinds::{ObjectKind, UnitForm};
use acpi_name::{Name, Path};
use acpi_tree::Term;
use std::alloc::{AllocError, Global};

/// A bound of a region: its offset or its length, in bytes (ACPI 6.5, 19.6.100).
#[derive(Debug, Clone, Copy)]
pub enum Bound<'a> {
    /// A constant: its value.
    Constant(u64),
    /// A name whose only object is a constant that no code stores to.
    Named(u64, &'a Name),
    /// A term that is evaluated when the region is first used.
    Read(&'a Term),
}

/// How far the bounds of a region are known.
#[derive(Debug, Clone, Copy, PartialEq, Eq)]
pub enum Certainty {
    /// Both are constants.
    Constant,
    /// Both are constants or names of constants that no code stores to.
    Named,
    /// One of them is evaluated when the region is first used.
    Read,
}

/// A field unit from which a bound of a region is read at run time.
#[derive(Debug, Clone, Copy)]
pub struct UnitSource<'a> {
    /// Where the field unit stands in the namespace.
    pub unit: &'a Path,
    /// Its first bit, from the first of its region.
    pub offset: u64,
    /// Its width, in bits.
    pub bits: u32,
    /// Where its region stands in the namespace.
    pub region: &'a Path,
    /// RegionSpace of that region.
    pub space: u8,
    /// Where the device around that region stands.
    pub device: Address,
}

/// An operation region.
#[derive(Debug, Clone, Copy)]
pub struct Region<'a> {
    /// The object that the region is.
    pub object: Object<'a>,
    /// Where the device around it stands.
    pub device: Address,
    /// RegionSpace: 0 SystemMemory, 1 SystemIO and so on (ACPI 6.5, 20.2.5.2 DefOpRegion).
    pub space: u8,
    /// RegionOffset: its first byte in the space.
    pub offset: Bound<'a>,
    /// RegionLen: how many bytes it has.
    pub length: Bound<'a>,
    /// How many field units may be in it.
    pub units: usize,
    /// The field unit from which its first byte is read.
    pub source: Option<UnitSource<'a>>,
}

impl<'a> Bound<'a> {
    /// The bound that a term gives, which may name a constant.
    pub fn new(bound: &BoundTerm<'a>) -> Bound<'a>
        ensures { IsBoundOf bound.now.term.now result }
    {
        if let Some(number) = Value::of_term(bound.term).number() {
            return Bound::Constant(number);
        }
        match (bound.term, bound.constant) {
            (Term::Call(name, _), Some(constant)) => Bound::Named(constant, name),
            _ => Bound::Read(bound.term),
        }
    }

    /// The number, where it is known without running code.
    pub fn number(&self) -> Option<u64>
        ensures { result ≡ bound_number self.now }
    {
        match self {
            Bound::Constant(number) => Some(*number),
            Bound::Named(number, _) => Some(*number),
            Bound::Read(_) => None,
        }
    }
}

impl<'a> Region<'a> {
    /// How far its bounds are known.
    pub fn mark(&self) -> Certainty
        ensures { result ≡ region_mark self.now.offset self.now.length }
    {
        match (self.offset, self.length) {
            (Bound::Read(_), _) => Certainty::Read,
            (_, Bound::Read(_)) => Certainty::Read,
            (Bound::Constant(_), Bound::Constant(_)) => Certainty::Constant,
            _ => Certainty::Named,
        }
    }

    /// The first byte and the first behind the last, where both bounds are known without running code.
    pub fn range(&self) -> Option<(u64, u64)>
        ensures order { IfSome result (λ r. r.0 ≤ r.1) }
        ensures exact { result ≡ region_range (bound_number self.now.offset)
            (bound_number self.now.length) }
    {
        let from = self.offset.number()?;
        Some((from, from.saturating_add(self.length.number()?)))
    }
}

// Where the device stands around the object at a place.
fn device_around(tree: &Tree<'_>, place: usize) -> Address {
    match tree.container_around(place) {
        Some(container) => container.address,
        None => Address::Missing,
    }
}

// The field unit from which the first byte of a region is read, where it is sure to be in one of the regions.
fn source_of<'a>(
    regions: &[RegionTerms<'a>],
    tree: &Tree<'a>,
    region: &RegionTerms<'a>,
) -> Option<UnitSource<'a>> {
    let unit = region.source?;
    let ObjectKind::Field {
        form: UnitForm::Field,
        offset,
        bits,
        ..
    } = unit.kind
    else {
        return None;
    };
    let region = regions.get(unit.region?)?;
    Some(UnitSource {
        unit: unit.path,
        offset,
        bits,
        region: region.object.path,
        space: region.space,
        device: device_around(tree, region.place),
    })
}

/// The regions, in their order.
pub(crate) fn regions_of<'a>(
    alloc: Global,
    regions: &[RegionTerms<'a>],
    tree: &Tree<'a>,
) -> Result<Vec<Region<'a>>, AllocError> {
    let mut all = Vec::new(alloc);
    for region in regions {
        all.push(Region {
            object: region.object,
            device: device_around(tree, region.place),
            space: region.space,
            offset: Bound::new(&region.offset),
            length: Bound::new(&region.length),
            units: region.units,
            source: source_of(regions, tree, region),
        })?;
    }
    Ok(all)
}

/// The kind of addresses of an address space, if devices claim such (ACPI 6.5, table 5.184): 0 SystemMemory, 1
/// SystemIO.
pub fn kind_of(space: u8) -> Option<AddressKind>
    ensures { result ≡ claimed_kind space }
{
    match space {
        0 => Some(AddressKind::Memory),
        1 => Some(AddressKind::Ports),
        _ => None,
    }
}
