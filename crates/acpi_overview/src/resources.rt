//! The resources of devices, and which addresses they claim.

ghost use Rattle.std.specs.Prelude.{◌≡◌, length, IfOk};
ghost use Rattle.acpi_overview.specs.Claims.{claimed_range, fixed_range, range_of, space_range};

use crate::containers::{Container, Tree, last_segment};
use crate::facts::{CodeTemplate, WrittenBytes};
use crate::objects::Object;
use crate::value::Value;
use acpi_name::Name;
use acpi_resources::{AddressSpace, Descriptor, Template, TemplateStop, decode, split_descriptor};
use std::alloc::{AllocError, Global};

/// A kind of addresses that devices claim and regions lie in.
#[derive(Debug, Clone, Copy, PartialEq, Eq, PartialOrd, Ord)]
pub enum AddressKind {
    /// Addresses of memory, in bytes.
    Memory,
    /// I/O ports, by number.
    Ports,
}

/// What gives the resources of a device.
#[derive(Debug, Clone, Copy)]
pub enum ResourceSource<'a> {
    /// Nothing.
    Missing,
    /// A constant.
    Constant,
    /// A buffer of that name, of which code writes some bytes.
    Template(&'a Name),
    /// Code, by the number of its bytes.
    Method(usize),
    /// Something else.
    Unknown,
}

/// A descriptor of resources.
#[derive(Debug, Clone, Copy)]
pub struct Resource<'a> {
    /// The number of bytes of the template before it.
    pub from: usize,
    /// The bytes that spell it.
    pub bytes: &'a [u8],
    /// What it says.
    pub descriptor: Descriptor<'a>,
}

/// The resources that `_CRS` or `_PRS` of a device gives (ACPI 6.5, 6.2.2 and 6.2.12).
#[derive(Debug, Drop)]
pub struct Resources<'a> {
    /// What gives them.
    pub source: ResourceSource<'a>,
    /// The descriptors, but for the end tag; none where code alone tells them.
    pub items: Vec<Resource<'a>>,
    /// The bytes of the template that code writes.
    pub written: Vec<WrittenBytes>,
    /// Why the bytes are no resource template, if they are none.
    pub stop: Option<TemplateStop>,
}

impl Resources<'_> {
    /// Whether code writes some of so many bytes of a descriptor, from one of its bytes on.
    pub fn is_written(&self, resource: &Resource<'_>, offset: usize, count: usize) -> bool {
        let from = resource.from.saturating_add(offset);
        let to = from.saturating_add(count);
        self.written.iter().any(|w| w.from < to && from < w.to)
    }

    /// Whether all of a descriptor is constant.
    pub fn is_constant(&self, resource: &Resource<'_>) -> bool {
        !self.is_written(resource, 0, resource.bytes.len())
    }

    /// Whether descriptors are known.
    pub fn is_known(&self) -> bool {
        matches!(
            self.source,
            ResourceSource::Constant | ResourceSource::Template(_)
        )
    }
}

// The descriptors that bytes spell, each with its bytes.
fn items_in<'a>(alloc: Global, bytes: &'a [u8]) -> Result<Vec<Resource<'a>>, AllocError> {
    let mut items = Vec::new(alloc);
    let mut rest = bytes;
    let mut from = 0usize;
    for _ in 0..bytes.len() {
        let Some((descriptor, behind)) = split_descriptor(rest) else {
            break;
        };
        if descriptor.is_end_tag() {
            break;
        }
        let length = rest.len().saturating_sub(behind.len());
        items.push(Resource {
            from,
            bytes: &rest[..length.min(rest.len())],
            descriptor,
        })?;
        from = from.saturating_add(length);
        rest = behind;
    }
    Ok(items)
}

// The resources that a buffer says.
fn said_by<'a>(
    alloc: Global,
    source: ResourceSource<'a>,
    bytes: &'a [u8],
) -> Result<Resources<'a>, AllocError> {
    Ok(Resources {
        source,
        items: items_in(alloc, bytes)?,
        written: Vec::new(alloc),
        stop: decode(alloc, bytes)?.stop,
    })
}

// What a value says of resources.
fn resources_in<'a>(alloc: Global, value: &Value<'a>) -> Result<Resources<'a>, AllocError> {
    let source = match value {
        Value::Buffer(bytes) => return said_by(alloc, ResourceSource::Constant, bytes),
        Value::Missing => ResourceSource::Missing,
        Value::Method(code) => ResourceSource::Method(*code),
        _ => ResourceSource::Unknown,
    };
    Ok(Resources {
        source,
        items: Vec::new(alloc),
        written: Vec::new(alloc),
        stop: None,
    })
}

/// The resources of each container, and those between which it has a choice.
#[derive(Drop)]
pub struct ResourceLists<'a> {
    /// By the number of a container, what `_CRS` gives.
    pub current: Vec<Resources<'a>>,
    /// By the number of a container, what `_PRS` gives.
    pub possible: Vec<Resources<'a>>,
}

impl<'a> ResourceLists<'a> {
    // The lists of containers, without what code writes.
    fn new(alloc: Global, containers: &[Container<'a>]) -> Result<ResourceLists<'a>, AllocError> {
        let mut current = Vec::new(alloc);
        let mut possible = Vec::new(alloc);
        for container in containers {
            current.push(resources_in(alloc, &container.values.crs)?)?;
            possible.push(resources_in(alloc, &container.values.prs)?)?;
        }
        Ok(ResourceLists { current, possible })
    }

    // Where the resources stand that the object at a path gives in the container of that number.
    fn place_of(&mut self, number: usize, segment: [u8; 4]) -> Option<&mut Resources<'a>> {
        match segment.as_slice() {
            b"_CRS" => self.current.get_mut(number),
            b"_PRS" => self.possible.get_mut(number),
            _ => None,
        }
    }

    // Puts what a template says that code writes, where the method is all that gives the resources.
    fn put_template(
        &mut self,
        alloc: Global,
        objects: &[Object<'a>],
        tree: &Tree<'a>,
        template: CodeTemplate<'a>,
    ) -> Result<(), AllocError> {
        let (Some(object), Some(number)) = (
            objects.get(template.place),
            tree.around.get(template.place).copied().flatten(),
        ) else {
            return Ok(());
        };
        let segment = last_segment(object.path);
        if let Some(place) = self.place_of(number, segment) {
            if let ResourceSource::Method(_) = place.source {
                let source = ResourceSource::Template(template.name);
                let mut resources = said_by(alloc, source, template.bytes)?;
                resources.written = template.written;
                *place = resources;
            }
        }
        Ok(())
    }
}

/// The resources of all containers.
pub(crate) fn resources_of<'a>(
    alloc: Global,
    objects: &[Object<'a>],
    tree: &Tree<'a>,
    templates: Vec<CodeTemplate<'a>>,
) -> Result<ResourceLists<'a>, AllocError> {
    let mut lists = ResourceLists::new(alloc, &tree.containers)?;
    for template in templates {
        lists.put_template(alloc, objects, tree, template)?;
    }
    Ok(lists)
}

/// The descriptors of each container's `_CRS` that are constant, where they are known.
pub(crate) fn constant_templates<'a>(
    alloc: Global,
    lists: &[Resources<'a>],
) -> Result<Vec<Option<Template<'a>>>, AllocError>
    ensures { IfOk result (λ v. length v.items ≡ length lists.now) }
{
    let mut templates = Vec::new(alloc);
    for resources in lists {
        templates.push(constant_template(alloc, resources)?)?;
    }
    Ok(templates)
}

// The constant descriptors of resources that are known.
fn constant_template<'a>(
    alloc: Global,
    resources: &Resources<'a>,
) -> Result<Option<Template<'a>>, AllocError> {
    if !resources.is_known() {
        return Ok(None);
    }
    let mut descriptors = Vec::new(alloc);
    for resource in &resources.items {
        if resources.is_constant(resource) {
            descriptors.push(resource.descriptor)?;
        }
    }
    Ok(Some(Template {
        descriptors,
        stop: None,
    }))
}

fn range(kind: AddressKind, from: u64, count: u64) -> Option<(AddressKind, u64, u64)>
    ensures { result ≡ range_of kind from count }
{
    if count == 0 {
        return None;
    }
    Some((kind, from, from.saturating_add(count)))
}

// A range that can't be moved.
fn fixed_range(kind: AddressKind, min: u64, max: u64, count: u64) -> Option<(AddressKind, u64, u64)>
    ensures { result ≡ fixed_range kind min max count }
{
    if min != max {
        return None;
    }
    range(kind, min, count)
}

// What a bridge passes on to the devices behind it is not claimed.
fn space_range(space: &AddressSpace<'_>, is_bridge: bool) -> Option<(AddressKind, u64, u64)>
    ensures { result ≡ space_range space.now is_bridge }
{
    if is_bridge && space.flags % 2 == 0 {
        return None;
    }
    match space.kind {
        0 => range(AddressKind::Memory, space.min, space.length),
        1 => range(AddressKind::Ports, space.min, space.length),
        _ => None,
    }
}

/// The addresses that a descriptor claims, of a container that may be a PCI host bridge: the first, and the first
/// behind them.
pub fn claimed_range(
    descriptor: &Descriptor<'_>,
    is_bridge: bool,
) -> Option<(AddressKind, u64, u64)>
    ensures { result ≡ claimed_range is_bridge descriptor.now }
{
    match descriptor {
        Descriptor::Io(io) => fixed_range(
            AddressKind::Ports,
            u64::from(io.min),
            u64::from(io.max),
            u64::from(io.length),
        ),
        Descriptor::FixedIo(io) => range(
            AddressKind::Ports,
            u64::from(io.base),
            u64::from(io.length),
        ),
        Descriptor::Memory24(memory) => fixed_range(
            AddressKind::Memory,
            u64::from(memory.min).saturating_mul(256),
            u64::from(memory.max).saturating_mul(256),
            u64::from(memory.length).saturating_mul(256),
        ),
        Descriptor::Memory32(memory) => fixed_range(
            AddressKind::Memory,
            u64::from(memory.min),
            u64::from(memory.max),
            u64::from(memory.length),
        ),
        Descriptor::FixedMemory32(memory) => range(
            AddressKind::Memory,
            u64::from(memory.base),
            u64::from(memory.length),
        ),
        Descriptor::AddressSpace(space) => space_range(space, is_bridge),
        _ => None,
    }
}
