//! The objects below which others stand: scopes, devices, processors, power resources and thermal zones.

ghost use Rattle.std.specs.Prelude.{◌≡◌, length, IfOk};
ghost use Rattle.acpi_overview.specs.Containers.{is_container};
ghost use Rattle.acpi_overview.specs.Paths.{is_directly_in, is_within, last_name};

use crate::addresses::{Address, set_addresses};
use crate::objects::Object;
use crate::value::Value;
use acpi_kinds::ObjectKind;
use acpi_name::Path;
use std::alloc::{AllocError, Global};

/// What is known of the objects of a device by which an operating system finds it (ACPI 6.5, 6.1 to 6.3 and 7.3).
#[derive(Debug, Clone, Copy)]
pub struct DeviceValues<'a> {
    /// `_HID`, the hardware id.
    pub hid: Value<'a>,
    /// `_CID`, the ids of devices with which it is compatible.
    pub cid: Value<'a>,
    /// `_UID`, which tells devices of one hardware id apart.
    pub uid: Value<'a>,
    /// `_ADR`, the address on the parent's bus.
    pub adr: Value<'a>,
    /// `_BBN`, the number of a host bridge's bus.
    pub bbn: Value<'a>,
    /// `_STA`, whether it is there.
    pub sta: Value<'a>,
    /// `_CRS`, its resources.
    pub crs: Value<'a>,
    /// `_PRW`, by which event it wakes the machine.
    pub prw: Value<'a>,
    /// `_PRS`, the resources between which it has a choice.
    pub prs: Value<'a>,
    /// `_PRT`, which interrupts the pins of the devices on its bus have.
    pub prt: Value<'a>,
    /// `_DDN`, what its maker calls it, as DOS does.
    pub ddn: Value<'a>,
    /// `_STR`, what its maker calls it.
    pub str: Value<'a>,
    /// `_GPE`, the event of an embedded controller.
    pub gpe: Value<'a>,
}

/// How many objects stand directly below another.
#[derive(Debug, Clone, Copy)]
pub struct MemberCounts {
    /// How many methods.
    pub methods: usize,
    /// How many field units.
    pub units: usize,
    /// How many operation regions.
    pub regions: usize,
    /// How many of these lie in PCI configuration space.
    pub config_regions: usize,
    /// How many names that have data.
    pub names: usize,
}

/// An object below which others stand.
#[derive(Debug, Clone, Copy)]
pub struct Container<'a> {
    /// The object; the first of several at its path.
    pub object: Object<'a>,
    /// The number of the container around.
    pub parent: Option<usize>,
    /// How many containers are around.
    pub depth: usize,
    /// How many objects have its path.
    pub count: usize,
    /// Where its object stands among all.
    pub place: usize,
    /// What is known of the device.
    pub values: DeviceValues<'a>,
    /// What stands directly below it.
    pub counts: MemberCounts,
    /// Where it stands on its parent's bus.
    pub address: Address,
    /// Whether it is a function of a PCI bus and for sure the bridge to another one.
    pub is_pci_bridge: bool,
}

/// The containers in the order of their paths, so that each stands behind those around, and for each object the
/// container below which it stands.
#[derive(Drop)]
pub struct Tree<'a> {
    /// The containers, by their numbers.
    pub containers: Vec<Container<'a>>,
    /// By the place of an object among all, the number of the container around.
    pub around: Vec<Option<usize>>,
}

const NOTHING: DeviceValues<'static> = DeviceValues {
    hid: Value::Missing,
    cid: Value::Missing,
    uid: Value::Missing,
    adr: Value::Missing,
    bbn: Value::Missing,
    sta: Value::Missing,
    crs: Value::Missing,
    prw: Value::Missing,
    prs: Value::Missing,
    prt: Value::Missing,
    ddn: Value::Missing,
    str: Value::Missing,
    gpe: Value::Missing,
};

const NO_MEMBERS: MemberCounts = MemberCounts {
    methods: 0,
    units: 0,
    regions: 0,
    config_regions: 0,
    names: 0,
};

/// Whether others may stand below what a term declares.
pub fn is_container(kind: ObjectKind<'_>) -> bool
    ensures { result ≡ is_container kind.entry }
{
    matches!(
        kind,
        ObjectKind::Root
            | ObjectKind::Scope
            | ObjectKind::Device
            | ObjectKind::Processor { .. }
            | ObjectKind::Power { .. }
            | ObjectKind::Thermal
    )
}

/// Whether a path is that of a scope, or stands below it.
pub fn is_within(path: &Path, scope: &Path) -> bool
    ensures { result ≡ is_within path.now scope.now }
{
    path.segs().starts_with(scope.segs())
}

/// Whether a path stands directly below that of a scope.
pub fn is_directly_in(path: &Path, scope: &Path) -> bool
    ensures { result ≡ is_directly_in path.now scope.now }
{
    path.len() == scope.len() + 1 && is_within(path, scope)
}

/// The last segment of a path; four blanks for the root.
pub fn last_segment(path: &Path) -> [u8; 4]
    ensures { result ≡ last_name path.now }
{
    match path.segs().last() {
        Some(segment) => segment.bytes(),
        None => *b"    ",
    }
}

fn set<'a>(fact: &mut Value<'a>, value: Value<'a>) {
    *fact = if fact.is_missing() {
        value
    } else {
        Value::Unknown
    };
}

impl<'a> DeviceValues<'a> {
    // Adds an object of the device, by its last segment.
    fn add(&mut self, segment: &[u8], value: Value<'a>) {
        match segment {
            b"_HID" => set(&mut self.hid, value),
            b"_CID" => set(&mut self.cid, value),
            b"_UID" => set(&mut self.uid, value),
            b"_ADR" => set(&mut self.adr, value),
            b"_BBN" => set(&mut self.bbn, value),
            b"_STA" => set(&mut self.sta, value),
            b"_CRS" => set(&mut self.crs, value),
            b"_PRW" => set(&mut self.prw, value),
            b"_PRS" => set(&mut self.prs, value),
            b"_PRT" => set(&mut self.prt, value),
            b"_DDN" => set(&mut self.ddn, value),
            b"_STR" => set(&mut self.str, value),
            b"_GPE" => set(&mut self.gpe, value),
            _ => {}
        }
    }
}

impl MemberCounts {
    fn add(&mut self, kind: ObjectKind<'_>) {
        match kind {
            ObjectKind::Method(_) => self.methods = self.methods.saturating_add(1),
            ObjectKind::Field { .. } => self.units = self.units.saturating_add(1),
            ObjectKind::Name(_) => self.names = self.names.saturating_add(1),
            ObjectKind::Region { space, .. } => {
                self.regions = self.regions.saturating_add(1);
                if space == 2 {
                    self.config_regions = self.config_regions.saturating_add(1);
                }
            }
            _ => {}
        }
    }
}

impl<'a> Container<'a> {
    // Adds an object that stands below it, of which this value is known.
    fn add(&mut self, object: &Object<'a>, value: Value<'a>) {
        if !is_directly_in(object.path, self.object.path) {
            return;
        }
        let value = if object.has_own_condition {
            Value::Unknown
        } else {
            value
        };
        self.values.add(&last_segment(object.path), value);
        self.counts.add(object.kind);
    }
}

/// The containers while the objects are gone through.
#[derive(Drop)]
struct Building<'a> {
    containers: Vec<Container<'a>>,
    open: Vec<usize>,
}

impl<'a> Building<'a> {
    // The innermost container around a path; those that are not around it are left.
    fn leave_to(&mut self, path: &Path) -> Option<usize> {
        for _ in 0..self.open.len() {
            let number = *self.open.last()?;
            let container = self.containers.get(number)?;
            if is_within(path, container.object.path) {
                return Some(number);
            }
            self.open.pop();
        }
        None
    }

    // Puts a container behind the others, whose parent has that number.
    fn put(
        &mut self,
        object: &Object<'a>,
        place: usize,
        parent: Option<usize>,
    ) -> Result<(), AllocError> {
        let number = self.containers.len();
        self.containers.push(Container {
            object: *object,
            parent,
            depth: self.open.len(),
            count: 1,
            place,
            values: NOTHING,
            counts: NO_MEMBERS,
            address: Address::Missing,
            is_pci_bridge: false,
        })?;
        self.open.push(number)?;
        Ok(())
    }

    // Adds an object to the container of that number, below which it stands.
    fn add_to(&mut self, number: usize, object: &Object<'a>, value: Value<'a>) {
        if let Some(container) = self.containers.get_mut(number) {
            container.add(object, value);
        }
    }

    // Whether the container of that number has the path; then it counts one more object at it.
    fn count_again(&mut self, number: usize, path: &Path) -> bool {
        match self.containers.get_mut(number) {
            Some(container) => {
                let is_same = container.object.path.len() == path.len();
                if is_same {
                    container.count = container.count.saturating_add(1);
                }
                is_same
            }
            None => false,
        }
    }

    // Comes to the next object, of which this value is known; the number of the container around it.
    fn next(
        &mut self,
        object: &Object<'a>,
        value: Value<'a>,
        place: usize,
    ) -> Result<Option<usize>, AllocError> {
        let around = self.leave_to(object.path);
        if !is_container(object.kind) {
            if let Some(number) = around {
                self.add_to(number, object, value);
            }
            return Ok(around);
        }
        if let Some(number) = around {
            if self.count_again(number, object.path) {
                return Ok(self.containers.get(number).and_then(|h| h.parent));
            }
        }
        self.put(object, place, around)?;
        Ok(around)
    }
}

impl<'a> Tree<'a> {
    /// The tree of the objects, which stand in the order of their paths, of which these values are known.
    pub fn new(
        alloc: Global,
        objects: &[Object<'a>],
        values: &[Value<'a>],
    ) -> Result<Tree<'a>, AllocError>
        ensures { IfOk result (λ t. length t.around.items ≡ length objects.now) }
    {
        let mut building = Building {
            containers: Vec::new(alloc),
            open: Vec::new(alloc),
        };
        let mut around = Vec::new(alloc);
        'each: for place in 0..objects.len() {
            let value = values.get(place).copied().unwrap_or(Value::Unknown);
            let container = building.next(&objects[place], value, place)?;
            around.push(container)?;
        }
        let mut containers = building.containers;
        set_addresses(alloc, &mut containers)?;
        Ok(Tree { containers, around })
    }

    /// The container around the object at a place.
    pub fn container_around(&self, place: usize) -> Option<&Container<'a>> {
        let number = (*self.around.get(place)?)?;
        self.containers.get(number)
    }
}
