//! All that is known of a machine.

use crate::devices::{Device, devices_of};
use crate::regions::{RegionFact, regions_of};
use acpi_asked::{Interface, UuidUse, interfaces_of, uuids_of};
use acpi_check_machine::Machine;
use acpi_kinds::ObjectKind;
use acpi_overview::Overview;
use acpi_power::{PowerResource, SleepState, power_resources, sleep_states};
use acpi_routes::{Routing, routings_of};
use std::alloc::AllocError;

/// All that is known of a machine without running its code.
#[derive(Drop)]
pub struct MachineFacts<'m, 'a> {
    /// Its objects and bodies.
    pub machine: &'m Machine<'a>,
    /// The tree of its containers, with their values, resources and claims.
    pub overview: &'m Overview<'a>,
    /// By the number of a container, the device that it is, if it is one.
    pub devices: Vec<Option<Device<'a>>>,
    /// The regions of tables in the order of their paths, and then those that methods declare.
    pub regions: Vec<RegionFact<'m, 'a>>,
    /// By the number of a region of tables, the places of the field units that are sure to be in it, among the objects.
    pub units: Vec<Vec<usize>>,
    /// The sleep states, from S0 on.
    pub sleep_states: Vec<SleepState<'a>>,
    /// The power resources, by path.
    pub power_resources: Vec<PowerResource<'a>>,
    /// Which interrupts the pins of PCI devices have, by path.
    pub routings: Vec<Routing<'a>>,
    /// The strings that methods ask of `_OSI`.
    pub interfaces: Vec<Interface<'a>>,
    /// The UUIDs with which methods compare their first argument.
    pub uuids: Vec<UuidUse<'a>>,
}

// By the number of a region, the places of its field units, in the order of their first bits, wider ones first.
fn units_of(machine: &Machine<'_>, overview: &Overview<'_>) -> Result<Vec<Vec<usize>>, AllocError> {
    let mut order: Vec<(u64, u32, usize)> = Vec::new(machine.alloc);
    for (place, object) in overview.objects.iter().enumerate() {
        if let ObjectKind::Field { offset, bits, .. } = object.kind {
            order.push((offset, u32::MAX - bits, place))?;
        }
    }
    order.sort_unstable();
    let mut units: Vec<Vec<usize>> = Vec::new(machine.alloc);
    for _ in &overview.regions {
        units.push(Vec::new(machine.alloc))?;
    }
    for (_, _, place) in &order {
        let region = overview.objects.get(*place).and_then(|o| o.region);
        if let Some(list) = region.and_then(|r| units.get_mut(r)) {
            list.push(*place)?;
        }
    }
    Ok(units)
}

impl<'m, 'a> MachineFacts<'m, 'a> {
    /// What is known of a machine, of which this is the overview.
    pub fn new(
        machine: &'m Machine<'a>,
        overview: &'m Overview<'a>,
    ) -> Result<MachineFacts<'m, 'a>, AllocError> {
        Ok(MachineFacts {
            machine,
            overview,
            devices: devices_of(machine, overview)?,
            regions: regions_of(machine, overview)?,
            units: units_of(machine, overview)?,
            sleep_states: sleep_states(machine)?,
            power_resources: power_resources(machine, overview)?,
            routings: routings_of(machine)?,
            interfaces: interfaces_of(machine)?,
            uuids: uuids_of(machine)?,
        })
    }

    /// The places of the field units in the region of tables of that number.
    pub fn units_in(&self, region: usize) -> &[usize] {
        match self.units.get(region) {
            Some(places) => places,
            None => &[],
        }
    }

    /// The device that the container of that number is, if it is one.
    pub fn device(&self, number: usize) -> Option<&Device<'a>> {
        match self.devices.get(number) {
            Some(Some(device)) => Some(device),
            _ => None,
        }
    }
}
