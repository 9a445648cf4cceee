//! Names of devices that are clear in a list.

use acpi_machine_facts::MachineFacts;
use acpi_name::{Path, Seg};
use acpi_phrases::{last_name, last_two};
use std::alloc::{AllocError, Global};
use std::collections::BTreeMap;

/// How many devices have each last segment.
#[derive(Drop)]
pub(crate) struct DeviceNames {
    counts: BTreeMap<Seg, usize>,
}

impl DeviceNames {
    /// Those of the devices of a machine.
    pub(crate) fn new(facts: &MachineFacts<'_, '_>) -> Result<DeviceNames, AllocError> {
        let mut counts: BTreeMap<Seg, usize> = BTreeMap::new(facts.machine.alloc);
        for (number, container) in facts.overview.tree.containers.iter().enumerate() {
            if facts.device(number).is_none() {
                continue;
            }
            if let Some(segment) = container.object.path.segs().last() {
                let count = counts.get(segment).copied().unwrap_or(0);
                counts.insert(*segment, count.saturating_add(1))?;
            }
        }
        Ok(DeviceNames { counts })
    }

    // Whether one device alone has the last segment of a path.
    fn is_alone(&self, path: &Path) -> bool {
        match path.segs().last() {
            Some(segment) => self.counts.get(segment).copied().unwrap_or(0) < 2,
            None => true,
        }
    }

    /// The last segment of the path of a device, with its parent's where several devices have it.
    pub(crate) fn name(&self, alloc: Global, path: &Path) -> Result<Vec<u8>, AllocError> {
        if self.is_alone(path) {
            last_name(alloc, path)
        } else {
            last_two(alloc, path)
        }
    }
}
