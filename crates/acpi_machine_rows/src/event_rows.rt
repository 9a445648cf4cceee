//! Events, and whom the methods that serve them notify (ACPI 6.5, 5.6).

use crate::machine_words::RowSource;
use acpi_device_text::{put_general_event, put_target};
use acpi_events::{
    EventNumber, Notification, event_number, interrupt_notifications, notifications_of,
};
use acpi_machine_facts::Device;
use acpi_name::{Path, Seg};
use acpi_overview::{Container, Object};
use acpi_overview_text::put_between;
use acpi_phrases::{around, last_name, put_joined, put_list, put_names, put_number_of, put_piece};
use acpi_resource_text::{ResourceKind, resource_texts};
use acpi_text::put_decimal;
use std::alloc::AllocError;
use text_buffer::Text;

/// The most queries that are listed for one whom they notify.
const MOST_QUERIES: usize = 6;

// The names of those who are notified, in order, each once.
fn targets_of(
    source: &RowSource<'_, '_, '_>,
    notifications: &[Notification<'_, '_>],
) -> Result<Vec<Vec<u8>>, AllocError> {
    let mut names: Vec<Vec<u8>> = Vec::new(source.alloc());
    for notification in notifications {
        let mut name = source.text();
        put_target(&mut name, notification.target)?;
        let name = name.into_bytes()?;
        if !names.contains(&name) {
            names.push(name)?;
        }
    }
    Ok(names)
}

/// Events that notify the same.
#[derive(Drop)]
struct Group {
    targets: Vec<Vec<u8>>,
    numbers: Vec<u8>,
    methods: Vec<Vec<u8>>,
}

impl<'f, 'm, 'a> RowSource<'f, 'm, 'a> {
    // The general-purpose events of `\_GPE`, by whom they notify.
    fn general_events(&self) -> Result<Vec<Group>, AllocError> {
        let mut scope = Path::root(self.alloc());
        if let Some(segment) = Seg::new(*b"_GPE") {
            scope.push(segment)?;
        }
        let mut groups: Vec<Group> = Vec::new(self.alloc());
        for object in &self.facts.machine.objects {
            let number = match event_number(object) {
                Some(EventNumber::Level(number)) => number,
                Some(EventNumber::Edge(number)) => number,
                _ => continue,
            };
            if around(object.path)? != scope {
                continue;
            }
            let found = notifications_of(self.facts.machine, object)?;
            let mut targets = targets_of(self, &found)?;
            targets.sort()?;
            let method = last_name(self.alloc(), object.path)?;
            match groups.iter().position(|g| g.targets == targets) {
                Some(place) => {
                    if let Some(group) = groups.get_mut(place) {
                        group.numbers.push(number)?;
                        group.methods.push(method)?;
                    }
                }
                None => {
                    let mut methods = Vec::new(self.alloc());
                    methods.push(method)?;
                    groups.push(Group {
                        targets,
                        numbers: Vec::from_slice(self.alloc(), &[number])?,
                        methods,
                    })?;
                }
            }
        }
        Ok(groups)
    }

    // Puts whom one or some notify.
    fn put_notifies(
        &self,
        row: &mut Text,
        targets: &[Vec<u8>],
        is_one: bool,
    ) -> Result<(), AllocError> {
        row.put(if is_one { " notifies " } else { " notify " });
        if targets.is_empty() {
            row.put("nobody");
            return Ok(());
        }
        put_names(row, targets, self.most)
    }

    // Puts the general-purpose events, those that notify nobody last.
    fn put_general(&self, row: &mut Text) -> Result<(), AllocError> {
        let mut groups = self.general_events()?;
        let mut order: Vec<(bool, u8, usize)> = Vec::new(self.alloc());
        for place in 0..groups.len() {
            if let Some(group) = groups.get_mut(place) {
                group.methods.sort()?;
                let least = group.numbers.iter().copied().min().unwrap_or(0);
                order.push((group.targets.is_empty(), least, place))?;
            }
        }
        order.sort_unstable();
        for (_, least, place) in &order {
            let Some(group) = groups.get(*place) else {
                continue;
            };
            put_between(row, "; ");
            if let [method] = group.methods.as_slice() {
                put_general_event(row, u64::from(*least));
                row.put(" (");
                row.put_all(method);
                row.put(")");
                self.put_notifies(row, &group.targets, true)?;
            } else {
                put_names(row, &group.methods, self.most)?;
                self.put_notifies(row, &group.targets, false)?;
            }
        }
        Ok(())
    }

    // The queries of a device, by each of those whom they notify; by nothing those that notify nobody.
    fn queries_by_target(
        &self,
        device: &Device<'a>,
    ) -> Result<Vec<(Vec<u8>, Vec<Vec<u8>>)>, AllocError> {
        let mut groups: Vec<(Vec<u8>, Vec<Vec<u8>>)> = Vec::new(self.alloc());
        for query in &device.queries {
            let found = notifications_of(self.facts.machine, query)?;
            let mut targets = targets_of(self, &found)?;
            if targets.is_empty() {
                targets.push(Vec::new(self.alloc()))?;
            }
            for target in targets {
                let name = last_name(self.alloc(), query.path)?;
                match groups.iter().position(|g| g.0 == target) {
                    Some(place) => {
                        if let Some(group) = groups.get_mut(place) {
                            group.1.push(name)?;
                        }
                    }
                    None => {
                        let mut names = Vec::new(self.alloc());
                        names.push(name)?;
                        groups.push((target, names))?;
                    }
                }
            }
        }
        Ok(groups)
    }

    // Puts the queries of an embedded controller.
    fn put_queries(
        &self,
        row: &mut Text,
        container: &Container<'a>,
        device: &Device<'a>,
    ) -> Result<(), AllocError> {
        if device.event.is_none() && device.queries.is_empty() {
            return Ok(());
        }
        put_between(row, "; ");
        put_number_of(row, device.queries.len(), "query", "queries");
        row.put(" of ");
        row.put_all(&last_name(self.alloc(), container.object.path)?);
        if let Some(event) = device.event {
            row.put(" (");
            put_general_event(row, event);
            row.put(")");
        }
        let groups = self.queries_by_target(device)?;
        let most = self.most.map(|_| MOST_QUERIES);
        let mut order: Vec<(usize, usize)> = Vec::new(self.alloc());
        for (place, group) in groups.iter().enumerate() {
            order.push((group.1.len(), place))?;
        }
        order.sort_unstable();
        let mut before = ", by whom they notify: ";
        for (_, place) in &order {
            let Some((target, names)) = groups.get(*place) else {
                continue;
            };
            if !target.is_empty() {
                row.put(before);
                before = ", ";
                row.put_all(target);
                row.put(" ");
                put_list(row, names, most);
            }
        }
        if let Some((_, names)) = groups.iter().find(|g| g.0.is_empty()) {
            row.put(", nobody ");
            put_list(row, names, most);
        }
        Ok(())
    }

    // Puts the interrupts that a device has.
    fn put_interrupts(&self, row: &mut Text, number: usize) -> Result<(), AllocError> {
        let mut irqs = Vec::new(self.alloc());
        if let Some(resources) = self.facts.overview.resources.current.get(number) {
            for text in resource_texts(self.alloc(), resources, false)? {
                if text.kind == ResourceKind::Irq {
                    irqs.push(text.short)?;
                }
            }
        }
        row.put("irq ");
        put_list(row, &irqs, None);
        Ok(())
    }

    // Puts the events of an event device.
    fn put_interrupt_events(
        &self,
        row: &mut Text,
        container: &Container<'a>,
        number: usize,
        method: &Object<'a>,
    ) -> Result<(), AllocError> {
        let device = last_name(self.alloc(), container.object.path)?;
        put_between(row, "; ");
        let Some(found) = interrupt_notifications(self.facts.machine, method)? else {
            self.put_interrupts(row, number)?;
            row.put(" of ");
            row.put_all(&device);
            row.put(" (_EVT)");
            let found = notifications_of(self.facts.machine, method)?;
            let targets = targets_of(self, &found)?;
            return self.put_notifies(row, &targets, true);
        };
        row.put_all(&device);
        let mut before = " (_EVT): ";
        for interrupt in &found {
            row.put(before);
            before = ", ";
            put_joined(row, b"irq ");
            put_decimal(row, interrupt.interrupt);
            row.put(" notifies ");
            put_list(row, &targets_of(self, &interrupt.notifications)?, None);
        }
        Ok(())
    }

    // Puts the events of devices: queries, interrupts and GPIO pins.
    fn put_device_events(&self, row: &mut Text) -> Result<(), AllocError> {
        for (number, container) in self.facts.overview.tree.containers.iter().enumerate() {
            let Some(device) = self.facts.device(number) else {
                continue;
            };
            self.put_queries(row, container, device)?;
            let machine = self.facts.machine;
            if let [method, ..] = machine.below(&container.object, *b"_EVT") {
                self.put_interrupt_events(row, container, number, method)?;
            }
            if machine.has(&container.object, *b"_AEI") {
                put_piece(row, "; ", b"GPIO events of ");
                row.put_all(&last_name(self.alloc(), container.object.path)?);
            }
        }
        Ok(())
    }
}

/// The events of a machine, and whom they notify.
pub(crate) fn events_text(source: &RowSource<'_, '_, '_>) -> Result<Text, AllocError> {
    let mut row = source.text();
    source.put_general(&mut row)?;
    source.put_device_events(&mut row)?;
    Ok(row)
}
