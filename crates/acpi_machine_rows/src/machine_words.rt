//! What a machine is, in twenty seconds: rows of a word and what it has of that.

use crate::device_names::DeviceNames;
use crate::event_rows::events_text;
use crate::routing_rows::routing_text;
use crate::sleep_rows::sleep_text;
use crate::start_rows::start_text;
use acpi_asked::uuid_name;
use acpi_check_machine::child_of;
use acpi_device_text::{put_wake, put_wake_code, trip_texts};
use acpi_events::{EventNumber, event_number, handler_of};
use acpi_kinds::ObjectKind;
use acpi_machine_facts::MachineFacts;
use acpi_name::{Path, Seg};
use acpi_overview_text::{is_empty, put_between, put_escaped, put_hex};
use acpi_phrases::{
    around, last_name, put_joined, put_last, put_list, put_names, put_piece, put_uuid,
};
use acpi_power::{Wake, WakeEvent};
use acpi_text::put_decimal;
use std::alloc::{AllocError, Global};
use text_buffer::Text;

/// A row: a word, and what the machine has of that.
#[derive(Debug, Drop)]
pub struct MachineRow {
    /// The word; rows of one word stand together.
    pub word: &'static str,
    /// What it has.
    pub text: Vec<u8>,
}

/// What rows are made of.
#[derive(Drop)]
pub(crate) struct RowSource<'f, 'm, 'a> {
    /// What is known of the machine.
    pub(crate) facts: &'f MachineFacts<'m, 'a>,
    /// The names of devices.
    pub(crate) names: DeviceNames,
    /// The most names of a list, where lists are cut.
    pub(crate) most: Option<usize>,
}

impl<'f, 'm, 'a> RowSource<'f, 'm, 'a> {
    /// Where memory comes from.
    pub(crate) fn alloc(&self) -> Global {
        self.facts.machine.alloc
    }

    /// An empty text.
    pub(crate) fn text(&self) -> Text {
        Text::new(self.facts.machine.alloc)
    }

    /// The name of a device.
    pub(crate) fn name(&self, path: &Path) -> Result<Vec<u8>, AllocError> {
        self.names.name(self.alloc(), path)
    }

    // The name of a method behind that of its device.
    fn method_name(&self, path: &Path) -> Result<Vec<u8>, AllocError> {
        let device = around(path)?;
        let mut text = self.text();
        if !device.segs().is_empty() {
            text.put_all(&self.name(&device)?);
            text.put(".");
        }
        put_last(&mut text, path);
        text.into_bytes()
    }
}

// ---- wake

// Whether two devices wake by one event from one state.
fn is_same_wake(one: &Wake<'_>, other: &Wake<'_>) -> bool {
    let is_same = match (one.event, other.event) {
        (WakeEvent::General(a), WakeEvent::General(b)) => a == b,
        (WakeEvent::OfBlock(a, block), WakeEvent::OfBlock(b, other)) => a == b && block == other,
        (WakeEvent::Computed(a), WakeEvent::Computed(b)) => a == b,
        _ => false,
    };
    is_same && one.state == other.state
}

impl<'f, 'm, 'a> RowSource<'f, 'm, 'a> {
    // The devices that wake the machine by constants, by their events.
    fn wakes(&self) -> Result<Vec<(u64, usize)>, AllocError> {
        let mut order: Vec<(u64, usize)> = Vec::new(self.alloc());
        for number in 0..self.facts.devices.len() {
            let Some(wake) = self.facts.device(number).and_then(|d| d.wake) else {
                continue;
            };
            let event = match wake.event {
                WakeEvent::General(event) => event,
                WakeEvent::OfBlock(event, _) => event,
                WakeEvent::Computed(_) => u64::MAX,
            };
            order.push((event, number))?;
        }
        order.sort_unstable();
        Ok(order)
    }

    // Puts the event of some devices, their names, and the method that serves it.
    fn put_wake_group(
        &self,
        row: &mut Text,
        wake: &Wake<'a>,
        names: &[Vec<u8>],
    ) -> Result<(), AllocError> {
        put_between(row, "; ");
        put_wake(row, wake)?;
        row.put(": ");
        put_names(row, names, self.most)?;
        if let WakeEvent::General(event) = wake.event {
            if let Some(handler) = handler_of(self.facts.machine, event)? {
                row.put(" (");
                row.put_all(&last_name(self.alloc(), handler.path)?);
                row.put(")");
            }
        }
        Ok(())
    }

    // Puts the devices whose `_PRW` is code.
    fn put_coded_wakes(&self, row: &mut Text) -> Result<(), AllocError> {
        let mut groups: Vec<(Vec<u8>, Vec<Vec<u8>>)> = Vec::new(self.alloc());
        for (number, container) in self.facts.overview.tree.containers.iter().enumerate() {
            let is_code = match self.facts.device(number) {
                Some(device) => device.wake.is_none() && !container.values.prw.is_missing(),
                None => false,
            };
            if !is_code {
                continue;
            }
            let mut code = self.text();
            put_wake_code(&mut code, self.facts.machine, container)?;
            let code = code.into_bytes()?;
            let name = self.name(container.object.path)?;
            match groups.iter().position(|g| g.0 == code) {
                Some(place) => {
                    if let Some(group) = groups.get_mut(place) {
                        group.1.push(name)?;
                    }
                }
                None => {
                    let mut names = Vec::new(self.alloc());
                    names.push(name)?;
                    groups.push((code, names))?;
                }
            }
        }
        for (code, names) in &groups {
            put_between(row, "; ");
            row.put("by code, ");
            row.put_all(code);
            row.put(": ");
            put_names(row, names, self.most)?;
        }
        Ok(())
    }

    // By which events devices wake it.
    fn wake(&self) -> Result<Text, AllocError> {
        let mut row = self.text();
        let mut groups: Vec<(Wake<'a>, Vec<Vec<u8>>)> = Vec::new(self.alloc());
        for (_, number) in &self.wakes()? {
            let (Some(wake), Some(container)) = (
                self.facts.device(*number).and_then(|d| d.wake),
                self.facts.overview.tree.containers.get(*number),
            ) else {
                continue;
            };
            let name = self.name(container.object.path)?;
            match groups.iter().position(|g| is_same_wake(&g.0, &wake)) {
                Some(place) => {
                    if let Some(group) = groups.get_mut(place) {
                        group.1.push(name)?;
                    }
                }
                None => {
                    let mut names = Vec::new(self.alloc());
                    names.push(name)?;
                    groups.push((wake, names))?;
                }
            }
        }
        for (wake, names) in &groups {
            self.put_wake_group(&mut row, wake, names)?;
        }
        self.put_coded_wakes(&mut row)?;
        Ok(row)
    }
}

// ---- heat, power and what is asked for

impl<'f, 'm, 'a> RowSource<'f, 'm, 'a> {
    // Puts a row for each thermal zone.
    fn put_thermal(&self, rows: &mut Vec<MachineRow>) -> Result<(), AllocError> {
        for container in &self.facts.overview.tree.containers {
            let ObjectKind::Thermal = container.object.kind else {
                continue;
            };
            let mut text = self.text();
            text.put_all(&last_name(self.alloc(), container.object.path)?);
            let mut separator = ": ";
            let zone = &container.object;
            for words in &trip_texts(self.facts.machine, self.facts.overview, zone)? {
                text.put(separator);
                separator = ", ";
                text.put_all(words);
            }
            self.put_row(rows, "thermal", text)?;
        }
        Ok(())
    }

    // Puts a row for the power resources of each level and order, with who needs them.
    fn put_power(&self, rows: &mut Vec<MachineRow>) -> Result<(), AllocError> {
        let resources = &self.facts.power_resources;
        let key = |n: usize| resources
            .get(n)
            .map(|r| (r.level, r.order, r.users.is_empty()));
        for number in 0..resources.len() {
            if (0..number).any(|n| key(n) == key(number)) {
                continue;
            }
            let mut names = Vec::new(self.alloc());
            let mut users = Vec::new(self.alloc());
            for other in number..resources.len() {
                let (true, Some(resource)) = (key(other) == key(number), resources.get(other))
                else {
                    continue;
                };
                let name = last_name(self.alloc(), resource.object.path)?;
                if !names.contains(&name) {
                    names.push(name)?;
                }
                for user in &resource.users {
                    if let Some(container) = self.facts.overview.tree.containers.get(*user) {
                        users.push(self.name(container.object.path)?)?;
                    }
                }
            }
            let Some((level, order, _)) = key(number) else {
                continue;
            };
            let mut text = self.text();
            put_names(&mut text, &names, self.most)?;
            if !users.is_empty() {
                text.put(" for ");
                put_names(&mut text, &users, self.most)?;
            }
            text.put(", level S");
            put_decimal(&mut text, u64::from(level));
            text.put(", order ");
            put_decimal(&mut text, u64::from(order));
            self.put_row(rows, "power", text)?;
        }
        Ok(())
    }

    // The strings that methods ask of `_OSI`.
    fn interfaces(&self) -> Text {
        let mut row = self.text();
        for interface in &self.facts.interfaces {
            put_between(&mut row, ", ");
            row.put("\"");
            put_escaped(&mut row, interface.name);
            row.put("\"");
        }
        row
    }

    // The UUIDs with which methods compare their first argument.
    fn uuids(&self) -> Result<Text, AllocError> {
        let mut row = self.text();
        for uuid in &self.facts.uuids {
            let mut words = self.text();
            match uuid_name(&uuid.bytes) {
                Some(name) => words.put(name),
                None => put_uuid(&mut words, &uuid.bytes),
            }
            let mut methods = Vec::new(self.alloc());
            for method in &uuid.methods {
                methods.push(self.method_name(method)?)?;
            }
            put_piece(&mut row, ", ", words.bytes()?);
            put_joined(&mut row, b" (");
            put_list(&mut row, &methods, self.most);
            row.put(")");
        }
        Ok(row)
    }
}

// ---- what it has not

impl<'f, 'm, 'a> RowSource<'f, 'm, 'a> {
    // Whether something is at the root by that name.
    fn has_at_root(&self, name: [u8; 4]) -> Result<bool, AllocError> {
        let path = child_of(&Path::root(self.alloc()), name)?;
        Ok(!self.facts.machine.at(&path).is_empty())
    }

    // Whether `\_GPE` has a method that serves an event.
    fn has_event_methods(&self) -> Result<bool, AllocError> {
        let mut scope = Path::root(self.alloc());
        if let Some(segment) = Seg::new(*b"_GPE") {
            scope.push(segment)?;
        }
        for object in &self.facts.machine.objects {
            if let Some(EventNumber::Level(_) | EventNumber::Edge(_)) = event_number(object) {
                if around(object.path)? == scope {
                    return Ok(true);
                }
            }
        }
        Ok(false)
    }

    // What a reader looks for and it has not.
    fn not_here(&self) -> Result<Text, AllocError> {
        let list = [
            ("\\_S5", self.has_at_root(*b"_S5_")?),
            ("\\_PTS", self.has_at_root(*b"_PTS")?),
            ("\\_WAK", self.has_at_root(*b"_WAK")?),
            ("\\_GPE methods", self.has_event_methods()?),
            ("power button (PNP0C0C)", self.has_class("power button")),
            ("processors", self.has_class("processor")),
            ("_OSI", !self.facts.interfaces.is_empty()),
        ];
        let mut row = self.text();
        for (word, is_here) in &list {
            if !*is_here {
                put_piece(&mut row, ", ", word.as_bytes());
            }
        }
        Ok(row)
    }

    // Puts a row, if it has a text.
    pub(crate) fn put_row(
        &self,
        rows: &mut Vec<MachineRow>,
        word: &'static str,
        text: Text,
    ) -> Result<(), AllocError> {
        if !is_empty(&text) {
            rows.push(MachineRow {
                word,
                text: text.into_bytes()?,
            })?;
        }
        Ok(())
    }

    // Puts what it has, and how it sleeps and wakes.
    fn put_first(&self, rows: &mut Vec<MachineRow>) -> Result<(), AllocError> {
        self.put_row(rows, "has", self.has()?)?;
        self.put_row(rows, "sleep", sleep_text(self)?)?;
        self.put_row(rows, "wake", self.wake()?)
    }

    // Puts what happens in it.
    fn put_events(&self, rows: &mut Vec<MachineRow>) -> Result<(), AllocError> {
        self.put_row(rows, "events", events_text(self)?)?;
        self.put_row(rows, "start", start_text(self)?)?;
        self.put_row(rows, "routing", routing_text(self)?)
    }

    // Puts its heat and power, and what is asked for.
    fn put_others(&self, rows: &mut Vec<MachineRow>) -> Result<(), AllocError> {
        self.put_thermal(rows)?;
        self.put_power(rows)?;
        self.put_row(rows, "_OSI", self.interfaces())?;
        self.put_row(rows, "UUIDs", self.uuids()?)?;
        self.put_row(rows, "not here", self.not_here()?)
    }
}

/// The most names of a list that is cut.
const MOST: usize = 8;

/// What a machine is, row by row, with lists that are whole or cut behind a few names.
pub fn machine_rows(
    facts: &MachineFacts<'_, '_>,
    is_whole: bool,
) -> Result<Vec<MachineRow>, AllocError> {
    let source = RowSource {
        facts,
        names: DeviceNames::new(facts)?,
        most: if is_whole { None } else { Some(MOST) },
    };
    let mut rows = Vec::new(facts.machine.alloc);
    source.put_first(&mut rows)?;
    source.put_events(&mut rows)?;
    source.put_others(&mut rows)?;
    Ok(rows)
}
