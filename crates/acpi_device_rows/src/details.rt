//! All that is told of a device.

use crate::alike::DeviceTexts;
use acpi_device_text::{put_all_counts, put_place, put_wake, put_wake_code, trip_texts};
use acpi_infix::put_constant;
use acpi_kinds::ObjectKind;
use acpi_machine_facts::{DeviceState, MachineFacts};
use acpi_overview::{ResourceSource, Resources, Value};
use acpi_overview_text::put_escaped;
use acpi_phrases::{last_name, put_code, put_condition, put_expressions, put_piece};
use acpi_power::PowerObject;
use acpi_resource_text::are_equal;
use acpi_text::put_decimal;
use acpi_trimmed::put_trimmed_name;
use std::alloc::{AllocError, Global};
use text_buffer::Text;

/// Something that is told of a device.
#[derive(Debug, Drop)]
pub struct Detail {
    /// What it is; nothing where it goes on from the detail before.
    pub label: &'static str,
    /// The words.
    pub text: Vec<u8>,
}

/// All that is told of a device.
#[derive(Debug, Drop)]
pub struct DeviceDetails {
    /// Its hardware id, what it is, and where it stands, each that it has.
    pub head: Vec<Vec<u8>>,
    /// What is told of it.
    pub details: Vec<Detail>,
}

/// Details while they are put together.
#[derive(Drop)]
struct Building<'f, 'm, 'a> {
    facts: &'f MachineFacts<'m, 'a>,
    alloc: Global,
    details: Vec<Detail>,
}

impl<'f, 'm, 'a> Building<'f, 'm, 'a> {
    // Puts a detail, if it has words.
    fn put(&mut self, label: &'static str, text: Text) -> Result<(), AllocError> {
        let text = text.into_bytes()?;
        if !text.is_empty() {
            self.details.push(Detail { label, text })?;
        }
        Ok(())
    }

    fn put_ids(&mut self, texts: &DeviceTexts<'_, 'a>) -> Result<(), AllocError> {
        let mut ids = Text::new(self.alloc);
        for id in &texts.device.cids {
            put_piece(&mut ids, " ", id);
        }
        self.put("also", ids)?;
        if let (Some(called), Some(_)) = (texts.device.called, texts.device.what) {
            let mut words = Text::new(self.alloc);
            words.put("\"");
            put_escaped(&mut words, called);
            words.put("\"");
            self.put("called", words)?;
        }
        let mut address = Text::new(self.alloc);
        if let (false, Value::Number(number)) = (texts.uid.is_empty(), texts.container.values.adr) {
            put_constant(&mut address, number);
        }
        self.put("adr", address)
    }

    fn put_power_object(
        &mut self,
        words: &mut Text,
        object: &PowerObject<'a>,
    ) -> Result<(), AllocError> {
        put_piece(words, ", ", &object.name);
        words.put(" ");
        match object.value {
            Value::Number(number) => {
                words.put("D");
                put_constant(words, number);
            }
            Value::Package(elements) => put_expressions(words, " ", elements)?,
            _ => words.put("by code"),
        }
        Ok(())
    }

    // Puts the trip points of a thermal zone, and the level and the order of a power resource.
    fn put_kind(&mut self, texts: &DeviceTexts<'_, 'a>) -> Result<(), AllocError> {
        match texts.container.object.kind {
            ObjectKind::Thermal => {
                let mut trips = Text::new(self.alloc);
                let zone = &texts.container.object;
                let (machine, overview) = (self.facts.machine, self.facts.overview);
                for words in &trip_texts(machine, overview, zone)? {
                    put_piece(&mut trips, ", ", words);
                }
                self.put("trips", trips)
            }
            ObjectKind::Power { level, order } => {
                let mut words = Text::new(self.alloc);
                words.put("S");
                put_decimal(&mut words, u64::from(level));
                words.put(", order ");
                put_decimal(&mut words, u64::from(order));
                self.put("level", words)
            }
            _ => Ok(()),
        }
    }

    fn put_state(&mut self, texts: &DeviceTexts<'_, 'a>) -> Result<(), AllocError> {
        let object = &texts.container.object;
        if object.is_conditional {
            let mut words = Text::new(self.alloc);
            put_condition(&mut words, self.facts.machine, object)?;
            self.put("only if", words)?;
        }
        let mut words = Text::new(self.alloc);
        words.put_all(&texts.state);
        if let DeviceState::Hidden = texts.device.state {
            words.put(" (present, enabled, working, not shown)");
        }
        self.put("state", words)
    }

    fn put_wake(&mut self, texts: &DeviceTexts<'_, 'a>) -> Result<(), AllocError> {
        let mut words = Text::new(self.alloc);
        match &texts.device.wake {
            Some(wake) => {
                words.put("by ");
                put_wake(&mut words, wake)?;
                if !wake.resources.is_empty() {
                    words.put(", with power ");
                    put_expressions(&mut words, " ", wake.resources)?;
                }
            }
            None if texts.container.values.prw.is_missing() => {}
            None => {
                words.put("by code: ");
                put_wake_code(&mut words, self.facts.machine, texts.container)?;
            }
        }
        self.put("wakes", words)?;
        let mut words = Text::new(self.alloc);
        for object in &texts.device.power {
            self.put_power_object(&mut words, object)?;
        }
        self.put("power", words)?;
        let mut words = Text::new(self.alloc);
        if let Some(event) = texts.device.event {
            words.put("GPE ");
            put_constant(&mut words, event);
        }
        self.put("event", words)
    }

    // What gives resources, where that isn't a constant: code by the method of that name below the device.
    fn source_words(
        &self,
        texts: &DeviceTexts<'_, 'a>,
        resources: &Resources<'a>,
        segment: [u8; 4],
    ) -> Result<Text, AllocError> {
        let machine = self.facts.machine;
        let mut words = Text::new(self.alloc);
        match resources.source {
            ResourceSource::Missing => {}
            ResourceSource::Constant => {
                if let [object, ..] = machine.below(&texts.container.object, segment) {
                    if let ObjectKind::Method(_) = object.kind {
                        words.put("constant, given by a method");
                    }
                }
            }
            ResourceSource::Template(name) => {
                words.put("template ");
                put_trimmed_name(&mut words, name.view());
                words.put(", ? is set by code");
            }
            ResourceSource::Method(_) | ResourceSource::Unknown => {
                words.put("by code: ");
                if let [object, ..] = machine.below(&texts.container.object, segment) {
                    put_code(&mut words, machine, object)?;
                }
            }
        }
        Ok(words)
    }

    fn put_resources(&mut self, texts: &DeviceTexts<'_, 'a>) -> Result<(), AllocError> {
        let facts = self.facts;
        let number = texts.device.container;
        let lists = &facts.overview.resources;
        let mut label = "resources";
        if let Some(resources) = lists.current.get(number) {
            let words = self.source_words(texts, resources, *b"_CRS")?;
            if !acpi_overview_text::is_empty(&words) {
                self.put(label, words)?;
                label = "";
            }
        }
        for resource in &texts.resources.current {
            let mut words = Text::new(self.alloc);
            words.put_all(&resource.full);
            self.put(label, words)?;
            label = "";
        }
        if are_equal(&texts.resources.current, &texts.resources.possible) {
            return Ok(());
        }
        let mut label = "choices";
        for resource in &texts.resources.possible {
            let mut words = Text::new(self.alloc);
            words.put_all(&resource.full);
            self.put(label, words)?;
            label = "";
        }
        Ok(())
    }

    fn put_members(&mut self, texts: &DeviceTexts<'_, 'a>) -> Result<(), AllocError> {
        let mut words = Text::new(self.alloc);
        for query in &texts.device.queries {
            put_piece(&mut words, " ", &last_name(self.alloc, query.path)?);
        }
        self.put("queries", words)?;
        let mut words = Text::new(self.alloc);
        if texts.device.is_ejectable {
            words.put("_EJ0");
        }
        self.put("eject", words)?;
        let mut words = Text::new(self.alloc);
        put_all_counts(&mut words, texts.container);
        self.put("holds", words)
    }
}

// The hardware id, what a device is, and where it stands.
fn head_of(alloc: Global, texts: &DeviceTexts<'_, '_>) -> Result<Vec<Vec<u8>>, AllocError> {
    let mut head = Vec::new(alloc);
    if !texts.device.hid.is_empty() {
        head.push(Vec::from_slice(alloc, &texts.device.hid)?)?;
    }
    let mut what = Text::new(alloc);
    match (texts.device.what, texts.device.called) {
        (Some(words), _) => what.put(words),
        (None, Some(called)) => {
            what.put("\"");
            put_escaped(&mut what, called);
            what.put("\"");
        }
        (None, None) => {}
    }
    if !acpi_overview_text::is_empty(&what) {
        head.push(what.into_bytes()?)?;
    }
    let mut place = Text::new(alloc);
    put_place(&mut place, texts.container, &texts.uid);
    if !acpi_overview_text::is_empty(&place) {
        head.push(place.into_bytes()?)?;
    }
    Ok(head)
}

/// All that is told of the device that the container of that number is, if it is one.
pub fn device_details(
    facts: &MachineFacts<'_, '_>,
    number: usize,
) -> Result<Option<DeviceDetails>, AllocError> {
    let alloc = facts.machine.alloc;
    let Some(texts) = DeviceTexts::of(facts, number)? else {
        return Ok(None);
    };
    let mut building = Building {
        facts,
        alloc,
        details: Vec::new(alloc),
    };
    building.put_ids(&texts)?;
    building.put_kind(&texts)?;
    building.put_state(&texts)?;
    building.put_wake(&texts)?;
    building.put_resources(&texts)?;
    building.put_members(&texts)?;
    Ok(Some(DeviceDetails {
        head: head_of(alloc, &texts)?,
        details: building.details,
    }))
}
