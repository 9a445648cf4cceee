//! Sections of all that is known: sleep states, wake, events, entry points, what is asked for, and interrupt routing.

use crate::routing_sections::routing_section;
use acpi_asked::uuid_name;
use acpi_device_text::{put_target, put_wake, put_wake_code};
use acpi_events::{
    EventNumber, Notification, NotifyTarget, event_number, handler_of, interrupt_notifications,
    notifications_of,
};
use acpi_infix::put_constant;
use acpi_kinds::ObjectKind;
use acpi_machine_facts::MachineFacts;
use acpi_overview::{Object, last_segment};
use acpi_overview_text::{put_between, put_counted, put_escaped, put_hex};
use acpi_phrases::{last_name, put_condition, put_expression, put_expressions, put_uuid};
use acpi_power::WakeEvent;
use acpi_text::put_decimal;
use acpi_trimmed::{put_trimmed_path, put_trimmed_segment};
use std::alloc::{AllocError, Global};
use text_buffer::Text;

/// A row of a section: what stands in its columns, and behind them.
#[derive(Debug, Drop)]
pub struct SectionRow {
    /// How far it stands in, in columns of two.
    pub depth: usize,
    /// The columns.
    pub columns: Vec<Vec<u8>>,
    /// What stands behind them.
    pub text: Vec<u8>,
}

/// A section.
#[derive(Debug, Drop)]
pub struct Section {
    /// Its heading.
    pub heading: &'static str,
    /// What its abbreviations mean; nothing where it has none.
    pub legend: &'static str,
    /// Its rows.
    pub rows: Vec<SectionRow>,
}

/// Rows while they are put together.
#[derive(Drop)]
pub(crate) struct SectionRows {
    alloc: Global,
    pub(crate) rows: Vec<SectionRow>,
}

impl SectionRows {
    pub(crate) fn new(alloc: Global) -> SectionRows {
        SectionRows {
            alloc,
            rows: Vec::new(alloc),
        }
    }

    /// Puts a row with these columns.
    pub(crate) fn put(
        &mut self,
        depth: usize,
        columns: &[&Text],
        text: Text,
    ) -> Result<(), AllocError> {
        let mut list = Vec::new(self.alloc);
        for column in columns {
            list.push(Vec::from_slice(self.alloc, column.bytes()?)?)?;
        }
        self.rows.push(SectionRow {
            depth,
            columns: list,
            text: text.into_bytes()?,
        })?;
        Ok(())
    }
}

// ---- sleep states

fn sleep_section(facts: &MachineFacts<'_, '_>) -> Result<Section, AllocError> {
    let alloc = facts.machine.alloc;
    let mut rows = SectionRows::new(alloc);
    for state in &facts.sleep_states {
        let mut name = Text::new(alloc);
        name.put("S");
        put_decimal(&mut name, u64::from(state.number));
        let mut types = Text::new(alloc);
        types.put("types ");
        let count = state.types.len().min(2);
        put_expressions(&mut types, ", ", &state.types[..count])?;
        let mut text = Text::new(alloc);
        if state.object.is_conditional {
            text.put("if ");
            put_condition(&mut text, facts.machine, &state.object)?;
        }
        rows.put(0, &[&name, &types], text)?;
    }
    Ok(Section {
        heading: "SLEEP STATES",
        legend: "The two types go into SLP_TYP of the registers PM1a and PM1b.",
        rows: rows.rows,
    })
}

// ---- wake

// Puts which method serves a general-purpose event, and whom that notifies.
fn put_handler(
    text: &mut Text,
    facts: &MachineFacts<'_, '_>,
    event: u64,
) -> Result<(), AllocError> {
    match handler_of(facts.machine, event)? {
        Some(method) => {
            text.put("; served by ");
            put_trimmed_path(text, method.path);
            text.put(", notifies ");
            let found = notifications_of(facts.machine, &method)?;
            put_notifications(text, &found)?;
        }
        None => {
            text.put("; no method \\_GPE._L");
            put_hex(text, event, 2);
            text.put(" or _E");
            put_hex(text, event, 2);
            text.put(" is here");
        }
    }
    Ok(())
}

fn wake_section(facts: &MachineFacts<'_, '_>) -> Result<Section, AllocError> {
    let alloc = facts.machine.alloc;
    let mut rows = SectionRows::new(alloc);
    for (number, container) in facts.overview.tree.containers.iter().enumerate() {
        let Some(device) = facts.device(number) else {
            continue;
        };
        if container.values.prw.is_missing() {
            continue;
        }
        let mut path = Text::new(alloc);
        put_trimmed_path(&mut path, container.object.path);
        let mut text = Text::new(alloc);
        match &device.wake {
            Some(wake) => {
                text.put("wakes by ");
                put_wake(&mut text, wake)?;
                if !wake.resources.is_empty() {
                    text.put(", power resources ");
                    put_expressions(&mut text, " ", wake.resources)?;
                }
                if let WakeEvent::General(event) = wake.event {
                    put_handler(&mut text, facts, event)?;
                }
            }
            None => {
                text.put("wakes by code: ");
                put_wake_code(&mut text, facts.machine, container)?;
            }
        }
        rows.put(0, &[&path], text)?;
    }
    Ok(Section {
        heading: "WAKE",
        legend: "",
        rows: rows.rows,
    })
}

// ---- events

// Puts who is notified with which value, and through which methods.
fn put_notification(
    text: &mut Text,
    notification: &Notification<'_, '_>,
) -> Result<(), AllocError> {
    match notification.target {
        NotifyTarget::At(path) => put_trimmed_path(text, path),
        target => put_target(text, target)?,
    }
    text.put(" ");
    put_expression(text, notification.value)?;
    let mut before = " through ";
    for method in &notification.through {
        text.put(before);
        before = " ";
        if let Some(segment) = method.segs().last() {
            put_trimmed_segment(text, *segment);
        }
    }
    Ok(())
}

fn put_notifications(text: &mut Text, list: &[Notification<'_, '_>]) -> Result<(), AllocError> {
    let mut separator = "";
    for notification in list {
        text.put(separator);
        separator = ", ";
        put_notification(text, notification)?;
    }
    if list.is_empty() {
        text.put("nobody");
    }
    Ok(())
}

// What a method of an event does.
fn event_text(
    facts: &MachineFacts<'_, '_>,
    method: &Object<'_>,
    list: &[Notification<'_, '_>],
) -> Result<Text, AllocError> {
    let mut text = Text::new(facts.machine.alloc);
    put_notifications(&mut text, list)?;
    if !list.is_empty() {
        return Ok(text);
    }
    let Some(body) = facts.machine.body(method.number) else {
        return Ok(text);
    };
    match body.terms {
        [] => text.put("; empty"),
        [statement] => {
            text.put("; ");
            put_expression(&mut text, statement)?;
        }
        _ => {}
    }
    Ok(text)
}

// Puts the row of the method of an event.
fn put_event<'a>(
    rows: &mut SectionRows,
    facts: &MachineFacts<'_, 'a>,
    method: &Object<'a>,
    words: Text,
) -> Result<(), AllocError> {
    let mut path = Text::new(facts.machine.alloc);
    put_trimmed_path(&mut path, method.path);
    let found = notifications_of(facts.machine, method)?;
    let text = event_text(facts, method, &found)?;
    rows.put(0, &[&path, &words], text)
}

// Puts the rows of the method of an event device.
fn put_interrupts<'a>(
    rows: &mut SectionRows,
    facts: &MachineFacts<'_, 'a>,
    method: &Object<'a>,
) -> Result<(), AllocError> {
    let alloc = facts.machine.alloc;
    let Some(found) = interrupt_notifications(facts.machine, method)? else {
        let mut words = Text::new(alloc);
        words.put("interrupts");
        return put_event(rows, facts, method, words);
    };
    for interrupt in &found {
        let mut path = Text::new(alloc);
        put_trimmed_path(&mut path, method.path);
        let mut words = Text::new(alloc);
        words.put("irq ");
        put_decimal(&mut words, interrupt.interrupt);
        let mut text = Text::new(alloc);
        put_notifications(&mut text, &interrupt.notifications)?;
        rows.put(0, &[&path, &words], text)?;
    }
    Ok(())
}

// Whether a path stands directly in `\_GPE`.
fn is_general(object: &Object<'_>) -> bool {
    matches!(object.path.segs(), [scope, _] if scope.bytes() == *b"_GPE")
}

fn event_section(facts: &MachineFacts<'_, '_>) -> Result<Section, AllocError> {
    let alloc = facts.machine.alloc;
    let mut rows = SectionRows::new(alloc);
    for object in &facts.machine.objects {
        let (number, word) = match event_number(object) {
            Some(EventNumber::Level(number)) => (number, ", level"),
            Some(EventNumber::Edge(number)) => (number, ", edge"),
            _ => continue,
        };
        if is_general(object) {
            let mut words = Text::new(alloc);
            words.put("GPE ");
            put_constant(&mut words, u64::from(number));
            words.put(word);
            put_event(&mut rows, facts, object, words)?;
        }
    }
    for (number, container) in facts.overview.tree.containers.iter().enumerate() {
        let Some(device) = facts.device(number) else {
            continue;
        };
        for query in &device.queries {
            let mut words = Text::new(alloc);
            words.put("query 0x");
            let [_, _, high, low] = last_segment(query.path);
            words.put_all(&[high, low]);
            put_event(&mut rows, facts, query, words)?;
        }
        if let [method, ..] = facts.machine.below(&container.object, *b"_EVT") {
            put_interrupts(&mut rows, facts, method)?;
        }
    }
    Ok(Section {
        heading: "EVENTS",
        legend: "The method that serves an event, whom it notifies with which value, and through which methods.",
        rows: rows.rows,
    })
}

// ---- entry points

// Names of methods that a system calls by itself, and when.
static ENTRY_POINTS: [([u8; 4], &str); 17] = [
    (*b"_INI", "when the device is found"),
    (*b"_REG", "when its regions can be reached"),
    (*b"_OSC", "to agree on features"),
    (*b"_PIC", "to tell the interrupt model"),
    (*b"_PTS", "before sleep"),
    (*b"_TTS", "before sleep"),
    (*b"_WAK", "after sleep"),
    (*b"_SST", "system status light"),
    (*b"_PSW", "arms waking"),
    (*b"_DSW", "arms waking"),
    (*b"_PS0", "power on"),
    (*b"_PS3", "power off"),
    (*b"_ON_", "power on"),
    (*b"_OFF", "power off"),
    (*b"_EJ0", "eject"),
    (*b"_OST", "status told"),
    (*b"_DSM", "functions by UUID"),
];

fn entry_section(facts: &MachineFacts<'_, '_>) -> Result<Section, AllocError> {
    let alloc = facts.machine.alloc;
    let mut rows = SectionRows::new(alloc);
    for (name, when) in &ENTRY_POINTS {
        let mut is_first = true;
        for object in &facts.machine.objects {
            let is_method = matches!(object.kind, ObjectKind::Method(_));
            if !is_method || last_segment(object.path) != *name {
                continue;
            }
            let mut word = Text::new(alloc);
            let mut about = Text::new(alloc);
            if is_first {
                word.put_all(&last_name(alloc, object.path)?);
                about.put(when);
            }
            is_first = false;
            let mut text = Text::new(alloc);
            put_trimmed_path(&mut text, object.path);
            text.put(", ");
            if object.code == 0 {
                text.put("empty");
            } else {
                put_counted(&mut text, object.code, "byte");
            }
            rows.put(0, &[&word, &about], text)?;
        }
    }
    Ok(Section {
        heading: "ENTRY POINTS",
        legend: "Methods that a system calls by itself, beside those of events, _STA, _CRS and the like.",
        rows: rows.rows,
    })
}

// ---- what is asked for

fn asked_section(facts: &MachineFacts<'_, '_>) -> Result<Section, AllocError> {
    let alloc = facts.machine.alloc;
    let mut rows = SectionRows::new(alloc);
    for interface in &facts.interfaces {
        let mut words = Text::new(alloc);
        words.put("_OSI \"");
        put_escaped(&mut words, interface.name);
        words.put("\"");
        let mut text = Text::new(alloc);
        for method in &interface.methods {
            put_between(&mut text, " ");
            put_trimmed_path(&mut text, *method);
        }
        rows.put(0, &[&words], text)?;
    }
    for uuid in &facts.uuids {
        let mut words = Text::new(alloc);
        put_uuid(&mut words, &uuid.bytes);
        let mut text = Text::new(alloc);
        text.put(uuid_name(&uuid.bytes).unwrap_or(""));
        text.put("  ");
        let mut separator = "";
        for method in &uuid.methods {
            text.put(separator);
            separator = " ";
            put_trimmed_path(&mut text, *method);
        }
        rows.put(0, &[&words], text)?;
    }
    Ok(Section {
        heading: "ASKED FOR",
        legend: "Strings asked of _OSI, and UUIDs that methods compare their first argument with.",
        rows: rows.rows,
    })
}

/// Sections of all that is known of a machine, but for those that have no row.
pub fn sections(facts: &MachineFacts<'_, '_>) -> Result<Vec<Section>, AllocError> {
    let all = [
        sleep_section(facts)?,
        wake_section(facts)?,
        event_section(facts)?,
        entry_section(facts)?,
        asked_section(facts)?,
        routing_section(facts)?,
    ];
    let mut sections = Vec::new(facts.machine.alloc);
    for section in all {
        if !section.rows.is_empty() {
            sections.push(section)?;
        }
    }
    Ok(sections)
}

/// The objects that have a condition, each with what has to be so; with the sleep states or without.
pub fn condition_rows<'a>(
    facts: &MachineFacts<'_, 'a>,
    has_sleep_states: bool,
) -> Result<Vec<(Object<'a>, Vec<u8>)>, AllocError> {
    let mut rows = Vec::new(facts.machine.alloc);
    for object in &facts.machine.objects {
        let is_state = facts
            .sleep_states
            .iter()
            .any(|s| s.object.number == object.number);
        if !object.is_conditional || (is_state && !has_sleep_states) {
            continue;
        }
        let mut text = Text::new(facts.machine.alloc);
        put_condition(&mut text, facts.machine, object)?;
        rows.push((*object, text.into_bytes()?))?;
    }
    Ok(rows)
}
