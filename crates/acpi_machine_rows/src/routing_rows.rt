//! Which interrupts the pins of PCI devices have (ACPI 6.5, 6.2.13).

use crate::machine_words::RowSource;
use acpi_device_text::put_form;
use acpi_overview_text::put_between;
use acpi_phrases::{around, last_name, put_names};
use std::alloc::AllocError;
use text_buffer::Text;

/// The devices whose pins are routed, and by what.
pub(crate) fn routing_text(source: &RowSource<'_, '_, '_>) -> Result<Text, AllocError> {
    let mut groups: Vec<(usize, usize, Vec<u8>, Vec<Vec<u8>>)> = Vec::new(source.alloc());
    for routing in &source.facts.routings {
        let mut form = source.text();
        put_form(&mut form, routing)?;
        let form = form.into_bytes()?;
        let device = around(routing.object.path)?;
        let name = last_name(source.alloc(), &device)?;
        match groups.iter().position(|g| g.2 == form) {
            Some(place) => {
                if let Some(group) = groups.get_mut(place) {
                    group.3.push(name)?;
                }
            }
            None => {
                let mut names = Vec::new(source.alloc());
                names.push(name)?;
                groups.push((device.len(), groups.len(), form, names))?;
            }
        }
    }
    groups.sort()?;
    let mut row = source.text();
    for (_, _, form, names) in &groups {
        put_between(&mut row, "; ");
        put_names(&mut row, names, source.most)?;
        row.put(": ");
        row.put_all(form);
    }
    Ok(row)
}
