//! The methods that a system calls when it starts and when it goes to sleep (ACPI 6.5, 6.5, 7.4 and 9.1).

use crate::machine_words::RowSource;
use acpi_kinds::ObjectKind;
use acpi_overview::{Object, last_segment};
use acpi_overview_text::put_between;
use acpi_phrases::{around, put_names, put_piece};
use std::alloc::AllocError;
use text_buffer::Text;

/// The methods at the root that a system calls when it starts, and before and after sleep.
const AT_START: [[u8; 4]; 1] = [*b"_PIC"];

const AT_SLEEP: [[u8; 4]; 5] = [*b"_PTS", *b"_TTS", *b"_GTS", *b"_BFS", *b"_WAK"];

/// Those of devices.
const OF_DEVICES_AT_START: [[u8; 4]; 3] = [*b"_INI", *b"_REG", *b"_OSC"];

const OF_DEVICES_AT_SLEEP: [[u8; 4]; 2] = [*b"_PSW", *b"_DSW"];

// Whether it is a method of that name.
fn is_method(object: &Object<'_>, name: [u8; 4]) -> bool {
    matches!(object.kind, ObjectKind::Method(_)) && last_segment(object.path) == name
}

impl<'f, 'm, 'a> RowSource<'f, 'm, 'a> {
    // Puts those of these names at the root.
    fn put_of_root(&self, row: &mut Text, separator: &str, names: &[[u8; 4]]) {
        for name in names {
            let is_there = self
                .facts
                .machine
                .objects
                .iter()
                .any(|o| o.path.len() == 1 && is_method(o, *name));
            if is_there {
                put_between(row, separator);
                row.put("\\");
                row.put_all(name);
            }
        }
    }

    // Puts the devices that have a method of each of these names.
    fn put_of_devices(
        &self,
        row: &mut Text,
        separator: &str,
        names: &[[u8; 4]],
    ) -> Result<(), AllocError> {
        for name in names {
            let mut devices = Vec::new(self.alloc());
            for object in &self.facts.machine.objects {
                if is_method(object, *name) {
                    let device = self.name(&around(object.path)?)?;
                    if devices.last() != Some(&device) {
                        devices.push(device)?;
                    }
                }
            }
            if !devices.is_empty() {
                put_piece(row, separator, name);
                row.put(" of ");
                put_names(row, &devices, self.most)?;
            }
        }
        Ok(())
    }

    // Whether the method that shows the state of the system is there.
    fn has_status_indicator(&self) -> bool {
        self.facts.machine.objects.iter().any(|o| {
            is_method(o, *b"_SST")
                && matches!(o.path.segs(), [first, _] if first.bytes() == *b"_SI_")
        })
    }
}

/// The methods that a system calls when it starts.
pub(crate) fn start_text(source: &RowSource<'_, '_, '_>) -> Result<Text, AllocError> {
    let mut row = source.text();
    source.put_of_root(&mut row, "; ", &AT_START);
    source.put_of_devices(&mut row, "; ", &OF_DEVICES_AT_START)?;
    Ok(row)
}

/// The methods that a system calls before and after sleep.
pub(crate) fn sleep_calls(source: &RowSource<'_, '_, '_>) -> Result<Text, AllocError> {
    let mut row = source.text();
    source.put_of_root(&mut row, ", ", &AT_SLEEP);
    if source.has_status_indicator() {
        put_piece(&mut row, ", ", b"\\_SI._SST");
    }
    source.put_of_devices(&mut row, ", ", &OF_DEVICES_AT_SLEEP)?;
    Ok(row)
}
