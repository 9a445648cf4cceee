//! Devices that a reader looks for, by classes (ACPI 6.5, 5.6.7).

use crate::machine_words::RowSource;
use acpi_kinds::ObjectKind;
use acpi_machine_facts::Device;
use acpi_overview::Container;
use acpi_overview_text::put_between;
use acpi_phrases::{folded_names, put_list, put_names, put_short_joined};
use acpi_text::put_decimal;
use std::alloc::AllocError;
use text_buffer::Text;

/// Devices of one class, by ids, and the word for one and for more of them.
#[derive(Drop)]
struct Class {
    word: &'static str,
    words: &'static str,
    ids: &'static [&'static str],
}

static CLASSES: [Class; 18] = [
    Class {
        word: "PCI Express root",
        words: "PCI Express roots",
        ids: &["PNP0A08"],
    },
    Class {
        word: "PCI root",
        words: "PCI roots",
        ids: &["PNP0A03"],
    },
    Class {
        word: "CXL host bridge",
        words: "CXL host bridges",
        ids: &["ACPI0016"],
    },
    Class {
        word: "CXL root",
        words: "CXL roots",
        ids: &["ACPI0017"],
    },
    Class {
        word: "processor",
        words: "processors",
        ids: &["ACPI0007"],
    },
    Class {
        word: "memory device",
        words: "memory devices",
        ids: &["PNP0C80"],
    },
    Class {
        word: "embedded controller",
        words: "embedded controllers",
        ids: &["PNP0C09"],
    },
    Class {
        word: "battery",
        words: "batteries",
        ids: &["PNP0C0A"],
    },
    Class {
        word: "power adapter",
        words: "power adapters",
        ids: &["ACPI0003"],
    },
    Class {
        word: "lid",
        words: "lids",
        ids: &["PNP0C0D"],
    },
    Class {
        word: "power button",
        words: "power buttons",
        ids: &["PNP0C0C"],
    },
    Class {
        word: "sleep button",
        words: "sleep buttons",
        ids: &["PNP0C0E"],
    },
    Class {
        word: "TPM",
        words: "TPMs",
        ids: &["MSFT0101", "PNP0C31"],
    },
    Class {
        word: "event device",
        words: "event devices",
        ids: &["ACPI0013"],
    },
    Class {
        word: "serial port",
        words: "serial ports",
        ids: &["PNP0501", "PNP0500", "ARMH0011"],
    },
    Class {
        word: "keyboard",
        words: "keyboards",
        ids: &["PNP0303", "PNP030B"],
    },
    Class {
        word: "GPIO controller",
        words: "GPIO controllers",
        ids: &[
            "INT344B", "INT3452", "INT3455", "INT34BB", "INT34C5", "INT34C6", "AMDI0030",
        ],
    },
    Class {
        word: "VM generation id",
        words: "VM generation ids",
        ids: &["QEMUVGID", "VMGENCTR"],
    },
];

// The firmware's configuration device of QEMU.
static CONFIGURATION: Class = Class {
    word: "QEMU fw_cfg",
    words: "QEMU fw_cfg",
    ids: &["QEMU0002"],
};

static ZONES: Class = Class {
    word: "thermal zone",
    words: "thermal zones",
    ids: &[],
};

fn has_one_of(device: &Device<'_>, ids: &[&str]) -> bool {
    ids.iter().any(|id| device.has_id(id.as_bytes()))
}

// Whether a device is of a class; a root of PCI Express is also one of PCI, and a CXL host bridge also one of PCI Express.
fn is_of(class: &Class, container: &Container<'_>, device: &Device<'_>) -> bool {
    match container.object.kind {
        ObjectKind::Processor { .. } => return class.word == "processor",
        ObjectKind::Thermal => return class.word == "thermal zone",
        _ => {}
    }
    match class.word {
        "PCI root" => device.has_id(b"PNP0A03") && !device.has_id(b"PNP0A08"),
        "PCI Express root" => {
            device.has_id(b"PNP0A08") && device.hid.as_slice() != b"ACPI0016".as_slice()
        }
        _ => has_one_of(device, class.ids),
    }
}

impl<'f, 'm, 'a> RowSource<'f, 'm, 'a> {
    // Puts a class with the names of its devices.
    fn put_class(&self, row: &mut Text, class: &Class) -> Result<(), AllocError> {
        let names = self.names_of(class)?;
        if names.is_empty() {
            return Ok(());
        }
        let mut piece = self.text();
        if names.len() > 1 {
            put_decimal(&mut piece, names.len() as u64);
            piece.put(" ");
        }
        piece.put(if names.len() > 1 {
            class.words
        } else {
            class.word
        });
        piece.put(" ");
        put_names(&mut piece, &names, self.most)?;
        put_between(row, ", ");
        put_short_joined(row, piece.bytes()?);
        Ok(())
    }

    // The names of the devices of a class.
    fn names_of(&self, class: &Class) -> Result<Vec<Vec<u8>>, AllocError> {
        let mut names = Vec::new(self.alloc());
        for (number, container) in self.facts.overview.tree.containers.iter().enumerate() {
            if let Some(device) = self.facts.device(number) {
                if is_of(class, container, device) {
                    names.push(self.name(container.object.path)?)?;
                }
            }
        }
        Ok(names)
    }

    /// Whether it has a device of the class with that word.
    pub(crate) fn has_class(&self, word: &str) -> bool {
        for class in &CLASSES {
            if class.word != word {
                continue;
            }
            for (number, container) in self.facts.overview.tree.containers.iter().enumerate() {
                if let Some(device) = self.facts.device(number) {
                    if is_of(class, container, device) {
                        return true;
                    }
                }
            }
        }
        false
    }

    /// Which devices a reader looks for it has.
    pub(crate) fn has(&self) -> Result<Text, AllocError> {
        let mut row = self.text();
        for class in &CLASSES {
            self.put_class(&mut row, class)?;
        }
        self.put_class(&mut row, &CONFIGURATION)?;
        let zones = self.names_of(&ZONES)?;
        if !zones.is_empty() {
            put_between(&mut row, ", ");
            row.put("thermal zone ");
            put_list(&mut row, &folded_names(self.alloc(), &zones)?, None);
        }
        Ok(row)
    }
}
