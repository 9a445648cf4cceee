//! Words for address spaces.

/// The word for an address space (ACPI 6.5, table 5.184).
pub fn space_word(space: u8) -> &'static str {
    match space {
        0 => "memory",
        1 => "ports",
        2 => "PCI config",
        3 => "EC",
        4 => "SMBus",
        5 => "CMOS",
        6 => "PCI BAR",
        7 => "IPMI",
        8 => "GPIO",
        9 => "serial bus",
        10 => "PCC",
        11 => "PRM",
        127 => "fixed hardware",
        _ => "vendor",
    }
}
