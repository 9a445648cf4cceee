//! What devices and zones of a class must have.

/// What one of a class must have: one of these objects.
pub(crate) type Need = (&'static str, &'static [&'static [u8; 4]]);

/// What a device of an id must have. The sections are those of ACPI 6.5, but for `_WDG` of the management interface
/// PNP0C14.
pub(crate) static DEVICE_NEEDS: [Need; 20] = [
    // A battery (10.2.2).
    ("PNP0C0A", &[b"_BIF", b"_BIX"]),
    ("PNP0C0A", &[b"_BST"]),
    // A power source (10.3).
    ("ACPI0003", &[b"_PSR"]),
    // A lid (9.4.1).
    ("PNP0C0D", &[b"_LID"]),
    // An embedded controller (12.11).
    ("PNP0C09", &[b"_CRS"]),
    // An interrupt link (6.2.13).
    ("PNP0C0F", &[b"_CRS"]),
    ("PNP0C0F", &[b"_PRS"]),
    ("PNP0C0F", &[b"_SRS"]),
    ("PNP0C0F", &[b"_DIS"]),
    ("PNP0C0F", &[b"_UID"]),
    // Root bridges (6.2.2).
    ("PNP0A03", &[b"_CRS"]),
    ("PNP0A08", &[b"_CRS"]),
    // An event timer (6.2.2).
    ("PNP0103", &[b"_CRS"]),
    // A memory device (9.11).
    ("PNP0C80", &[b"_CRS"]),
    // A management interface.
    ("PNP0C14", &[b"_WDG"]),
    ("PNP0C14", &[b"_UID"]),
    // A processor aggregator (8.5).
    ("ACPI000C", &[b"_PUR"]),
    // Trusted platform modules (6.2.2).
    ("MSFT0101", &[b"_CRS"]),
    ("PNP0C31", &[b"_CRS"]),
    // A device of a compatible property (6.2.5).
    ("PRP0001", &[b"_DSD"]),
];

/// What a power resource must have (ACPI 6.5, 7.2).
pub(crate) static POWER_NEEDS: [Need; 3] = [
    ("power resource", &[b"_ON_"]),
    ("power resource", &[b"_OFF"]),
    ("power resource", &[b"_STA"]),
];

/// What a thermal zone must have (ACPI 6.5, 11.6).
pub(crate) static ZONE_NEEDS: [Need; 2] = [
    ("thermal zone", &[b"_TMP"]),
    ("thermal zone", &[b"_CRT", b"_HOT", b"_PSV", b"_AC0"]),
];

/// What a thermal zone with a passive limit must have (ACPI 6.5, 11.1.6).
pub(crate) static PASSIVE_NEEDS: [Need; 4] = [
    ("_PSV", &[b"_PSL", b"_TZD"]),
    ("_PSV", &[b"_TC1"]),
    ("_PSV", &[b"_TC2"]),
    ("_PSV", &[b"_TSP"]),
];

/// What a thermal zone with an active limit of a number must have (ACPI 6.5, 11.4.2).
pub(crate) static ACTIVE_NEEDS: [Need; 10] = [
    ("_AC0", &[b"_AL0"]),
    ("_AC1", &[b"_AL1"]),
    ("_AC2", &[b"_AL2"]),
    ("_AC3", &[b"_AL3"]),
    ("_AC4", &[b"_AL4"]),
    ("_AC5", &[b"_AL5"]),
    ("_AC6", &[b"_AL6"]),
    ("_AC7", &[b"_AL7"]),
    ("_AC8", &[b"_AL8"]),
    ("_AC9", &[b"_AL9"]),
];
