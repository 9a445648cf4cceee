//! Field units at ports that operating systems keep for themselves.

use crate::units::{Unit, units_of};
use acpi_check_machine::{CheckId, Finding, Machine, constant};
use acpi_kinds::ObjectKind;
use acpi_overview_text::put_hex;
use std::alloc::{AllocError, Global};
use text_buffer::Text;

// RegionSpace of SystemIO (ACPI 6.5, 20.2.5.2 DefOpRegion).
const SYSTEM_IO: u8 = 1;

// The first and the last port of what a system has drivers of its own for: DMA, interrupt controllers, timers, the
// clock of real time, and the configuration of PCI.
static PORTS: [(u64, u64); 14] = [
    (0x00, 0x0F),
    (0x20, 0x21),
    (0x40, 0x43),
    (0x48, 0x4B),
    (0x70, 0x71),
    (0x74, 0x76),
    (0x81, 0x83),
    (0x87, 0x87),
    (0x89, 0x8B),
    (0x8F, 0x90),
    (0xA0, 0xA1),
    (0xC0, 0xDF),
    (0x4D0, 0x4D1),
    (0xCF8, 0xCFF),
];

fn put_ports(text: &mut Text, ports: (u64, u64)) {
    put_hex(text, ports.0, 1);
    text.put("-");
    put_hex(text, ports.1, 1);
}

// `ports 70-70 are in 70-71, which Linux keeps for itself`.
fn text_of(alloc: Global, ports: (u64, u64), kept: (u64, u64)) -> Text {
    let mut text = Text::new(alloc);
    text.put("ports ");
    put_ports(&mut text, ports);
    text.put(" are in ");
    put_ports(&mut text, kept);
    text.put(", which Linux keeps for itself");
    text
}

// The first and the last port of a unit of constant place.
fn ports_of(unit: &Unit<'_, '_>) -> Option<(u64, u64)> {
    let ObjectKind::Region { space, offset, .. } = unit.region.kind() else {
        return None;
    };
    if space != SYSTEM_IO || unit.bits == 0 {
        return None;
    }
    let base = constant(offset)?;
    let last = unit
        .offset
        .saturating_add(u64::from(unit.bits).saturating_sub(1));
    Some((
        base.saturating_add(unit.offset / 8),
        base.saturating_add(last / 8),
    ))
}

/// Field units of constant place at ports that systems keep for themselves.
pub(crate) fn guarded_ports(
    machine: &Machine<'_>,
    found: &mut Vec<Finding>,
) -> Result<(), AllocError> {
    for unit in &units_of(machine)? {
        let Some((low, high)) = ports_of(unit) else {
            continue;
        };
        let kept = PORTS.iter().find(|kept| low <= kept.1 && high >= kept.0);
        if let Some(kept) = kept {
            let text = text_of(machine.alloc, (low, high), *kept);
            unit.declared
                .put_finding(found, CheckId::GuardedPort, text)?;
        }
    }
    Ok(())
}
