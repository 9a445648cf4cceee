//! Methods that declare objects and aren't Serialized.

use acpi_check_machine::{CheckId, Finding, Machine, put_finding};
use acpi_kinds::ObjectKind;
use acpi_name_checks::unserialized_line;
use std::alloc::AllocError;
use text_buffer::Text;

/// Methods that declare objects and aren't Serialized (ACPI 6.5, 19.6.83): each at the first line that declares one.
pub(crate) fn not_serialized(
    machine: &Machine<'_>,
    found: &mut Vec<Finding>,
) -> Result<(), AllocError> {
    for body in &machine.bodies {
        if let ObjectKind::Method(flags) = body.object.kind {
            if let Some(line) = unserialized_line(machine.alloc, flags, body.terms)? {
                let mut text = Text::new(machine.alloc);
                text.put("declares objects and isn't Serialized (two calls at once collide: ");
                text.put("AE_ALREADY_EXISTS; Linux serializes it)");
                put_finding(
                    found,
                    CheckId::NotSerialized,
                    &body.object,
                    Some(line),
                    text,
                )?;
            }
        }
    }
    Ok(())
}
