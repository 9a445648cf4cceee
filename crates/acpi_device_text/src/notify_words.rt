//! Who is notified (ACPI 6.5, 5.6.6).

use acpi_events::NotifyTarget;
use acpi_phrases::{last_name, put_expression, put_joined};
use acpi_trimmed::put_trimmed_name;
use std::alloc::AllocError;
use text_buffer::Text;

/// Puts who is notified, by the last segment.
pub fn put_target(text: &mut Text, target: NotifyTarget<'_, '_>) -> Result<(), AllocError> {
    match target {
        NotifyTarget::At(path) => text.put_all(&last_name(text.alloc(), path)?),
        NotifyTarget::Nowhere(name) => {
            put_trimmed_name(text, name.view());
            put_joined(text, b" (declared nowhere)")
        }
        NotifyTarget::Computed(term) => put_expression(text, term)?,
    }
    Ok(())
}
