//! Whether two bodies of methods are the same.

ghost use Rattle.std.specs.Prelude.{◌≡◌};
ghost use Rattle.std.specs.Option.{option_map};
ghost use Rattle.acpi_same.specs.Same.{reading_parts};
ghost use Rattle.acpi_same.specs.steps.Equality.{body_eq, option_eq};

use acpi_entries::{BodyReading, MethodBody};

// Whether two bodies have the same statements; the same bytes, where neither can be read.
fn is_same_reading(one: &MethodBody<'_>, other: &MethodBody<'_>) -> bool
    ensures { result ≡ body_eq (reading_parts one.now.code.now one.now.reading)
        (reading_parts other.now.code.now other.now.reading) }
{
    match (&one.reading, &other.reading) {
        (BodyReading::Terms(terms), BodyReading::Terms(others)) => *terms == *others,
        (BodyReading::Opaque { .. }, BodyReading::Opaque { .. }) => one.code == other.code,
        _ => false,
    }
}

/// Whether two entries have the same body, if they have one.
pub(crate) fn is_same_body(one: Option<&MethodBody<'_>>, other: Option<&MethodBody<'_>>) -> bool
    ensures { result ≡ option_eq body_eq
        (option_map (λ b. reading_parts b.now.code.now b.now.reading) one.entry)
        (option_map (λ b. reading_parts b.now.code.now b.now.reading) other.entry) }
{
    match (one, other) {
        (Some(one), Some(other)) => is_same_reading(one, other),
        (None, None) => true,
        _ => false,
    }
}
