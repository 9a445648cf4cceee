//! Bytes in which LoadTable, Load or Unload may be spelled.

ghost use Rattle.std.specs.Prelude.{◌≡◌};
ghost use Rattle.acpi_body_notes.specs.steps.LoadBytes.{begins_load, holds_load};

// Whether one of their opcodes stands at the front of the bytes.
fn begins_load(bytes: &[u8]) -> bool
    ensures { result ≡ begins_load bytes.now }
{
    matches!(bytes, [0x5B, 0x1F | 0x20 | 0x2A, ..])
}

/// Whether one of their opcodes stands at some place of the bytes.
pub(crate) fn holds_load(bytes: &[u8]) -> bool
    ensures { result ≡ holds_load bytes.now }
{
    'each: for place in 0..bytes.len() {
        if begins_load(&bytes[place..]) {
            return true;
        }
    }
    false
}
