//! Paths that a caller names.

ghost use Rattle.std.specs.Prelude.{◌≡◌, IfOk, Err};
ghost use Rattle.acpi_name.specs.Text.{IsPathText, SpellsPathText};

use acpi_name::{Path, PathFault};
use std::alloc::Global;
use std::str::from_utf8;

/// The path that some bytes spell.
pub fn path_in(alloc: Global, bytes: &[u8]) -> Result<Path, PathFault>
    ensures found { IfOk result (λ p. SpellsPathText p bytes.now) }
    ensures bad { result ≡ Err PathFault.BadText → IsPathText bytes.now → ⊥ }
{
    match from_utf8(bytes) {
        Ok(text) => Path::from_text(alloc, text),
        Err(_) => Err(PathFault::BadText),
    }
}
