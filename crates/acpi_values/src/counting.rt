//! What decides how bytes are read as terms.

ghost use Rattle.std.specs.Prelude.{◌≡◌, IfOk};
ghost use Rattle.acpi_name.specs.NameRefs.{name_parts};
ghost use Rattle.acpi_values.specs.Grammars.{Grammar};

use acpi_name::NameRef;
use std::alloc::{AllocError, Global};

/// What tells how many values follow a name where a value or a statement stands, and whether LoadTable, Load and Unload
/// may stand.
pub trait Counting {
    ghost grammar: { Self → Grammar };

    /// Where terms take their memory.
    fn alloc(&self) -> Global;

    /// How many values follow the name, or None where that isn't sure.
    fn count(&self, name: NameRef<'_>) -> Result<Option<u8>, AllocError>
        ensures { IfOk result (λ n. n ≡ (grammar self.now).args (name_parts name.entry)) };

    /// Whether LoadTable, Load and Unload may stand (ACPI 6.5, 20.2.5.4).
    fn loads(&self) -> bool
        ensures { result ≡ (grammar self.now).loads };
}
