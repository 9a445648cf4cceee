//! What decides how bytes are read as the statements of a method body.

ghost use Rattle.std.specs.Prelude.{◌≡◌, IfOk, List};
ghost use Rattle.acpi_name.specs.NameRefs.{name_parts};
ghost use Rattle.acpi_name.specs.Names.{Segment};
ghost use Rattle.acpi_values.specs.Arguments.{Locals, BodyGrammar};

use acpi_name::{NameRef, Path};
use acpi_space::TreeSpace;
use acpi_values::Counting;
use std::alloc::{AllocError, Global};

/// What a method body is read against: the method's path, how many values follow a name behind what the body has
/// declared, and whether tables may be loaded.
pub trait MethodCounting {
    ghost grammar: { Self → BodyGrammar };

    ghost method: { Self → List Segment };

    /// Where terms take their memory.
    fn alloc(&self) -> Global;

    /// The method's path, in which its declarations stand.
    fn method(&self) -> &Path
        ensures { result.now ≡ method self.now };

    /// How many values follow the name behind declarations at these paths, or None where that isn't sure.
    fn count(&self, locals: &TreeSpace<()>, name: NameRef<'_>) -> Result<Option<u8>, AllocError>
        ensures { IfOk result (λ n. n
            ≡ (grammar self.now locals.now).args (name_parts name.entry)) };

    /// Whether LoadTable, Load and Unload may stand (ACPI 6.5, 20.2.5.4).
    fn loads(&self) -> bool
        ensures { (locals : Locals) → result ≡ (grammar self.now locals).loads };
}

/// A place of a method body: what it is read against, and what the body has declared before it.
#[derive(Drop)]
pub(crate) struct BodyPlace<'a, M: MethodCounting> {
    pub(crate) counting: &'a M,
    pub(crate) locals: &'a TreeSpace<()>,
}

impl<'a, M: MethodCounting> Counting for BodyPlace<'a, M> {
    ghost grammar = { λ h. M.grammar h.counting.now h.locals.now };

    fn alloc(&self) -> Global {
        self.counting.alloc()
    }

    fn count(&self, name: NameRef<'_>) -> Result<Option<u8>, AllocError> {
        self.counting.count(self.locals, name)
    }

    fn loads(&self) -> bool {
        self.counting.loads()
    }
}
