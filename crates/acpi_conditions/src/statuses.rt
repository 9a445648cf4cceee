//! What is known of the paths, at one path after another.

ghost use Rattle.std.specs.Prelude.{◌≡◌};
ghost use Rattle.acpi_conditions.specs.Known.{Known, is_certain, is_certain_scope, is_possible, is_possible_scope};
ghost use Rattle.acpi_conditions.specs.Presences.{is_a_scope, is_something};

use acpi_name::Path;

/// What stands at a path.
#[derive(Debug, Clone, Copy, PartialEq, Eq)]
pub enum Presence {
    /// Nothing.
    Nothing,
    /// An object.
    Object,
    /// An object below which others may be declared.
    Scope,
}

impl Presence {
    /// Whether something stands there.
    pub fn is_something(self) -> bool
        ensures { result ≡ is_something self }
    {
        match self {
            Presence::Nothing => false,
            Presence::Object => true,
            Presence::Scope => true,
        }
    }

    /// Whether a scope stands there.
    pub fn is_a_scope(self) -> bool
        ensures { result ≡ is_a_scope self }
    {
        match self {
            Presence::Nothing => false,
            Presence::Object => false,
            Presence::Scope => true,
        }
    }
}

/// What is known of a path.
#[derive(Debug, Clone, Copy)]
pub struct Status {
    /// What stands there for certain.
    pub certain: Presence,
    /// What may stand there.
    pub possible: Presence,
}

/// What is known of the paths when control comes to a term (ACPI 6.5, 5.3), by the four tests that decide all else.
pub trait Statuses {
    ghost known: { Self → Known };

    /// What is known of a path.
    fn status(&self, path: &Path) -> Status
        ensures certain { is_something result.certain ≡ is_certain (known self.now) path.now }
        ensures certain_scope { is_a_scope result.certain
            ≡ is_certain_scope (known self.now) path.now }
        ensures possible { is_something result.possible ≡ is_possible (known self.now) path.now }
        ensures possible_scope { is_a_scope result.possible
            ≡ is_possible_scope (known self.now) path.now };
}
