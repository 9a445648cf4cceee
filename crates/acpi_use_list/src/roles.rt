//! The roles of names that are used.

ghost use Rattle.std.specs.Prelude.{◌≡◌};
ghost use Rattle.acpi_use_list.specs.UseRoles.{use_role};

use acpi_uses::Role;

/// How a name is used (ACPI 6.5, 20.2.5).
#[derive(Debug, Clone, Copy, PartialEq, Eq)]
pub enum UseRole {
    /// It is called.
    Call,
    /// What it names is stored to.
    Write,
    /// What it names is told of an event by Notify.
    Notify,
    /// The mutex or event that is waited for, or that others wait for.
    Wait,
    /// CondRefOf asks whether it names something.
    Test,
    /// As a reference: RefOf, an element of a package, the source of an Alias, or a connection of field units.
    Refer,
    /// The region of field units, a register through which they are reached, or the source of a Create field.
    Field,
    /// The scope that a Scope opens.
    Scope,
    /// Its value is read, or what it names is looked at.
    Read,
}

/// How a name is used, by how it stands and whether it means a method.
pub fn use_role(role: Role, is_method: bool) -> UseRole
    ensures { result ≡ use_role is_method role }
{
    match role.resolve(is_method) {
        Role::Call => UseRole::Call,
        Role::StatementCall => UseRole::Call,
        Role::Write => UseRole::Write,
        Role::Notify => UseRole::Notify,
        Role::Wait => UseRole::Wait,
        Role::Test => UseRole::Test,
        Role::Element => UseRole::Refer,
        Role::Refer => UseRole::Refer,
        Role::Field => UseRole::Field,
        Role::Source => UseRole::Field,
        Role::Scope => UseRole::Scope,
        Role::Statement => UseRole::Read,
        Role::Value => UseRole::Read,
        Role::Read => UseRole::Read,
    }
}
