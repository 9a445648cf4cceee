//! The roles of names.

ghost use Rattle.std.specs.Prelude.{◌≡◌};
ghost use Rattle.acpi_tree.specs.TermView.{terms_tree};
ghost use Rattle.acpi_uses.specs.Roles.{call_role, name_role, reads_value, ref_role, resolve, role_at};

use acpi_tree::{Op, OperandKind, Place, Term};

/// How a name stands in a term (ACPI 6.5, 20.2.5).
#[derive(Debug, Clone, Copy, PartialEq, Eq)]
pub enum Role {
    /// As a statement, and no values follow it: it is called if it is a method.
    Statement,
    /// Where a value is wanted, and no values follow it: it is called if it is a method, and read otherwise.
    Value,
    /// As the source of a Create field, and no values follow it: it is called if it is a method.
    Source,
    /// As a statement, and values follow it: it is called, and nothing reads what it gives.
    StatementCall,
    /// Where a value is wanted, and values follow it, so it is called.
    Call,
    /// What it names is stored to.
    Write,
    /// What it names is told of an event by Notify.
    Notify,
    /// The mutex or event that is waited for, or that others wait for.
    Wait,
    /// CondRefOf asks whether it names something.
    Test,
    /// As an element of a package.
    Element,
    /// As a reference: RefOf, the source of an Alias, or a connection of field units.
    Refer,
    /// The region of field units, or a register through which they are reached.
    Field,
    /// The scope that a Scope opens.
    Scope,
    /// What it names is looked at, and never called.
    Read,
}

/// The role of a name that is the super name or simple name of an operator. No operator has two of these.
fn name_role(op: Op) -> Role
    ensures { result ≡ name_role op }
{
    match op {
        Op::Store => Role::Write,
        Op::CopyObject => Role::Write,
        Op::Increment => Role::Write,
        Op::Decrement => Role::Write,
        Op::Notify => Role::Notify,
        Op::Acquire => Role::Wait,
        Op::Release => Role::Wait,
        Op::Signal => Role::Wait,
        Op::Wait => Role::Wait,
        Op::Reset => Role::Wait,
        Op::CondRefOf => Role::Test,
        Op::RefOf => Role::Refer,
        _ => Role::Read,
    }
}

/// The role of a name at an operand of the operator, as the operator's row has it.
pub fn role_at(op: Op, operand: OperandKind) -> Role
    ensures { result ≡ role_at op operand }
{
    match operand {
        OperandKind::At(Place::SuperName) => name_role(op),
        OperandKind::At(Place::SimpleName) => name_role(op),
        OperandKind::Target => Role::Write,
        _ => Role::Value,
    }
}

impl Role {
    /// The role once it is known whether the name is that of a method: it is then called where it stands as a statement,
    /// as a value or as a source.
    pub fn resolve(self, is_method: bool) -> Role
        ensures { result ≡ resolve is_method self }
    {
        match (self, is_method) {
            (Role::Statement, true) => Role::Call,
            (Role::Value, true) => Role::Call,
            (Role::Source, true) => Role::Call,
            (Role::Statement, false) => Role::Read,
            (Role::Value, false) => Role::Read,
            (Role::Source, false) => Role::Field,
            (Role::StatementCall, _) => Role::Call,
            (role, _) => role,
        }
    }

    /// Whether the name is called for a value that is read, by whether it is that of a method: nothing reads that of a
    /// statement (ACPI 6.5, 20.2.5.3).
    pub fn reads_value(self, is_method: bool) -> bool
        ensures { result ≡ reads_value is_method self }
    {
        match self {
            Role::Call => true,
            Role::Value => is_method,
            Role::Source => is_method,
            _ => false,
        }
    }
}

/// The role of a name that is never a call, where one would have the role.
pub(crate) fn ref_role(role: Role) -> Role
    ensures { result ≡ ref_role role }
{
    match role {
        Role::Call => Role::Read,
        Role::StatementCall => Role::Read,
        _ => role.resolve(false),
    }
}

/// The role of a name that may be a call, with the values that follow it.
#[tactic(auto, using(crate::proofs::Steps::called_with_none, crate::proofs::Steps::called_with_some))]
pub(crate) fn call_role(values: &[Term], role: Role) -> Role
    ensures { result ≡ call_role (terms_tree values.now) role }
{
    if values.is_empty() {
        return match role {
            Role::Statement => Role::Statement,
            Role::Source => Role::Source,
            _ => Role::Value,
        };
    }
    match role {
        Role::Statement => Role::StatementCall,
        _ => Role::Call,
    }
}
