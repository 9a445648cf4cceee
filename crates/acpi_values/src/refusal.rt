//! What may not stand where.

ghost use Rattle.std.specs.Prelude.{◌≡◌, false};
ghost use Rattle.acpi_tree.specs.declared.place.Place.TheVariants as places;
ghost use Rattle.acpi_values.specs.Refusals.{load_refusal, value_refusal, statement_refusal, refusal_at};

use crate::fault::BodyReason;
use acpi_code::Opcode;
use acpi_tree::{Op, Place};

// Why an operator that has a value, or is a statement, may not stand.
fn of_load(loads: bool, op: Op) -> Option<BodyReason>
    ensures { result ≡ load_refusal loads op }
{
    if loads || !op.is_load() {
        None
    } else {
        Some(BodyReason::LeftOut)
    }
}

fn of_value(loads: bool, opcode: Opcode) -> Option<BodyReason>
    ensures { result ≡ value_refusal loads opcode }
{
    match opcode {
        Opcode::Constant(_) => None,
        Opcode::Str => None,
        Opcode::Buffer => None,
        Opcode::Package => None,
        Opcode::VarPackage => None,
        Opcode::Name => None,
        Opcode::Local(_) => None,
        Opcode::Arg(_) => None,
        Opcode::Operator(op) => {
            if op.is_expression() {
                of_load(loads, op)
            } else {
                Some(BodyReason::NotValue)
            }
        }
        Opcode::Debug => Some(BodyReason::NotValue),
        Opcode::If => Some(BodyReason::NotValue),
        Opcode::Else => Some(BodyReason::NotValue),
        Opcode::While => Some(BodyReason::NotValue),
        Opcode::DeclareName => Some(BodyReason::NotValue),
        Opcode::Create(_) => Some(BodyReason::NotValue),
        Opcode::CreateField => Some(BodyReason::NotValue),
        Opcode::Region => Some(BodyReason::NotValue),
        Opcode::Field => Some(BodyReason::NotValue),
        Opcode::IndexField => Some(BodyReason::NotValue),
        Opcode::BankField => Some(BodyReason::NotValue),
        Opcode::Mutex => Some(BodyReason::NotValue),
        Opcode::Event => Some(BodyReason::NotValue),
        Opcode::Nothing => Some(BodyReason::BadOpcode),
        _ => Some(BodyReason::LeftOut),
    }
}

fn of_simple_name(opcode: Opcode) -> Option<BodyReason>
    ensures { result ≡ refusal_at false places.SimpleName opcode }
{
    match opcode {
        Opcode::Name => None,
        Opcode::Local(_) => None,
        Opcode::Arg(_) => None,
        _ => Some(BodyReason::NotTarget),
    }
}

fn of_super_name(opcode: Opcode) -> Option<BodyReason>
    ensures { result ≡ refusal_at false places.SuperName opcode }
{
    match opcode {
        Opcode::Debug => None,
        Opcode::Operator(op) => {
            if op.is_reference() {
                None
            } else {
                Some(BodyReason::NotTarget)
            }
        }
        _ => of_simple_name(opcode),
    }
}

fn of_data(opcode: Opcode) -> Option<BodyReason>
    ensures { result ≡ refusal_at false places.Data opcode }
{
    match opcode {
        Opcode::Constant(_) => None,
        Opcode::Str => None,
        Opcode::Buffer => None,
        Opcode::Package => None,
        Opcode::VarPackage => None,
        _ => Some(BodyReason::NotData),
    }
}

fn of_element(opcode: Opcode) -> Option<BodyReason>
    ensures { result ≡ refusal_at false places.Element opcode }
{
    match opcode {
        Opcode::Name => None,
        _ => of_data(opcode),
    }
}

fn of_statement(loads: bool, opcode: Opcode) -> Option<BodyReason>
    ensures { result ≡ statement_refusal loads opcode }
{
    match opcode {
        Opcode::Buffer => None,
        Opcode::Package => None,
        Opcode::VarPackage => None,
        Opcode::Name => None,
        Opcode::Operator(op) => of_load(loads, op),
        Opcode::If => None,
        Opcode::While => None,
        Opcode::DeclareName => None,
        Opcode::Create(_) => None,
        Opcode::CreateField => None,
        Opcode::Region => None,
        Opcode::Field => None,
        Opcode::IndexField => None,
        Opcode::BankField => None,
        Opcode::Mutex => None,
        Opcode::Event => None,
        Opcode::Constant(_) => Some(BodyReason::NotStatement),
        Opcode::Str => Some(BodyReason::NotStatement),
        Opcode::Local(_) => Some(BodyReason::NotStatement),
        Opcode::Arg(_) => Some(BodyReason::NotStatement),
        Opcode::Debug => Some(BodyReason::NotStatement),
        Opcode::Else => Some(BodyReason::NotStatement),
        Opcode::Nothing => Some(BodyReason::BadOpcode),
        _ => Some(BodyReason::LeftOut),
    }
}

/// Why what begins there may not stand at the place. None where it may. `loads` says whether LoadTable, Load and Unload
/// may stand.
pub(crate) fn refusal(loads: bool, place: Place, opcode: Opcode) -> Option<BodyReason>
    ensures { result ≡ refusal_at loads place opcode }
{
    match place {
        Place::Value => of_value(loads, opcode),
        Place::SuperName => of_super_name(opcode),
        Place::SimpleName => of_simple_name(opcode),
        Place::Element => of_element(opcode),
        Place::Data => of_data(opcode),
        Place::Statement => of_statement(loads, opcode),
        Place::Source => of_value(loads, opcode),
    }
}
