//! The forms of nodes that are packages.

use acpi_tree::UnitsForm;

/// A package whose nodes stand in a scope that it declares (ACPI 6.5, 20.2.5.2).
#[derive(Clone, Copy, Debug, PartialEq, Eq)]
pub enum ContainerForm {
    /// DefDevice.
    Device,
    /// DefProcessor, as ACPI 6.3 and earlier have it.
    Processor,
    /// DefPowerRes.
    Power,
    /// DefThermalZone.
    Thermal,
}

/// What a node is whose opcode a package follows (ACPI 6.5, 20.2.5).
#[derive(Clone, Copy, Debug, PartialEq, Eq)]
pub enum PackedForm {
    /// DefScope.
    Scope,
    /// A package with a scope of its own.
    Container(ContainerForm),
    /// DefMethod.
    Method,
    /// DefIfElse, up to its Else.
    If,
    /// DefElse.
    Else,
    /// DefWhile.
    While,
    /// A declaration of field units.
    Units(UnitsForm),
}

/// A term that is data in a package, as a statement or as the data of a Name (20.2.5.4).
#[derive(Clone, Copy, Debug, PartialEq, Eq)]
pub enum DataForm {
    /// DefBuffer.
    Buffer,
    /// DefPackage.
    Package,
    /// DefVarPackage.
    VarPackage,
}
