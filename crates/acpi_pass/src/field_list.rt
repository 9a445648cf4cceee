//! What the units of a field list have in common, and where each begins.

ghost use Rattle.std.specs.Prelude.{◌≡◌, ◌∷◌, [], ◌+◌, ◌<◌, ◌^◌, IfOk};

use acpi_name::Name;
use acpi_tree::FieldForm;
use std::alloc::{AllocError, Global};

/// What the units of one field list have in common.
#[derive(Clone, Copy)]
pub(crate) struct FieldList<'a> {
    pub(crate) form: FieldForm,
    pub(crate) flags: u8,
    pub(crate) names: &'a [Name],
}

/// The offset behind so many bits.
pub(crate) fn behind(offset: u64, bits: u32) -> u64
    requires { offset + bits < 2 ^ 64 }
    ensures { result ≡ offset + bits }
{
    offset + u64::from(bits)
}

/// A list of one name.
pub(crate) fn one(alloc: Global, name: Name) -> Result<Vec<Name>, AllocError>
    ensures { IfOk result (λ v. v.items ≡ name ∷ []) }
{
    let mut names = Vec::new(alloc);
    names.push(name)?;
    Ok(names)
}

/// A list of two names.
pub(crate) fn two(alloc: Global, first: Name, second: Name) -> Result<Vec<Name>, AllocError>
    ensures { IfOk result (λ v. v.items ≡ first ∷ second ∷ []) }
{
    let mut names = Vec::new(alloc);
    names.push(first)?;
    names.push(second)?;
    Ok(names)
}
