//! Reading constants, and names that stand where a term may stand.

ghost use Rattle.acpi_name.specs.NameRefs.{name_parts};
ghost use Rattle.acpi_terms.specs.steps.Reading.{const_at, int_at, source_at};
ghost use Rattle.acpi_terms.specs.steps.Cursor.{Finds};

use crate::fault::{ItemFault, ItemReason, refused};
use acpi_code::{Code, Opcode};
use acpi_name::NameRef;
use acpi_tree::Int;

/// A constant, whatever its level.
#[tactic(auto, using(crate::proofs::Parts::constant_fails_free), unfolding(crate::specs::steps::Reading::const_at))]
pub(crate) fn constant(code: &mut Code<'_>) -> Result<Int, ItemFault>
    ensures { Finds (λ i. i) const_at code.old code.new result }
{
    Ok(code.int()?)
}

/// A constant, `level` levels being left for it.
#[tactic(auto, using(crate::proofs::Parts::part_fails_free), unfolding(crate::specs::steps::Reading::int_at))]
pub(crate) fn int(level: u32, code: &mut Code<'_>) -> Result<Int, ItemFault>
    ensures { Finds (λ i. i) (int_at level) code.old code.new result }
{
    if level == 0 {
        return Err(code.too_deep().into());
    }
    constant(code)
}

/// The source of a Create field.
#[tactic(auto, using(crate::proofs::Parts::part_fails_free), unfolding(crate::specs::steps::Reading::source_at))]
pub(crate) fn source<'a>(code: &mut Code<'a>) -> Result<NameRef<'a>, ItemFault>
    ensures { Finds name_parts source_at code.old code.new result }
{
    match code.fork().opcode()? {
        Opcode::Name => Ok(code.name()?),
        Opcode::Nothing => Err(refused(code, ItemReason::BadName)),
        _ => Err(refused(code, ItemReason::Computed)),
    }
}
