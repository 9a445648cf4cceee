//! The entries of slots, in the order in which the slots are shown.

ghost use Rattle.std.specs.Prelude.{◌≡◌, ◌++◌, map, OnOk};
ghost use Rattle.acpi_conditions.specs.ByPath.{lent_pair};
ghost use Rattle.acpi_conditions.specs.steps.SlotPairs.{WereShown};

use crate::slots::{Sight, Slot};
use acpi_name::Path;
use acpi_space::Visitor;
use std::alloc::AllocError;

/// Slots, and the paths and numbers of the entries of those that were shown.
#[derive(Drop)]
pub struct Numbered<'a> {
    /// The slots.
    pub slots: &'a [Slot],
    /// The paths and numbers.
    pub order: Vec<(&'a Path, usize)>,
}

// Puts a path and the number of each of its entries behind others.
fn put_sights<'a>(
    order: &mut Vec<(&'a Path, usize)>,
    path: &'a Path,
    sights: &[Sight],
) -> Result<(), AllocError>
    ensures { OnOk result (map lent_pair order.new.items ≡ map lent_pair order.old.items
        ++ map (λ x. (path.now, x.number)) sights.now) }
{
    'each: for sight in sights {
        order.push((path, sight.number))?;
    }
    Ok(())
}

impl<'a> Visitor<usize> for Numbered<'a> {
    ghost was_shown = { WereShown };

    fn visit(&mut self, _path: &Path, number: &usize) -> Result<(), AllocError> {
        match self.slots.get(*number) {
            Some(slot) => put_sights(&mut self.order, &slot.path, &slot.sights),
            None => Ok(()),
        }
    }
}
