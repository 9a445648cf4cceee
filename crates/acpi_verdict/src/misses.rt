//! What searches missed, and the methods that bodies await.

ghost use Rattle.std.specs.Prelude.{◌≡◌, OnOk, map};
ghost use Rattle.acpi_counts.specs.Counts.{with_first};
ghost use Rattle.acpi_verdict.specs.steps.Misses.{with_opens, open_pair, AddsBody};

use crate::paths::add_paths;
use acpi_body::{BodyMisses, OpenMiss};
use acpi_name::Path;
use acpi_space::{MapSpace, Refused, Space};
use std::alloc::AllocError;

/// The paths that searches missed, and the methods that bodies await.
#[derive(Drop)]
pub struct Misses {
    /// The paths that were missed.
    pub missed: MapSpace<()>,
    /// How many arguments the methods take that bodies await, by their paths.
    pub awaited: MapSpace<u8>,
}

// Adds the count of a path that has none.
fn add_count(awaited: &mut MapSpace<u8>, path: Path, count: u8) -> Result<(), AllocError>
    ensures { OnOk result (awaited.new ≡ with_first awaited.old path count) }
{
    match awaited.insert(path, count) {
        Ok(()) => Ok(()),
        Err(Refused::Taken(_)) => Ok(()),
        Err(Refused::Memory(_)) => Err(AllocError),
    }
}

// Adds what one body awaits.
fn add_open(awaited: &mut MapSpace<u8>, misses: Vec<OpenMiss>) -> Result<(), AllocError>
    ensures { OnOk result (awaited.new ≡ with_opens awaited.old (map open_pair misses.items)) }
{
    for miss in misses {
        add_count(awaited, miss.path, miss.count)?;
    }
    Ok(())
}

impl Misses {
    /// Adds what one body misses and awaits.
    pub fn add(&mut self, body: BodyMisses) -> Result<(), AllocError>
        ensures { OnOk result (AddsBody body self.old self.new) }
    {
        let BodyMisses { firm, open } = body;
        add_paths(&mut self.missed, firm)?;
        add_open(&mut self.awaited, open)
    }
}
