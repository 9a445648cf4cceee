//! What a DSDT loads to with one SSDT, and what that load tells of it.

ghost use Rattle.std.specs.Prelude.{◌≡◌};

use acpi_machine::Machine;
use acpi_name::Path;

/// A method that a body awaits: the body's table has an External for it, and the body names it, but no table
/// declares it (ACPI 6.5, 20.2.5.2 DefExternal).
#[derive(Debug, Drop)]
pub struct Awaited {
    /// The table of the body: 0 is the DSDT, 1 the SSDT.
    pub table: u32,
    /// The path that the External declares.
    pub path: Path,
    /// How many arguments the method takes, 0 to 7.
    pub count: u8,
}

/// What a DSDT loads to with one SSDT, and what that load tells of it.
#[derive(Drop)]
pub struct Single<S> {
    /// What the two tables load to.
    pub machine: Machine<S>,
    /// The paths that the SSDT declares, in their order.
    pub defined: Vec<Path>,
    /// The paths that the load missed, in their order.
    pub missed: Vec<Path>,
    /// The methods that bodies await, in the order of table, path and count.
    pub awaited: Vec<Awaited>,
}

impl<S> Single<S> {
    ghost use Rattle.acpi_singles.specs.SingleView.{machine_in, defined_in, missed_in, awaited_in};

    /// What the two tables load to.
    pub fn machine(&self) -> &Machine<S>
        ensures { result.now ≡ machine_in self.now }
    {
        &self.machine
    }

    /// The paths that the SSDT declares, in their order.
    pub fn defined(&self) -> &[Path]
        ensures { result.now ≡ defined_in self.now }
    {
        &self.defined
    }

    /// The paths that the load missed, in their order: for Scope terms of the SSDT, for links of fields, and for bodies
    /// of both tables; for one that isn't read, what any name spelled at any of its bytes would miss. Those that a body
    /// awaits are not among them, unless another search missed them too.
    pub fn missed(&self) -> &[Path]
        ensures { result.now ≡ missed_in self.now }
    {
        &self.missed
    }

    /// The methods that bodies await, in the order of table, path and count.
    pub fn awaited(&self) -> &[Awaited]
        ensures { result.now ≡ awaited_in self.now }
    {
        &self.awaited
    }
}
