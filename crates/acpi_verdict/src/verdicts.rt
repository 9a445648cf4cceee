//! What is said of SSDTs over a DSDT: whether they commute, and which Externals of one another they satisfy.

use acpi_declare::LoadFault;
use acpi_name::Path;

/// Whether SSDTs commute over a DSDT: given in any order, they load to the union of their single loads (ACPI 6.5,
/// 5.2.11). SSDTs are numbered from 1.
#[derive(Debug, Drop)]
pub enum Verdict {
    /// SSDT `i` is the first that doesn't load over the DSDT alone, and why; the fault has the same number.
    NotAlone {
        /// The number of the SSDT, from 1.
        i: usize,
        /// Why it is refused, and where.
        fault: LoadFault,
    },
    /// SSDTs `i` and `j`, of which `i` is the less, are the first two that declare one path; and the first such path.
    Same {
        /// The number of the first SSDT, from 1.
        i: usize,
        /// The number of the second one, greater than `i`.
        j: usize,
        /// The first path that both declare.
        path: Path,
    },
    /// The first two SSDTs of which the load of the one missed what the other declares, and the first such path.
    Missed {
        /// The number of the SSDT whose load missed the path, from 1.
        searcher: usize,
        /// The number of the SSDT that declares it, from 1.
        definer: usize,
        /// The first such path.
        path: Path,
    },
    /// None of these: they load alike in any order.
    Commute,
}

/// An External of a table that an SSDT satisfies (ACPI 6.5, 20.2.5.2 DefExternal): a body of the user awaits a method,
/// and the definer declares one of as many arguments at its path. They are ordered by user, definer and path.
#[derive(Debug, Drop, PartialEq, Eq, PartialOrd, Ord)]
pub struct Satisfied {
    /// The table of the body: 0 is the DSDT, and SSDTs are numbered from 1.
    pub user: usize,
    /// The SSDT that declares the method, from 1.
    pub definer: usize,
    /// The path of the method.
    pub path: Path,
}

/// What is said of SSDTs over a DSDT.
#[derive(Debug, Drop)]
pub struct Checked {
    /// Whether they commute.
    pub verdict: Verdict,
    /// The Externals that they satisfy, by user, definer and path; none where one of them doesn't load alone.
    pub satisfied: Vec<Satisfied>,
}
