//! The uses of a name.

ghost use Rattle.std.specs.Prelude.{◌≡◌, ◌++◌, ◌∷◌, [], OnOk};
ghost use Rattle.acpi_entries.specs.ConditionViews.{link_view};
ghost use Rattle.acpi_use_list.specs.Uses.{is_sure, use_at, uses_of_link};

use crate::roles::UseRole;
use acpi_entries::Link;
use acpi_name::{Name, Path};
use std::alloc::AllocError;

/// Where a name stands.
#[derive(Debug, Clone, Copy, PartialEq, Eq)]
pub enum UseSite {
    /// In a node at module level.
    Node {
        /// The node's place: its table's number times 2^64, and the number of bytes of the table's code before it.
        place: u128,
    },
    /// In the body of a method (ACPI 6.5, 5.5.2.3).
    Line {
        /// The number of the method's entry.
        method: usize,
        /// The place of the method's node.
        place: u128,
        /// The line of the statement, from 1.
        line: usize,
    },
}

/// A use of a name: one for each path at which the name may be found (ACPI 6.5, 5.3).
#[derive(Debug, Drop)]
pub struct Use {
    /// The path; None where the name may be found at none.
    pub path: Option<Path>,
    /// The name, as it stands there.
    pub name: Name,
    /// How it is used.
    pub role: UseRole,
    /// Whether it means this path and no other: it may be found there alone, and is for certain. A name that may be
    /// found nowhere is sure.
    pub is_sure: bool,
    /// Where it stands.
    pub site: UseSite,
}

fn is_sure(link: &Link<'_>) -> bool
    ensures { result ≡ is_sure (link_view link.now) }
{
    match link.paths.as_slice() {
        [] => true,
        [_] => link.is_certain,
        [_, _, ..] => false,
    }
}

// Puts the use of a name at a path behind others.
fn put_use(
    found: &mut Vec<Use>,
    link: &Link<'_>,
    role: UseRole,
    site: UseSite,
    path: Option<Path>,
) -> Result<(), AllocError>
    ensures { OnOk result (found.new.items
        ≡ found.old.items ++ use_at (link_view link.now) role site path ∷ []) }
{
    found.push(Use {
        path,
        name: link.name.copy()?,
        role,
        is_sure: is_sure(link),
        site,
    })?;
    Ok(())
}

/// Puts the uses of a name behind others.
pub(crate) fn put_uses(
    found: &mut Vec<Use>,
    link: &Link<'_>,
    role: UseRole,
    site: UseSite,
) -> Result<(), AllocError>
    ensures { OnOk result (found.new.items
        ≡ found.old.items ++ uses_of_link (link_view link.now) role site) }
{
    if link.paths.is_empty() {
        return put_use(found, link, role, site, None);
    }
    'each: for path in &link.paths {
        put_use(found, link, role, site, Some(path.copy()?))?;
    }
    Ok(())
}
