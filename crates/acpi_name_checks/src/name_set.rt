//! Sets of names.

ghost use Rattle.std.specs.Prelude.{◌≡◌, ◌||◌, false, OnOk};
ghost use Rattle.std.specs.Ordering.{as_partial_cmp, eq_by_cmp};
ghost use Rattle.std.specs.Cmp.{partial_order_from_agreeing_total, partial_equiv_from_equiv, eq_by_cmp_equiv};
ghost use Rattle.std.specs.Cmp.Rules.{comparing};
ghost use Rattle.std.proofs.Common.{rules};
ghost use Rattle.acpi_name.specs.Names.{NameParts};
ghost use Rattle.acpi_name.specs.NameEqual.{name_eq};
ghost use Rattle.acpi_name.specs.NameRefs.{name_parts};
ghost use Rattle.acpi_name.specs.Paths.{path_cmp};
ghost use Rattle.acpi_name_checks.specs.steps.NameOrder.{name_cmp, name_cmp_total};
ghost use Rattle.acpi_name_checks.specs.steps.NameSets.{has_name};

use acpi_name::{Name, NameRef};
use std::alloc::{AllocError, Global};
use std::cmp::Ordering;
use std::collections::BTreeSet;
use std::marker::Model;

// Compares the segments of two names.
fn compare_segs(one: NameRef<'_>, other: NameRef<'_>) -> Ordering
    ensures { result ≡ path_cmp (name_parts one.entry).segments (name_parts other.entry).segments }
{
    for i in 0..one.len().min(other.len()) {
        let order = one.seg(i).cmp(&other.seg(i));
        if order.is_ne() {
            return order;
        }
    }
    one.len().cmp(&other.len())
}

// A name that is ordered: by whether it begins at the root, by its parents, and by its segments.
#[derive(Drop)]
struct Key<'a> {
    name: &'a Name,
}

impl<'a> Model for Key<'a> {
    ghost use Rattle.acpi_name.specs.Names.{NameParts};

    ghost Value = { NameParts };

    ghost view = { λ k. k.name.now };
}

impl<'a> PartialEq for Key<'a> {
    ghost eq = { eq_by_cmp name_cmp };

    ghost laws = { partial_equiv_from_equiv (eq_by_cmp_equiv name_cmp_total) };

    fn eq(&self, other: &Key<'a>) -> bool {
        self.cmp(other) == Ordering::Equal
    }
}

impl<'a> Eq for Key<'a> {
    ghost laws = { eq_by_cmp_equiv name_cmp_total };
}

impl<'a> PartialOrd for Key<'a> {
    ghost partial_cmp = { as_partial_cmp name_cmp };

    ghost laws = { partial_order_from_agreeing_total name_cmp name_cmp_total
        (Prim.search (comparing, rules)) (Prim.search (comparing, rules)) };

    fn partial_cmp(&self, other: &Key<'a>) -> Option<Ordering> {
        Some(self.cmp(other))
    }
}

impl<'a> Ord for Key<'a> {
    ghost cmp = { name_cmp };

    ghost total = { name_cmp_total };

    ghost matches_partial_cmp = { Prim.search (comparing, rules) };

    ghost matches_eq = { Prim.search (comparing, rules) };

    fn cmp(&self, other: &Key<'a>) -> Ordering {
        let (one, other) = (self.name.view(), other.name.view());
        one.rooted()
            .cmp(&other.rooted())
            .then(one.parents().cmp(&other.parents()))
            .then(compare_segs(one, other))
    }
}

/// A set of names.
#[derive(Drop)]
pub(crate) struct NameSet<'a> {
    keys: BTreeSet<Key<'a>>,
}

impl<'a> NameSet<'a> {
    /// The empty one.
    pub(crate) fn new(alloc: Global) -> NameSet<'a>
        ensures { (n : NameParts) → has_name result n ≡ false }
    {
        NameSet {
            keys: BTreeSet::new(alloc),
        }
    }

    /// Whether a name is in it.
    pub(crate) fn has(&self, name: &'a Name) -> bool
        ensures { result ≡ has_name self.now name.now }
    {
        self.keys.contains(&Key { name })
    }

    /// Puts a name into it.
    pub(crate) fn insert(&mut self, name: &'a Name) -> Result<(), AllocError>
        ensures { OnOk result ((n : NameParts) → has_name self.new n
            ≡ (name_eq name.now n || has_name self.old n)) }
    {
        self.keys.insert(Key { name })?;
        Ok(())
    }
}
