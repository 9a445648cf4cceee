//! Paths from the root of the namespace.

ghost use Rattle.std.specs.Prelude.{◌≤◌, ◌<◌, ◌^◌, length, take, ◌≡◌, ◌≢◌, [], ◌∷◌, ◌++◌, OnOk, OnErr, IfOk, IfErr, Some, None, IsTrue, ◌↔◌, MatchOption};
ghost use Rattle.std.specs.Ordering.{as_partial_cmp, eq_by_cmp};
ghost use Rattle.std.specs.Cmp.{partial_order_from_agreeing_total, partial_equiv_from_equiv, eq_by_cmp_equiv};
ghost use Rattle.std.specs.Cmp.Rules.{comparing};
ghost use Rattle.std.proofs.Common.{rules};
ghost use Rattle.acpi_name.specs.Names.{AreSegments};
ghost use Rattle.acpi_name.specs.Paths.{path_cmp, place_of, parent_of};
ghost use Rattle.acpi_name.specs.steps.PathOrder.{path_cmp_total};
ghost use Rattle.std.specs.List.{last_or};

use crate::name::NameRef;
use crate::seg::Seg;
use std::alloc::{AllocError, Global};
use std::cmp::Ordering;
use std::marker::Model;

/// A path from the root (ACPI 6.5, 5.3), seen as the list of its segments. Paths are ordered as lists
/// of segments, segments by their bytes.
#[derive(Debug, Drop)]
pub struct Path {
    segs: Vec<Seg>,
}

impl Model for Path {
    ghost use Rattle.std.specs.Prelude.{List};
    ghost use Rattle.acpi_name.specs.Names.{Segment, AreSegments};
    ghost use Rattle.std.specs.Coded.{coded_ℕ, coded_list};

    ghost Value = { List Segment };

    ghost coded = { coded_list (coded_list coded_ℕ) };

    ghost view = { λ p. p.segs.items };

    ghost invariant = { λ p. AreSegments p.segs.items };
}

impl PartialEq for Path {
    ghost eq = { eq_by_cmp path_cmp };

    ghost laws = { partial_equiv_from_equiv (eq_by_cmp_equiv path_cmp_total) };

    fn eq(&self, other: &Path) -> bool
        ensures test { result ≡ eq_by_cmp path_cmp self.now other.now }
        ensures same { IsTrue result ↔ (self.now ≡ other.now) }
    {
        self.cmp(other) == Ordering::Equal
    }
}

impl Eq for Path {
    ghost laws = { eq_by_cmp_equiv path_cmp_total };
}

impl PartialOrd for Path {
    ghost partial_cmp = { as_partial_cmp path_cmp };

    ghost laws = { partial_order_from_agreeing_total path_cmp path_cmp_total
        (Prim.search (comparing, rules)) (Prim.search (comparing, rules)) };

    fn partial_cmp(&self, other: &Path) -> Option<Ordering> {
        Some(self.cmp(other))
    }
}

impl Ord for Path {
    ghost cmp = { path_cmp };

    ghost total = { path_cmp_total };

    ghost matches_partial_cmp = { Prim.search (comparing, rules) };

    ghost matches_eq = { Prim.search (comparing, rules) };

    fn cmp(&self, other: &Path) -> Ordering {
        self.segs.as_slice().cmp(other.segs.as_slice())
    }
}

impl Path {
    ghost use Rattle.acpi_name.specs.NameRefs.{name_parts};

    /// The root, a path without segments.
    pub fn root(alloc: Global) -> Path
        ensures { result ≡ [] }
    {
        Path {
            segs: Vec::new(alloc),
        }
    }

    /// The segments from the root on.
    pub fn segs(&self) -> &[Seg]
        ensures all { result.now ≡ self.now }
        ensures segments { AreSegments self.now }
    {
        &self.segs
    }

    /// Puts a segment at the end. Where memory is refused the path stays as it was.
    pub fn push(&mut self, seg: Seg) -> Result<(), AllocError>
        ensures ok { OnOk result (self.new ≡ self.old ++ seg ∷ []) }
        ensures err { OnErr result (self.new ≡ self.old) }
    {
        self.segs.push(seg)?;
        Ok(())
    }

    /// Takes the last segment, unless the path is the root.
    pub fn pop(&mut self) -> Option<Seg>
        ensures last { result ≡ last_or None self.old }
        ensures parent { self.new ≡ parent_of self.old }
    {
        self.segs.pop()
    }

    /// The number of segments.
    pub fn len(&self) -> usize
        ensures count { result ≡ length self.now }
        ensures small { result < 2 ^ 63 }
    {
        self.segs.len()
    }

    /// Whether the path is the root.
    pub fn is_empty(&self) -> bool
        ensures { IsTrue result ↔ (self.now ≡ []) }
    {
        self.segs.is_empty()
    }

    /// The path of the first `count` segments, in memory for one segment more.
    pub fn beginning(&self, alloc: Global, count: usize) -> Result<Path, AllocError>
        requires { count ≤ length self.now }
        ensures { IfOk result (λ p. p ≡ take count self.now) }
    {
        self.beginning_with_room(alloc, count, 1)
    }

    /// The path of the first `count` segments, in memory for `room` segments more: what is put behind them
    /// takes no memory again.
    pub(crate) fn beginning_with_room(
        &self,
        alloc: Global,
        count: usize,
        room: usize,
    ) -> Result<Path, AllocError>
        requires within { count ≤ length self.now }
        requires small { room < 256 }
        ensures { IfOk result (λ p. p ≡ take count self.now) }
    {
        let _len = self.len();
        let mut segs = Vec::with_capacity(alloc, count + room)?;
        segs.extend_from_slice(&self.segs[..count])?;
        Ok(Path { segs })
    }

    /// Puts the segments of the name at the end.
    pub(crate) fn append(&mut self, name: NameRef<'_>) -> Result<(), AllocError>
        ensures { OnOk result (self.new ≡ self.old ++ (name_parts name.entry).segments) }
    {
        for i in 0..name.len() {
            self.push(name.seg(i))?;
        }
        Ok(())
    }

    /// An equal path with memory of its own.
    pub fn copy(&self) -> Result<Path, AllocError>
        ensures { IfOk result (λ p. p ≡ self.now) }
    {
        Ok(Path {
            segs: self.segs.clone()?,
        })
    }
}
