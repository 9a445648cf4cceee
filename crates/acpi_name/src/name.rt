//! Names as they are written: rooted or not, a number of parents to go up, and segments.

ghost use Rattle.acpi_name.specs.Names.{AreSegments, IsName, plain_segment};
ghost use Rattle.std.specs.Prelude.{◌≡◌, ◌<◌, ◌^◌, [], length, slice_get, Some, IsTrue, ◌↔◌, IfOk, true, false};
ghost use Rattle.acpi_name.specs.NameEqual.{name_eq};
ghost use Rattle.acpi_name.specs.steps.NameOrder.{name_eq_equiv};
ghost use Rattle.std.specs.Cmp.{partial_equiv_from_equiv};

use crate::seg::Seg;
use std::alloc::{AllocError, Global};
use std::marker::Model;
use std::slice::from_ref;

/// A name, lent from the bytes that spell it (ACPI 6.5, 20.2.2 NameString).
#[derive(Debug, Clone, Copy)]
pub struct NameRef<'a> {
    rooted: bool,
    parents: u8,
    segs: &'a [[u8; 4]],
    ghost is_name: { IsName record { rooted = rooted; parents = parents; segments = segs.now } },
}

impl<'a> NameRef<'a> {
    ghost use Rattle.acpi_name.specs.NameRefs.{name_parts};

    /// The name of these parts.
    pub(crate) fn of_parts(rooted: bool, parents: u8, segs: &'a [[u8; 4]]) -> NameRef<'a>
        requires { IsName record { rooted = rooted; parents = parents; segments = segs.now } }
        ensures { name_parts result ≡ record {
          rooted = rooted;
          parents = parents;
          segments = segs.now;
        } }
    {
        NameRef {
            rooted,
            parents,
            segs,
        }
    }

    /// Whether the name begins at the root.
    pub fn rooted(&self) -> bool
        ensures { result ≡ (name_parts self.now).rooted }
    {
        self.rooted
    }

    /// How many parents the name goes up before its segments.
    pub fn parents(&self) -> usize
        ensures count { result ≡ (name_parts self.now).parents }
        ensures few { result < 256 }
    {
        self.parents as usize
    }

    /// The number of segments.
    pub fn len(&self) -> usize
        ensures count { result ≡ length (name_parts self.now).segments }
        ensures few { result < 256 }
    {
        self.segs.len()
    }

    /// Whether the name has no segments.
    pub fn is_empty(&self) -> bool
        ensures { IsTrue result ↔ ((name_parts self.now).segments ≡ []) }
    {
        self.segs.is_empty()
    }

    /// The segment at index `i`.
    pub fn seg(&self, i: usize) -> Seg
        requires { i < length (name_parts self.now).segments }
        ensures { slice_get (name_parts self.now).segments i ≡ Some result }
    {
        Seg::of_checked(self.segs[i])
    }

    /// The segments, four bytes each.
    pub(crate) fn chunks(self) -> &'a [[u8; 4]]
        ensures all { result.now ≡ (name_parts self.entry).segments }
        ensures segments { AreSegments (name_parts self.entry).segments }
        ensures few { length result.now < 256 }
    {
        self.segs
    }

    /// The segment of a plain name: not rooted, no parents, one segment. Only such a name is searched
    /// for in the scopes around it (ACPI 6.5, 5.3).
    pub fn plain(&self) -> Option<Seg>
        ensures { result ≡ plain_segment (name_parts self.now) }
    {
        if self.rooted || self.parents != 0 {
            return None;
        }
        match self.segs {
            [seg] => Some(Seg::of_checked(*seg)),
            _ => None,
        }
    }

    /// The same name, with memory of its own.
    pub fn own(self, alloc: Global) -> Result<Name, AllocError>
        ensures { IfOk result (λ n. n ≡ name_parts self.entry) }
    {
        let kept = match self.segs {
            [seg] => Kept::Single {
                rooted: self.rooted,
                parents: self.parents,
                seg: *seg,
            },
            segs => Kept::Apart(Box::new(
                alloc,
                Parts {
                    rooted: self.rooted,
                    parents: self.parents,
                    segs: Vec::from_slice(alloc, segs)?,
                },
            )?),
        };
        Ok(Name { kept })
    }
}

// The parts of a name, as its shortest spelling has them.
#[derive(Debug, Drop)]
struct Parts {
    rooted: bool,
    parents: u8,
    segs: Vec<[u8; 4]>,
}

// How a name keeps its parts.
#[derive(Debug, Drop)]
enum Kept {
    // Those of a name with one segment.
    Single {
        rooted: bool,
        parents: u8,
        seg: [u8; 4],
    },
    // Those of any other.
    Apart(Box<Parts>),
}

/// A name that owns its segments. One with a single segment, as most names have, takes no memory beside itself; the
/// parts of any other stand apart, so that whatever has a name is small.
#[derive(Debug, Drop)]
pub struct Name {
    kept: Kept,
}

impl Model for Name {
    ghost use Rattle.acpi_name.specs.Names.{NameParts, IsName};
    ghost use Rattle.acpi_name.specs.steps.NameKept.{parts_of};

    ghost Value = { NameParts };

    ghost view = { λ n. parts_of n.kept };

    ghost invariant = { λ n. IsName (parts_of n.kept) };
}

impl PartialEq for Name {
    ghost eq = { name_eq };

    ghost laws = { partial_equiv_from_equiv name_eq_equiv };

    fn eq(&self, other: &Name) -> bool
        ensures test { result ≡ name_eq self.now other.now }
        ensures same { IsTrue result ↔ (self.now ≡ other.now) }
    {
        let (one, other) = (self.view(), other.view());
        one.rooted == other.rooted && one.parents == other.parents && one.segs == other.segs
    }
}

impl Eq for Name {
    ghost laws = { name_eq_equiv };
}

impl Name {
    ghost use Rattle.acpi_name.specs.NameRefs.{name_parts};

    /// The name, lent.
    pub fn view(&self) -> NameRef<'_>
        ensures parts { name_parts result ≡ self.now }
        ensures is_name { IsName self.now }
    {
        match &self.kept {
            Kept::Single {
                rooted,
                parents,
                seg,
            } => NameRef {
                rooted: *rooted,
                parents: *parents,
                segs: from_ref(seg),
            },
            Kept::Apart(parts) => NameRef {
                rooted: parts.rooted,
                parents: parts.parents,
                segs: &parts.segs,
            },
        }
    }

    /// An equal name with memory of its own.
    pub fn copy(&self) -> Result<Name, AllocError>
        ensures { IfOk result (λ n. n ≡ self.now) }
    {
        let kept = match &self.kept {
            Kept::Single {
                rooted,
                parents,
                seg,
            } => Kept::Single {
                rooted: *rooted,
                parents: *parents,
                seg: *seg,
            },
            Kept::Apart(parts) => Kept::Apart(Box::new(
                *Box::allocator(parts),
                Parts {
                    rooted: parts.rooted,
                    parents: parts.parents,
                    segs: parts.segs.clone()?,
                },
            )?),
        };
        Ok(Name { kept })
    }
}
