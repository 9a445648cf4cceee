//! The paths of all objects, in one list of segments.

ghost use Rattle.std.specs.Prelude.{◌≡◌, ◌<◌, ◌++◌, ◌∷◌, [], length, slice_get, OnOk, Some};

use acpi_name::Seg;
use std::alloc::{AllocError, Global};
use std::marker::Model;

// Where the segments of a path stand among those of all paths.
#[derive(Clone, Copy)]
struct Span {
    begin: usize,
    end: usize,
}

/// Paths in their order. Their segments stand in one list, so that no path takes memory of its own.
#[derive(Drop)]
pub(crate) struct Paths {
    segs: Vec<Seg>,
    spans: Vec<Span>,
}

impl Model for Paths {
    ghost use Rattle.std.specs.Prelude.{List};
    ghost use Rattle.std.specs.Coded.{coded_ℕ, coded_list};
    ghost use Rattle.acpi_name.specs.Names.{Segment};

    ghost Value = { List (List Segment) };

    ghost coded = { coded_list (coded_list (coded_list coded_ℕ)) };

    ghost use Rattle.acpins_records.specs.steps.Spans.{AreSpans, paths_of_spans};

    ghost view = { paths_of_spans };

    ghost invariant = { AreSpans };
}

impl Paths {
    /// No paths.
    pub(crate) fn new(alloc: Global) -> Paths
        ensures { result ≡ [] }
    {
        Paths {
            segs: Vec::new(alloc),
            spans: Vec::new(alloc),
        }
    }

    /// How many there are.
    pub(crate) fn len(&self) -> usize
        ensures { result ≡ length self.now }
    {
        self.spans.len()
    }

    /// The segments of the path at a place.
    pub(crate) fn at(&self, place: usize) -> &[Seg]
        requires { place < length self.now }
        ensures { slice_get self.now place ≡ Some result.now }
    {
        let span = self.spans[place];
        &self.segs[span.begin..span.end]
    }

    /// Puts a path behind the others.
    pub(crate) fn put(&mut self, segs: &[Seg]) -> Result<(), AllocError>
        ensures { OnOk result (self.new ≡ self.old ++ segs.now ∷ []) }
    {
        let begin = self.segs.len();
        self.segs.extend_from_slice(segs)?;
        let end = self.segs.len();
        self.spans.push(Span { begin, end })?;
        Ok(())
    }
}
