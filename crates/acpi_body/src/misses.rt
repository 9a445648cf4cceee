//! What a method body searches in vain.

ghost use Rattle.std.specs.Prelude.{◌≡◌, ◌↔◌, ℕ, List, IfOk, Some, IsTrue, map};
ghost use Rattle.std.specs.FinMap as finite;
ghost use Rattle.std.specs.List.Sorted.{IsStrictlySortedBy};
ghost use Rattle.acpi_name.specs.Names.{Segment};
ghost use Rattle.acpi_name.specs.Paths.{path_cmp};
ghost use Rattle.acpi_space.specs.Spaces.{is_defined};
ghost use Rattle.acpi_space.specs.Laws.{Among};
ghost use Rattle.acpi_tree.specs.TermView.{terms_tree};
ghost use Rattle.acpi_body.specs.Arguments.{namespace_of};
ghost use Rattle.acpi_body.specs.Bodies.{body_view};
ghost use Rattle.acpi_body.specs.Misses.{IsMissedIn, IsMissedBy, IsAwaitedIn, IsFirmMiss, IsOpenMiss};

use crate::arguments::Context;
use crate::body::Body;
use crate::gathered::Gathered;
use crate::searched::statements;
use crate::spelled::add_spelled;
use acpi_counts::Counts;
use acpi_name::Path;
use acpi_space::{AllPaths, PathsOf, Space, TreeSpace, Wanted};
use acpi_tree::{Object, Term};
use std::alloc::{AllocError, Global};

/// A path at which a body awaits a method, as an External of the body's table says.
#[derive(Debug, Drop)]
pub struct OpenMiss {
    /// The path that the External declares.
    pub path: Path,
    /// How many arguments the method takes, 0 to 7.
    pub count: u8,
}

/// The paths that a body searches in vain (ACPI 6.5, 5.3), each list in the order of the paths and without repeats.
#[derive(Debug, Drop)]
pub struct BodyMisses {
    /// The paths at which any object, once declared, may change what the body means.
    pub firm: Vec<Path>,
    /// Those at which only a method of so many arguments leaves the body as it is.
    pub open: Vec<OpenMiss>,
}

fn none(alloc: Global) -> Gathered
    ensures { result ≡ record { firm = finite.empty; awaited = finite.empty } }
{
    Gathered {
        firm: TreeSpace::new(alloc),
        awaited: TreeSpace::new(alloc),
    }
}

// What a read body misses of the paths that are asked for.
fn gather_terms<S: Space<Object>, Q: Wanted>(
    context: &Context<'_, S>,
    wanted: &Q,
    terms: &[Term],
) -> Result<Gathered, AllocError>
    ensures firm { IfOk result (λ g. (p : List Segment) → IsTrue (is_defined g.firm p)
        ↔ (IsMissedIn (namespace_of context.now.objects)
        (finite.get context.now.externals) context.now.method (terms_tree terms.now) p
        × IsTrue (Q.wanted wanted.now p))) }
    ensures awaited { IfOk result (λ g. (p : List Segment) (count : ℕ)
        → (finite.get g.awaited p ≡ Some count)
        ↔ (IsAwaitedIn (namespace_of context.now.objects)
        (finite.get context.now.externals) context.now.method (terms_tree terms.now) p count
        × IsTrue (Q.wanted wanted.now p))) }
{
    let mut gathered = none(context.alloc());
    let mut locals = TreeSpace::new(context.alloc());
    statements(context, &mut locals, wanted, &mut gathered, terms)?;
    Ok(gathered)
}

// What an opaque body misses of the paths that are asked for.
fn gather_bytes<S: Space<Object>, Q: Wanted>(
    context: &Context<'_, S>,
    wanted: &Q,
    bytes: &[u8],
) -> Result<Gathered, AllocError>
    ensures firm { IfOk result (λ g. (p : List Segment) → IsTrue (is_defined g.firm p)
        ↔ (IsMissedBy (namespace_of context.now.objects) context.now.method bytes.now p
        × IsTrue (Q.wanted wanted.now p))) }
    ensures awaited { IfOk result (λ g. (p : List Segment) (count : ℕ)
        → (finite.get g.awaited p ≡ Some count) ↔ ⊥) }
{
    let mut gathered = none(context.alloc());
    add_spelled(context, wanted, &mut gathered.firm, bytes)?;
    Ok(gathered)
}

fn gather<S: Space<Object>, Q: Wanted>(
    context: &Context<'_, S>,
    wanted: &Q,
    body: &Body,
) -> Result<Gathered, AllocError>
    ensures firm { IfOk result (λ g. (p : List Segment) → IsTrue (is_defined g.firm p)
        ↔ (IsFirmMiss (namespace_of context.now.objects)
        (finite.get context.now.externals) context.now.method (body_view body.now) p
        × IsTrue (Q.wanted wanted.now p))) }
    ensures awaited { IfOk result (λ g. (p : List Segment) (count : ℕ)
        → (finite.get g.awaited p ≡ Some count)
        ↔ (IsOpenMiss (namespace_of context.now.objects)
        (finite.get context.now.externals) context.now.method (body_view body.now) p count
        × IsTrue (Q.wanted wanted.now p))) }
{
    match body {
        Body::Terms(terms) => gather_terms(context, wanted, terms),
        Body::Opaque(bytes) => gather_bytes(context, wanted, bytes),
    }
}

fn paths_of(alloc: Global, paths: &TreeSpace<()>) -> Result<Vec<Path>, AllocError>
    ensures { IfOk result (λ v. v.items ≡ finite.keys paths.now) }
{
    let mut list = Vec::new(alloc);
    for (path, _) in paths.pairs()? {
        list.push(path)?;
    }
    Ok(list)
}

fn open_misses_of(alloc: Global, counts: &TreeSpace<u8>) -> Result<Vec<OpenMiss>, AllocError>
    ensures { IfOk result (λ v. map (λ m. (m.path, m.count)) v.items ≡ finite.entries counts.now) }
{
    let mut list = Vec::new(alloc);
    for (path, count) in counts.pairs()? {
        list.push(OpenMiss {
            path,
            count: *count,
        })?;
    }
    Ok(list)
}

/// What the body of a method searches in vain. In a read body each name is searched that stands for a value or a
/// statement, with the locals before it laid over; in an opaque body each name that is spelled at any place of its
/// bytes.
///
/// A name of a read body that is found nowhere, and whose argument count an External gave, awaits a method: the path of
/// that External is an open miss. Every other path that was tried is firm; one may be both, by two names.
pub fn body_misses<S: Space<Object>>(
    alloc: Global,
    space: &S,
    method: &Path,
    body: &Body,
    counts: &Counts,
) -> Result<BodyMisses, AllocError>
    ensures firm { IfOk result (λ m. (p : List Segment) → Among m.firm.items p
        ↔ IsFirmMiss (namespace_of (S.contents space.now)) (finite.get counts.now) method.now
        (body_view body.now) p) }
    ensures firm_ascend { IfOk result (λ m. IsStrictlySortedBy path_cmp m.firm.items) }
    ensures open { IfOk result (λ m. (p : List Segment) (count : ℕ)
        → Among m.open.items (record { path = p; count = count })
        ↔ IsOpenMiss (namespace_of (S.contents space.now)) (finite.get counts.now) method.now
        (body_view body.now) p count) }
    ensures open_ascend { IfOk result (λ m. IsStrictlySortedBy path_cmp
        (map (λ o. o.path) m.open.items)) }
{
    misses_of(&Context::new(alloc, space, counts, method), &AllPaths, body)
}

/// What the body of a method searches in vain, as `body_misses` tells it, of the paths that another space has.
pub fn body_misses_among<S: Space<Object>, W, T: Space<W>>(
    alloc: Global,
    space: &S,
    method: &Path,
    body: &Body,
    counts: &Counts,
    among: &T,
) -> Result<BodyMisses, AllocError>
    ensures firm { IfOk result (λ m. (p : List Segment) → Among m.firm.items p
        ↔ (IsFirmMiss (namespace_of (S.contents space.now)) (finite.get counts.now) method.now
        (body_view body.now) p × IsTrue (is_defined (T.contents among.now) p))) }
    ensures firm_ascend { IfOk result (λ m. IsStrictlySortedBy path_cmp m.firm.items) }
    ensures open { IfOk result (λ m. (p : List Segment) (count : ℕ)
        → Among m.open.items (record { path = p; count = count })
        ↔ (IsOpenMiss (namespace_of (S.contents space.now)) (finite.get counts.now) method.now
        (body_view body.now) p count × IsTrue (is_defined (T.contents among.now) p))) }
    ensures open_ascend { IfOk result (λ m. IsStrictlySortedBy path_cmp
        (map (λ o. o.path) m.open.items)) }
{
    let context = Context::new(alloc, space, counts, method);
    misses_of(&context, &PathsOf::new(among), body)
}

fn listed(alloc: Global, gathered: &Gathered) -> Result<BodyMisses, AllocError>
    ensures firm { IfOk result (λ m. m.firm.items ≡ finite.keys gathered.now.firm) }
    ensures open { IfOk result (λ m. map (λ o. (o.path, o.count)) m.open.items
        ≡ finite.entries gathered.now.awaited) }
{
    let firm = paths_of(alloc, &gathered.firm)?;
    let open = open_misses_of(alloc, &gathered.awaited)?;
    Ok(BodyMisses { firm, open })
}

// What a body misses of the paths that are asked for.
fn misses_of<S: Space<Object>, Q: Wanted>(
    context: &Context<'_, S>,
    wanted: &Q,
    body: &Body,
) -> Result<BodyMisses, AllocError>
    ensures firm { IfOk result (λ m. (p : List Segment) → Among m.firm.items p
        ↔ (IsFirmMiss (namespace_of context.now.objects)
        (finite.get context.now.externals) context.now.method (body_view body.now) p
        × IsTrue (Q.wanted wanted.now p))) }
    ensures firm_ascend { IfOk result (λ m. IsStrictlySortedBy path_cmp m.firm.items) }
    ensures open { IfOk result (λ m. (p : List Segment) (count : ℕ)
        → Among m.open.items (record { path = p; count = count })
        ↔ (IsOpenMiss (namespace_of context.now.objects)
        (finite.get context.now.externals) context.now.method (body_view body.now) p count
        × IsTrue (Q.wanted wanted.now p))) }
    ensures open_ascend { IfOk result (λ m. IsStrictlySortedBy path_cmp
        (map (λ o. o.path) m.open.items)) }
{
    let gathered = gather(context, wanted, body)?;
    listed(context.alloc(), &gathered)
}
