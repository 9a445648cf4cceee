//! The misses of a body, gathered search after search.

ghost use Rattle.std.specs.Prelude.{◌≡◌, ◌++◌, [], ◌∷◌, IfOk, OnOk, find, is_some, map};
ghost use Rattle.std.specs.List.{filter};
ghost use Rattle.std.specs.FinMap.{get};
ghost use Rattle.acpi_name.specs.NameRefs.{name_parts};
ghost use Rattle.acpi_space.specs.Search.{answer, beginnings, missed, skipped};
ghost use Rattle.acpi_space.specs.Lookups.{is_defined_in};
ghost use Rattle.acpi_body.specs.Arguments.{namespace_of, defined_with};
ghost use Rattle.acpi_body.specs.Misses.{awaited_place};
ghost use Rattle.acpi_body.specs.steps.Gathering.{is_at, with_misses, with_awaited, if_wanted, with_search};

use crate::arguments::{Context, add, nearest};
use acpi_counts::Counts;
use acpi_name::{NameRef, Path, PlaceFault, Seg, place};
use acpi_space::{Refused, SearchFault, Space, TreeSpace, Wanted, wanted_misses};
use acpi_tree::Object;
use std::alloc::AllocError;

/// What was missed so far: the firm paths, and the counts that are awaited.
#[derive(Drop)]
pub(crate) struct Gathered {
    pub(crate) firm: TreeSpace<()>,
    pub(crate) awaited: TreeSpace<u8>,
}

/// What a search tried in vain of the paths that are asked for, the innermost first, and whether it found something
/// then.
#[derive(Drop)]
struct Tried {
    missed: Vec<Path>,
    found: bool,
}

/// The paths that the search of a name in the namespace tries in vain, the innermost first, of those that are asked
/// for. Locals are not laid over.
pub(crate) fn missed<S: Space<Object>, Q: Wanted>(
    context: &Context<'_, S>,
    wanted: &Q,
    name: NameRef<'_>,
) -> Result<Vec<Path>, AllocError>
    ensures { IfOk result (λ v. v.items ≡ filter (Q.wanted wanted.now)
        (missed (is_defined_in (namespace_of context.now.objects)) context.now.method
        (name_parts name.entry))) }
{
    match wanted_misses(
        context.alloc(),
        context.space(),
        context.method(),
        name,
        wanted,
    ) {
        Ok(paths) => Ok(paths),
        Err(SearchFault::AboveRoot) => Ok(Vec::new(context.alloc())),
        Err(SearchFault::Memory) => Err(AllocError),
    }
}

// The search of a plain name, with the locals laid over the namespace.
fn plain_search<S: Space<Object>, Q: Wanted>(
    context: &Context<'_, S>,
    locals: &TreeSpace<()>,
    wanted: &Q,
    seg: Seg,
) -> Result<Tried, AllocError>
    ensures missed { IfOk result (λ t. t.missed.items
        ≡ filter (Q.wanted wanted.now) (skipped
        (defined_with (namespace_of context.now.objects) locals.now)
        (map (λ q. q ++ seg ∷ []) (beginnings context.now.method)))) }
    ensures found { IfOk result (λ t. t.found
        ≡ is_some (find (defined_with (namespace_of context.now.objects) locals.now)
        (map (λ q. q ++ seg ∷ []) (beginnings context.now.method)))) }
{
    let method = context.method();
    let _len = method.len();
    match nearest(context, locals, seg)? {
        Some(depth) => {
            let missed = wanted.below(context.alloc(), method, seg, depth + 1)?;
            Ok(Tried {
                missed,
                found: true,
            })
        }
        None => {
            let missed = wanted.below(context.alloc(), method, seg, 0)?;
            Ok(Tried {
                missed,
                found: false,
            })
        }
    }
}

// The search at one path alone, with the locals laid over the namespace.
fn place_search<S: Space<Object>, Q: Wanted>(
    context: &Context<'_, S>,
    locals: &TreeSpace<()>,
    wanted: &Q,
    path: Path,
) -> Result<Tried, AllocError>
    ensures missed { IfOk result (λ t. t.missed.items
        ≡ filter (Q.wanted wanted.now) (skipped
        (defined_with (namespace_of context.now.objects) locals.now) (path ∷ []))) }
    ensures found { IfOk result (λ t. t.found
        ≡ is_some (find (defined_with (namespace_of context.now.objects) locals.now) (path ∷ []))) }
{
    let found = locals.get(&path).is_some() || context.space().get(&path).is_some();
    let mut missed = Vec::new(context.alloc());
    if !found && wanted.wants(&path) {
        missed.push(path)?;
    }
    Ok(Tried { missed, found })
}

// The search of a name with the locals laid over the namespace.
fn search_with<S: Space<Object>, Q: Wanted>(
    context: &Context<'_, S>,
    locals: &TreeSpace<()>,
    wanted: &Q,
    name: NameRef<'_>,
) -> Result<Tried, AllocError>
    ensures missed { IfOk result (λ t. t.missed.items
        ≡ filter (Q.wanted wanted.now) (missed
        (defined_with (namespace_of context.now.objects) locals.now) context.now.method
        (name_parts name.entry))) }
    ensures found { IfOk result (λ t. t.found
        ≡ is_some (answer (defined_with (namespace_of context.now.objects) locals.now)
        context.now.method (name_parts name.entry))) }
{
    if let Some(seg) = name.plain() {
        return plain_search(context, locals, wanted, seg);
    }
    match place(context.alloc(), context.method(), name) {
        Ok(path) => place_search(context, locals, wanted, path),
        Err(PlaceFault::AboveRoot) => Ok(Tried {
            missed: Vec::new(context.alloc()),
            found: false,
        }),
        Err(PlaceFault::Memory) => Err(AllocError),
    }
}

// The path whose External gives the count of a name, unless something was found.
fn awaited<S: Space<Object>>(
    context: &Context<'_, S>,
    locals: &TreeSpace<()>,
    name: NameRef<'_>,
    found: bool,
) -> Result<Option<Path>, AllocError>
    requires { found
        ≡ is_some (answer (defined_with (namespace_of context.now.objects) locals.now)
        context.now.method (name_parts name)) }
    ensures { IfOk result (λ p. p ≡ awaited_place (namespace_of context.now.objects)
        (get context.now.externals) context.now.method locals.now (name_parts name.entry)) }
{
    if found {
        return Ok(None);
    }
    context
        .counts()
        .find(context.alloc(), context.method(), name)
}

fn is_at(awaited: &Option<Path>, path: &Path) -> bool
    ensures { result ≡ is_at awaited.now path.now }
{
    match awaited {
        Some(awaited) => path == awaited,
        None => false,
    }
}

/// Adds the paths that a search missed, but for the one that it awaits.
pub(crate) fn add_missed(
    firm: &mut TreeSpace<()>,
    awaited: &Option<Path>,
    missed: Vec<Path>,
) -> Result<(), AllocError>
    ensures { OnOk result (firm.new ≡ with_misses awaited.now firm.old missed.items) }
{
    for path in missed {
        if !is_at(awaited, &path) {
            add(firm, path)?;
        }
    }
    Ok(())
}

// Adds the count of a path that is awaited.
fn add_awaited(
    awaited: &mut TreeSpace<u8>,
    counts: &Counts,
    path: Option<Path>,
) -> Result<(), AllocError>
    ensures { OnOk result (awaited.new ≡ with_awaited (get counts.now) awaited.old path) }
{
    let Some(path) = path else {
        return Ok(());
    };
    let count = counts.get(&path).unwrap_or(0);
    match awaited.insert(path, count) {
        Ok(()) => Ok(()),
        Err(Refused::Taken(_)) => Ok(()),
        Err(Refused::Memory(_)) => Err(AllocError),
    }
}

// A path that is asked for.
fn if_wanted<Q: Wanted>(wanted: &Q, path: Option<Path>) -> Option<Path>
    ensures { result ≡ if_wanted (Q.wanted wanted.now) path }
{
    match path {
        Some(path) if wanted.wants(&path) => Some(path),
        _ => None,
    }
}

// Whether a path that the search of a name may try is asked for.
#[tactic(auto, using(crate::proofs::Unasked::asked_below, crate::proofs::Unasked::asked_there))]
fn is_asked<S: Space<Object>, Q: Wanted>(
    context: &Context<'_, S>,
    wanted: &Q,
    name: NameRef<'_>,
) -> Result<bool, AllocError>
    ensures { IfOk result (λ b. b ≡ is_some (answer (Q.wanted wanted.now) context.now.method
        (name_parts name.entry))) }
{
    if let Some(seg) = name.plain() {
        return wanted.wants_below(context.method(), seg);
    }
    match place(context.alloc(), context.method(), name) {
        Ok(path) => Ok(wanted.wants(&path)),
        Err(PlaceFault::AboveRoot) => Ok(false),
        Err(PlaceFault::Memory) => Err(AllocError),
    }
}

/// Gathers what the search of a name in a read body misses of the paths that are asked for, with the locals laid over.
/// Where none of its tries is asked for, neither the namespace nor the Externals are searched.
#[inline(never)]
#[tactic(auto, unfolding(crate::specs::steps::Gathering::with_search))]
pub(crate) fn gather_search<S: Space<Object>, Q: Wanted>(
    context: &Context<'_, S>,
    locals: &TreeSpace<()>,
    wanted: &Q,
    gathered: &mut Gathered,
    name: NameRef<'_>,
) -> Result<(), AllocError>
    ensures { OnOk result (gathered.new ≡ with_search
        (Q.wanted wanted.now) context.now gathered.old (locals.now, name_parts name.entry)) }
{
    if !is_asked(context, wanted, name)? {
        return Ok(());
    }
    let tried = search_with(context, locals, wanted, name)?;
    let awaited = awaited(context, locals, name, tried.found)?;
    add_missed(&mut gathered.firm, &awaited, tried.missed)?;
    add_awaited(
        &mut gathered.awaited,
        context.counts(),
        if_wanted(wanted, awaited),
    )
}
