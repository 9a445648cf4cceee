//! How many values follow a name.

ghost use Rattle.std.specs.Prelude.{◌≡◌, ◌≤◌, ◌<◌, ◌++◌, ◌∷◌, [], IfOk, OnOk, Some, None, length, take};
ghost use Rattle.std.specs.Option.{option_map};
ghost use Rattle.acpi_name.specs.NameRefs.{name_parts};
ghost use Rattle.acpi_name.specs.Names.{plain_segment};
ghost use Rattle.acpi_space.specs.Spaces.{is_defined};
ghost use Rattle.acpi_space.specs.Search.{nearest_scope};
ghost use Rattle.acpi_name.specs.Paths.{place_of};
ghost use Rattle.acpi_body.specs.Arguments.{namespace_of, args_there, with_path, defined_with, expected_at, expected_place};
ghost use Rattle.std.specs.FinMap.{get};
ghost use Rattle.acpi_body.specs.steps.Setting.{grammar_of, count_in, deeper};

use crate::counting::MethodCounting;
use acpi_counts::Counts;
use acpi_name::{NameRef, Path, PlaceFault, Seg, place};
use acpi_space::{Refused, Space, TreeSpace};
use acpi_tree::Object;
use std::alloc::{AllocError, Global};
use std::marker::Model;

/// What a body of the strict loader is read against: a namespace, what the table's Externals say, and the method's
/// path.
#[derive(Drop)]
pub(crate) struct Context<'a, S: Space<Object>> {
    alloc: Global,
    space: &'a S,
    counts: &'a Counts,
    method: &'a Path,
}

impl<'a, S: Space<Object>> Model for Context<'a, S> {
    ghost use Rattle.acpi_body.specs.steps.Setting.{Setting, setting_code};

    ghost Value = { Setting };

    ghost coded = { setting_code };

    ghost view = { λ c. record {
      objects = S.contents c.space.now;
      externals = c.counts.now;
      method = c.method.now;
    } };
}

impl<'a, S: Space<Object>> Context<'a, S> {
    pub(crate) fn new(
        alloc: Global,
        space: &'a S,
        counts: &'a Counts,
        method: &'a Path,
    ) -> Context<'a, S>
        ensures { result ≡ record {
          objects = S.contents space.now;
          externals = counts.now;
          method = method.now;
        } }
    {
        Context {
            alloc,
            space,
            counts,
            method,
        }
    }

    pub(crate) fn alloc(&self) -> Global {
        self.alloc
    }

    pub(crate) fn space(&self) -> &'a S
        ensures { S.contents result.now ≡ self.now.objects }
    {
        self.space
    }

    pub(crate) fn counts(&self) -> &'a Counts
        ensures { result.now ≡ self.now.externals }
    {
        self.counts
    }

    pub(crate) fn method(&self) -> &'a Path
        ensures { result.now ≡ self.now.method }
    {
        self.method
    }
}

impl<'a, S: Space<Object>> MethodCounting for Context<'a, S> {
    ghost grammar = { grammar_of };

    ghost method = { λ c. c.method };

    fn alloc(&self) -> Global {
        self.alloc
    }

    fn method(&self) -> &Path {
        self.method
    }

    fn count(&self, locals: &TreeSpace<()>, name: NameRef<'_>) -> Result<Option<u8>, AllocError> {
        Ok(Some(count(self, locals, name)?))
    }

    fn loads(&self) -> bool {
        false
    }
}

/// Adds the path, if it isn't there.
pub(crate) fn add(locals: &mut TreeSpace<()>, path: Path) -> Result<(), AllocError>
    ensures { OnOk result (locals.new ≡ with_path locals.old path) }
{
    match locals.insert(path, ()) {
        Ok(()) => Ok(()),
        Err(Refused::Taken(())) => Ok(()),
        Err(Refused::Memory(())) => Err(AllocError),
    }
}

fn args_there<S: Space<Object>>(space: &S, locals: &TreeSpace<()>, path: &Path) -> u8
    ensures { result ≡ args_there (namespace_of (S.contents space.now)) locals.now path.now }
{
    if locals.get(path).is_some() {
        return 0;
    }
    match space.get(path) {
        Some(object) => object.args(),
        None => 0,
    }
}

fn expected<S: Space<Object>>(context: &Context<'_, S>, name: NameRef<'_>) -> Result<u8, AllocError>
    ensures { IfOk result (λ n. n ≡ expected_at (get context.now.externals)
        (expected_place (get context.now.externals) context.now.method (name_parts name.entry))) }
{
    match context
        .counts()
        .find(context.alloc(), context.method(), name)?
    {
        Some(path) => match context.counts().get(&path) {
            Some(count) => Ok(count),
            None => Ok(0),
        },
        None => Ok(0),
    }
}

/// The length of the longest beginning of the method's path below which the segment is a local or an object.
pub(crate) fn nearest<S: Space<Object>>(
    context: &Context<'_, S>,
    locals: &TreeSpace<()>,
    seg: Seg,
) -> Result<Option<usize>, AllocError>
    ensures { IfOk result (λ n. n ≡ option_map length
        (nearest_scope (defined_with (namespace_of context.now.objects) locals.now)
        context.now.method seg)) }
{
    let method = context.method();
    let space = context.space();
    let local = locals.nearest(method, seg)?;
    let object = space.nearest(method, seg)?;
    Ok(deeper(local, object))
}

fn deeper(first: Option<usize>, second: Option<usize>) -> Option<usize>
    ensures { result ≡ deeper first second }
{
    match (first, second) {
        (Some(a), Some(b)) => Some(if a < b { b } else { a }),
        (Some(a), None) => Some(a),
        (None, b) => b,
    }
}

#[tactic(auto, unfolding(crate::specs::steps::Setting::count_in))]
fn plain_count<S: Space<Object>>(
    context: &Context<'_, S>,
    locals: &TreeSpace<()>,
    name: NameRef<'_>,
    seg: Seg,
) -> Result<u8, AllocError>
    requires { plain_segment (name_parts name) ≡ Some seg }
    ensures { IfOk result (λ n. n ≡ count_in context.now locals.now (name_parts name.entry)) }
{
    let method = context.method();
    match nearest(context, locals, seg)? {
        None => {
            let count = expected(context, name)?;
            Ok(count)
        }
        Some(depth) => {
            let mut path = method.beginning(context.alloc(), depth)?;
            path.push(seg)?;
            Ok(args_there(context.space(), locals, &path))
        }
    }
}

#[tactic(auto, unfolding(crate::specs::steps::Setting::count_in))]
fn placed_count<S: Space<Object>>(
    context: &Context<'_, S>,
    locals: &TreeSpace<()>,
    name: NameRef<'_>,
    path: &Path,
) -> Result<u8, AllocError>
    requires plain { plain_segment (name_parts name) ≡ None }
    requires place { place_of context.now.method (name_parts name) ≡ Some path.now }
    ensures { IfOk result (λ n. n ≡ count_in context.now locals.now (name_parts name.entry)) }
{
    if locals.get(path).is_some() || context.space().get(path).is_some() {
        return Ok(args_there(context.space(), locals, path));
    }
    expected(context, name)
}

/// How many values follow the name, which is always sure. It has a frame of its own, so that a level of calls costs
/// less stack.
#[tactic(auto, unfolding(crate::specs::steps::Setting::count_in))]
#[inline(never)]
fn count<S: Space<Object>>(
    context: &Context<'_, S>,
    locals: &TreeSpace<()>,
    name: NameRef<'_>,
) -> Result<u8, AllocError>
    ensures { IfOk result (λ n. n ≡ count_in context.now locals.now (name_parts name.entry)) }
{
    if let Some(seg) = name.plain() {
        return plain_count(context, locals, name, seg);
    }
    match place(context.alloc(), context.method(), name) {
        Ok(path) => placed_count(context, locals, name, &path),
        Err(PlaceFault::AboveRoot) => Ok(0),
        Err(PlaceFault::Memory) => Err(AllocError),
    }
}
