//! The names in a node, and where they may be found.

ghost use Rattle.std.specs.Prelude.{◌≡◌, ◌==◌, ◌++◌, ◌∷◌, [], is_none, map, slice_get, IfOk, OnOk};
ghost use Rattle.std.specs.List.{find};
ghost use Rattle.std.specs.List.Sorted.{IsNonDecreasingBy};
ghost use Rattle.std.specs.Option.{option_and_then, option_copied, option_map};
ghost use Rattle.acpi_outline.specs.View.{fixed_view, node_view};
ghost use Rattle.acpi_name.specs.NameRefs.{name_parts};
ghost use Rattle.acpi_conditions.specs.Known.{candidates, is_certain_name};
ghost use Rattle.acpi_conditions.specs.Met.{numbers_beyond};
ghost use Rattle.acpi_conditions.specs.Turns.{turn_of};
ghost use Rattle.acpi_conditions.specs.Views.{seen_by_way};
ghost use Rattle.acpi_survey.specs.Survey.{place_in};
ghost use Rattle.acpi_survey.specs.SourceViews.{source_of};
ghost use Rattle.acpi_survey.specs.Reading.{AliasSource as SourceParts};
ghost use Rattle.acpi_survey.specs.SurveyOrder.{IsInOrder};
ghost use Rattle.acpi_survey.specs.declared.remarks.AliasSource.{AliasSource as SourceForm};
ghost use Rattle.acpi_ranges.specs.Ranges.{has_scope, scope_inside as scope_in};
ghost use Rattle.acpi_ranges.specs.steps.Indexes.{index_entered, index_refusals};
ghost use Rattle.acpi_ranges.specs.steps.PlacedItems.{if_there};
ghost use Rattle.acpi_entries.specs.ConditionViews.{link_view};
ghost use Rattle.acpi_uses.specs.UseViews.{use_view};
ghost use Rattle.acpi_locals.specs.BodyNames.{last_path};
ghost use Rattle.acpi_module_uses.specs.ModuleNames.{alias_link, is_method_at, link_in, name_at, names_at, seen_link, target_link, view_from};
ghost use Rattle.acpi_module_uses.specs.NameViews.{name_views};
ghost use Rattle.acpi_module_uses.specs.steps.Steps.{here_view, setting_by, view_along};

use acpi_conditions::{Candidates, SeenAlong, Turn, copy_paths};
use acpi_entries::Link;
use acpi_locals::Callables;
use acpi_name::{Name, NameRef, Path};
use acpi_node_uses::uses_of_node;
use acpi_outline::{Fixed, Node, Plain};
use acpi_ranges::PlaceIndex;
use acpi_survey::{AliasSource, Survey, place_in};
use acpi_uses::{NameUse, Role};
use std::alloc::{AllocError, Global};

/// A name that stands at module level.
#[derive(Debug, Drop)]
pub struct ModuleName<'a> {
    /// The name, and where it may be found.
    pub link: Link<'a>,
    /// How it stands there.
    pub role: Role,
    /// Whether it means a method.
    pub is_method: bool,
    /// Where its node stands: the table's number times 2^64, and the number of bytes of the table's code before it.
    pub place: u128,
}

/// What the names of a table are looked up in.
#[derive(Clone, Copy)]
pub(crate) struct Lookup<'s, 'p> {
    /// The survey.
    pub survey: &'s Survey,
    /// What is entered and refused, by place.
    pub index: &'s PlaceIndex<'p>,
    /// Which entries mean a method.
    pub callables: &'s Callables,
    /// The number of the table.
    pub table: usize,
}

/// A node, and where it stands.
#[derive(Clone, Copy)]
pub(crate) struct Here<'s, 't, 'a> {
    /// The path of the scope around.
    pub scope: &'s Path,
    /// The turns by which control comes to the node.
    pub turns: &'t [Turn],
    /// The place of the node in the code.
    pub place: usize,
    /// The node.
    pub node: &'a Node,
}

// ---- scopes

fn has_scope(fixed: &Fixed) -> bool
    ensures { result ≡ has_scope (fixed_view fixed.now) }
{
    match fixed {
        Fixed::Scope(_) => true,
        Fixed::Device(_) => true,
        Fixed::Processor(_, _, _, _) => true,
        Fixed::Power(_, _, _) => true,
        Fixed::Thermal(_) => true,
        _ => false,
    }
}

/// The scope inside the package at a place, which stands in a scope.
pub(crate) fn scope_inside(
    lookup: &Lookup<'_, '_>,
    fixed: &Fixed,
    place: usize,
    scope: &Path,
) -> Result<Path, AllocError>
    ensures { IfOk result (λ p. p ≡ scope_in
        (index_entered lookup.now.index.now lookup.now.table) place (fixed_view fixed.now)
        scope.now) }
{
    if !has_scope(fixed) {
        return scope.copy();
    }
    match lookup.index.path_at(lookup.table, place) {
        Some(path) => path.copy(),
        None => scope.copy(),
    }
}

// ---- Aliases

// The Alias of that number, if it stands at the place.
fn source_numbered(sources: &[AliasSource], number: usize, place: u128) -> Option<&AliasSource>
    ensures { option_copied result ≡ option_and_then
        (if_there (λ (s : SourceForm). s.place) place) (slice_get sources.now number) }
{
    let source = sources.get(number)?;
    if source.place == place {
        Some(source)
    } else {
        None
    }
}

fn first_at(sources: &[AliasSource], place: u128) -> Option<&AliasSource>
    ensures { IsNonDecreasingBy (λ (s : SourceForm). s.place) sources.now
        → option_copied result ≡ find (λ (s : SourceForm). s.place == place) sources.now }
{
    let count = sources.partition_point(|s| s.place < place);
    source_numbered(sources, count, place)
}

// The Alias at a place.
fn source_at(sources: &[AliasSource], place: u128) -> Option<&AliasSource>
    ensures { IsNonDecreasingBy (λ (s : SourceParts). s.place) (map source_of sources.now)
        → option_map (λ s. source_of s.now) result
        ≡ find (λ (s : SourceParts). s.place == place) (map source_of sources.now) }
{
    first_at(sources, place)
}

// ---- links

// Where the source of the Alias at a place was found.
fn alias_link<'n>(
    lookup: &Lookup<'_, '_>,
    place: u128,
    name: &'n Name,
) -> Result<Link<'n>, AllocError>
    ensures { IsInOrder lookup.now.survey.now → IfOk result (λ l. link_view l ≡ alias_link name.now
        (find (λ (s : SourceParts). s.place == place) lookup.now.survey.now.reading.sources)) }
{
    let alloc = lookup.survey.memory();
    match source_at(lookup.survey.sources(), place) {
        Some(source) => Ok(Link {
            name,
            paths: copy_paths(alloc, &source.found.paths)?,
            is_certain: source.found.is_certain,
        }),
        None => Ok(Link {
            name,
            paths: Vec::new(alloc),
            is_certain: false,
        }),
    }
}

// The target of the Scope at a place of the code.
fn target_link<'n>(
    lookup: &Lookup<'_, '_>,
    place: usize,
    name: &'n Name,
) -> Result<Link<'n>, AllocError>
    ensures { IfOk result (λ l. link_view l ≡ target_link name.now
        (index_entered lookup.now.index.now lookup.now.table place)) }
{
    let mut paths = Vec::new(lookup.survey.memory());
    if let Some(target) = lookup.index.path_at(lookup.table, place) {
        paths.push(target.copy()?)?;
    }
    Ok(Link {
        name,
        paths,
        is_certain: true,
    })
}

// Where a name may be found from a scope, as it is seen behind all tables where control came by these turns.
fn find_along<'t>(
    survey: &'t Survey,
    turns: &'t [Turn],
    scope: &Path,
    name: NameRef<'_>,
) -> Result<Candidates, AllocError>
    ensures paths { IfOk result (λ c. c.paths.items ≡ candidates
        (seen_by_way (view_along survey.now turns.now)) scope.now (name_parts name.entry)) }
    ensures certain { IfOk result (λ c. c.is_certain ≡ is_certain_name
        (seen_by_way (view_along survey.now turns.now)) scope.now (name_parts name.entry)) }
{
    let entries = survey.entries();
    let seen = SeenAlong::new(entries.paths, entries.ways, turns);
    seen.find(survey.memory(), scope, name)
}

// The numbers of the entries at a path that control may have met which came by these turns.
fn numbers_along<'t>(
    survey: &'t Survey,
    turns: &'t [Turn],
    path: &Path,
) -> Result<Vec<usize>, AllocError>
    ensures { IfOk result (λ v. v.items ≡ numbers_beyond (map turn_of turns.now) path.now 0
        survey.now.reading.walk.entries) }
{
    let entries = survey.entries();
    let seen = SeenAlong::new(entries.paths, entries.ways, turns);
    seen.numbers_at(survey.memory(), path)
}

fn seen_link<'n>(
    lookup: &Lookup<'_, '_>,
    here: Here<'_, '_, '_>,
    name: &'n Name,
) -> Result<Link<'n>, AllocError>
    ensures { IfOk result (λ l. link_view l ≡ seen_link
        (view_from (setting_by lookup.now) (here_view here.entry)) here.entry.scope.now name.now) }
{
    let found = find_along(lookup.survey, here.turns, here.scope, name.view())?;
    Ok(Link {
        name,
        paths: found.paths,
        is_certain: found.is_certain,
    })
}

// Where a name in a node may be found.
fn link_of<'n>(
    lookup: &Lookup<'_, '_>,
    here: Here<'_, '_, '_>,
    name: &'n Name,
) -> Result<Link<'n>, AllocError>
    ensures { IsInOrder lookup.now.survey.now → IfOk result (λ l. link_view l ≡ link_in
        (setting_by lookup.now) (here_view here.entry) (node_view here.entry.node.now) name.now) }
{
    match here.node {
        Node::Holds(Fixed::Scope(_), _) => target_link(lookup, here.place, name),
        Node::Plain(Plain::Alias(_, _)) => {
            alias_link(lookup, place_in(lookup.table, here.place), name)
        }
        _ => seen_link(lookup, here, name),
    }
}

// ---- names

// Whether one of the entries at the last of the paths, of those that control may have met, means a method.
fn is_method(
    lookup: &Lookup<'_, '_>,
    here: Here<'_, '_, '_>,
    paths: &[Path],
) -> Result<bool, AllocError>
    ensures { IfOk result (λ b. b ≡ is_method_at lookup.now.callables.now
        (view_from (setting_by lookup.now) (here_view here.entry)) (last_path paths.now)) }
{
    let Some(path) = paths.last() else {
        return Ok(false);
    };
    let numbers = numbers_along(lookup.survey, here.turns, path)?;
    Ok(lookup.callables.any_is_callable(&numbers))
}

// Puts a name in a node behind others.
fn put_name<'a>(
    found: &mut Vec<ModuleName<'a>>,
    lookup: &Lookup<'_, '_>,
    here: Here<'_, '_, '_>,
    used: NameUse<'a>,
) -> Result<(), AllocError>
    ensures { IsInOrder lookup.now.survey.now → OnOk result (name_views found.new.items
        ≡ name_views found.old.items ++ name_at (setting_by lookup.now) (here_view here.entry)
        (use_view used.entry) ∷ []) }
{
    let link = link_of(lookup, here, used.name)?;
    found.push(ModuleName {
        is_method: is_method(lookup, here, &link.paths)?,
        link,
        role: used.role,
        place: place_in(lookup.table, here.place),
    })?;
    Ok(())
}

// Whether nothing is refused at a place of the code.
fn is_accepted(lookup: &Lookup<'_, '_>, place: usize) -> bool
    ensures { result ≡ is_none (index_refusals lookup.now.index.now
        (place_in lookup.now.table place)) }
{
    lookup.index.refusal_at(lookup.table, place).is_none()
}

/// Puts the names in a node, without those in the nodes in it, behind others.
pub(crate) fn put_names<'a>(
    found: &mut Vec<ModuleName<'a>>,
    lookup: &Lookup<'_, '_>,
    here: Here<'_, '_, 'a>,
) -> Result<(), AllocError>
    ensures { IsInOrder lookup.now.survey.now → OnOk result (name_views found.new.items
        ≡ name_views found.old.items ++ names_at (setting_by lookup.now) (here_view here.entry)) }
{
    if !is_accepted(lookup, here.place) {
        return Ok(());
    }
    let uses = uses_of_node(lookup.survey.memory(), here.node)?;
    'each: for used in &uses {
        put_name(found, lookup, here, *used)?;
    }
    Ok(())
}
