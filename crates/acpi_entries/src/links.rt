//! Where the names of an entry's term may be found.

ghost use Rattle.std.specs.Prelude.{◌≡◌, ◌++◌, ◌∷◌, [], Option, map, slice_get, Some, IfOk, OnOk};
ghost use Rattle.std.specs.Option.{option_map, option_to_list, option_and_then};
ghost use Rattle.acpi_tree.specs.TermView.{term_view, decl_view};
ghost use Rattle.acpi_tree.specs.Terms.{more, no_terms};
ghost use Rattle.acpi_outline.specs.View.{node_view, fixed_view, plain_view};
ghost use Rattle.acpi_conditions.specs.EntryForms.{entry_view};
ghost use Rattle.acpi_ranges.specs.EntryParts.{part_declaring};
ghost use Rattle.acpi_entries.specs.EntryLinks.{alias_links, alias_name, create_names, field_names, links_of_part, node_names, plain_names, searched, seen_link, seen_links, source_names};
ghost use Rattle.acpi_entries.specs.ConditionViews.{link_views};
ghost use Rattle.acpi_ranges.specs.Lookup.{Found, found_of};
ghost use Rattle.acpi_survey.specs.SurveyOrder.{IsInOrder};

use crate::placed::source_at;
use acpi_conditions::{Candidates, Entries, Entry, Seen, copy_paths};
use acpi_name::{Name, Path};
use acpi_outline::{Fixed, Node, Plain};
use acpi_ranges::{Span, SpanContent, entry_numbered, part_of};
use acpi_survey::Survey;
use acpi_tree::{Decl, Term};
use std::alloc::{AllocError, Global};

/// Where a name of an entry's term may be found (ACPI 6.5, 5.3).
#[derive(Debug, Drop)]
pub struct Link<'a> {
    /// The name, not resolved.
    pub name: &'a Name,
    /// The paths, the innermost first.
    pub paths: Vec<Path>,
    /// Whether it is found for certain, at the last of them if not before.
    pub is_certain: bool,
}

fn put_link<'a>(
    links: &mut Vec<Link<'a>>,
    name: &'a Name,
    found: Candidates,
) -> Result<(), AllocError>
    ensures { OnOk result (link_views links.new.items ≡ link_views links.old.items ++ record {
      name = name.now;
      paths = found.paths.items;
      is_certain = found.is_certain;
    } ∷ []) }
{
    links.push(Link {
        name,
        paths: found.paths,
        is_certain: found.is_certain,
    })?;
    Ok(())
}

// ---- the names that are searched behind all tables

// The name that is the source of a Create field.
fn source_name(source: &Term) -> Option<&Name>
    ensures { option_to_list (option_map (λ n. n.now) result)
        ≡ source_names (more (term_view source.now) no_terms) }
{
    match source {
        Term::Ref(name) => Some(name),
        _ => None,
    }
}

fn create_source(decl: &Decl) -> Option<&Name>
    ensures { option_to_list (option_map (λ n. n.now) result) ≡ create_names (decl_view decl.now) }
{
    match decl {
        Decl::Create { source, .. } => source_name(source),
        Decl::CreateField { source, .. } => source_name(source),
        Decl::Name(_, _) => None,
        Decl::Mutex(_, _) => None,
        Decl::Event(_) => None,
        Decl::Region { .. } => None,
        Decl::Field { .. } => None,
        Decl::IndexField { .. } => None,
        Decl::BankField { .. } => None,
    }
}

fn plain_source(leaf: &Plain) -> Option<&Name>
    ensures { option_to_list (option_map (λ n. n.now) result) ≡ plain_names (plain_view leaf.now) }
{
    match leaf {
        Plain::Term(Term::Declare(decl)) => create_source(decl),
        _ => None,
    }
}

fn put_of_fields<'a>(names: &mut Vec<&'a Name>, fixed: &'a Fixed) -> Result<(), AllocError>
    ensures { OnOk result (map (λ n. n.now) names.new.items
        ≡ map (λ n. n.now) names.old.items ++ field_names (fixed_view fixed.now)) }
{
    match fixed {
        Fixed::Field(region, _) => {
            names.push(region)?;
        }
        Fixed::IndexField(index, datum, _) => {
            names.push(index)?;
            names.push(datum)?;
        }
        Fixed::BankField(region, bank, _, _) => {
            names.push(region)?;
            names.push(bank)?;
        }
        _ => {}
    }
    Ok(())
}

fn put_of_node<'a>(names: &mut Vec<&'a Name>, node: &'a Node) -> Result<(), AllocError>
    ensures { OnOk result (map (λ n. n.now) names.new.items
        ≡ map (λ n. n.now) names.old.items ++ node_names (node_view node.now)) }
{
    if let Node::Plain(leaf) = node {
        if let Some(name) = plain_source(leaf) {
            names.push(name)?;
        }
    }
    Ok(())
}

fn searched_names<'a>(alloc: Global, part: &Span<'a>) -> Result<Vec<&'a Name>, AllocError>
    ensures { IfOk result (λ v. option_map searched (found_of part.now)
        ≡ option_map (λ _. map (λ n. n.now) v.items) (found_of part.now)) }
{
    let mut names = Vec::new(alloc);
    match part.what {
        SpanContent::Node(node) => put_of_node(&mut names, node)?,
        SpanContent::Element(fixed, _, _) => put_of_fields(&mut names, fixed)?,
        SpanContent::Lost(_) => {}
    }
    Ok(names)
}

fn seen_by_names<'a>(
    alloc: Global,
    seen: &Seen<'_>,
    names: &[&'a Name],
) -> Result<Vec<Link<'a>>, AllocError>
    ensures { IfOk result (λ v. link_views v.items
        ≡ map (seen_link seen.now) (map (λ n. n.now) names.now)) }
{
    let mut links = Vec::new(alloc);
    'each: for name in names {
        let found = seen.find(alloc, name.view())?;
        put_link(&mut links, *name, found)?;
    }
    Ok(links)
}

fn seen_links<'a>(
    alloc: Global,
    entries: Entries<'_>,
    entry: &Entry,
    names: &[&'a Name],
) -> Result<Vec<Link<'a>>, AllocError>
    ensures { IfOk result (λ v. link_views v.items ≡ seen_links
        (map (entry_view entries.entry.ways.now) entries.entry.paths.now.entries)
        (entry_view entries.entry.ways.now entry.now) (map (λ n. n.now) names.now)) }
{
    let seen = Seen::new(entries.paths, entries.ways, entry)?;
    seen_by_names(alloc, &seen, names)
}

// ---- an Alias

// The name of which an Alias is another.
fn alias_source<'a>(part: &Span<'a>) -> Option<&'a Name>
    ensures { option_map (λ n. n.now) result
        ≡ option_and_then alias_name (found_of part.now) }
{
    match part.what {
        SpanContent::Node(Node::Plain(Plain::Alias(source, _))) => Some(source),
        _ => None,
    }
}

// The link of an Alias at a place, as it was when the Alias was read.
fn alias_links<'a>(
    survey: &Survey,
    place: u128,
    source: &'a Name,
) -> Result<Vec<Link<'a>>, AllocError>
    ensures { IsInOrder survey.now → IfOk result (λ v. link_views v.items
        ≡ alias_links survey.now.reading.sources place source.now) }
{
    let alloc = survey.memory();
    let mut links = Vec::new(alloc);
    if let Some(kept) = source_at(survey.sources(), place) {
        let found = Candidates {
            paths: copy_paths(alloc, &kept.found.paths)?,
            is_certain: kept.found.is_certain,
        };
        put_link(&mut links, source, found)?;
    }
    Ok(links)
}

/// Where the names of the term of the entry of that number may be found, which is this part of a table's code: of a
/// field element those of its region, index and data, or region and bank, and of a Create field that of its source,
/// behind all tables; of an Alias its source, where the Alias is read.
pub fn links_in<'a>(
    survey: &'a Survey,
    number: usize,
    part: Option<Span<'a>>,
) -> Result<Vec<Link<'a>>, AllocError>
    ensures { IsInOrder survey.now → (found : Option Found)
        → option_map found_of part.entry ≡ option_map Some found
        → IfOk result (λ v. link_views v.items
        ≡ links_of_part survey.now.reading.walk.entries survey.now.reading.sources
        (slice_get survey.now.reading.walk.entries number) found) }
{
    let alloc = survey.memory();
    let entries = survey.entries();
    let Some(entry) = entry_numbered(entries, number) else {
        return Ok(Vec::new(alloc));
    };
    let Some(part) = part else {
        return Ok(Vec::new(alloc));
    };
    match alias_source(&part) {
        Some(source) => alias_links(survey, entry.term.place, source),
        None => seen_links(alloc, entries, entry, &searched_names(alloc, &part)?),
    }
}

/// Where the names of the term of the entry of that number may be found.
pub fn links_of(survey: &Survey, number: usize) -> Result<Vec<Link<'_>>, AllocError>
    ensures { IsInOrder survey.now → IfOk result (λ v. link_views v.items
        ≡ links_of_part survey.now.reading.walk.entries survey.now.reading.sources
        (slice_get survey.now.reading.walk.entries number)
        (part_declaring survey.now.tables.items survey.now.reading.walk.entries number)) }
{
    links_in(survey, number, part_of(survey, number))
}
