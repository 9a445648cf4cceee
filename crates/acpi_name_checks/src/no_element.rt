//! Elements of packages that are declared nowhere.

ghost use Rattle.std.specs.Prelude.{◌≡◌, IfOk, OnOk, map};
ghost use Rattle.std.specs.Option.{option_and_then, option_map};
ghost use Rattle.acpi_name.specs.Names.{NameParts};
ghost use Rattle.acpi_tree.specs.TermView.{decl_view, term_view};
ghost use Rattle.acpi_ranges.specs.Lookup.{found_of};
ghost use Rattle.acpi_survey.specs.SurveyOrder.{IsInOrder};
ghost use Rattle.acpi_uses.specs.Uses as uses;
ghost use Rattle.acpi_uses.specs.UseViews.{use_view, uses_view};
ghost use Rattle.acpi_name_checks.specs.NoElements.{elements_nowhere as elements_of, if_name, is_element, is_lost_element, is_name, lost_elements, name_term};
ghost use Rattle.acpi_name_checks.specs.steps.Adding.{with_element_if};
ghost use Rattle.acpi_name_checks.specs.steps.NameSets.{HasNamesOf};

use crate::name_set::NameSet;
use acpi_conditions::Seen;
use acpi_name::Name;
use acpi_outline::{Node, Plain};
use acpi_ranges::{Span, SpanContent, entry_numbered, part_of};
use acpi_survey::Survey;
use acpi_tree::{Decl, Term};
use acpi_uses::{NameUse, Role, uses_of};
use std::alloc::{AllocError, Global};

fn is_name(decl: &Decl) -> bool
    ensures { result ≡ is_name (decl_view decl.now) }
{
    match decl {
        Decl::Name(_, _) => true,
        Decl::Create { .. } => false,
        Decl::CreateField { .. } => false,
        Decl::Mutex(_, _) => false,
        Decl::Event(_) => false,
        Decl::Region { .. } => false,
        Decl::Field { .. } => false,
        Decl::IndexField { .. } => false,
        Decl::BankField { .. } => false,
    }
}

fn if_name(term: &Term) -> Option<&Term>
    ensures { option_map (λ t. term_view t.now) result ≡ if_name (term_view term.now) }
{
    match term {
        Term::Declare(decl) => { if is_name(decl) { Some(term) } else { None } }
        _ => None,
    }
}

// The term of a Name, if a part of a table's code is one.
fn name_term<'a>(part: &Span<'a>) -> Option<&'a Term>
    ensures { option_map (λ t. term_view t.now) result
        ≡ option_and_then name_term (found_of part.now) }
{
    match part.what {
        SpanContent::Node(Node::Plain(Plain::Term(term))) => if_name(term),
        _ => None,
    }
}

fn is_element(role: Role) -> bool
    ensures { result ≡ is_element role }
{
    matches!(role, Role::Element)
}

// Puts the name of an element behind others, if it is declared nowhere and not among them. The set has the others.
fn put_lost<'a>(
    names: &mut Vec<&'a Name>,
    listed: &mut NameSet<'a>,
    alloc: Global,
    seen: &Seen<'_>,
    used: NameUse<'a>,
) -> Result<(), AllocError>
    requires { HasNamesOf (λ (n : NameParts). n) listed.old (map (λ n. n.now) names.old.items) }
    ensures names { OnOk result (map (λ n. n.now) names.new.items
        ≡ with_element_if (is_lost_element seen.now (use_view used.entry))
        (map (λ n. n.now) names.old.items) used.entry.name.now) }
    ensures listed { OnOk result (HasNamesOf (λ (n : NameParts). n) listed.new
        (map (λ n. n.now) names.new.items)) }
{
    if !is_element(used.role) || listed.has(used.name) {
        return Ok(());
    }
    let found = seen.find(alloc, used.name.view())?;
    if !found.paths.is_empty() {
        return Ok(());
    }
    listed.insert(used.name)?;
    names.push(used.name)?;
    Ok(())
}

fn lost_of_term<'a>(
    alloc: Global,
    seen: &Seen<'_>,
    term: &'a Term,
) -> Result<Vec<&'a Name>, AllocError>
    ensures { IfOk result (λ v. map (λ n. n.now) v.items
        ≡ lost_elements seen.now (uses.uses_of (term_view term.now))) }
{
    let mut names = Vec::new(alloc);
    let mut listed = NameSet::new(alloc);
    let uses = uses_of(alloc, term)?;
    'each: for used in &uses {
        put_lost(&mut names, &mut listed, alloc, seen, *used)?;
    }
    Ok(names)
}

/// The names of elements of the package, and of packages in it, of the Name entry of that number that are declared nowhere
/// (ACPI 6.5, 19.6.102 and 5.3), each once.
pub fn elements_nowhere(survey: &Survey, number: usize) -> Result<Vec<&Name>, AllocError>
    ensures { IsInOrder survey.now
        → IfOk result (λ v. map (λ n. n.now) v.items ≡ elements_of survey.now number) }
{
    let alloc = survey.memory();
    let entries = survey.entries();
    let Some(entry) = entry_numbered(entries, number) else {
        return Ok(Vec::new(alloc));
    };
    let Some(part) = part_of(survey, number) else {
        return Ok(Vec::new(alloc));
    };
    let Some(term) = name_term(&part) else {
        return Ok(Vec::new(alloc));
    };
    let seen = Seen::new(entries.paths, entries.ways, entry)?;
    lost_of_term(alloc, &seen, term)
}
