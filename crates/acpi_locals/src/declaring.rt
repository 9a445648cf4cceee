//! What a term in a method body declares.

ghost use Rattle.std.specs.Prelude.{◌≡◌, ◌++◌, ℕ, IfOk, OnOk, map};
ghost use Rattle.std.specs.Option.{option_map, option_to_list};
ghost use Rattle.acpi_kinds.specs.Views.{kind_view, lent_view, unit_view};
ghost use Rattle.acpi_outline.specs.Outline.{bits_behind};
ghost use Rattle.acpi_tree.specs.TermView.{decl_view, term_view, terms_tree};
ghost use Rattle.acpi_tree.specs.View.{field_view, fields_view};
ghost use Rattle.acpi_locals.specs.Declaring.{computed as computed_source, linked_names, name_alone, unit_local, unless_followed};
ghost use Rattle.acpi_locals.specs.steps.Declarations.{declared_name, field_list, named_object};

use acpi_name::Name;
use acpi_objects::{ObjectKind, UnitForm, kind_of_decl};
use acpi_tree::{Decl, FieldElem, Term};
use std::alloc::{AllocError, Global};

// ---- the source of a Create field

// The name, unless values follow it.
#[tactic(auto, using(crate::proofs::Declarations::followed_by_none, crate::proofs::Declarations::followed_by_some))]
fn unless_followed<'a>(name: &'a Name, values: &[Term]) -> Option<&'a Name>
    ensures { option_map (λ n. n.now) result
        ≡ unless_followed (terms_tree values.now) name.entry.now }
{
    if values.is_empty() {
        return Some(name);
    }
    None
}

// A name that no values follow.
fn name_alone(term: &Term) -> Option<&Name>
    ensures { option_map (λ n. n.now) result ≡ name_alone (term_view term.now) }
{
    match term {
        Term::Ref(name) => Some(name),
        Term::Call(name, values) => unless_followed(name, values),
        _ => None,
    }
}

// A source that isn't such a name.
fn computed(source: &Term) -> Option<&Term>
    ensures { option_map lent_view result ≡ computed_source (term_view source.now) }
{
    match name_alone(source) {
        None => Some(source),
        Some(_) => None,
    }
}

// ---- objects

/// The name that a declaration of one name declares.
pub(crate) fn declared_name(decl: &Decl) -> Option<&Name>
    ensures { option_map (λ n. n.now) result ≡ declared_name (decl_view decl.now) }
{
    match decl {
        Decl::Name(name, _) => Some(name),
        Decl::Create { name, .. } => Some(name),
        Decl::CreateField { name, .. } => Some(name),
        Decl::Mutex(name, _) => Some(name),
        Decl::Event(name) => Some(name),
        Decl::Region { name, .. } => Some(name),
        Decl::Field { .. } => None,
        Decl::IndexField { .. } => None,
        Decl::BankField { .. } => None,
    }
}

/// The kind of the object of that name. The source of a Create field is a name where no values follow it.
pub(crate) fn named_kind<'a>(decl: &'a Decl) -> Option<ObjectKind<'a>>
    ensures { option_map kind_view result ≡ named_object (decl_view decl.now) }
{
    match decl {
        Decl::Create {
            width,
            source,
            index,
            ..
        } => Some(ObjectKind::Create {
            width: *width,
            source: computed(source),
            index,
        }),
        Decl::CreateField {
            source,
            index,
            bits,
            ..
        } => Some(ObjectKind::CreateField {
            source: computed(source),
            index,
            bits,
        }),
        Decl::Name(_, _) => kind_of_decl(decl),
        Decl::Mutex(_, _) => kind_of_decl(decl),
        Decl::Event(_) => kind_of_decl(decl),
        Decl::Region { .. } => kind_of_decl(decl),
        Decl::Field { .. } => None,
        Decl::IndexField { .. } => None,
        Decl::BankField { .. } => None,
    }
}

// ---- field lists

/// The elements of the field list of a declaration.
pub(crate) fn field_list(decl: &Decl) -> &[FieldElem]
    ensures { fields_view result.now ≡ field_list (decl_view decl.now) }
{
    match decl {
        Decl::Field { elems, .. } => elems,
        Decl::IndexField { elems, .. } => elems,
        Decl::BankField { elems, .. } => elems,
        Decl::Name(_, _) => &[],
        Decl::Create { .. } => &[],
        Decl::CreateField { .. } => &[],
        Decl::Mutex(_, _) => &[],
        Decl::Event(_) => &[],
        Decl::Region { .. } => &[],
    }
}

// The form and the flags of its elements.
fn unit_form<'a>(decl: &'a Decl) -> Option<(UnitForm<'a>, u8)>
    ensures { (offset bits : ℕ) → option_map (λ u. unit_view u.0 u.1 offset bits) result
        ≡ unit_local (decl_view decl.now) offset bits }
{
    match decl {
        Decl::Field { flags, .. } => Some((UnitForm::Field, *flags)),
        Decl::IndexField { flags, .. } => Some((UnitForm::Index, *flags)),
        Decl::BankField { value, flags, .. } => Some((UnitForm::Bank(value), *flags)),
        Decl::Name(_, _) => None,
        Decl::Create { .. } => None,
        Decl::CreateField { .. } => None,
        Decl::Mutex(_, _) => None,
        Decl::Event(_) => None,
        Decl::Region { .. } => None,
    }
}

/// The kind of the object of an element of so many bits at an offset.
pub(crate) fn unit_kind<'a>(decl: &'a Decl, offset: u64, bits: u32) -> Option<ObjectKind<'a>>
    ensures { option_map kind_view result ≡ unit_local (decl_view decl.now) offset bits }
{
    let (form, flags) = unit_form(decl)?;
    Some(ObjectKind::Field {
        form,
        flags,
        offset,
        bits,
    })
}

/// The offset, in bits, of what stands behind an element.
pub(crate) fn bits_behind(offset: u64, element: &FieldElem) -> u64
    ensures { result ≡ bits_behind offset (field_view element.now) }
{
    match element {
        FieldElem::Unit(_, bits) => offset.saturating_add(u64::from(*bits)),
        FieldElem::Reserved(bits) => offset.saturating_add(u64::from(*bits)),
        _ => offset,
    }
}

// ---- names that have links

// Puts a source that is a name behind others.
fn put_source<'a>(names: &mut Vec<&'a Name>, source: &'a Term) -> Result<(), AllocError>
    ensures { OnOk result (map (λ n. n.now) names.new.items ≡ map (λ n. n.now) names.old.items
        ++ option_to_list (name_alone (term_view source.now))) }
{
    if let Some(name) = name_alone(source) {
        names.push(name)?;
    }
    Ok(())
}

// Puts the names of the regions or units through which a field list is reached, or of a source, behind others.
fn put_linked<'a>(names: &mut Vec<&'a Name>, decl: &'a Decl) -> Result<(), AllocError>
    ensures { OnOk result (map (λ n. n.now) names.new.items
        ≡ map (λ n. n.now) names.old.items ++ linked_names (decl_view decl.now)) }
{
    match decl {
        Decl::Create { source, .. } => put_source(names, source)?,
        Decl::CreateField { source, .. } => put_source(names, source)?,
        Decl::Field { region, .. } => {
            names.push(region)?;
        }
        Decl::IndexField { index, datum, .. } => {
            names.push(index)?;
            names.push(datum)?;
        }
        Decl::BankField { region, bank, .. } => {
            names.push(region)?;
            names.push(bank)?;
        }
        Decl::Name(_, _) => {}
        Decl::Mutex(_, _) => {}
        Decl::Event(_) => {}
        Decl::Region { .. } => {}
    }
    Ok(())
}

/// The names of a declaration that have links: of a Create field the source, where it is a name; of a field list the
/// region, index and data, or region and bank.
pub(crate) fn linked_names<'a>(alloc: Global, decl: &'a Decl) -> Result<Vec<&'a Name>, AllocError>
    ensures { IfOk result (λ v. map (λ n. n.now) v.items ≡ linked_names (decl_view decl.now)) }
{
    let mut names = Vec::new(alloc);
    put_linked(&mut names, decl)?;
    Ok(names)
}
