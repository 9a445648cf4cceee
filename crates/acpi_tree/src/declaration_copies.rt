//! Equal declarations of method bodies with memory of their own, form by form.

ghost use Rattle.std.specs.Prelude.{◌≡◌, ◌∷◌, [], IfOk, box_value};
ghost use Rattle.acpi_tree.specs.View.{fields_view};
ghost use Rattle.acpi_tree.specs.TermView.{term_view, decl_view};
ghost use Rattle.acpi_tree.specs.Terms.{declare, declare_units, more, no_terms, raw};
ghost use Rattle.acpi_tree.specs.declared.place.NamedForm.TheVariants as named;
ghost use Rattle.acpi_tree.specs.declared.place.UnitsForm.TheVariants as units;

use crate::copies::copy_fields;
use crate::term::{Decl, Term};
use crate::term_copies::copy_boxed;
use crate::tree::{FieldElem, Width};
use acpi_name::Name;
use std::alloc::{AllocError, Global};

impl Decl {
    /// An equal declaration with memory of its own.
    #[cycle(copy_term)]
    #[inline(never)]
    pub fn copy(&self, alloc: Global) -> Result<Decl, AllocError>
        ensures { IfOk result (λ d. decl_view d ≡ decl_view self.now) }
    {
        match self {
            Decl::Name(name, data) => name_of(name, copy_boxed(alloc, data)?),
            Decl::Create {
                width,
                source,
                index,
                name,
            } => {
                let source = copy_boxed(alloc, source)?;
                let index = copy_boxed(alloc, index)?;
                create_of(*width, source, index, name)
            }
            Decl::CreateField {
                source,
                index,
                bits,
                name,
            } => {
                let source = copy_boxed(alloc, source)?;
                let index = copy_boxed(alloc, index)?;
                let bits = copy_boxed(alloc, bits)?;
                create_field_of(source, index, bits, name)
            }
            Decl::Mutex(name, flags) => copy_mutex(name, *flags),
            Decl::Event(name) => copy_event(name),
            Decl::Region {
                name,
                space,
                offset,
                length,
            } => {
                let offset = copy_boxed(alloc, offset)?;
                let length = copy_boxed(alloc, length)?;
                region_of(name, *space, offset, length)
            }
            Decl::Field {
                region,
                flags,
                elems,
            } => copy_field(alloc, region, *flags, elems),
            Decl::IndexField {
                index,
                datum,
                flags,
                elems,
            } => copy_index_field(alloc, index, datum, *flags, elems),
            Decl::BankField {
                region,
                bank,
                value,
                flags,
                elems,
            } => {
                let value = copy_boxed(alloc, value)?;
                bank_field_of(alloc, region, bank, value, *flags, elems)
            }
        }
    }
}

// What is copied already is given as a box.

fn name_of(name: &Name, value: Box<Term>) -> Result<Decl, AllocError>
    ensures { IfOk result (λ d. decl_view d ≡ declare named.Name no_terms name.now
        (more (term_view (box_value value)) no_terms)) }
{
    Ok(Decl::Name(name.copy()?, value))
}

fn create_of(
    width: Width,
    source: Box<Term>,
    index: Box<Term>,
    name: &Name,
) -> Result<Decl, AllocError>
    ensures { IfOk result (λ d. decl_view d ≡ declare (named.Create width)
        (more (term_view (box_value source)) (more (term_view (box_value index)) no_terms))
        name.now no_terms) }
{
    let name = name.copy()?;
    Ok(Decl::Create {
        width,
        source,
        index,
        name,
    })
}

fn create_field_of(
    source: Box<Term>,
    index: Box<Term>,
    bits: Box<Term>,
    name: &Name,
) -> Result<Decl, AllocError>
    ensures { IfOk result (λ d. decl_view d ≡ declare named.CreateField
        (more (term_view (box_value source)) (more (term_view (box_value index))
        (more (term_view (box_value bits)) no_terms))) name.now no_terms) }
{
    let name = name.copy()?;
    Ok(Decl::CreateField {
        source,
        index,
        bits,
        name,
    })
}

fn copy_mutex(name: &Name, flags: u8) -> Result<Decl, AllocError>
    ensures { IfOk result (λ d. decl_view d ≡ declare named.Mutex no_terms name.now
        (more (raw 1 flags) no_terms)) }
{
    Ok(Decl::Mutex(name.copy()?, flags))
}

fn copy_event(name: &Name) -> Result<Decl, AllocError>
    ensures { IfOk result (λ d. decl_view d ≡ declare named.Event no_terms name.now no_terms) }
{
    Ok(Decl::Event(name.copy()?))
}

fn region_of(
    name: &Name,
    space: u8,
    offset: Box<Term>,
    length: Box<Term>,
) -> Result<Decl, AllocError>
    ensures { IfOk result (λ d. decl_view d ≡ declare named.Region no_terms name.now
        (more (raw 1 space) (more (term_view (box_value offset))
        (more (term_view (box_value length)) no_terms)))) }
{
    let name = name.copy()?;
    Ok(Decl::Region {
        name,
        space,
        offset,
        length,
    })
}

fn copy_field(
    alloc: Global,
    region: &Name,
    flags: u8,
    elems: &[FieldElem],
) -> Result<Decl, AllocError>
    ensures { IfOk result (λ d. decl_view d ≡ declare_units units.Field (region.now ∷ [])
        (more (raw 1 flags) no_terms) (fields_view elems.now)) }
{
    Ok(Decl::Field {
        region: region.copy()?,
        flags,
        elems: copy_fields(alloc, elems)?,
    })
}

fn copy_index_field(
    alloc: Global,
    index: &Name,
    datum: &Name,
    flags: u8,
    elems: &[FieldElem],
) -> Result<Decl, AllocError>
    ensures { IfOk result (λ d. decl_view d ≡ declare_units units.IndexField
        (index.now ∷ datum.now ∷ []) (more (raw 1 flags) no_terms) (fields_view elems.now)) }
{
    Ok(Decl::IndexField {
        index: index.copy()?,
        datum: datum.copy()?,
        flags,
        elems: copy_fields(alloc, elems)?,
    })
}

fn bank_field_of(
    alloc: Global,
    region: &Name,
    bank: &Name,
    value: Box<Term>,
    flags: u8,
    elems: &[FieldElem],
) -> Result<Decl, AllocError>
    ensures { IfOk result (λ d. decl_view d ≡ declare_units units.BankField
        (region.now ∷ bank.now ∷ []) (more (term_view (box_value value))
        (more (raw 1 flags) no_terms)) (fields_view elems.now)) }
{
    let region = region.copy()?;
    let bank = bank.copy()?;
    Ok(Decl::BankField {
        region,
        bank,
        value,
        flags,
        elems: copy_fields(alloc, elems)?,
    })
}
