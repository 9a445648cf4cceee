//! Which object a part of a table's code declares.

ghost use Rattle.std.specs.Prelude.{◌≡◌, ℕ, Option, Some};
ghost use Rattle.std.specs.Option.{option_map, option_and_then};
ghost use Rattle.acpi_tree.specs.TermView.{term_view, decl_view};
ghost use Rattle.acpi_tree.specs.View.{field_view};
ghost use Rattle.acpi_outline.specs.View.{plain_view, fixed_view, node_view};
ghost use Rattle.acpi_ranges.specs.Lookup.{Found, found_of};
ghost use Rattle.acpi_objects.specs.Declaring.{computed as computed_term, term_object, plain_object, fixed_object, node_object, element_object, units_object, object_in, object_of, predefined as predefined_object};
ghost use Rattle.acpi_kinds.specs.Views.{kind_view, lent_view, unit_view};

use acpi_kinds::{ObjectKind, UnitForm};
use acpi_outline::{Fixed, Node, Plain};
use acpi_ranges::{Span, SpanContent};
use acpi_tree::{Decl, FieldElem, Term};

// What the fixed arguments of a package declare, if they declare something.
fn kind_of_fixed<'a>(fixed: &'a Fixed) -> Option<ObjectKind<'a>>
    ensures { option_map kind_view result ≡ fixed_object (fixed_view fixed.now) }
{
    match fixed {
        Fixed::Device(_) => Some(ObjectKind::Device),
        Fixed::Processor(_, id, block, length) => Some(ObjectKind::Processor {
            id: *id,
            block: *block,
            length: *length,
        }),
        Fixed::Power(_, level, order) => Some(ObjectKind::Power {
            level: *level,
            order: *order,
        }),
        Fixed::Thermal(_) => Some(ObjectKind::Thermal),
        Fixed::Method(_, flags) => Some(ObjectKind::Method(*flags)),
        _ => None,
    }
}

// A term that is no name.
fn computed(term: &Term) -> Option<&Term>
    ensures { option_map lent_view result ≡ computed_term (term_view term.now) }
{
    match term {
        Term::Ref(_) => None,
        _ => Some(term),
    }
}

/// The kind of the object that a declaration of one name declares; field lists declare their elements (ACPI 6.5,
/// 20.2.5.2).
pub fn kind_of_decl<'a>(decl: &'a Decl) -> Option<ObjectKind<'a>>
    ensures { option_map kind_view result ≡ term_object (decl_view decl.now) }
{
    match decl {
        Decl::Name(_, value) => Some(ObjectKind::Name(Some(value))),
        Decl::Create {
            width,
            source,
            index,
            ..
        } => Some(ObjectKind::Create {
            width: *width,
            source: computed(source),
            index,
        }),
        Decl::CreateField {
            source,
            index,
            bits,
            ..
        } => Some(ObjectKind::CreateField {
            source: computed(source),
            index,
            bits,
        }),
        Decl::Mutex(_, flags) => Some(ObjectKind::Mutex(*flags)),
        Decl::Event(_) => Some(ObjectKind::Event),
        Decl::Region {
            space,
            offset,
            length,
            ..
        } => Some(ObjectKind::Region {
            space: *space,
            offset,
            length,
        }),
        Decl::Field { .. } => None,
        Decl::IndexField { .. } => None,
        Decl::BankField { .. } => None,
    }
}

fn kind_of_plain<'a>(plain: &'a Plain) -> Option<ObjectKind<'a>>
    ensures { option_map kind_view result ≡ plain_object (plain_view plain.now) }
{
    match plain {
        Plain::Term(Term::Declare(decl)) => kind_of_decl(decl),
        Plain::Alias(_, _) => Some(ObjectKind::Alias),
        Plain::TableRegion(_, signature, oem_id, oem_table_id) => Some(ObjectKind::TableRegion {
            signature,
            oem_id,
            oem_table_id,
        }),
        _ => None,
    }
}

fn kind_of_node<'a>(node: &'a Node) -> Option<ObjectKind<'a>>
    ensures { option_map kind_view result ≡ node_object (node_view node.now) }
{
    match node {
        Node::Plain(plain) => kind_of_plain(plain),
        Node::Holds(fixed, _) => kind_of_fixed(fixed),
        Node::Closed(fixed, _) => kind_of_fixed(fixed),
        Node::NameLost(_, _, _) => Some(ObjectKind::Name(None)),
        _ => None,
    }
}

// The form and the flags of the field elements behind these fixed arguments.
fn units_of<'a>(fixed: &'a Fixed) -> Option<(UnitForm<'a>, u8)>
    ensures { (offset bits : ℕ) → option_map (λ u. unit_view u.0 u.1 offset bits) result
        ≡ units_object (fixed_view fixed.now) offset bits }
{
    match fixed {
        Fixed::Field(_, flags) => Some((UnitForm::Field, *flags)),
        Fixed::IndexField(_, _, flags) => Some((UnitForm::Index, *flags)),
        Fixed::BankField(_, _, value, flags) => Some((UnitForm::Bank(value), *flags)),
        _ => None,
    }
}

fn kind_of_element<'a>(fixed: &'a Fixed, element: &FieldElem, offset: u64) -> Option<ObjectKind<'a>>
    ensures { option_map kind_view result
        ≡ element_object (fixed_view fixed.now) offset (field_view element.now) }
{
    let FieldElem::Unit(_, bits) = element else {
        return None;
    };
    let (form, flags) = units_of(fixed)?;
    Some(ObjectKind::Field {
        form,
        flags,
        offset,
        bits: *bits,
    })
}

// The kind of the object that a part declares, if it declares one.
fn kind_of_part<'a>(part: &Span<'a>) -> Option<ObjectKind<'a>>
    ensures { option_map kind_view result ≡ option_and_then object_in (found_of part.now) }
{
    match part.what {
        SpanContent::Node(node) => kind_of_node(node),
        SpanContent::Element(fixed, element, offset) => kind_of_element(fixed, element, offset),
        SpanContent::Lost(_) => None,
    }
}

// The kind of the predefined object of that number: the root, five scopes, `\_GL_`, `\_OSI` and two more (ACPI 6.5, 5.3.1
// and 5.7).
fn predefined_kind(number: usize) -> ObjectKind<'static>
    ensures { kind_view result ≡ predefined_object number }
{
    match number {
        0 => ObjectKind::Root,
        1..=5 => ObjectKind::Scope,
        6 => ObjectKind::Mutex(0),
        7 => ObjectKind::Method(1),
        _ => ObjectKind::Predefined,
    }
}

/// The kind of the object of the entry of that number, whose term is this part of a table's code. Without a part it is the
/// predefined object of that number (ACPI 6.5, 5.3.1 and 5.7).
pub fn object_kind<'a>(part: Option<Span<'a>>, number: usize) -> ObjectKind<'a>
    ensures { (found : Option Found) → option_map found_of part.entry ≡ option_map Some found
        → kind_view result ≡ object_of found number }
{
    match part {
        Some(part) => match kind_of_part(&part) {
            Some(kind) => kind,
            None => ObjectKind::Predefined,
        },
        None => predefined_kind(number),
    }
}
