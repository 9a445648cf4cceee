//! Whether two objects are the same.

ghost use Rattle.std.specs.Prelude.{◌≡◌, ℕ};
ghost use Rattle.std.specs.Option.{option_map};
ghost use Rattle.acpi_tree.specs.steps.TermEquality.{term_eq};
ghost use Rattle.acpi_kinds.specs.Views.{kind_view, lent_view, unit_view};
ghost use Rattle.acpi_same.specs.steps.Equality.{option_eq, parts_eq};

use acpi_kinds::{ObjectKind, UnitForm};
use acpi_tree::Term;

/// Whether two terms are the same, each of which may be missing.
pub(crate) fn is_same_term(one: Option<&Term>, other: Option<&Term>) -> bool
    ensures { result ≡ option_eq term_eq (option_map lent_view one.entry)
        (option_map lent_view other.entry) }
{
    match (one, other) {
        (Some(one), Some(other)) => *one == *other,
        (None, None) => true,
        _ => false,
    }
}

// Whether two units of field lists are of one form.
fn is_same_unit(
    one: UnitForm<'_>,
    flags: u8,
    offset: u64,
    bits: u32,
    other: UnitForm<'_>,
    g: u8,
    p: u64,
    c: u32,
) -> bool
    ensures { result ≡ parts_eq (unit_view one.entry flags offset bits)
        (unit_view other.entry g p c) }
{
    let is_same = flags == g && offset == p && bits == c;
    match (one, other) {
        (UnitForm::Field, UnitForm::Field) => is_same,
        (UnitForm::Index, UnitForm::Index) => is_same,
        (UnitForm::Bank(v), UnitForm::Bank(w)) => *v == *w && is_same,
        _ => false,
    }
}

/// Whether two objects are of one kind, and their terms say the same of them.
pub(crate) fn is_same_kind(one: ObjectKind<'_>, other: ObjectKind<'_>) -> bool
    ensures { result ≡ parts_eq (kind_view one.entry) (kind_view other.entry) }
{
    match (one, other) {
        (ObjectKind::Root, ObjectKind::Root) => true,
        (ObjectKind::Scope, ObjectKind::Scope) => true,
        (ObjectKind::Predefined, ObjectKind::Predefined) => true,
        (ObjectKind::Device, ObjectKind::Device) => true,
        (
            ObjectKind::Processor { id, block, length },
            ObjectKind::Processor {
                id: j,
                block: c,
                length: m,
            },
        ) => id == j && block == c && length == m,
        (ObjectKind::Power { level, order }, ObjectKind::Power { level: m, order: p }) => {
            level == m && order == p
        }
        (ObjectKind::Thermal, ObjectKind::Thermal) => true,
        (ObjectKind::Name(value), ObjectKind::Name(w)) => is_same_term(value, w),
        (ObjectKind::Method(flags), ObjectKind::Method(g)) => flags == g,
        (
            ObjectKind::Region {
                space,
                offset,
                length,
            },
            ObjectKind::Region {
                space: t,
                offset: p,
                length: m,
            },
        ) => space == t && (*offset == *p && *length == *m),
        (
            ObjectKind::TableRegion {
                signature,
                oem_id,
                oem_table_id,
            },
            ObjectKind::TableRegion {
                signature: t,
                oem_id: p,
                oem_table_id: u,
            },
        ) => *signature == *t && (*oem_id == *p && *oem_table_id == *u),
        (ObjectKind::Mutex(flags), ObjectKind::Mutex(g)) => flags == g,
        (ObjectKind::Event, ObjectKind::Event) => true,
        (ObjectKind::Alias, ObjectKind::Alias) => true,
        (
            ObjectKind::Field {
                form,
                flags,
                offset,
                bits,
            },
            ObjectKind::Field {
                form: h,
                flags: g,
                offset: p,
                bits: c,
            },
        ) => is_same_unit(form, flags, offset, bits, h, g, p, c),
        (
            ObjectKind::Create {
                width,
                source,
                index,
            },
            ObjectKind::Create {
                width: x,
                source: t,
                index: j,
            },
        ) => width == x && (is_same_term(source, t) && *index == *j),
        (
            ObjectKind::CreateField {
                source,
                index,
                bits,
            },
            ObjectKind::CreateField {
                source: t,
                index: j,
                bits: c,
            },
        ) => is_same_term(source, t) && (*index == *j && *bits == *c),
        _ => false,
    }
}
