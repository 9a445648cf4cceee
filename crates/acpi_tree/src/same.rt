//! Equality, by the trees that values stand for.

ghost use Rattle.std.specs.Prelude.{◌≡◌, IsTrue, ◌↔◌};
ghost use Rattle.std.specs.Cmp.{partial_equiv_from_equiv, on_equiv};
ghost use Rattle.acpi_tree.specs.Tree.{elems_of};
ghost use Rattle.acpi_tree.specs.View.{data_view, elem_view, elems_view, field_view, fields_view};
ghost use Rattle.acpi_tree.specs.Objects.{object_view};
ghost use Rattle.acpi_tree.specs.steps.Equality.{equivalence, data_tells, elem_tells, field_tells, object_tells, int_eq, width_eq, field_form_eq, data_eq, elem_eq, elems_eq, field_eq, fields_eq, object_eq};

use crate::object::{FieldForm, Object};
use crate::tree::{Data, Elem, FieldElem, Int, Width};

pub(crate) fn same_int(a: Int, b: Int) -> bool
    ensures { result ≡ int_eq a b }
{
    match (a, b) {
        (Int::Zero, Int::Zero) => true,
        (Int::One, Int::One) => true,
        (Int::Ones, Int::Ones) => true,
        (Int::Revision, Int::Revision) => true,
        (Int::Byte(m), Int::Byte(n)) => m == n,
        (Int::Word(m), Int::Word(n)) => m == n,
        (Int::DWord(m), Int::DWord(n)) => m == n,
        (Int::QWord(m), Int::QWord(n)) => m == n,
        _ => false,
    }
}

pub(crate) fn same_width(a: Width, b: Width) -> bool
    ensures { result ≡ width_eq a b }
{
    match (a, b) {
        (Width::DWord, Width::DWord) => true,
        (Width::Word, Width::Word) => true,
        (Width::Byte, Width::Byte) => true,
        (Width::Bit, Width::Bit) => true,
        (Width::QWord, Width::QWord) => true,
        _ => false,
    }
}

#[cycle(same)]
pub(crate) fn same_data(a: &Data, b: &Data) -> bool
    ensures { result ≡ data_eq (data_view a.now) (data_view b.now) }
{
    match (a, b) {
        (Data::Int(i), Data::Int(j)) => same_int(*i, *j),
        (Data::Str(s), Data::Str(t)) => s == t,
        (Data::Buffer(i, s), Data::Buffer(j, t)) => same_int(*i, *j) && s == t,
        (Data::Package(m, es), Data::Package(n, fs)) => m == n && same_elems(es, fs),
        (Data::VarPackage(i, es), Data::VarPackage(j, fs)) => same_int(*i, *j)
            && same_elems(es, fs),
        _ => false,
    }
}

#[cycle(same)]
fn same_elem(a: &Elem, b: &Elem) -> bool
    ensures { result ≡ elem_eq (elem_view a.now) (elem_view b.now) }
{
    match (a, b) {
        (Elem::Data(d), Elem::Data(e)) => same_data(d, e),
        (Elem::Name(m), Elem::Name(n)) => m == n,
        _ => false,
    }
}

#[cycle(same)]
fn same_elems(a: &[Elem], b: &[Elem]) -> bool
    ensures { result ≡ elems_eq (elems_of (elems_view a.now)) (elems_of (elems_view b.now)) }
{
    if a.len() != b.len() {
        return false;
    }
    for i in 0..a.len() {
        if !same_elem(&a[i], &b[i]) {
            return false;
        }
    }
    true
}

fn same_field(a: &FieldElem, b: &FieldElem) -> bool
    ensures { result ≡ field_eq (field_view a.now) (field_view b.now) }
{
    match (a, b) {
        (FieldElem::Unit(s, m), FieldElem::Unit(t, n)) => s == t && m == n,
        (FieldElem::Reserved(m), FieldElem::Reserved(n)) => m == n,
        (FieldElem::Access(k, l), FieldElem::Access(m, n)) => k == m && l == n,
        (FieldElem::ConnectName(m), FieldElem::ConnectName(n)) => m == n,
        (FieldElem::ConnectBuffer(i, s), FieldElem::ConnectBuffer(j, t)) => same_int(*i, *j)
            && s == t,
        (FieldElem::Extended(j, k, l), FieldElem::Extended(m, n, o)) => j == m && k == n && l == o,
        _ => false,
    }
}

pub(crate) fn same_fields(a: &[FieldElem], b: &[FieldElem]) -> bool
    ensures { result ≡ fields_eq (fields_view a.now) (fields_view b.now) }
{
    if a.len() != b.len() {
        return false;
    }
    for i in 0..a.len() {
        if !same_field(&a[i], &b[i]) {
            return false;
        }
    }
    true
}

fn same_field_form(a: FieldForm, b: FieldForm) -> bool
    ensures { result ≡ field_form_eq a b }
{
    match (a, b) {
        (FieldForm::Field, FieldForm::Field) => true,
        (FieldForm::Index, FieldForm::Index) => true,
        (FieldForm::Bank(i), FieldForm::Bank(j)) => same_int(i, j),
        _ => false,
    }
}

fn same_object(a: &Object, b: &Object) -> bool
    ensures { result ≡ object_eq (object_view a.now) (object_view b.now) }
{
    match (a, b) {
        (Object::Root, Object::Root) => true,
        (Object::Scope, Object::Scope) => true,
        (Object::Predefined, Object::Predefined) => true,
        (Object::Device, Object::Device) => true,
        (Object::Thermal, Object::Thermal) => true,
        (Object::Event, Object::Event) => true,
        (
            Object::Processor {
                id: i,
                block: b,
                length: l,
            },
            Object::Processor {
                id: j,
                block: c,
                length: k,
            },
        ) => i == j && b == c && l == k,
        (Object::Power { level: l, order: o }, Object::Power { level: k, order: p }) => l == k
            && o == p,
        (Object::Name(d), Object::Name(e)) => same_data(d, e),
        (Object::Method(f), Object::Method(g)) => f == g,
        (
            Object::Region {
                space: s,
                offset: o,
                length: l,
            },
            Object::Region {
                space: t,
                offset: p,
                length: k,
            },
        ) => s == t && same_int(*o, *p) && same_int(*l, *k),
        (Object::Mutex(f), Object::Mutex(g)) => f == g,
        (
            Object::Field {
                form: w,
                flags: f,
                offset: o,
                bits: b,
            },
            Object::Field {
                form: v,
                flags: g,
                offset: p,
                bits: c,
            },
        ) => same_field_form(*w, *v) && f == g && o == p && b == c,
        (Object::Create { width: w, index: i }, Object::Create { width: v, index: j }) =>
            same_width(*w, *v) && same_int(*i, *j),
        (Object::CreateField { index: i, bits: b }, Object::CreateField { index: j, bits: c }) =>
            same_int(*i, *j) && same_int(*b, *c),
        _ => false,
    }
}

impl PartialEq for Data {
    ghost eq = { λ a b. data_eq (data_view a) (data_view b) };

    ghost laws = { partial_equiv_from_equiv (on_equiv data_view (equivalence data_tells)) };

    // True exactly of equal values.
    fn eq(&self, other: &Data) -> bool
        ensures test { result ≡ data_eq (data_view self.now) (data_view other.now) }
        ensures same { IsTrue result ↔ (data_view self.now ≡ data_view other.now) }
    {
        same_data(self, other)
    }
}

impl Eq for Data {
    ghost laws = { on_equiv data_view (equivalence data_tells) };
}

impl PartialEq for Elem {
    ghost eq = { λ a b. elem_eq (elem_view a) (elem_view b) };

    ghost laws = { partial_equiv_from_equiv (on_equiv elem_view (equivalence elem_tells)) };

    // True exactly of equal values.
    fn eq(&self, other: &Elem) -> bool
        ensures test { result ≡ elem_eq (elem_view self.now) (elem_view other.now) }
        ensures same { IsTrue result ↔ (elem_view self.now ≡ elem_view other.now) }
    {
        same_elem(self, other)
    }
}

impl Eq for Elem {
    ghost laws = { on_equiv elem_view (equivalence elem_tells) };
}

impl PartialEq for FieldElem {
    ghost eq = { λ a b. field_eq (field_view a) (field_view b) };

    ghost laws = { partial_equiv_from_equiv (on_equiv field_view (equivalence field_tells)) };

    // True exactly of equal values.
    fn eq(&self, other: &FieldElem) -> bool
        ensures test { result ≡ field_eq (field_view self.now) (field_view other.now) }
        ensures same { IsTrue result ↔ (field_view self.now ≡ field_view other.now) }
    {
        same_field(self, other)
    }
}

impl Eq for FieldElem {
    ghost laws = { on_equiv field_view (equivalence field_tells) };
}

impl PartialEq for Object {
    ghost eq = { λ a b. object_eq (object_view a) (object_view b) };

    ghost laws = { partial_equiv_from_equiv (on_equiv object_view (equivalence object_tells)) };

    // True exactly of equal values.
    fn eq(&self, other: &Object) -> bool
        ensures test { result ≡ object_eq (object_view self.now) (object_view other.now) }
        ensures same { IsTrue result ↔ (object_view self.now ≡ object_view other.now) }
    {
        same_object(self, other)
    }
}

impl Eq for Object {
    ghost laws = { on_equiv object_view (equivalence object_tells) };
}
